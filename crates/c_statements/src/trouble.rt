//! Trouble of expressions and of the memory, as a run shows it.

ghost use Rattle.std.specs.Prelude.{◌≡◌};
ghost use Rattle.c_statements.specs.Parts.{stop_of, given, reason_of, answered, room};

use c_objects::{Fault, Refusal};
use c_operators::Trouble;
use iv_words::Memory;
use run_records::Reason;
use run_world::{Halt, Stopped};

/// How a run ends in trouble; a run that is stuck is shown as one without a value.
fn stop_of(trouble: Trouble) -> Stopped
    ensures { result ≡ stop_of trouble }
{
    match trouble {
        Trouble::Undefined(reason) => Stopped::Halted(Halt::NoMeaning(reason)),
        Trouble::Stuck => Stopped::Halted(Halt::NoMeaning(Reason::NoValue)),
        Trouble::Memory => Stopped::Memory,
    }
}

/// What is found, where there is no trouble.
pub fn given<T>(found: Result<T, Trouble>) -> Result<T, Stopped>
    ensures { result ≡ given found }
{
    match found {
        Ok(value) => Ok(value),
        Err(trouble) => Err(stop_of(trouble)),
    }
}

/// The reason for which the memory refuses.
pub fn reason_of(fault: Fault) -> Reason
    ensures { result ≡ reason_of fault }
{
    match fault {
        Fault::Dead => Reason::Dead,
        Fault::BadAccess => Reason::BadAccess,
        Fault::Indeterminate => Reason::Indeterminate,
        Fault::ConstWrite => Reason::ConstWrite,
    }
}

/// What the memory answers.
pub fn answered<T>(found: Result<T, Refusal>) -> Result<T, Trouble>
    ensures { result ≡ answered found }
{
    match found {
        Ok(value) => Ok(value),
        Err(Refusal::Fault(fault)) => Err(Trouble::Undefined(reason_of(fault))),
        Err(Refusal::Memory) => Err(Trouble::Memory),
    }
}

/// What there is memory for.
pub fn room<T>(made: Result<T, Memory>) -> Result<T, Trouble>
    ensures { result ≡ room made }
{
    match made {
        Ok(value) => Ok(value),
        Err(_) => Err(Trouble::Memory),
    }
}
