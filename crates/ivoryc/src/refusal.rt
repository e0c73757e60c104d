ghost use Rattle.ivoryc.specs.Calls.{change_of, sink_seen};
ghost use Rattle.ivoryc.specs.Steps.{Reported};

use crate::input_fault::{InputFault, tell, tell_input};
use crate::status::Status;
use iv_base::{LoadFault, Sink, SinkFault};
use iv_script::ScriptError;
use iv_words::Memory;
use module_text::TextFault;

/// Why a command was not done.
#[derive(Clone, Copy, Debug, Drop, PartialEq, Eq)]
pub enum Refusal {
    /// The words are no command.
    Words,
    /// The store could not read a file.
    ReadFault,
    /// The output took no more than a part of the text.
    WriteFault,
    /// Memory is wanting.
    Memory,
    /// A file that was loaded is not what the command takes.
    Input(InputFault),
}

impl From<Memory> for Refusal {
    ghost use Rattle.std.specs.Prelude.{◌≡◌};
    ghost use Rattle.ivoryc.specs.declared.refusal.Refusal.TheVariants as refusal;

    ghost from_gives = { λ _ r. r ≡ refusal.Memory };

    fn from(_memory: Memory) -> Refusal {
        Refusal::Memory
    }
}

impl From<LoadFault> for Refusal {
    ghost use Rattle.std.specs.Prelude.{◌≡◌};
    ghost use Rattle.ivoryc.specs.Causes.{refusal_of_load};

    ghost from_gives = { λ fault r. r ≡ refusal_of_load fault };

    fn from(fault: LoadFault) -> Refusal {
        match fault {
            LoadFault::Fault => Refusal::ReadFault,
            LoadFault::Memory => Refusal::Memory,
        }
    }
}

impl From<TextFault> for Refusal {
    ghost use Rattle.std.specs.Prelude.{◌≡◌};
    ghost use Rattle.ivoryc.specs.Causes.{refusal_of_text};

    ghost from_gives = { λ fault r. r ≡ refusal_of_text fault };

    fn from(fault: TextFault) -> Refusal {
        match fault {
            TextFault::TooLarge => Refusal::Input(InputFault::TooLarge),
            TextFault::At(fault) => Refusal::Input(InputFault::Module(fault)),
            TextFault::Memory => Refusal::Memory,
        }
    }
}

impl From<ScriptError> for Refusal {
    ghost use Rattle.std.specs.Prelude.{◌≡◌};
    ghost use Rattle.ivoryc.specs.Causes.{refusal_of_script};

    ghost from_gives = { λ error r. r ≡ refusal_of_script error };

    fn from(error: ScriptError) -> Refusal {
        match error {
            ScriptError::At(fault) => Refusal::Input(InputFault::Script(fault)),
            ScriptError::Memory => Refusal::Memory,
        }
    }
}

impl From<SinkFault> for Refusal {
    ghost use Rattle.std.specs.Prelude.{◌≡◌};
    ghost use Rattle.ivoryc.specs.declared.refusal.Refusal.TheVariants as refusal;

    ghost from_gives = { λ _ r. r ≡ refusal.WriteFault };

    fn from(_fault: SinkFault) -> Refusal {
        Refusal::WriteFault
    }
}

/// Tells a refusal on the error output, and answers its status.
///
/// Where the error output fails, the status is `WriteFault`; want of memory stays what it is. A fault of the output itself
/// has no line.
pub fn report<E: Sink>(refusal: Refusal, err: &mut E) -> Status
    ensures { Reported refusal result (change_of (sink_seen E.held E.taken E.faults) err.old err.new) }
{
    match refusal {
        Refusal::Words => tell(USAGE, Status::Words, err),
        Refusal::ReadFault => tell(b"read fault\n", Status::ReadFault, err),
        Refusal::WriteFault => Status::WriteFault,
        Refusal::Memory => {
            let _ = err.put(b"no memory\n");
            Status::Memory
        }
        Refusal::Input(fault) => tell_input(fault, err),
    }
}

const USAGE: &[u8] =
    b"usage: ivoryc emit FILE | check FILE | sites FILE | run FILE SCRIPT N | crun CFILE SCRIPT N | big K\n";
