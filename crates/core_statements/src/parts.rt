//! A run while it goes on, and how control leaves its statements.

ghost use Rattle.std.specs.Prelude.{◌≡◌};
ghost use Rattle.run_records.specs.declared.Reason.TheVariants.{Dead};
ghost use Rattle.run_world.specs.declared.Halt.TheVariants.{NoMeaning};
ghost use Rattle.run_world.specs.declared.Stopped.TheVariants as stopped;

use core_state::{State, Value};
use run_records::Reason;
use run_world::{Halt, Stopped, World};

/// The state of the module, and the outside.
#[derive(Drop)]
pub struct Run {
    pub state: State,
    pub world: World,
}

/// How control leaves a statement: it falls through, breaks off its loop, or returns, with a result or without.
#[derive(Drop)]
pub enum Control {
    Falls,
    Broke,
    Returned(Option<Value>),
}

/// How a run ends at a form that no well typed module has.
pub fn formless() -> Stopped
    ensures { result ≡ stopped.Halted (NoMeaning Dead) }
{
    Stopped::Halted(Halt::NoMeaning(Reason::Dead))
}
