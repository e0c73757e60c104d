ghost use Rattle.std.specs.Prelude.{◌≡◌, IfOk};
ghost use Rattle.step_semantics.specs.Runs.{end_of};
ghost use Rattle.run_world.specs.Comes.{halt_of, end_after, shows_areas};

use iv_words::Memory;
use run_records::{End, Reason};

/// Why a run ends before its script does: a check failed, an import had no reply or one that does not fit, or there is no
/// defined meaning.
#[derive(Clone, Copy, Debug, Drop, PartialEq, Eq)]
pub enum Halt {
    FailedCheck(u32),
    MissingReply,
    UnfitReply,
    NoMeaning(Reason),
}

/// Why a part of a run did not finish: the run is halted, its steps are used up, or there is no memory for it.
#[derive(Clone, Copy, Debug, Drop, PartialEq, Eq)]
pub enum Stopped {
    Halted(Halt),
    Exhausted,
    Memory,
}

impl From<Memory> for Stopped {
    ghost use Rattle.std.specs.Prelude.{◌≡◌};
    ghost use Rattle.run_world.specs.declared.stopped.Stopped.TheVariants as stopped;

    ghost from_gives = { λ _ why. why ≡ stopped.Memory };

    fn from(_error: Memory) -> Stopped {
        Stopped::Memory
    }
}

impl Halt {
    /// The end of a run that is halted so.
    pub fn end(self) -> End
        ensures { result ≡ end_of (halt_of self) }
    {
        match self {
            Halt::FailedCheck(site) => End::Stopped(site),
            Halt::MissingReply => End::NoReply,
            Halt::UnfitReply => End::BadReply,
            Halt::NoMeaning(reason) => End::Undefined(reason),
        }
    }
}

/// The end of a run whose calls came out so.
pub fn end_after(calls: Result<(), Stopped>) -> Result<End, Memory>
    ensures { IfOk result (λ end. end_after calls ≡ Some end) }
{
    match calls {
        Ok(()) => Ok(End::Ended),
        Err(Stopped::Halted(halt)) => Ok(halt.end()),
        Err(Stopped::Exhausted) => Ok(End::Going),
        Err(Stopped::Memory) => Err(Memory),
    }
}

/// Whether the cells of the areas are seen at such an end.
pub fn shows_areas(end: End) -> bool
    ensures { result ≡ shows_areas end }
{
    match end {
        End::Ended | End::Stopped(_) | End::NoReply | End::BadReply => true,
        End::Going | End::Undefined(_) => false,
    }
}
