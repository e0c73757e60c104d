use iv_words::Memory;
use rule_checker::RuleFault;

/// Why a module has no core.
#[derive(Clone, Copy, Debug, Drop, PartialEq, Eq)]
pub enum CheckError {
    /// Its first fault: a rule, by its number, and the place where it is broken.
    Rule(RuleFault),
    /// Want of memory, which says nothing of the module.
    Memory,
}

impl From<Memory> for CheckError {
    ghost use Rattle.std.specs.Prelude.{◌≡◌};
    ghost use Rattle.iv_checker.specs.declared.answer.CheckError.TheVariants as error;

    ghost from_gives = { λ _ why. why ≡ error.Memory };

    fn from(_error: Memory) -> CheckError {
        CheckError::Memory
    }
}
