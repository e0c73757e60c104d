//! What is proved of typed expressions, calls and modules.

ghost use Rattle.typing_laws.specs.TypesAgree.{SettledAgree, WantedAgree};
ghost use Rattle.typing_laws.specs.Clean.{SettledIsClean, WantedIsClean, CallIsClean};
ghost use Rattle.typing_laws.specs.Laws.{StandingIsFaultless, FaultlessIsTyped, ExactlyOne, OneCore, StandingIsMade, FaultlessIsMade};

/// Both definitions give an expression the same type.
#[tactic(auto, using(crate::proofs::TypesAgree::agreement))]
pub fn types_agree()
    ensures settled { SettledAgree }
    ensures wanted { WantedAgree }
{}

/// An expression that is typed breaks no rule.
#[tactic(auto, using(crate::proofs::Clean::clean_laws))]
pub fn typed_expressions_are_clean()
    ensures settled { SettledIsClean }
    ensures wanted { WantedIsClean }
{}

/// A call that stands breaks no rule.
pub fn typed_calls_are_clean()
    ensures { CallIsClean }
{}

/// A module that stands for a core breaks no rule.
pub fn typed_modules_are_clean()
    ensures { StandingIsFaultless }
{}

/// A module that breaks no rule stands for a core.
pub fn clean_modules_are_typed()
    ensures { FaultlessIsTyped }
{}

/// A module is well typed or has a first fault, and not both.
pub fn typed_or_faulty()
    ensures { ExactlyOne }
{}

/// A module stands for one core at most.
pub fn modules_have_one_core()
    ensures { OneCore }
{}

/// The core that a module stands for is the one that is made of its text.
pub fn cores_are_made()
    ensures { StandingIsMade }
{}

/// A module that breaks no rule stands for the core that is made of its text.
pub fn clean_modules_stand_for_what_is_made()
    ensures { FaultlessIsMade }
{}
