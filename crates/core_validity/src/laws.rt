//! What is proved of the core that a module stands for.

ghost use Rattle.core_validity.specs.Laws.{StandingIsValid, NamesAreOfTheText, CoreIsNoDeeper};

/// A module of the form of a text stands for a valid core.
pub fn standing_modules_are_valid_cores()
    ensures { StandingIsValid }
{}

/// Each name in the core that a module stands for is one in the module's text.
pub fn names_are_of_the_text()
    ensures { NamesAreOfTheText }
{}

/// The core that a module stands for is no deeper than the module.
pub fn cores_are_no_deeper()
    ensures { CoreIsNoDeeper }
{}
