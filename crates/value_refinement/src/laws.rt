ghost use Rattle.value_refinement.specs.Laws.{StatesStayRelated};
ghost use Rattle.value_refinement.specs.Lets.{LetsFollow};

/// A state of C stays related to one of the source while old names and objects are kept.
pub fn states_stay_related()
    ensures { StatesStayRelated }
{}

/// The C of a `let` of any expression follows it: the steps of each side allow those of the other, both stop at the same check, and the name
/// then stands for the value.
pub fn lets_follow()
    ensures { LetsFollow }
{}
