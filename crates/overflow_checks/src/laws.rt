ghost use Rattle.overflow_checks.specs.Laws.{StopsAreChecks, NamesStandFor, RefusedGuards};

/// An operator whose checks all pass has an answer.
pub fn check_laws()
    ensures { StopsAreChecks }
{}

/// A name that holds a number of a kind is an operand that stands for it.
pub fn name_laws()
    ensures { NamesStandFor }
{}

/// Two tempting guards that the contract of `guard` rules out.
pub fn refused_guards()
    ensures { RefusedGuards }
{}
