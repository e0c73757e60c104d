ghost use Rattle.value_fitting.specs.Laws.{GivenValuesFit, GivenArgumentsFit, ArgumentsFitParameters, GivenFirstValuesFit, GivenResultsFit, ReferencesRefer, ReferredPartsFit, PlainValuesAreNumbers, ScopedIsKnown, FewerAreKnown, ContractsKnow, ResultsAreKnown, NoResultIsKnown};

/// What a well typed expression is given fits its type.
pub fn given_values_fit()
    ensures { GivenValuesFit }
{}

/// So do arguments, each its own type, and the types of the parameters under the call's substitution.
pub fn given_arguments_fit()
    ensures types { GivenArgumentsFit }
    ensures parameters { ArgumentsFitParameters }
{}

/// The first value of a local area, which its initializer gives, fits the area.
pub fn given_first_values_fit()
    ensures { GivenFirstValuesFit }
{}

/// What a `return` gives fits the result of its procedure.
pub fn given_results_fit()
    ensures { GivenResultsFit }
{}

/// A value of a reference's type leads to a part of a live area, which holds a value of the part's type.
pub fn references_refer()
    ensures references { ReferencesRefer }
    ensures parts { ReferredPartsFit }
{}

/// A value of any other type is a number of the type.
pub fn plain_values_are_numbers()
    ensures { PlainValuesAreNumbers }
{}

/// A scoped state is known where an expression stands, with fewer names too, and in contracts.
pub fn scoped_is_known()
    ensures scoped { ScopedIsKnown }
    ensures fewer { FewerAreKnown }
    ensures contracts { ContractsKnow }
{}

/// The result of a call that returns is a known outcome in what its procedure ensures, and before that there is none.
pub fn results_are_known()
    ensures results { ResultsAreKnown }
    ensures none { NoResultIsKnown }
{}
