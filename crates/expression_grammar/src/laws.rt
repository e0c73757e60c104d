ghost use Rattle.expression_grammar.specs.Examples.{CallOfThree, CallsOfOne, CallsOfTwo, ChainsAreFlat, ChoiceIsNode, ChoiceNests, DeepBeforeEnd, EndsEarly, LastArmNests, LevelsFall, LevelsRise, NoOperator, OneTree, ParenthesesAreNoNode, ParenthesesNest, PrefixIsNode, PrefixNests, ReadExactly, SignBetween, SignOfNumber, StepsAreFlat, Words};

/// What the reader of expressions answers is exact at each limit: a tree just where the text is spelled within the limit,
/// the first token with which no expression goes on, and the first token that nests deeper, whichever comes first.
#[tactic(auto, using(crate::proofs::Exactly::expression_exact))]
pub fn expressions_are_read_exactly()
    ensures { ReadExactly }
{}

/// No text is two expressions, however deep it nests.
pub fn an_expression_has_one_tree()
    ensures { OneTree }
{}

/// Operators bind by their levels, and those of one level make one chain. A `-` before a number is its sign where an
/// operand may stand, and else an operator.
pub fn operators_are_read_so()
    ensures rise { LevelsRise }
    ensures fall { LevelsFall }
    ensures flat { ChainsAreFlat }
    ensures sign { SignOfNumber }
    ensures between { SignBetween }
    ensures prefix { PrefixIsNode }
{}

/// A prefix operator, a `?` and a bracket open a level each, also in the last arm of a `?`. The earlier of two faults is told.
pub fn nesting_is_counted_so()
    ensures prefix { PrefixNests }
    ensures choice { ChoiceNests }
    ensures last_arm { LastArmNests }
    ensures parentheses { ParenthesesNest }
    ensures deep { DeepBeforeEnd }
    ensures early { EndsEarly }
    ensures no_operator { NoOperator }
{}

/// The trees of what is no operator, and their places.
pub fn parts_are_read_so()
    ensures choice { ChoiceIsNode }
    ensures parentheses { ParenthesesAreNoNode }
    ensures steps { StepsAreFlat }
    ensures words { Words }
    ensures one { CallsOfOne }
    ensures two { CallsOfTwo }
    ensures three { CallOfThree }
{}
