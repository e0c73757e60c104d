//! How deep each token of a text nests, told by the tokens alone. It runs nothing: its laws carry what is proved of the
//! definitions.
#![tactic(auto)]

ghost use Rattle.token_nesting.specs.Examples as example;
ghost use Rattle.token_nesting.specs.Law.{TokensTellNesting};
ghost use Rattle.token_nesting.specs.Limit.{TokensTellTooDeep, TokensTellWithin};

/// In each text of a module, the tokens alone tell the nesting at each of them, however deep it is.
#[tactic(auto, using(crate::proofs::Modules::tokens_tell_nesting))]
pub fn tokens_tell_nesting()
    ensures { TokensTellNesting }
{}

/// So whether a text is a module within a limit of nesting, and where it is too deep, is told without the trees.
pub fn tokens_tell_the_limit()
    ensures within { TokensTellWithin }
    ensures too_deep { TokensTellTooDeep }
{}

/// The arms of `?:`, the first and the last.
pub fn arms_nest_so()
    ensures last { example.LastArms }
    ensures first { example.FirstArms }
{}

/// Prefix operators. The sign of a number and the `*` of a store are none.
pub fn operators_nest_so()
    ensures signs { example.Signs }
    ensures operands { example.Operands }
    ensures stores { example.Stores }
{}

/// Initializers in braces, and the `[` of areas, which are open to the area's end.
pub fn areas_nest_so()
    ensures initializers { example.Initializers }
    ensures areas { example.Areas }
    ensures references { example.References }
{}

/// An `if` behind `else` is open to its statement's end.
pub fn branches_nest_so()
    ensures branches { example.Branches }
{}
