ghost use Rattle.expression_parser.specs.Gives.{Gives};
ghost use Rattle.module_grammar.specs.StatementReader as reader;

use crate::list::{Part, in_parens};
use expression_parser::{Fault, expression, name, span_of};
use ivory_lexer::Token;
use ivory_tree::{CallText, Expr};
use std::alloc::Global;

/// An argument of a call.
struct Argument;

impl Part for Argument {
    ghost use Rattle.expression_grammar.specs.Reader.{expression};

    type Value = Expr;

    ghost reader = { expression };

    fn read(alloc: Global, levels: usize, tokens: &[Token]) -> Result<(Expr, &[Token]), Fault<'_>> {
        expression(alloc, levels, tokens)
    }
}

/// A call: a name and its arguments between parentheses.
#[tactic(auto, unfolding(module_grammar::specs::StatementReader::call))]
pub fn call(
    alloc: Global,
    levels: usize,
    tokens: &[Token],
) -> Result<(CallText, &[Token]), Fault<'_>>
    ensures { Gives result (reader.call levels tokens.now) }
{
    let (name, rest) = name(alloc, tokens)?;
    let (args, rest) = in_parens::<Argument>(alloc, levels, rest)?;
    let span = span_of(tokens, rest);
    Ok((CallText { name, args, span }, rest))
}
