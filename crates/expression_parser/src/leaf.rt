ghost use Rattle.expression_grammar.specs.Reader as reader;
ghost use Rattle.expression_parser.specs.Gives.{Gives};

use crate::fault::Fault;
use crate::token::{keyword, mark, number, span_of, truth, word};
use ivory_lexer::{Key, Mark, Token};
use ivory_tree::{Expr, ExprKind};
use std::alloc::Global;

pub fn number_literal(tokens: &[Token]) -> Result<(Expr, &[Token]), Fault<'_>>
    ensures { Gives result (reader.number_reader tokens.now) }
{
    let (value, rest) = number(tokens)?;
    let span = span_of(tokens, rest);
    let kind = ExprKind::Lit(i128::from(value));
    Ok((Expr { kind, span }, rest))
}

pub fn negative_literal(tokens: &[Token]) -> Result<(Expr, &[Token]), Fault<'_>>
    ensures { Gives result (reader.negative_reader tokens.now) }
{
    let (_, rest) = mark(Mark::Minus, tokens)?;
    let (value, rest) = number(rest)?;
    let span = span_of(tokens, rest);
    let kind = ExprKind::Lit(-i128::from(value));
    Ok((Expr { kind, span }, rest))
}

pub fn truth_literal(tokens: &[Token]) -> Result<(Expr, &[Token]), Fault<'_>>
    ensures { Gives result (reader.truth_reader tokens.now) }
{
    let (value, rest) = truth(tokens)?;
    let span = span_of(tokens, rest);
    let kind = ExprKind::Truth(value);
    Ok((Expr { kind, span }, rest))
}

pub fn outcome(tokens: &[Token]) -> Result<(Expr, &[Token]), Fault<'_>>
    ensures { Gives result (reader.outcome_reader tokens.now) }
{
    let (_, rest) = keyword(Key::KwResult, tokens)?;
    let span = span_of(tokens, rest);
    let kind = ExprKind::Outcome;
    Ok((Expr { kind, span }, rest))
}

pub fn variable(alloc: Global, tokens: &[Token]) -> Result<(Expr, &[Token]), Fault<'_>>
    ensures { Gives result (reader.variable_reader tokens.now) }
{
    let (name, rest) = word(alloc, tokens)?;
    let span = span_of(tokens, rest);
    let kind = ExprKind::Var(name);
    Ok((Expr { kind, span }, rest))
}
