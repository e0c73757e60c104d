ghost use Rattle.std.specs.Prelude.{◌≡◌, ◌≤◌, ◌<◌, IfOk};
ghost use Rattle.reading.specs.Row.{starts};
ghost use Rattle.reading.specs.Reader.{below, many};
ghost use Rattle.expression_grammar.specs.Trees as tree;
ghost use Rattle.expression_grammar.specs.Reader as reader;
ghost use Rattle.expression_parser.specs.Gives.{Gives};

use crate::expr::expression;
use crate::fault::Fault;
use crate::primary::{bracketed, primary};
use crate::token::{mark, name, span_of, starts_mark};
use iv_words::{Box, Memory, Seq, Span};
use ivory_lexer::{Mark, Token, TokenKind};
use ivory_tree::{Expr, ExprKind, Step};
use std::alloc::Global;

fn field(alloc: Global, tokens: &[Token]) -> Result<(Step, &[Token]), Fault<'_>>
    ensures { Gives result (reader.field_reader tokens.now) }
{
    let (_, rest) = mark(Mark::Dot, tokens)?;
    let (name, rest) = name(alloc, rest)?;
    Ok((Step::Field(name), rest))
}

#[cycle(exprs)]
fn element(alloc: Global, levels: usize, tokens: &[Token]) -> Result<(Step, &[Token]), Fault<'_>>
    ensures { Gives result (reader.element_reader (below reader.expression levels) tokens.now) }
{
    let (index, rest) = bracketed(alloc, Mark::OpenBracket, Mark::CloseBracket, levels, tokens)?;
    let brackets = span_of(tokens, rest);
    Ok((Step::Index(Box::new(alloc, index)?, brackets), rest))
}

#[cycle(exprs)]
fn step(alloc: Global, levels: usize, tokens: &[Token]) -> Result<(Step, &[Token]), Fault<'_>>
    ensures { Gives result (reader.step_reader (below reader.expression levels) tokens.now) }
{
    if starts_mark(Mark::Dot, tokens) {
        field(alloc, tokens)
    } else {
        element(alloc, levels, tokens)
    }
}

fn starts_step(tokens: &[Token]) -> bool
    ensures { result ≡ starts reader.begins_step tokens.now }
{
    match tokens {
        [first, ..] => matches!(first.kind, TokenKind::Mark(Mark::Dot | Mark::OpenBracket)),
        [] => false,
    }
}

#[cycle(exprs)]
fn steps(alloc: Global, levels: usize, tokens: &[Token]) -> Result<(Seq<Step>, &[Token]), Fault<'_>>
    ensures { Gives result (many reader.begins_step (reader.step_reader (below reader.expression levels)) tokens.now) }
{
    let mut steps = Seq::with_capacity(alloc, 1)?;
    let mut rest = tokens;
    // Each step takes a token at least.
    for _turn in 0..tokens.len() {
        if !starts_step(rest) {
            break;
        }
        let (next, after) = step(alloc, levels, rest)?;
        steps.push(next)?;
        rest = after;
    }
    Ok((steps, rest))
}

fn with_steps(alloc: Global, base: Expr, steps: Seq<Step>, span: Span) -> Result<Expr, Memory>
    ensures { IfOk result (λ x. x ≡ tree.with_steps base steps span) }
{
    if steps.is_empty() {
        return Ok(base);
    }
    let kind = ExprKind::Postfix(Box::new(alloc, base)?, steps);
    Ok(Expr { kind, span })
}

/// An operand with the fields and elements that are taken of it.
///
/// # Errors
///
/// The first token with which no such operand goes on, or the first that nests deeper than so many levels.
#[cycle(exprs)]
#[tactic(auto, using(reading::proofs::Turns::many_none), unfolding(expression_grammar::specs::Reader::postfix_reader))]
pub fn postfix(
    alloc: Global,
    levels: usize,
    tokens: &[Token],
) -> Result<(Expr, &[Token]), Fault<'_>>
    ensures { Gives result (reader.postfix_reader (below reader.expression levels) tokens.now) }
{
    let (base, rest) = primary(alloc, levels, tokens)?;
    if !starts_step(rest) {
        return Ok((base, rest));
    }
    let (steps, rest) = steps(alloc, levels, rest)?;
    let span = span_of(tokens, rest);
    Ok((with_steps(alloc, base, steps, span)?, rest))
}
