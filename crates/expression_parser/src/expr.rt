ghost use Rattle.std.specs.Prelude.{◌≡◌, ◌≤◌, ◌<◌, IfOk, Some};
ghost use Rattle.std.specs.Option.{option_map};
ghost use Rattle.reading.specs.Reader.{after, below, prefixed};
ghost use Rattle.ivory_lexer.specs.declared.Mark.TheVariants as mark;
ghost use Rattle.ivory_tree.specs.declared.PrefixOp.TheVariants as prefix;
ghost use Rattle.expression_grammar.specs.Tokens as kinds;
ghost use Rattle.expression_grammar.specs.Operators as operators;
ghost use Rattle.expression_grammar.specs.Trees as tree;
ghost use Rattle.expression_grammar.specs.Reader as reader;
ghost use Rattle.expression_grammar.specs.FlatChain as flat;
ghost use Rattle.expression_parser.specs.Gives.{Gives};

use crate::fault::Fault;
use crate::operator::{
    operator, plain_prefix, starts_negation, starts_operator, starts_operator_below,
    starts_plain_prefix,
};
use crate::parts::postfix;
use crate::token::{mark, span_of, starts_mark};
use iv_words::{Box, Memory, Seq, Span};
use ivory_lexer::{Mark, Token};
use ivory_tree::{Expr, ExprKind, Link, PrefixOp};
use std::alloc::Global;

/// A `-` that is no number's sign, and its operand.
#[cycle(exprs)]
#[tactic(auto, using(reading::proofs::Levels::levels))]
fn negated(alloc: Global, levels: usize, tokens: &[Token]) -> Result<(Expr, &[Token]), Fault<'_>>
    ensures { Gives result (prefixed (kinds.symbol mark.Minus) (λ x ts. tree.prefixed_by prefix.Neg x (kinds.span_of ts)) (below reader.operand levels) tokens.now) }
{
    if levels == 0 {
        return Err(Fault::TooDeep(tokens));
    }
    let (_, rest) = mark(Mark::Minus, tokens)?;
    let (x, rest) = operand(alloc, levels - 1, rest)?;
    let span = span_of(tokens, rest);
    let kind = ExprKind::Prefix(PrefixOp::Neg, Box::new(alloc, x)?);
    Ok((Expr { kind, span }, rest))
}

/// Another prefix operator and its operand.
#[cycle(exprs)]
#[tactic(auto, using(reading::proofs::Levels::levels))]
fn plain_prefixed(
    alloc: Global,
    levels: usize,
    tokens: &[Token],
) -> Result<(Expr, &[Token]), Fault<'_>>
    ensures { Gives result (reader.plain_prefixed_reader (below reader.operand levels) tokens.now) }
{
    let (op, rest) = plain_prefix(tokens)?;
    if levels == 0 {
        return Err(Fault::TooDeep(tokens));
    }
    let (x, rest) = operand(alloc, levels - 1, rest)?;
    let span = span_of(tokens, rest);
    let kind = ExprKind::Prefix(op, Box::new(alloc, x)?);
    Ok((Expr { kind, span }, rest))
}

#[cycle(exprs)]
#[tactic(auto, using(expression_grammar::proofs::Unfold::operand_below), unfolding(expression_grammar::specs::Reader::operand_reader))]
fn operand(alloc: Global, levels: usize, tokens: &[Token]) -> Result<(Expr, &[Token]), Fault<'_>>
    ensures { Gives result (reader.operand levels tokens.now) }
{
    if starts_negation(tokens) {
        negated(alloc, levels, tokens)
    } else if starts_plain_prefix(tokens) {
        plain_prefixed(alloc, levels, tokens)
    } else {
        postfix(alloc, levels, tokens)
    }
}

/// An operator of this level and its right operand.
#[cycle(exprs)]
fn link(
    alloc: Global,
    level: usize,
    levels: usize,
    tokens: &[Token],
) -> Result<(Link, &[Token]), Fault<'_>>
    requires { level < 10 }
    ensures { Gives result (reader.link_reader level (reader.chain_reader level (reader.operand levels)) tokens.now) }
{
    let ((op, at), rest) = operator(level, tokens)?;
    let (right, rest) = chain(alloc, level, levels, rest)?;
    Ok((Link { op, at, right }, rest))
}

#[cycle(exprs)]
fn links(
    alloc: Global,
    level: usize,
    levels: usize,
    tokens: &[Token],
) -> Result<(Seq<Link>, &[Token]), Fault<'_>>
    requires { level < 10 }
    ensures { Gives result (flat.links_reader level (reader.operand levels) tokens.now) }
{
    let mut links = Seq::with_capacity(alloc, 1)?;
    let mut rest = tokens;
    // Each link takes a token at least.
    for _turn in 0..tokens.len() {
        if !starts_operator(level, rest) {
            break;
        }
        let (next, after) = link(alloc, level, levels, rest)?;
        links.push(next)?;
        rest = after;
    }
    Ok((links, rest))
}

fn with_links(alloc: Global, first: Expr, links: Seq<Link>, span: Span) -> Result<Expr, Memory>
    ensures { IfOk result (λ x. x ≡ tree.with_links first links span) }
{
    if links.is_empty() {
        return Ok(first);
    }
    let kind = ExprKind::Chain(Box::new(alloc, first)?, links);
    Ok(Expr { kind, span })
}

/// What was read of these tokens, with the links of this level that follow.
#[cycle(exprs)]
fn linked<'a>(
    alloc: Global,
    level: usize,
    levels: usize,
    tokens: &[Token],
    first: Expr,
    rest: &'a [Token],
) -> Result<(Expr, &'a [Token]), Fault<'a>>
    requires { level < 10 }
    ensures { Gives result (flat.linked level (reader.operand levels) tokens.now first rest.now) }
{
    let (links, rest) = links(alloc, level, levels, rest)?;
    let span = span_of(tokens, rest);
    Ok((with_links(alloc, first, links, span)?, rest))
}

/// What was read of these tokens, with the links that follow, level by level from the tightest on.
#[cycle(exprs)]
fn climb<'a>(
    alloc: Global,
    level: usize,
    levels: usize,
    tokens: &[Token],
    first: Expr,
    rest: &'a [Token],
) -> Result<(Expr, &'a [Token]), Fault<'a>>
    requires { level ≤ 10 }
    ensures { Gives result (flat.climb level 0 (reader.operand levels) tokens.now first rest.now) }
{
    let mut chain = first;
    let mut rest = rest;
    for at in 0..level {
        if !starts_operator(at, rest) {
            continue;
        }
        let (longer, after) = linked(alloc, at, levels, tokens, chain, rest)?;
        chain = longer;
        rest = after;
    }
    Ok((chain, rest))
}

/// Operands with operators between them that bind tighter than this level.
#[cycle(exprs)]
#[tactic(auto, using(expression_grammar::proofs::FlatChain::chain_is_flat, expression_grammar::proofs::FlatChain::lone_operand))]
fn chain(
    alloc: Global,
    level: usize,
    levels: usize,
    tokens: &[Token],
) -> Result<(Expr, &[Token]), Fault<'_>>
    requires { level ≤ 10 }
    ensures { Gives result (reader.chain_reader level (reader.operand levels) tokens.now) }
{
    let (first, rest) = operand(alloc, levels, tokens)?;
    if !starts_operator_below(level, rest) {
        return Ok((first, rest));
    }
    climb(alloc, level, levels, tokens, first, rest)
}

/// A colon and an expression.
#[cycle(exprs)]
fn other_arm(alloc: Global, levels: usize, tokens: &[Token]) -> Result<(Expr, &[Token]), Fault<'_>>
    ensures { Gives result (after (reader.mark_reader mark.Colon) (reader.expression levels) tokens.now) }
{
    let (_, rest) = mark(Mark::Colon, tokens)?;
    expression(alloc, levels, rest)
}

#[cycle(exprs)]
fn both_arms(
    alloc: Global,
    levels: usize,
    tokens: &[Token],
) -> Result<((Expr, Expr), &[Token]), Fault<'_>>
    ensures { Gives result (reader.both_arms (reader.expression levels) tokens.now) }
{
    let (then, rest) = expression(alloc, levels, tokens)?;
    let (other, rest) = other_arm(alloc, levels, rest)?;
    Ok(((then, other), rest))
}

/// The `?` of a conditional expression, with both arms.
#[cycle(exprs)]
#[tactic(auto, using(reading::proofs::Levels::levels))]
fn arms(
    alloc: Global,
    levels: usize,
    tokens: &[Token],
) -> Result<((Expr, Expr), &[Token]), Fault<'_>>
    ensures { Gives result (reader.arms_reader (below reader.expression levels) tokens.now) }
{
    let (_, rest) = mark(Mark::Question, tokens)?;
    if levels == 0 {
        return Err(Fault::TooDeep(tokens));
    }
    both_arms(alloc, levels - 1, rest)
}

fn with_arms(alloc: Global, test: Expr, then: Expr, other: Expr, span: Span) -> Result<Expr, Memory>
    ensures { IfOk result (λ x. x ≡ tree.with_arms test (Some (then, other)) span) }
{
    let kind = ExprKind::Cond(
        Box::new(alloc, test)?,
        Box::new(alloc, then)?,
        Box::new(alloc, other)?,
    );
    Ok(Expr { kind, span })
}

/// An expression, with so many levels left to nest.
///
/// # Errors
///
/// The first token with which no expression goes on, or the first that nests deeper than so many levels.
#[cycle(exprs)]
#[tactic(auto, using(expression_grammar::proofs::Unfold::expression_below), unfolding(expression_grammar::specs::Reader::expression_reader))]
pub fn expression(
    alloc: Global,
    levels: usize,
    tokens: &[Token],
) -> Result<(Expr, &[Token]), Fault<'_>>
    ensures { Gives result (reader.expression levels tokens.now) }
{
    let (first, rest) = chain(alloc, 10, levels, tokens)?;
    if !starts_mark(Mark::Question, rest) {
        return Ok((first, rest));
    }
    let ((then, other), rest) = arms(alloc, levels, rest)?;
    let span = span_of(tokens, rest);
    Ok((with_arms(alloc, first, then, other, span)?, rest))
}
