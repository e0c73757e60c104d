ghost use Rattle.std.specs.Prelude.{◌≡◌};
ghost use Rattle.reading.specs.Reader.{pair_first};
ghost use Rattle.ivory_lexer.specs.declared.Mark.TheVariants as marks;
ghost use Rattle.expression_grammar.specs.Tokens.{is_mark, is_name};
ghost use Rattle.expression_grammar.specs.Reader as expressions;
ghost use Rattle.expression_parser.specs.Gives.{Gives};
ghost use Rattle.module_grammar.specs.StatementReader as reader;
ghost use Rattle.statement_parser.specs.Parts as parts;

use crate::area::area_text;
use crate::call::call;
use crate::init::first_value;
use expression_parser::{Fault, expression, keyword, mark, name, postfix, starts_mark, within};
use iv_words::{Name, Span};
use ivory_lexer::{Key, Mark, Token, TokenKind};
use ivory_tree::{AreaText, Expr, InitText, StmtKind};
use std::alloc::Global;

/// Takes a `;`.
pub fn semicolon(tokens: &[Token]) -> Result<(Span, &[Token]), Fault<'_>>
    ensures { Gives result (reader.semicolon tokens.now) }
{
    mark(Mark::Semicolon, tokens)
}

/// Whether a name and a `(` come next.
fn starts_call(tokens: &[Token]) -> bool
    ensures { result ≡ pair_first is_name (is_mark marks.OpenParen) tokens.now }
{
    match tokens {
        [
            Token {
                kind: TokenKind::Name(_),
                ..
            },
            rest @ ..,
        ] => starts_mark(Mark::OpenParen, rest),
        _ => false,
    }
}

fn bound_call(
    alloc: Global,
    bound: Name,
    levels: usize,
    tokens: &[Token],
) -> Result<(StmtKind, &[Token]), Fault<'_>>
    ensures { Gives result (parts.bound_call levels bound tokens.now) }
{
    let (call, rest) = call(alloc, levels, tokens)?;
    let (_, rest) = semicolon(rest)?;
    Ok((StmtKind::LetCall(bound, call), rest))
}

fn bound_expression(
    alloc: Global,
    bound: Name,
    levels: usize,
    tokens: &[Token],
) -> Result<(StmtKind, &[Token]), Fault<'_>>
    ensures { Gives result (parts.bound_expression levels bound tokens.now) }
{
    let (value, rest) = expression(alloc, levels, tokens)?;
    let (_, rest) = semicolon(rest)?;
    Ok((StmtKind::Let(bound, value), rest))
}

/// A `=` and what is bound to the name, up to the `;`.
fn bound_value(
    alloc: Global,
    bound: Name,
    levels: usize,
    tokens: &[Token],
) -> Result<(StmtKind, &[Token]), Fault<'_>>
    ensures { Gives result (parts.bound_value levels bound tokens.now) }
{
    let (_, rest) = mark(Mark::Assign, tokens)?;
    if starts_call(rest) {
        bound_call(alloc, bound, levels, rest)
    } else {
        bound_expression(alloc, bound, levels, rest)
    }
}

pub fn let_bound(
    alloc: Global,
    levels: usize,
    tokens: &[Token],
) -> Result<(StmtKind, &[Token]), Fault<'_>>
    ensures { Gives result (reader.let_reader levels tokens.now) }
{
    let (_, rest) = keyword(Key::KwLet, tokens)?;
    let (bound, rest) = name(alloc, rest)?;
    bound_value(alloc, bound, levels, rest)
}

/// A `:`, an area and its first value, up to the `;`.
pub fn area_and_value(
    alloc: Global,
    levels: usize,
    tokens: &[Token],
) -> Result<((AreaText, Option<InitText>), &[Token]), Fault<'_>>
    ensures { Gives result (parts.area_and_value levels tokens.now) }
{
    let (_, rest) = mark(Mark::Colon, tokens)?;
    let (area, rest) = area_text(alloc, levels, rest)?;
    let (value, rest) = first_value(alloc, levels, rest)?;
    let (_, rest) = semicolon(rest)?;
    Ok(((area, value), rest))
}

pub fn allocated(
    alloc: Global,
    levels: usize,
    tokens: &[Token],
) -> Result<(StmtKind, &[Token]), Fault<'_>>
    ensures { Gives result (reader.alloc_reader levels tokens.now) }
{
    let (_, rest) = keyword(Key::KwAlloc, tokens)?;
    let (bound, rest) = name(alloc, rest)?;
    let ((area, value), rest) = area_and_value(alloc, levels, rest)?;
    Ok((StmtKind::Alloc(bound, area, value), rest))
}

/// A `=` and an expression, up to the `;`.
fn new_value(alloc: Global, levels: usize, tokens: &[Token]) -> Result<(Expr, &[Token]), Fault<'_>>
    ensures { Gives result (parts.last_value marks.Assign (expressions.expression levels) tokens.now) }
{
    let (_, rest) = mark(Mark::Assign, tokens)?;
    let (value, rest) = expression(alloc, levels, rest)?;
    let (_, rest) = semicolon(rest)?;
    Ok((value, rest))
}

pub fn stored(
    alloc: Global,
    levels: usize,
    tokens: &[Token],
) -> Result<(StmtKind, &[Token]), Fault<'_>>
    ensures { Gives result (reader.store_reader levels tokens.now) }
{
    let (_, rest) = mark(Mark::Star, tokens)?;
    let (target, rest) = postfix(alloc, levels, rest)?;
    let (value, rest) = new_value(alloc, levels, rest)?;
    Ok((StmtKind::Store(target, value), rest))
}

/// A `,` and what is copied, up to the `;`.
fn source(alloc: Global, levels: usize, tokens: &[Token]) -> Result<(Expr, &[Token]), Fault<'_>>
    ensures { Gives result (parts.last_value marks.Comma (reader.postfix levels) tokens.now) }
{
    let (_, rest) = mark(Mark::Comma, tokens)?;
    let (source, rest) = postfix(alloc, levels, rest)?;
    let (_, rest) = semicolon(rest)?;
    Ok((source, rest))
}

pub fn copied(
    alloc: Global,
    levels: usize,
    tokens: &[Token],
) -> Result<(StmtKind, &[Token]), Fault<'_>>
    ensures { Gives result (reader.copy_reader levels tokens.now) }
{
    let (_, rest) = keyword(Key::KwCopy, tokens)?;
    let (target, rest) = postfix(alloc, levels, rest)?;
    let (source, rest) = source(alloc, levels, rest)?;
    Ok((StmtKind::Copy(target, source), rest))
}

pub fn broken_off(tokens: &[Token]) -> Result<(StmtKind, &[Token]), Fault<'_>>
    ensures { Gives result (reader.break_reader tokens.now) }
{
    let (_, rest) = keyword(Key::KwBreak, tokens)?;
    let (_, rest) = semicolon(rest)?;
    Ok((StmtKind::Break, rest))
}

pub fn returned(
    alloc: Global,
    levels: usize,
    tokens: &[Token],
) -> Result<(StmtKind, &[Token]), Fault<'_>>
    ensures { Gives result (reader.return_reader levels tokens.now) }
{
    let (_, rest) = keyword(Key::KwReturn, tokens)?;
    if starts_mark(Mark::Semicolon, rest) {
        let (_, rest) = semicolon(rest)?;
        return Ok((StmtKind::Return(None), rest));
    }
    let (value, rest) = expression(alloc, levels, rest)?;
    let (_, rest) = semicolon(rest)?;
    Ok((StmtKind::Return(Some(value)), rest))
}

pub fn asserted(
    alloc: Global,
    levels: usize,
    tokens: &[Token],
) -> Result<(StmtKind, &[Token]), Fault<'_>>
    ensures { Gives result (reader.assert_reader levels tokens.now) }
{
    let (_, rest) = keyword(Key::KwAssert, tokens)?;
    let (condition, rest) = within(alloc, levels, rest)?;
    let (_, rest) = semicolon(rest)?;
    Ok((StmtKind::Assert(condition), rest))
}

pub fn called(
    alloc: Global,
    levels: usize,
    tokens: &[Token],
) -> Result<(StmtKind, &[Token]), Fault<'_>>
    ensures { Gives result (reader.call_reader levels tokens.now) }
{
    let (call, rest) = call(alloc, levels, tokens)?;
    let (_, rest) = semicolon(rest)?;
    Ok((StmtKind::Call(call), rest))
}
