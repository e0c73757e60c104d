ghost use Rattle.std.specs.Prelude.{◌≡◌, ◌≤◌, ◌<◌};
ghost use Rattle.reading.specs.Reader.{below};
ghost use Rattle.expression_parser.specs.Gives.{Gives};
ghost use Rattle.module_grammar.specs.TypeReader as reader;
ghost use Rattle.statement_parser.specs.Parts as parts;

use crate::list::open;
use crate::types::value;
use expression_parser::{Fault, keyword, mark, number, span_of, starts_key, starts_mark, word};
use iv_words::Box;
use ivory_lexer::{Key, Mark, Token};
use ivory_tree::{AreaKind, AreaText, TypeText};
use std::alloc::Global;

/// What follows the `[` of an array.
#[cycle(areas)]
fn array_rest(
    alloc: Global,
    levels: usize,
    tokens: &[Token],
) -> Result<(AreaKind, &[Token]), Fault<'_>>
    ensures { Gives result (reader.array_rest (reader.area levels) tokens.now) }
{
    let (length, rest) = number(tokens)?;
    let (_, rest) = mark(Mark::CloseBracket, rest)?;
    let (element, rest) = area_text(alloc, levels, rest)?;
    Ok((AreaKind::Array(length, Box::new(alloc, element)?), rest))
}

/// An array, whose `[` is open as far as the element's end.
#[cycle(areas)]
#[tactic(auto, using(crate::proofs::Opening::openings))]
fn array(alloc: Global, levels: usize, tokens: &[Token]) -> Result<(AreaText, &[Token]), Fault<'_>>
    ensures { Gives result (reader.array_reader (below reader.area levels) tokens.now) }
{
    let (inner, rest) = open(Mark::OpenBracket, levels, tokens)?;
    let (kind, rest) = array_rest(alloc, inner, rest)?;
    let span = span_of(tokens, rest);
    Ok((AreaText { kind, span }, rest))
}

fn structure(alloc: Global, tokens: &[Token]) -> Result<(AreaText, &[Token]), Fault<'_>>
    ensures { Gives result (reader.structure_reader tokens.now) }
{
    let (_, rest) = keyword(Key::KwStruct, tokens)?;
    let (name, rest) = word(alloc, rest)?;
    let span = span_of(tokens, rest);
    let kind = AreaKind::Struct(name);
    Ok((AreaText { kind, span }, rest))
}

fn stored(alloc: Global, levels: usize, tokens: &[Token]) -> Result<(AreaText, &[Token]), Fault<'_>>
    ensures { Gives result (parts.stored_area levels tokens.now) }
{
    let (kind, rest) = value(alloc, levels, tokens)?;
    let span = span_of(tokens, rest);
    let kind = AreaKind::Stored(Box::new(alloc, TypeText { kind, span })?);
    Ok((AreaText { kind, span }, rest))
}

/// An area, with so many levels left to nest.
///
/// # Errors
///
/// The first token with which no area goes on, or the first that nests deeper than `levels` levels.
#[cycle(areas)]
#[tactic(auto, using(module_grammar::proofs::Unfold::area_below))]
pub fn area_text(
    alloc: Global,
    levels: usize,
    tokens: &[Token],
) -> Result<(AreaText, &[Token]), Fault<'_>>
    ensures { Gives result (reader.area levels tokens.now) }
{
    if starts_mark(Mark::OpenBracket, tokens) {
        array(alloc, levels, tokens)
    } else if starts_key(Key::KwStruct, tokens) {
        structure(alloc, tokens)
    } else {
        stored(alloc, levels, tokens)
    }
}
