ghost use Rattle.std.specs.Prelude.{◌≡◌, ◌≤◌, ◌<◌, ◌∷◌};
ghost use Rattle.ivory_lexer.specs.declared.Mark.TheVariants as marks;
ghost use Rattle.reading.specs.Reader.{after, below, many, mapped, separated};
ghost use Rattle.expression_grammar.specs.Tokens.{is_mark};
ghost use Rattle.expression_grammar.specs.Reader.{mark_reader};
ghost use Rattle.expression_parser.specs.Gives.{Gives};
ghost use Rattle.module_grammar.specs.InitReader as reader;

use crate::list::open;
use expression_parser::{Fault, expression, mark, span_of, starts_mark};
use iv_words::{Seq, Span};
use ivory_lexer::{Mark, Token};
use ivory_tree::InitText;
use std::alloc::Global;

#[cycle(inits)]
fn next_init(
    alloc: Global,
    levels: usize,
    tokens: &[Token],
) -> Result<(InitText, &[Token]), Fault<'_>>
    ensures { Gives result (after (mark_reader marks.Comma) (reader.init levels) tokens.now) }
{
    let (_, rest) = mark(Mark::Comma, tokens)?;
    init(alloc, levels, rest)
}

#[cycle(inits)]
fn more_inits(
    alloc: Global,
    levels: usize,
    first: InitText,
    tokens: &[Token],
) -> Result<(Seq<InitText>, &[Token]), Fault<'_>>
    ensures { Gives result (mapped (λ more. first ∷ more) (many (is_mark marks.Comma) (after (mark_reader marks.Comma) (reader.init levels)) tokens.now)) }
{
    let mut inits = Seq::with_capacity(alloc, 1)?;
    inits.push(first)?;
    let mut rest = tokens;
    // Each further one takes a token at least.
    for _turn in 0..tokens.len() {
        if !starts_mark(Mark::Comma, rest) {
            break;
        }
        let (next, after) = next_init(alloc, levels, rest)?;
        inits.push(next)?;
        rest = after;
    }
    Ok((inits, rest))
}

/// One or more, with a comma between each and the next.
#[cycle(inits)]
fn some_inits(
    alloc: Global,
    levels: usize,
    tokens: &[Token],
) -> Result<(Seq<InitText>, &[Token]), Fault<'_>>
    ensures { Gives result (separated (is_mark marks.Comma) (mark_reader marks.Comma) (reader.init levels) tokens.now) }
{
    let (first, rest) = init(alloc, levels, tokens)?;
    more_inits(alloc, levels, first, rest)
}

/// None or more, up to the `}`.
#[cycle(inits)]
fn up_to_brace(
    alloc: Global,
    levels: usize,
    tokens: &[Token],
) -> Result<((Seq<InitText>, Span), &[Token]), Fault<'_>>
    ensures { Gives result (reader.up_to_brace (reader.init levels) tokens.now) }
{
    if starts_mark(Mark::CloseBrace, tokens) {
        let (to, rest) = mark(Mark::CloseBrace, tokens)?;
        return Ok(((Seq::new(alloc), to), rest));
    }
    let (inits, rest) = some_inits(alloc, levels, tokens)?;
    let (to, rest) = mark(Mark::CloseBrace, rest)?;
    Ok(((inits, to), rest))
}

#[cycle(inits)]
#[tactic(auto, using(crate::proofs::Opening::openings))]
fn braced(alloc: Global, levels: usize, tokens: &[Token]) -> Result<(InitText, &[Token]), Fault<'_>>
    ensures { Gives result (reader.braced_reader (below reader.init levels) tokens.now) }
{
    let (inner, rest) = open(Mark::OpenBrace, levels, tokens)?;
    let ((inits, _), rest) = up_to_brace(alloc, inner, rest)?;
    let span = span_of(tokens, rest);
    Ok((InitText::Many(inits, span), rest))
}

/// An initializer, with so many levels left to nest.
#[cycle(inits)]
#[tactic(auto, using(module_grammar::proofs::Unfold::init_below))]
fn init(alloc: Global, levels: usize, tokens: &[Token]) -> Result<(InitText, &[Token]), Fault<'_>>
    ensures { Gives result (reader.init levels tokens.now) }
{
    if starts_mark(Mark::OpenBrace, tokens) {
        return braced(alloc, levels, tokens);
    }
    let (value, rest) = expression(alloc, levels, tokens)?;
    Ok((InitText::One(value), rest))
}

/// A `=` and an initializer, if a `=` comes next.
///
/// # Errors
///
/// The first token with which no initializer goes on, or the first that nests deeper than `levels` levels.
pub fn first_value(
    alloc: Global,
    levels: usize,
    tokens: &[Token],
) -> Result<(Option<InitText>, &[Token]), Fault<'_>>
    ensures { Gives result (reader.first_value levels tokens.now) }
{
    if !starts_mark(Mark::Assign, tokens) {
        return Ok((None, tokens));
    }
    let (_, rest) = mark(Mark::Assign, tokens)?;
    let (value, rest) = init(alloc, levels, rest)?;
    Ok((Some(value), rest))
}
