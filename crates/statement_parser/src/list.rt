//! Lists of parts, each read by its own function, and the brackets around them.

ghost use Rattle.std.specs.Prelude.{◌≡◌, ◌<◌, [], ◌∷◌, ◌++◌, IfOk};
ghost use Rattle.ivory_lexer.specs.declared.Mark.TheVariants as marks;
ghost use Rattle.reading.specs.Reader.{after, at_least_one, below, many, mapped, separated};
ghost use Rattle.expression_grammar.specs.Tokens.{is_mark};
ghost use Rattle.expression_grammar.specs.Reader.{mark_reader};
ghost use Rattle.expression_parser.specs.Gives.{Gives};
ghost use Rattle.module_grammar.specs.StatementReader as reader;
ghost use Rattle.module_grammar.specs.ItemReader as items;
ghost use Rattle.statement_parser.specs.Parts as parts;

use expression_parser::{Fault, mark, starts_mark};
use iv_words::{Memory, Seq, Span};
use ivory_lexer::{Mark, Token};
use std::alloc::Global;

/// A part of a list.
pub trait Part {
    type Value: Drop;

    ghost use Rattle.std.specs.Prelude.{ℕ};
    ghost use Rattle.ivory_lexer.specs.declared.Token.{Token};
    ghost use Rattle.reading.specs.Reader.{Reader};
    ghost use Rattle.expression_parser.specs.Gives.{Gives};

    /// How it is read, with so many levels left to nest.
    ghost reader: { ℕ → Reader Token Self.Value };

    /// Reads one.
    fn read(
        alloc: Global,
        levels: usize,
        tokens: &[Token],
    ) -> Result<(Self::Value, &[Token]), Fault<'_>>
        ensures { Gives result (reader levels tokens.now) };
}

/// A part of which a list has as many as begin so.
pub trait Repeated: Part {
    ghost use Rattle.std.specs.Prelude.{◌≡◌, Bool};
    ghost use Rattle.ivory_lexer.specs.declared.Token.{Token};
    ghost use Rattle.reading.specs.Row.{starts};

    /// The tokens with which one begins.
    ghost first: { Token → Bool };

    /// Whether one comes next.
    fn starts(tokens: &[Token]) -> bool
        ensures { result ≡ starts first tokens.now };
}

/// These parts, and as many more as follow.
fn further<T: Repeated>(
    alloc: Global,
    levels: usize,
    first: Seq<T::Value>,
    tokens: &[Token],
) -> Result<(Seq<T::Value>, &[Token]), Fault<'_>>
    ensures { Gives result (mapped (λ more. first ++ more) (many T.first (T.Part.reader levels) tokens.now)) }
{
    let mut parts = first;
    let mut rest = tokens;
    // Each part takes a token at least.
    for _turn in 0..tokens.len() {
        if !T::starts(rest) {
            break;
        }
        let (next, after) = T::read(alloc, levels, rest)?;
        parts.push(next)?;
        rest = after;
    }
    Ok((parts, rest))
}

/// None or more, one behind the other.
pub fn as_many<T: Repeated>(
    alloc: Global,
    levels: usize,
    tokens: &[Token],
) -> Result<(Seq<T::Value>, &[Token]), Fault<'_>>
    ensures { Gives result (many T.first (T.Part.reader levels) tokens.now) }
{
    further::<T>(alloc, levels, Seq::new(alloc), tokens)
}

/// The list of this part alone, with room for it alone.
fn alone<V: Drop>(alloc: Global, part: V) -> Result<Seq<V>, Memory>
    ensures { IfOk result (λ parts. parts ≡ part ∷ []) }
{
    let mut parts = Seq::with_capacity(alloc, 1)?;
    parts.push(part)?;
    Ok(parts)
}

fn behind<T: Repeated>(
    alloc: Global,
    levels: usize,
    first: T::Value,
    tokens: &[Token],
) -> Result<(Seq<T::Value>, &[Token]), Fault<'_>>
    ensures { Gives result (mapped (λ more. first ∷ more) (many T.first (T.Part.reader levels) tokens.now)) }
{
    let first = alone(alloc, first)?;
    further::<T>(alloc, levels, first, tokens)
}

/// One or more, one behind the other.
pub fn at_least_one<T: Repeated>(
    alloc: Global,
    levels: usize,
    tokens: &[Token],
) -> Result<(Seq<T::Value>, &[Token]), Fault<'_>>
    ensures { Gives result (at_least_one T.first (T.Part.reader levels) tokens.now) }
{
    let (first, rest) = T::read(alloc, levels, tokens)?;
    behind::<T>(alloc, levels, first, rest)
}

fn next_part<T: Part>(
    alloc: Global,
    levels: usize,
    tokens: &[Token],
) -> Result<(T::Value, &[Token]), Fault<'_>>
    ensures { Gives result (after (mark_reader marks.Comma) (T.reader levels) tokens.now) }
{
    let (_, rest) = mark(Mark::Comma, tokens)?;
    T::read(alloc, levels, rest)
}

fn more_parts<T: Part>(
    alloc: Global,
    levels: usize,
    first: T::Value,
    tokens: &[Token],
) -> Result<(Seq<T::Value>, &[Token]), Fault<'_>>
    ensures { Gives result (mapped (λ more. first ∷ more) (many (is_mark marks.Comma) (after (mark_reader marks.Comma) (T.reader levels)) tokens.now)) }
{
    let mut parts = alone(alloc, first)?;
    let mut rest = tokens;
    // Each further one takes a token at least.
    for _turn in 0..tokens.len() {
        if !starts_mark(Mark::Comma, rest) {
            break;
        }
        let (next, after) = next_part::<T>(alloc, levels, rest)?;
        parts.push(next)?;
        rest = after;
    }
    Ok((parts, rest))
}

/// One or more, with a comma between each and the next.
pub fn with_commas<T: Part>(
    alloc: Global,
    levels: usize,
    tokens: &[Token],
) -> Result<(Seq<T::Value>, &[Token]), Fault<'_>>
    ensures { Gives result (separated (is_mark marks.Comma) (mark_reader marks.Comma) (T.reader levels) tokens.now) }
{
    let (first, rest) = T::read(alloc, levels, tokens)?;
    more_parts::<T>(alloc, levels, first, rest)
}

/// None or more, up to the `)`.
fn up_to_paren<T: Part>(
    alloc: Global,
    levels: usize,
    tokens: &[Token],
) -> Result<((Seq<T::Value>, Span), &[Token]), Fault<'_>>
    ensures { Gives result (reader.up_to_paren (T.reader levels) tokens.now) }
{
    if starts_mark(Mark::CloseParen, tokens) {
        let (to, rest) = mark(Mark::CloseParen, tokens)?;
        return Ok(((Seq::new(alloc), to), rest));
    }
    let (parts, rest) = with_commas::<T>(alloc, levels, tokens)?;
    let (to, rest) = mark(Mark::CloseParen, rest)?;
    Ok(((parts, to), rest))
}

/// Takes a bracket, and gives how many levels are left behind it.
///
/// # Errors
///
/// The bracket is too deep where no level is left.
#[tactic(auto, using(reading::proofs::Levels::levels))]
pub fn open(bracket: Mark, levels: usize, tokens: &[Token]) -> Result<(usize, &[Token]), Fault<'_>>
    ensures read { Gives result (parts.opening bracket levels tokens.now) }
    ensures fewer { IfOk result (λ opened. opened.0 < levels) }
{
    let (_, rest) = mark(bracket, tokens)?;
    if levels == 0 {
        return Err(Fault::TooDeep(tokens));
    }
    Ok((levels - 1, rest))
}

/// None or more between parentheses, with commas.
#[tactic(auto, using(crate::proofs::Opening::openings))]
pub fn in_parens<T: Part>(
    alloc: Global,
    levels: usize,
    tokens: &[Token],
) -> Result<(Seq<T::Value>, &[Token]), Fault<'_>>
    ensures { Gives result (reader.listed (below T.reader levels) tokens.now) }
{
    let (inner, rest) = open(Mark::OpenParen, levels, tokens)?;
    let ((parts, _), rest) = up_to_paren::<T>(alloc, inner, rest)?;
    Ok((parts, rest))
}

/// One between braces.
#[tactic(auto, using(crate::proofs::Opening::openings))]
pub fn in_braces<T: Part>(
    alloc: Global,
    levels: usize,
    tokens: &[Token],
) -> Result<(T::Value, &[Token]), Fault<'_>>
    ensures { Gives result (items.braces (below T.reader levels) tokens.now) }
{
    let (inner, rest) = open(Mark::OpenBrace, levels, tokens)?;
    let (part, rest) = T::read(alloc, inner, rest)?;
    let (_, rest) = mark(Mark::CloseBrace, rest)?;
    Ok((part, rest))
}
