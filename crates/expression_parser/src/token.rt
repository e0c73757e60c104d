ghost use Rattle.std.specs.Prelude.{◌≡◌};
ghost use Rattle.reading.specs.Row.{starts};
ghost use Rattle.reading.specs.Reader.{accept, front, mapped};
ghost use Rattle.expression_grammar.specs.Tokens as kinds;
ghost use Rattle.expression_grammar.specs.Reader.{mark_reader, key_reader};
ghost use Rattle.expression_parser.specs.Gives.{Gives};

use crate::fault::Fault;
use iv_words::{IntKind, Name, Span, Word};
use ivory_lexer::{Key, Mark, Token, TokenKind};
use std::alloc::Global;

fn is_mark(wanted: Mark, token: &Token) -> bool
    ensures { result ≡ kinds.is_mark wanted token.now }
{
    match token.kind {
        TokenKind::Mark(found) => wanted == found,
        _ => false,
    }
}

fn is_key(wanted: Key, token: &Token) -> bool
    ensures { result ≡ kinds.is_key wanted token.now }
{
    match token.kind {
        TokenKind::Key(found) => wanted == found,
        _ => false,
    }
}

/// Whether the next token is this symbol.
pub fn starts_mark(wanted: Mark, tokens: &[Token]) -> bool
    ensures { result ≡ starts (kinds.is_mark wanted) tokens.now }
{
    match tokens {
        [first, ..] => is_mark(wanted, first),
        [] => false,
    }
}

/// Whether the next token is this keyword.
pub fn starts_key(wanted: Key, tokens: &[Token]) -> bool
    ensures { result ≡ starts (kinds.is_key wanted) tokens.now }
{
    match tokens {
        [first, ..] => is_key(wanted, first),
        [] => false,
    }
}

/// Whether the next token is a name.
pub fn starts_name(tokens: &[Token]) -> bool
    ensures { result ≡ starts kinds.is_name tokens.now }
{
    match tokens {
        [
            Token {
                kind: TokenKind::Name(_),
                ..
            },
            ..
        ] => true,
        _ => false,
    }
}

/// Takes this symbol, and gives where it stands.
pub fn mark(wanted: Mark, tokens: &[Token]) -> Result<(Span, &[Token]), Fault<'_>>
    ensures { Gives result (mark_reader wanted tokens.now) }
{
    match tokens {
        [first, rest @ ..] if is_mark(wanted, first) => Ok((first.span, rest)),
        _ => Err(Fault::Unexpected(tokens)),
    }
}

/// Takes this symbol behind a value.
pub fn followed_by<'a, A: Drop>(
    value: A,
    wanted: Mark,
    tokens: &'a [Token],
) -> Result<(A, &'a [Token]), Fault<'a>>
    ensures { Gives result (mapped (λ at. value) (mark_reader wanted tokens.now)) }
{
    let (_, rest) = mark(wanted, tokens)?;
    Ok((value, rest))
}

/// Takes this keyword, and gives where it stands.
pub fn keyword(wanted: Key, tokens: &[Token]) -> Result<(Span, &[Token]), Fault<'_>>
    ensures { Gives result (key_reader wanted tokens.now) }
{
    match tokens {
        [first, rest @ ..] if is_key(wanted, first) => Ok((first.span, rest)),
        _ => Err(Fault::Unexpected(tokens)),
    }
}

/// Takes a name, and gives its bytes.
pub fn word(alloc: Global, tokens: &[Token]) -> Result<(Word, &[Token]), Fault<'_>>
    ensures { Gives result (accept kinds.word_of tokens.now) }
{
    match tokens {
        [
            Token {
                kind: TokenKind::Name(text),
                ..
            },
            rest @ ..,
        ] => Ok((text.copy(alloc)?, rest)),
        _ => Err(Fault::Unexpected(tokens)),
    }
}

/// Takes a name, and gives it with its place.
pub fn name(alloc: Global, tokens: &[Token]) -> Result<(Name, &[Token]), Fault<'_>>
    ensures { Gives result (accept kinds.name_of tokens.now) }
{
    match tokens {
        [
            Token {
                kind: TokenKind::Name(text),
                span,
            },
            rest @ ..,
        ] => {
            let name = Name {
                text: text.copy(alloc)?,
                span: *span,
            };
            Ok((name, rest))
        }
        _ => Err(Fault::Unexpected(tokens)),
    }
}

/// Takes a number.
pub fn number(tokens: &[Token]) -> Result<(u64, &[Token]), Fault<'_>>
    ensures { Gives result (accept kinds.number_of tokens.now) }
{
    match tokens {
        [
            Token {
                kind: TokenKind::Number(value),
                ..
            },
            rest @ ..,
        ] => Ok((*value, rest)),
        _ => Err(Fault::Unexpected(tokens)),
    }
}

/// Takes `true` or `false`.
pub fn truth(tokens: &[Token]) -> Result<(bool, &[Token]), Fault<'_>>
    ensures { Gives result (accept kinds.truth_of tokens.now) }
{
    match tokens {
        [
            Token {
                kind: TokenKind::Key(Key::KwTrue),
                ..
            },
            rest @ ..,
        ] => Ok((true, rest)),
        [
            Token {
                kind: TokenKind::Key(Key::KwFalse),
                ..
            },
            rest @ ..,
        ] => Ok((false, rest)),
        _ => Err(Fault::Unexpected(tokens)),
    }
}

fn int_of_kind(kind: &TokenKind) -> Option<IntKind>
    ensures { result ≡ kinds.int_of_kind kind.now }
{
    match kind {
        TokenKind::Key(Key::KwUint8t) => Some(IntKind::U8),
        TokenKind::Key(Key::KwUint16t) => Some(IntKind::U16),
        TokenKind::Key(Key::KwUint32t) => Some(IntKind::U32),
        TokenKind::Key(Key::KwUint64t) => Some(IntKind::U64),
        TokenKind::Key(Key::KwInt8t) => Some(IntKind::I8),
        TokenKind::Key(Key::KwInt16t) => Some(IntKind::I16),
        TokenKind::Key(Key::KwInt32t) => Some(IntKind::I32),
        TokenKind::Key(Key::KwInt64t) => Some(IntKind::I64),
        _ => None,
    }
}

/// Takes the keyword of a kind of whole numbers.
pub fn int_kind(tokens: &[Token]) -> Result<(IntKind, &[Token]), Fault<'_>>
    ensures { Gives result (accept kinds.int_of tokens.now) }
{
    match tokens {
        [first, rest @ ..] => match int_of_kind(&first.kind) {
            Some(kind) => Ok((kind, rest)),
            None => Err(Fault::Unexpected(tokens)),
        },
        [] => Err(Fault::Unexpected(tokens)),
    }
}

/// From the first of the tokens that were read to the last, where the rest is left.
#[tactic(auto, unfolding(reading::specs::Reader::front, expression_grammar::specs::Tokens::span_of))]
pub fn span_of(tokens: &[Token], rest: &[Token]) -> Span
    ensures { result ≡ kinds.span_of (front tokens.now rest.now) }
{
    let read = &tokens[..tokens.len().saturating_sub(rest.len())];
    match (read.first(), read.last()) {
        (Some(first), Some(last)) => Span {
            start: first.span.start,
            end: last.span.end,
        },
        _ => Span { start: 0, end: 0 },
    }
}
