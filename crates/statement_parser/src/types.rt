ghost use Rattle.std.specs.Prelude.{◌≡◌};
ghost use Rattle.reading.specs.Row.{starts};
ghost use Rattle.reading.specs.Reader.{Done, accept, optional};
ghost use Rattle.expression_grammar.specs.Tokens.{is_key};
ghost use Rattle.expression_grammar.specs.Reader.{key_reader};
ghost use Rattle.expression_parser.specs.Gives.{Gives};
ghost use Rattle.module_grammar.specs.Tokens.{region_of};
ghost use Rattle.module_grammar.specs.TypeReader as reader;
ghost use Rattle.statement_parser.specs.Parts as parts;

use crate::area::area_text;
use crate::list::open;
use expression_parser::{Fault, int_kind, keyword, mark, number, span_of, starts_key, word};
use iv_words::Span;
use ivory_lexer::{Key, Mark, Token, TokenKind};
use ivory_tree::{RefText, RegionText, TypeKind, TypeText};
use module_grammar::{ValueForm, value_form};
use std::alloc::Global;

/// Takes this keyword if it comes next, and gives where it stands.
pub fn optional_keyword(wanted: Key, tokens: &[Token]) -> (Option<Span>, &[Token])
    ensures { optional (is_key wanted) (key_reader wanted) tokens.now ≡ Done result.0 result.1.now }
{
    match tokens {
        [first, rest @ ..] if starts_key(wanted, tokens) => (Some(first.span), rest),
        _ => (None, tokens),
    }
}

/// A number between parentheses.
#[tactic(auto, using(crate::proofs::Opening::openings))]
pub fn number_within(levels: usize, tokens: &[Token]) -> Result<(u64, &[Token]), Fault<'_>>
    ensures { Gives result (reader.number_within levels tokens.now) }
{
    let (_, rest) = open(Mark::OpenParen, levels, tokens)?;
    let (length, rest) = number(rest)?;
    let (_, rest) = mark(Mark::CloseParen, rest)?;
    Ok((length, rest))
}

fn of_form(
    form: ValueForm,
    levels: usize,
    tokens: &[Token],
) -> Result<(TypeKind, &[Token]), Fault<'_>>
    ensures { Gives result (reader.value_form_reader levels form tokens.now) }
{
    match form {
        ValueForm::Truth => {
            let (_, rest) = keyword(Key::KwBool, tokens)?;
            Ok((TypeKind::Bool, rest))
        }
        ValueForm::Whole => {
            let (int, rest) = int_kind(tokens)?;
            Ok((TypeKind::Int(int), rest))
        }
        ValueForm::Index => {
            let (_, rest) = keyword(Key::KwIx, tokens)?;
            let (length, rest) = number_within(levels, rest)?;
            Ok((TypeKind::Ix(length), rest))
        }
    }
}

fn bits(alloc: Global, tokens: &[Token]) -> Result<(TypeKind, &[Token]), Fault<'_>>
    ensures { Gives result (parts.bits tokens.now) }
{
    let (name, rest) = word(alloc, tokens)?;
    Ok((TypeKind::Bits(name), rest))
}

/// A type whose values are stored as they are.
#[tactic(auto, unfolding(module_grammar::specs::TypeReader::value_reader))]
pub fn value(
    alloc: Global,
    levels: usize,
    tokens: &[Token],
) -> Result<(TypeKind, &[Token]), Fault<'_>>
    ensures { Gives result (reader.value_reader levels tokens.now) }
{
    match tokens {
        [first, ..] => match value_form(&first.kind) {
            Some(form) => of_form(form, levels, tokens),
            None => bits(alloc, tokens),
        },
        [] => Err(Fault::Unexpected(tokens)),
    }
}

fn region(alloc: Global, tokens: &[Token]) -> Result<(RegionText, &[Token]), Fault<'_>>
    ensures { Gives result (accept region_of tokens.now) }
{
    match tokens {
        [
            Token {
                kind: TokenKind::Key(Key::KwGlobal),
                ..
            },
            rest @ ..,
        ] => Ok((RegionText::Global, rest)),
        [
            Token {
                kind: TokenKind::Name(name),
                ..
            },
            rest @ ..,
        ] => Ok((RegionText::Named(name.copy(alloc)?), rest)),
        _ => Err(Fault::Unexpected(tokens)),
    }
}

fn reference(
    alloc: Global,
    levels: usize,
    tokens: &[Token],
) -> Result<(TypeKind, &[Token]), Fault<'_>>
    ensures { Gives result (reader.reference_reader levels tokens.now) }
{
    let (constant, rest) = optional_keyword(Key::KwConst, tokens);
    let (_, rest) = keyword(Key::KwRef, rest)?;
    let (region, rest) = region(alloc, rest)?;
    let (area, rest) = area_text(alloc, levels, rest)?;
    let reference = RefText {
        constant: constant.is_some(),
        region,
        area,
    };
    Ok((TypeKind::Ref(reference), rest))
}

fn starts_reference(tokens: &[Token]) -> bool
    ensures { result ≡ starts reader.begins_reference tokens.now }
{
    starts_key(Key::KwConst, tokens) || starts_key(Key::KwRef, tokens)
}

/// A type, with so many levels left to nest.
///
/// # Errors
///
/// The first token with which no type goes on, or the first that nests deeper than `levels` levels.
#[tactic(auto, unfolding(module_grammar::specs::TypeReader::type_))]
pub fn type_text(
    alloc: Global,
    levels: usize,
    tokens: &[Token],
) -> Result<(TypeText, &[Token]), Fault<'_>>
    ensures { Gives result (reader.type_ levels tokens.now) }
{
    let (kind, rest) = if starts_reference(tokens) {
        reference(alloc, levels, tokens)?
    } else {
        value(alloc, levels, tokens)?
    };
    let span = span_of(tokens, rest);
    Ok((TypeText { kind, span }, rest))
}
