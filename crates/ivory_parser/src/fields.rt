//! The fields of bit data and of structs, between their braces.

ghost use Rattle.std.specs.Prelude.{◌≡◌};
ghost use Rattle.reading.specs.Reader.{accept, below};
ghost use Rattle.expression_parser.specs.Gives.{Gives};
ghost use Rattle.module_grammar.specs.Tokens.{width_of, width_of_kind};
ghost use Rattle.module_grammar.specs.ItemReader as reader;

use expression_parser::{Fault, mark, name, span_of, starts_name};
use iv_words::Seq;
use ivory_lexer::{Key, Mark, Token, TokenKind};
use ivory_tree::{AreaField, BitField};
use statement_parser::{Part, Repeated, area_text, at_least_one, in_braces, with_commas};
use std::alloc::Global;

// ---- of bit data

/// The width that a token of this kind gives a field, and whether it makes it a truth.
fn width_of_kind(kind: &TokenKind) -> Option<(u64, bool)>
    ensures { result ≡ width_of_kind kind.now }
{
    match kind {
        TokenKind::Number(bits) => Some((*bits, false)),
        TokenKind::Key(Key::KwBool) => Some((1, true)),
        _ => None,
    }
}

fn width(tokens: &[Token]) -> Result<((u64, bool), &[Token]), Fault<'_>>
    ensures { Gives result (accept width_of tokens.now) }
{
    match tokens {
        [first, rest @ ..] => match width_of_kind(&first.kind) {
            Some(width) => Ok((width, rest)),
            None => Err(Fault::Unexpected(tokens)),
        },
        [] => Err(Fault::Unexpected(tokens)),
    }
}

fn bit_field(alloc: Global, tokens: &[Token]) -> Result<(BitField, &[Token]), Fault<'_>>
    ensures { Gives result (reader.bit_field tokens.now) }
{
    let (name, rest) = name(alloc, tokens)?;
    let (_, rest) = mark(Mark::Colon, rest)?;
    let ((width, truth), rest) = width(rest)?;
    let field = BitField {
        name,
        width,
        truth,
        span: span_of(tokens, rest),
    };
    Ok((field, rest))
}

/// A field of bit data.
struct Bits;

impl Part for Bits {
    ghost use Rattle.module_grammar.specs.ItemReader.{bit_field};

    type Value = BitField;

    ghost reader = { λ _. bit_field };

    fn read(
        alloc: Global,
        _levels: usize,
        tokens: &[Token],
    ) -> Result<(BitField, &[Token]), Fault<'_>> {
        bit_field(alloc, tokens)
    }
}

/// One or more of them, with commas.
struct AllBits;

impl Part for AllBits {
    ghost use Rattle.module_grammar.specs.ItemReader.{bit_fields};

    type Value = Seq<BitField>;

    ghost reader = { λ _. bit_fields };

    fn read(
        alloc: Global,
        levels: usize,
        tokens: &[Token],
    ) -> Result<(Seq<BitField>, &[Token]), Fault<'_>> {
        with_commas::<Bits>(alloc, levels, tokens)
    }
}

/// The fields of bit data between braces.
pub fn bit_fields(
    alloc: Global,
    levels: usize,
    tokens: &[Token],
) -> Result<(Seq<BitField>, &[Token]), Fault<'_>>
    ensures { Gives result (reader.braces (below (λ _. reader.bit_fields) levels) tokens.now) }
{
    in_braces::<AllBits>(alloc, levels, tokens)
}

// ---- of structs

fn struct_field(
    alloc: Global,
    levels: usize,
    tokens: &[Token],
) -> Result<(AreaField, &[Token]), Fault<'_>>
    ensures { Gives result (reader.struct_field levels tokens.now) }
{
    let (name, rest) = name(alloc, tokens)?;
    let (_, rest) = mark(Mark::Colon, rest)?;
    let (area, rest) = area_text(alloc, levels, rest)?;
    let (_, rest) = mark(Mark::Semicolon, rest)?;
    let span = span_of(tokens, rest);
    Ok((AreaField { name, area, span }, rest))
}

/// A field of a struct.
struct Member;

impl Part for Member {
    ghost use Rattle.module_grammar.specs.ItemReader.{struct_field};

    type Value = AreaField;

    ghost reader = { struct_field };

    fn read(
        alloc: Global,
        levels: usize,
        tokens: &[Token],
    ) -> Result<(AreaField, &[Token]), Fault<'_>> {
        struct_field(alloc, levels, tokens)
    }
}

impl Repeated for Member {
    ghost use Rattle.expression_grammar.specs.Tokens.{is_name};

    ghost first = { is_name };

    fn starts(tokens: &[Token]) -> bool {
        starts_name(tokens)
    }
}

/// One or more of them.
struct Members;

impl Part for Members {
    ghost use Rattle.module_grammar.specs.ItemReader.{struct_fields};

    type Value = Seq<AreaField>;

    ghost reader = { struct_fields };

    fn read(
        alloc: Global,
        levels: usize,
        tokens: &[Token],
    ) -> Result<(Seq<AreaField>, &[Token]), Fault<'_>> {
        at_least_one::<Member>(alloc, levels, tokens)
    }
}

/// The fields of a struct between braces.
pub fn struct_fields(
    alloc: Global,
    levels: usize,
    tokens: &[Token],
) -> Result<(Seq<AreaField>, &[Token]), Fault<'_>>
    ensures { Gives result (reader.braces (below reader.struct_fields levels) tokens.now) }
{
    in_braces::<Members>(alloc, levels, tokens)
}
