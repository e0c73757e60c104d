//! The header of an import or a procedure: its name, its parameters and its result.

ghost use Rattle.expression_parser.specs.Gives.{Gives};
ghost use Rattle.module_grammar.specs.ItemReader as reader;

use expression_parser::{Fault, mark, name, span_of, starts_mark};
use ivory_lexer::{Mark, Token};
use ivory_tree::{Header, Param, TypeText};
use statement_parser::{Part, in_parens, type_text};
use std::alloc::Global;

/// A parameter with its type.
struct TypedName;

impl Part for TypedName {
    ghost use Rattle.module_grammar.specs.ItemReader.{parameter};

    type Value = Param;

    ghost reader = { parameter };

    fn read(
        alloc: Global,
        levels: usize,
        tokens: &[Token],
    ) -> Result<(Param, &[Token]), Fault<'_>> {
        parameter(alloc, levels, tokens)
    }
}

fn parameter(alloc: Global, levels: usize, tokens: &[Token]) -> Result<(Param, &[Token]), Fault<'_>>
    ensures { Gives result (reader.parameter levels tokens.now) }
{
    let (name, rest) = name(alloc, tokens)?;
    let (_, rest) = mark(Mark::Colon, rest)?;
    let (ty, rest) = type_text(alloc, levels, rest)?;
    let span = span_of(tokens, rest);
    Ok((Param { name, ty, span }, rest))
}

/// A `->` and the type of a result, if a `->` comes next.
fn result_type(
    alloc: Global,
    levels: usize,
    tokens: &[Token],
) -> Result<(Option<TypeText>, &[Token]), Fault<'_>>
    ensures { Gives result (reader.result levels tokens.now) }
{
    if !starts_mark(Mark::Arrow, tokens) {
        return Ok((None, tokens));
    }
    let (_, rest) = mark(Mark::Arrow, tokens)?;
    let (ty, rest) = type_text(alloc, levels, rest)?;
    Ok((Some(ty), rest))
}

/// A header, from its name to its result or its `)`.
#[tactic(auto, unfolding(module_grammar::specs::ItemReader::header))]
pub fn header(
    alloc: Global,
    levels: usize,
    tokens: &[Token],
) -> Result<(Header, &[Token]), Fault<'_>>
    ensures { Gives result (reader.header levels tokens.now) }
{
    let (name, rest) = name(alloc, tokens)?;
    let (params, rest) = in_parens::<TypedName>(alloc, levels, rest)?;
    let (result, rest) = result_type(alloc, levels, rest)?;
    let header = Header {
        name,
        params,
        result,
        span: span_of(tokens, rest),
    };
    Ok((header, rest))
}
