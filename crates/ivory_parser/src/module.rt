//! Whole modules.

ghost use Rattle.reading.specs.Reader.{ended};
ghost use Rattle.expression_parser.specs.Gives.{Gives};
ghost use Rattle.module_grammar.specs.ItemReader as reader;

use crate::item::item;
use expression_parser::{Fault, keyword, mark, name, span_of};
use ivory_lexer::{Key, Mark, Token};
use ivory_tree::{Item, Module};
use statement_parser::{Part, Repeated, as_many};
use std::alloc::Global;

/// An item of a module, which every token begins.
struct AnyItem;

impl Part for AnyItem {
    ghost use Rattle.module_grammar.specs.ItemReader.{item};

    type Value = Item;

    ghost reader = { item };

    fn read(alloc: Global, levels: usize, tokens: &[Token]) -> Result<(Item, &[Token]), Fault<'_>> {
        item(alloc, levels, tokens)
    }
}

impl Repeated for AnyItem {
    ghost use Rattle.std.specs.Prelude.{true};

    ghost first = { λ _. true };

    fn starts(tokens: &[Token]) -> bool {
        match tokens {
            [_, ..] => true,
            [] => false,
        }
    }
}

#[tactic(auto, unfolding(module_grammar::specs::ItemReader::module_))]
fn module(alloc: Global, levels: usize, tokens: &[Token]) -> Result<(Module, &[Token]), Fault<'_>>
    ensures { Gives result (reader.module_ levels tokens.now) }
{
    let (_, rest) = keyword(Key::KwModule, tokens)?;
    let (name, rest) = name(alloc, rest)?;
    let (_, rest) = mark(Mark::Semicolon, rest)?;
    let (items, rest) = as_many::<AnyItem>(alloc, levels, rest)?;
    let module = Module {
        name,
        items,
        span: span_of(tokens, rest),
    };
    Ok((module, rest))
}

/// A module behind which nothing stands.
pub fn whole_module(
    alloc: Global,
    levels: usize,
    tokens: &[Token],
) -> Result<(Module, &[Token]), Fault<'_>>
    ensures { Gives result (ended (reader.module_ levels tokens.now)) }
{
    let (module, rest) = module(alloc, levels, tokens)?;
    match rest {
        [] => Ok((module, rest)),
        [_, ..] => Err(Fault::Unexpected(rest)),
    }
}
