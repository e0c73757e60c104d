//! Items: bit data, structs, areas, imports and procedures.

ghost use Rattle.std.specs.Prelude.{◌≡◌};
ghost use Rattle.expression_parser.specs.Gives.{Gives};
ghost use Rattle.module_grammar.specs.ItemReader as reader;

use crate::contracts::contracts;
use crate::fields::{bit_fields, struct_fields};
use crate::header::header;
use expression_parser::{Fault, int_kind, keyword, mark, name, span_of};
use ivory_lexer::{Key, Mark, Token};
use ivory_tree::{AreaItem, BitsItem, Header, Item, ProcItem, StructItem};
use module_grammar::{ItemForm, item_form};
use statement_parser::{area_text, block, first_value, optional_keyword};
use std::alloc::Global;

fn bits(alloc: Global, levels: usize, tokens: &[Token]) -> Result<(Item, &[Token]), Fault<'_>>
    ensures { Gives result (reader.bits_reader levels tokens.now) }
{
    let (_, rest) = keyword(Key::KwBitdata, tokens)?;
    let (name, rest) = name(alloc, rest)?;
    let (_, rest) = mark(Mark::Colon, rest)?;
    let (word, rest) = int_kind(rest)?;
    let (fields, rest) = bit_fields(alloc, levels, rest)?;
    let item = BitsItem {
        name,
        word,
        fields,
        span: span_of(tokens, rest),
    };
    Ok((Item::Bits(item), rest))
}

fn structure(alloc: Global, levels: usize, tokens: &[Token]) -> Result<(Item, &[Token]), Fault<'_>>
    ensures { Gives result (reader.structure_reader levels tokens.now) }
{
    let (_, rest) = keyword(Key::KwStruct, tokens)?;
    let (name, rest) = name(alloc, rest)?;
    let (fields, rest) = struct_fields(alloc, levels, rest)?;
    let item = StructItem {
        name,
        fields,
        span: span_of(tokens, rest),
    };
    Ok((Item::Struct(item), rest))
}

fn area(alloc: Global, levels: usize, tokens: &[Token]) -> Result<(Item, &[Token]), Fault<'_>>
    ensures { Gives result (reader.area_reader levels tokens.now) }
{
    let (constant, rest) = optional_keyword(Key::KwConst, tokens);
    let (_, rest) = keyword(Key::KwArea, rest)?;
    let (name, rest) = name(alloc, rest)?;
    let (_, rest) = mark(Mark::Colon, rest)?;
    let (area, rest) = area_text(alloc, levels, rest)?;
    let (init, rest) = first_value(alloc, levels, rest)?;
    let (_, rest) = mark(Mark::Semicolon, rest)?;
    let item = AreaItem {
        name,
        constant: constant.is_some(),
        area,
        init,
        span: span_of(tokens, rest),
    };
    Ok((Item::Area(item), rest))
}

/// An import, whose header has the place of the item.
fn import(alloc: Global, levels: usize, tokens: &[Token]) -> Result<(Item, &[Token]), Fault<'_>>
    ensures { Gives result (reader.import_reader levels tokens.now) }
{
    let (_, rest) = keyword(Key::KwImport, tokens)?;
    let (header, rest) = header(alloc, levels, rest)?;
    let (_, rest) = mark(Mark::Semicolon, rest)?;
    let header = Header {
        span: span_of(tokens, rest),
        ..header
    };
    Ok((Item::Import(header), rest))
}

fn procedure(alloc: Global, levels: usize, tokens: &[Token]) -> Result<(Item, &[Token]), Fault<'_>>
    ensures { Gives result (reader.procedure_reader levels tokens.now) }
{
    let (exported, rest) = optional_keyword(Key::KwExport, tokens);
    let (_, rest) = keyword(Key::KwProc, rest)?;
    let (header, rest) = header(alloc, levels, rest)?;
    let (contracts, rest) = contracts(alloc, levels, rest)?;
    let (body, rest) = block(alloc, levels, rest)?;
    let item = ProcItem {
        exported: exported.is_some(),
        header,
        contracts,
        body,
        span: span_of(tokens, rest),
    };
    Ok((Item::Proc(item), rest))
}

fn of_form(
    alloc: Global,
    form: ItemForm,
    levels: usize,
    tokens: &[Token],
) -> Result<(Item, &[Token]), Fault<'_>>
    ensures { Gives result (reader.form_reader levels form tokens.now) }
{
    match form {
        ItemForm::Bits => bits(alloc, levels, tokens),
        ItemForm::Struct => structure(alloc, levels, tokens),
        ItemForm::Area => area(alloc, levels, tokens),
        ItemForm::Import => import(alloc, levels, tokens),
    }
}

/// An item. Where no other form begins so, a procedure is wanted.
#[tactic(auto, unfolding(module_grammar::specs::ItemReader::item))]
pub fn item(alloc: Global, levels: usize, tokens: &[Token]) -> Result<(Item, &[Token]), Fault<'_>>
    ensures { Gives result (reader.item levels tokens.now) }
{
    match tokens {
        [first, ..] => match item_form(&first.kind) {
            Some(form) => of_form(alloc, form, levels, tokens),
            None => procedure(alloc, levels, tokens),
        },
        [] => procedure(alloc, levels, tokens),
    }
}
