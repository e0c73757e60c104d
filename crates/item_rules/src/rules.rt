//! The rules that may be broken at an item, and the least of them.

ghost use Rattle.std.specs.Prelude.{◌≡◌, IfOk, Some, None, if◌then◌else◌, min, map, sum_by};
ghost use Rattle.iv_words.specs.Kinds.{width, is_signed};
ghost use Rattle.ivory_tree.specs.View.{item_of, field_of};
ghost use Rattle.ivory_tree.specs.declared.BitField.{BitField as Field};
ghost use Rattle.rule_checker.specs.Contexts.{earlier_of};
ghost use Rattle.rule_checker.specs.Rows.{least};
ghost use Rattle.source_types.specs.Environments as earlier;
ghost use Rattle.item_rules.specs.Rules as rows;

use crate::sizes::is_great_struct;
use iv_words::{IntKind, Memory, Word};
use ivory_tree::{AreaField, BitField, BitsItem, Item};
use rule_checker::{Items, is_area, is_bits, is_callee, is_struct, when};
use std::alloc::Global;

/// The number of bits of an unsigned kind.
fn unsigned_width(word: IntKind) -> Option<u64>
    ensures { result ≡ (if is_signed word then None else Some (width word)) }
{
    match word {
        IntKind::U8 => Some(8),
        IntKind::U16 => Some(16),
        IntKind::U32 => Some(32),
        IntKind::U64 => Some(64),
        IntKind::I8 | IntKind::I16 | IntKind::I32 | IntKind::I64 => None,
    }
}

/// The number of bits of all fields, or the greatest number of 64 bits where they are more.
fn bits_of(fields: &[BitField]) -> u64
    ensures { result ≡ min (sum_by (λ (f : Field). f.width) fields.now) 18_446_744_073_709_551_615 }
{
    let mut bits: u64 = 0;
    for field in fields {
        bits = bits.saturating_add(field.width);
    }
    bits
}

/// Whether the fields do not fill the word, or the word has a sign.
fn is_misfit(item: &BitsItem) -> bool
    ensures { result ≡ rows.is_misfit item.now }
{
    match unsigned_width(item.word) {
        Some(width) => bits_of(item.fields.as_slice()) != width,
        None => true,
    }
}

fn is_type_name(items: &Items, name: &Word) -> bool
    ensures { result ≡ earlier.is_type_name (earlier_of items.now) name.now }
{
    is_struct(items, name) || is_bits(items, name)
}

fn is_item(items: &Items, name: &Word) -> bool
    ensures { result ≡ earlier.is_item (earlier_of items.now) name.now }
{
    is_area(items, name) || is_callee(items, name)
}

fn bits_rule(items: &Items, item: &BitsItem) -> Option<u8>
    ensures { result ≡ least (rows.bits_rows (earlier_of items.now) item.now) }
{
    if is_type_name(items, &item.name.text) {
        return Some(2);
    }
    when(is_misfit(item), 10)
}

fn struct_rule(
    alloc: Global,
    items: &Items,
    name: &Word,
    fields: &[AreaField],
) -> Result<Option<u8>, Memory>
    ensures { IfOk result (λ rule. rule ≡ least (rows.struct_rows (earlier_of items.now) name.now (map field_of fields.now))) }
{
    if is_type_name(items, name) {
        return Ok(Some(2));
    }
    Ok(when(is_great_struct(alloc, items, fields)?, 9))
}

fn named_rule(items: &Items, name: &Word) -> Option<u8>
    ensures { result ≡ least (rows.named_rows (earlier_of items.now) name.now) }
{
    when(is_item(items, name), 1)
}

/// The least rule that is broken at an item.
pub(crate) fn item_rule(alloc: Global, items: &Items, item: &Item) -> Result<Option<u8>, Memory>
    ensures { IfOk result (λ rule. rule ≡ least (rows.item_rows (earlier_of items.now) (item_of item.now))) }
{
    match item {
        Item::Bits(item) => Ok(bits_rule(items, item)),
        Item::Struct(item) => struct_rule(alloc, items, &item.name.text, item.fields.as_slice()),
        Item::Area(item) => Ok(named_rule(items, &item.name.text)),
        Item::Import(header) => Ok(named_rule(items, &header.name.text)),
        Item::Proc(item) => Ok(named_rule(items, &item.header.name.text)),
    }
}
