//! Names and what they stand for. The first of a name counts, where there are several. All searches stand here.

ghost use Rattle.std.specs.Prelude.{◌≡◌, ◌≤◌, length, map, option_map, slice_get};
ghost use Rattle.std.specs.List.{position_from};
ghost use Rattle.std.specs.Option.{option_copied};
ghost use Rattle.iv_words.specs.Words.{same_word};
ghost use Rattle.area_types.specs.View.{struct_of, field_of};
ghost use Rattle.source_types.specs.Environments as earlier;
ghost use Rattle.rule_faults.specs.Contexts.{in_scope};
ghost use Rattle.rule_checker.specs.Contexts.{earlier_of, area_entry_of, callee_entry_of, local_of, context_of};
ghost use Rattle.rule_checker.specs.Lookups.{local_named, bit_field_in, field_in};

use crate::items::{AreaEntry, CalleeEntry, Items};
use crate::scope::{Context, Local};
use area_types::{FieldDef, StructDef};
use iv_words::Word;
use ivory_tree::{BitField, BitsItem};

pub fn has_word(names: &[Word], name: &Word) -> bool
    ensures { result ≡ earlier.has_word names.now name.now }
{
    for known in names {
        if *known == *name {
            return true;
        }
    }
    false
}

/// The number of the bit data of the name.
pub(crate) fn number_of_bits(items: &Items, name: &Word) -> Option<u32>
    ensures { result ≡ earlier.number_of_bits (earlier_of items.now) name.now }
{
    match items.bit_names.position(name) {
        Some(number) => Some(number as u32),
        None => None,
    }
}

/// The number of the struct of the name.
pub(crate) fn number_of_struct(items: &Items, name: &Word) -> Option<u32>
    ensures { result ≡ earlier.number_of_struct (earlier_of items.now) name.now }
{
    match items.struct_names.position(name) {
        Some(number) => Some(number as u32),
        None => None,
    }
}

pub(crate) fn area_named<'a>(items: &'a Items, name: &Word) -> Option<&'a AreaEntry>
    ensures { option_map area_entry_of (option_copied result) ≡ earlier.area_named (earlier_of items.now) name.now }
{
    match items.area_names.position(name) {
        Some(number) => items.areas.get(number),
        None => None,
    }
}

pub fn callee_named<'a>(items: &'a Items, name: &Word) -> Option<&'a CalleeEntry>
    ensures { option_map callee_entry_of (option_copied result) ≡ earlier.callee_named (earlier_of items.now) name.now }
{
    match items.callee_names.all.position(name) {
        Some(number) => items.callees.get(number),
        None => None,
    }
}

pub fn is_area(items: &Items, name: &Word) -> bool
    ensures { result ≡ earlier.is_area (earlier_of items.now) name.now }
{
    items.area_names.contains(name)
}

pub fn is_callee(items: &Items, name: &Word) -> bool
    ensures { result ≡ earlier.is_callee (earlier_of items.now) name.now }
{
    items.callee_names.all.contains(name)
}

#[tactic(auto, using(name_lists::proofs::Positions::position_is_any))]
pub fn is_struct(items: &Items, name: &Word) -> bool
    ensures { result ≡ earlier.is_struct (earlier_of items.now) name.now }
{
    number_of_struct(items, name).is_some()
}

#[tactic(auto, using(name_lists::proofs::Positions::position_is_any))]
pub fn is_bits(items: &Items, name: &Word) -> bool
    ensures { result ≡ earlier.is_bits (earlier_of items.now) name.now }
{
    number_of_bits(items, name).is_some()
}

pub(crate) fn in_scope(context: &Context, name: &Word) -> bool
    ensures { result ≡ in_scope (context_of context.now) name.now }
{
    for local in context.scope.iter() {
        if local.name == *name {
            return true;
        }
    }
    false
}

/// The local name in scope.
pub(crate) fn local_named<'a>(context: &'a Context, name: &Word) -> Option<&'a Local>
    ensures { option_map local_of (option_copied result) ≡ local_named (context_of context.now) name.now }
{
    for local in context.scope.iter() {
        if local.name == *name {
            return Some(local);
        }
    }
    None
}

/// The field of the name, among those of bit data.
pub(crate) fn bit_field_in<'a>(fields: &'a [BitField], name: &Word) -> Option<&'a BitField>
    ensures { option_copied result ≡ bit_field_in fields.now name.now }
{
    for field in fields {
        if field.name.text == *name {
            return Some(field);
        }
    }
    None
}

/// The field of the name, among those of a struct.
pub(crate) fn field_in<'a>(fields: &'a [FieldDef], name: &Word) -> Option<&'a FieldDef>
    ensures { option_map field_of (option_copied result) ≡ field_in (map field_of fields.now) name.now }
{
    for field in fields {
        if field.name == *name {
            return Some(field);
        }
    }
    None
}

pub(crate) fn bits_at(items: &Items, number: u32) -> Option<&BitsItem>
    ensures { option_copied result ≡ slice_get (earlier_of items.now).bits number }
{
    items.bits.get(number as usize)
}

pub(crate) fn struct_at(items: &Items, number: u32) -> Option<&StructDef>
    ensures { option_map struct_of (option_copied result) ≡ slice_get (earlier_of items.now).structs number }
{
    items.structs.get(number as usize)
}

/// The number of the region parameter of the name.
pub(crate) fn region_number(regions: &[Word], name: &Word) -> Option<u32>
    requires { length regions.now ≤ 4_294_967_296 }
    ensures { result ≡ position_from (λ n. same_word n name.now) 0 regions.now }
{
    for (number, region) in regions.iter().enumerate() {
        if *region == *name {
            return Some(number as u32);
        }
    }
    None
}
