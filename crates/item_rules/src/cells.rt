//! Whether an area consists of bools and whole numbers.

ghost use Rattle.std.specs.Prelude.{◌≡◌, IfOk, not, map, option_map};
ghost use Rattle.area_types.specs.View.{type_of, area_of, field_of, struct_of};
ghost use Rattle.rule_checker.specs.Contexts.{earlier_of};
ghost use Rattle.rule_faults.specs.ItemRules as rules;
ghost use Rattle.rule_faults.specs.Tests.{where_there};
ghost use Rattle.item_rules.specs.Cells as cells;

use area_types::{Area, FieldDef, StructDef, ValueType};
use iv_words::{Memory, Seq};
use rule_checker::{Items, TypeRef, is_plain};
use std::alloc::Global;

/// Whether the struct of that number does; one that is not there has no cells.
fn is_plain_struct(known: &[bool], number: u32) -> bool
    ensures { result ≡ cells.plain_struct known.now number }
{
    match known.get(number as usize) {
        Some(plain) => *plain,
        None => true,
    }
}

fn is_plain_area(known: &[bool], area: &Area) -> bool
    ensures { result ≡ cells.plain_area known.now (area_of area.now) }
{
    match area {
        Area::Stored(held) => is_plain(TypeRef::of(held)),
        Area::Array(_, element) => is_plain_area(known, element),
        Area::Struct(number) => is_plain_struct(known, *number),
    }
}

fn are_plain_fields(known: &[bool], fields: &[FieldDef]) -> bool
    ensures { result ≡ cells.plain_fields known.now (map field_of fields.now) }
{
    for field in fields {
        if !is_plain_area(known, &field.area) {
            return false;
        }
    }
    true
}

/// The same of each struct, from the first on.
fn plain_structs(alloc: Global, structs: &[StructDef]) -> Result<Seq<bool>, Memory>
    ensures { IfOk result (λ known. known ≡ cells.plain_structs (map struct_of structs.now)) }
{
    let mut known = Seq::new(alloc);
    for found in structs {
        let plain = are_plain_fields(known.as_slice(), found.fields.as_slice());
        known.push(plain)?;
    }
    Ok(known)
}

/// Whether an area has other cells.
fn has_others(alloc: Global, items: &Items, area: &Area) -> Result<bool, Memory>
    ensures { IfOk result (λ b. b ≡ not (rules.plain_cells (rules.written (earlier_of items.now) (area_of area.now)))) }
{
    let known = plain_structs(alloc, items.structs.as_slice())?;
    Ok(!is_plain_area(known.as_slice(), area))
}

/// Whether it is a reference through which other cells than bools and whole numbers may be written.
#[tactic(auto, using(region_check::proofs::Apart::ref_is))]
fn gives_others(alloc: Global, items: &Items, t: &ValueType) -> Result<bool, Memory>
    ensures { IfOk result (λ b. b ≡ rules.gives_other_cells (earlier_of items.now) (type_of t.now)) }
{
    match t {
        ValueType::Ref(reference) => {
            if reference.constant {
                return Ok(false);
            }
            has_others(alloc, items, &reference.area)
        }
        ValueType::Bool | ValueType::Int(_) | ValueType::Ix(_) | ValueType::Bits(_) => Ok(false),
    }
}

pub(crate) fn gives_other_cells(
    alloc: Global,
    items: &Items,
    t: &Option<ValueType>,
) -> Result<bool, Memory>
    ensures { IfOk result (λ b. b ≡ where_there (option_map type_of t.now) (rules.gives_other_cells (earlier_of items.now))) }
{
    match t {
        Some(t) => gives_others(alloc, items, t),
        None => Ok(false),
    }
}
