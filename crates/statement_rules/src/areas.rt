//! The first fault of an area that a text names: its length, its struct or bit data, its size.

ghost use Rattle.std.specs.Prelude.{◌≡◌, [], IfOk, option_map};
ghost use Rattle.area_types.specs.View.{area_of as area_seen};
ghost use Rattle.ivory_tree.specs.View.{area_of, type_of};
ghost use Rattle.rule_checker.specs.Contexts.{earlier_of};
ghost use Rattle.rule_checker.specs.Faults.{found};
ghost use Rattle.rule_checker.specs.Rows.{least};
ghost use Rattle.rule_faults.specs.ExpressionRows.{type_row, area_row};
ghost use Rattle.rule_faults.specs.FirstFault.{first_of};
ghost use Rattle.rule_faults.specs.Nodes.{Within};
ghost use Rattle.source_types.specs.Environments as earlier;
ghost use Rattle.statement_rules.specs.Areas as rows;

use area_types::{Area, is_small};
use iv_words::{IntKind, Memory, Seq};
use ivory_tree::{AreaKind, AreaText, TypeKind, TypeText};
use rule_checker::{Items, RuleFault, area_in, at_place, is_bits, is_length, is_struct, when};
use std::alloc::Global;

/// The words of the bit data so far.
pub fn words_of(alloc: Global, items: &Items) -> Result<Seq<IntKind>, Memory>
    ensures { IfOk result (λ found. found ≡ earlier.words (earlier_of items.now)) }
{
    let mut words = Seq::new(alloc);
    for item in items.bits.iter() {
        words.push(item.word)?;
    }
    Ok(words)
}

/// The rule of the length of an array, or of the name of a struct.
fn form_rule(items: &Items, a: &AreaText) -> Option<u8>
    ensures { result ≡ least (rows.form_rows (earlier_of items.now) (area_of a.now)) }
{
    match &a.kind {
        AreaKind::Stored(_) => None,
        AreaKind::Array(length, _) => when(!is_length(*length), 8),
        AreaKind::Struct(name) => when(!is_struct(items, name), 5),
    }
}

/// The rule of an area that is too large or too deep.
fn size_rule(items: &Items, words: &[IntKind], area: &Option<Area>) -> Option<u8>
    requires { words.now ≡ earlier.words (earlier_of items.now) }
    ensures { result ≡ least (rows.size_rows (earlier_of items.now) (option_map area_seen area.now)) }
{
    match area {
        Some(area) => when(!is_small(area, items.structs.as_slice(), words), 9),
        None => None,
    }
}

/// The least rule that an area breaks.
fn area_rule(
    alloc: Global,
    items: &Items,
    words: &[IntKind],
    a: &AreaText,
) -> Result<Option<u8>, Memory>
    requires { words.now ≡ earlier.words (earlier_of items.now) }
    ensures { IfOk result (λ rule. rule ≡ least (rows.area_rows (earlier_of items.now) (area_of a.now))) }
{
    if let Some(rule) = form_rule(items, a) {
        return Ok(Some(rule));
    }
    let area = area_in(alloc, items, a)?;
    Ok(size_rule(items, words, &area))
}

/// The rule of the length or of the name of a type that is stored.
pub fn held_rule(items: &Items, t: &TypeText) -> Option<u8>
    ensures { result ≡ least (rows.held_rows (earlier_of items.now) (type_of t.now)) }
{
    match &t.kind {
        TypeKind::Bool | TypeKind::Int(_) | TypeKind::Ref(_) => None,
        TypeKind::Ix(length) => when(!is_length(*length), 8),
        TypeKind::Bits(name) => when(!is_bits(items, name), 6),
    }
}

/// The first fault of an area, where these are the words of the bit data.
#[cycle(areas)]
#[tactic(auto, using(crate::proofs::Told::area_at))]
fn fault_of_area(
    alloc: Global,
    items: &Items,
    words: &[IntKind],
    a: &AreaText,
) -> Result<Option<RuleFault>, Memory>
    requires { words.now ≡ earlier.words (earlier_of items.now) }
    ensures { IfOk result (λ fault. found fault ≡ first_of (area_row (earlier_of items.now) (area_of a.now))) }
{
    let rule = area_rule(alloc, items, words, a)?;
    let within = fault_within_area(alloc, items, words, a)?;
    Ok(at_place(rule, a.span, within))
}

#[cycle(areas)]
fn fault_within_area(
    alloc: Global,
    items: &Items,
    words: &[IntKind],
    a: &AreaText,
) -> Result<Option<RuleFault>, Memory>
    requires { words.now ≡ earlier.words (earlier_of items.now) }
    ensures { IfOk result (λ fault. found fault ≡ first_of (rows.within_area (earlier_of items.now) (area_of a.now))) }
{
    match &a.kind {
        AreaKind::Stored(held) => fault_of_held(alloc, items, words, held),
        AreaKind::Array(_, element) => fault_of_area(alloc, items, words, element),
        AreaKind::Struct(_) => Ok(None),
    }
}

/// The first fault of a type that is stored.
#[cycle(areas)]
#[tactic(auto, using(crate::proofs::Told::held_at))]
fn fault_of_held(
    alloc: Global,
    items: &Items,
    words: &[IntKind],
    t: &TypeText,
) -> Result<Option<RuleFault>, Memory>
    requires { words.now ≡ earlier.words (earlier_of items.now) }
    ensures { IfOk result (λ fault. found fault ≡ first_of (type_row (earlier_of items.now) [] Within (type_of t.now))) }
{
    let within = fault_within_held(alloc, items, words, t)?;
    Ok(at_place(held_rule(items, t), t.span, within))
}

#[cycle(areas)]
fn fault_within_held(
    alloc: Global,
    items: &Items,
    words: &[IntKind],
    t: &TypeText,
) -> Result<Option<RuleFault>, Memory>
    requires { words.now ≡ earlier.words (earlier_of items.now) }
    ensures { IfOk result (λ fault. found fault ≡ first_of (rows.within_type (earlier_of items.now) (type_of t.now))) }
{
    match &t.kind {
        TypeKind::Ref(reference) => fault_of_area(alloc, items, words, &reference.area),
        TypeKind::Bool | TypeKind::Int(_) | TypeKind::Ix(_) | TypeKind::Bits(_) => Ok(None),
    }
}

/// The first fault of an area.
pub fn area_fault(alloc: Global, items: &Items, a: &AreaText) -> Result<Option<RuleFault>, Memory>
    ensures { IfOk result (λ fault. found fault ≡ first_of (area_row (earlier_of items.now) (area_of a.now))) }
{
    let words = words_of(alloc, items)?;
    fault_of_area(alloc, items, words.as_slice(), a)
}

/// The first fault of the area behind a reference, where the type is one.
pub fn area_within_type_fault(
    alloc: Global,
    items: &Items,
    t: &TypeText,
) -> Result<Option<RuleFault>, Memory>
    ensures { IfOk result (λ fault. found fault ≡ first_of (rows.within_type (earlier_of items.now) (type_of t.now))) }
{
    match &t.kind {
        TypeKind::Ref(reference) => area_fault(alloc, items, &reference.area),
        TypeKind::Bool | TypeKind::Int(_) | TypeKind::Ix(_) | TypeKind::Bits(_) => Ok(None),
    }
}
