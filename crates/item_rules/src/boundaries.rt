//! The first fault of the type of a parameter and of a result.

ghost use Rattle.std.specs.Prelude.{◌≡◌, IfOk, option_map};
ghost use Rattle.area_types.specs.View.{type_of as type_seen};
ghost use Rattle.ivory_tree.specs.View.{type_of};
ghost use Rattle.rule_checker.specs.Contexts.{earlier_of};
ghost use Rattle.rule_checker.specs.Faults.{found};
ghost use Rattle.rule_checker.specs.Rows.{least};
ghost use Rattle.rule_faults.specs.ExpressionRows.{type_row};
ghost use Rattle.rule_faults.specs.FirstFault.{first_of};
ghost use Rattle.rule_faults.specs.ItemRules as rules;
ghost use Rattle.rule_faults.specs.Nodes as nodes;
ghost use Rattle.item_rules.specs.Boundaries as rows;

use crate::cells::gives_other_cells;
use area_types::{Region, ValueType};
use iv_words::{Memory, Word};
use ivory_tree::{RegionText, TypeKind, TypeText};
use rule_checker::{
    Items, RuleFault, TypeRef, area_in, at_place, has_word, is_plain, type_in, when,
};
use statement_rules::{area_within_type_fault, held_rule, reference_to};
use std::alloc::Global;

/// Who calls: code outside calls an exported procedure, an import is called outside.
#[derive(Clone, Copy)]
pub enum Boundary {
    Exported,
    Imported,
    Inner,
}

/// The type, whatever its region: what crosses the boundary of a module is judged by what is stored.
fn type_but_region(alloc: Global, items: &Items, t: &TypeText) -> Result<Option<ValueType>, Memory>
    ensures { IfOk result (λ found. option_map type_seen found ≡ rules.type_but_region (earlier_of items.now) (type_of t.now)) }
{
    match &t.kind {
        TypeKind::Ref(reference) => match area_in(alloc, items, &reference.area)? {
            Some(area) => {
                let constant = reference.constant;
                Ok(Some(reference_to(constant, Region::Global, area)))
            }
            None => Ok(None),
        },
        TypeKind::Bool => Ok(Some(ValueType::Bool)),
        TypeKind::Int(kind) => Ok(Some(ValueType::Int(*kind))),
        TypeKind::Ix(_) => type_in(alloc, items, &[], t),
        TypeKind::Bits(_) => type_in(alloc, items, &[], t),
    }
}

/// Whether it is no bool and no whole number.
fn is_other(t: &Option<ValueType>) -> bool
    ensures { result ≡ rows.is_other (option_map type_seen t.now) }
{
    match t {
        Some(t) => !is_plain(TypeRef::of(t)),
        None => false,
    }
}

/// The rule of what is passed across the boundary of the module.
fn passed_rule(
    alloc: Global,
    items: &Items,
    boundary: Boundary,
    t: &Option<ValueType>,
) -> Result<Option<u8>, Memory>
    ensures { IfOk result (λ rule. rule ≡ least (rows.passed_rows (earlier_of items.now) (rows.boundary_at boundary) (option_map type_seen t.now))) }
{
    match boundary {
        Boundary::Exported => Ok(when(is_other(t), 13)),
        Boundary::Imported => Ok(when(gives_other_cells(alloc, items, t)?, 14)),
        Boundary::Inner => Ok(None),
    }
}

/// The rule of what is given back across the boundary of the module.
fn given_rule(boundary: Boundary, t: &Option<ValueType>) -> Option<u8>
    ensures { result ≡ least (rows.given_rows (rows.boundary_at boundary) (option_map type_seen t.now)) }
{
    match boundary {
        Boundary::Exported => when(is_other(t), 13),
        Boundary::Imported => when(is_other(t), 14),
        Boundary::Inner => None,
    }
}

fn is_foreign(regions: &[Word], region: &RegionText) -> bool
    ensures { result ≡ rows.is_foreign regions.now region.now }
{
    match region {
        RegionText::Global => false,
        RegionText::Named(name) => !has_word(regions, name),
    }
}

/// The rule of the region of a result.
fn region_rule(regions: &[Word], t: &TypeText) -> Option<u8>
    ensures { result ≡ least (rows.region_rows regions.now (type_of t.now)) }
{
    match &t.kind {
        TypeKind::Ref(reference) => when(is_foreign(regions, &reference.region), 12),
        TypeKind::Bool | TypeKind::Int(_) | TypeKind::Ix(_) | TypeKind::Bits(_) => None,
    }
}

/// The least rule of the type of a parameter.
#[tactic(auto, using(statement_rules::proofs::Rows::first_rule, statement_rules::proofs::Rows::later_rule))]
fn param_rule(
    alloc: Global,
    items: &Items,
    boundary: Boundary,
    t: &TypeText,
) -> Result<Option<u8>, Memory>
    ensures { IfOk result (λ rule. rule ≡ least (rows.param_rows (earlier_of items.now) (rows.boundary_at boundary) (type_of t.now))) }
{
    if let Some(rule) = held_rule(items, t) {
        return Ok(Some(rule));
    }
    let passed = type_but_region(alloc, items, t)?;
    passed_rule(alloc, items, boundary, &passed)
}

/// The least rule of the type of a result.
#[tactic(auto, using(statement_rules::proofs::Rows::first_rule, statement_rules::proofs::Rows::later_rule))]
fn result_rule(
    alloc: Global,
    items: &Items,
    regions: &[Word],
    boundary: Boundary,
    t: &TypeText,
) -> Result<Option<u8>, Memory>
    ensures { IfOk result (λ rule. rule ≡ least (rows.result_rows (earlier_of items.now) regions.now (rows.boundary_at boundary) (type_of t.now))) }
{
    if let Some(rule) = held_rule(items, t) {
        return Ok(Some(rule));
    }
    if let Some(rule) = region_rule(regions, t) {
        return Ok(Some(rule));
    }
    let given = type_but_region(alloc, items, t)?;
    Ok(given_rule(boundary, &given))
}

/// The first fault of the type of a parameter.
#[tactic(auto, using(crate::proofs::NodeRows::param_type_at))]
pub(crate) fn param_type_fault(
    alloc: Global,
    items: &Items,
    regions: &[Word],
    boundary: Boundary,
    t: &TypeText,
) -> Result<Option<RuleFault>, Memory>
    ensures { IfOk result (λ fault. found fault ≡ first_of (type_row (earlier_of items.now) regions.now (nodes.ForParam (rows.boundary_at boundary)) (type_of t.now))) }
{
    let rule = param_rule(alloc, items, boundary, t)?;
    let within = area_within_type_fault(alloc, items, t)?;
    Ok(at_place(rule, t.span, within))
}

/// The first fault of the type of a result.
#[tactic(auto, using(crate::proofs::NodeRows::result_type_at))]
pub(crate) fn result_type_fault(
    alloc: Global,
    items: &Items,
    regions: &[Word],
    boundary: Boundary,
    t: &TypeText,
) -> Result<Option<RuleFault>, Memory>
    ensures { IfOk result (λ fault. found fault ≡ first_of (type_row (earlier_of items.now) regions.now (nodes.ForResult (rows.boundary_at boundary)) (type_of t.now))) }
{
    let rule = result_rule(alloc, items, regions, boundary, t)?;
    let within = area_within_type_fault(alloc, items, t)?;
    Ok(at_place(rule, t.span, within))
}
