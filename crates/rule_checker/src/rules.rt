//! The rules that may be broken at an expression, each as a test of what is known of its parts, and the least of them at each form.

ghost use Rattle.std.specs.Prelude.{◌≡◌, ◌&&◌, ◌||◌, not, is_some, option_and_then};
ghost use Rattle.area_types.specs.View.{area_of};
ghost use Rattle.region_check.specs.Calls as calls;
ghost use Rattle.region_check.specs.Substitutions as substitutions;
ghost use Rattle.rule_faults.specs.ExpressionRules as rules;
ghost use Rattle.rule_faults.specs.Tests.{where_there, where_both};
ghost use Rattle.source_types.specs.Parts as parts;
ghost use Rattle.source_types.specs.Values as values;
ghost use Rattle.source_types.specs.Operators as table;
ghost use Rattle.rule_faults.specs.Wants as wanting;
ghost use Rattle.rule_checker.specs.Contexts.{earlier_of};
ghost use Rattle.rule_checker.specs.Faults.{either};
ghost use Rattle.rule_checker.specs.Rows as rows;
ghost use Rattle.rule_checker.specs.View.{type_at, type_seen, reference_at, reference_seen};
ghost use Rattle.rule_checker.specs.Wanted.{want_at};

use crate::items::Items;
use crate::names::{field_type, holds};
use crate::operators::{is_arithmetic, is_for, is_logic, prefix_is_for};
use crate::types::{
    Reference, TypeRef, escapes, is_bit_data, is_index_type, is_integer, is_reference,
    length_behind, reference_of, same_area, same_region, same_type, stored_type, struct_behind,
};
use crate::wants::{Want, wanted_type};
use area_types::{Area, Region};
use iv_words::Word;
use ivory_tree::{BinOp, PrefixOp};

/// The rule, where it is broken.
pub fn when(broken: bool, rule: u8) -> Option<u8>
    ensures { result ≡ rows.least (rows.one_row rule broken) }
{
    if broken { Some(rule) } else { None }
}

/// The first of two rules, where there is one.
fn or(first: Option<u8>, second: Option<u8>) -> Option<u8>
    ensures { result ≡ either first second }
{
    match first {
        Some(rule) => Some(rule),
        None => second,
    }
}

// ---- what is wanted

fn lacks_a_type(want: Want, settled: bool) -> bool
    ensures { result ≡ rows.lacks_a_type (want_at want.entry) settled }
{
    match want {
        Want::Nothing => !settled,
        Want::Unknown | Want::Wants(_) | Want::Takes(_, _) | Want::Returns(_) => false,
    }
}

fn differs_from(own: Option<TypeRef>, t: TypeRef) -> bool
    ensures { result ≡ where_there (type_seen own.entry) (λ u. not (values.same_type u (type_at t.entry))) }
{
    match own {
        Some(own) => !same_type(own, t),
        None => false,
    }
}

fn has_another_type(want: Want, settled: bool, own: Option<TypeRef>) -> bool
    ensures { result ≡ rows.has_another_type (want_at want.entry) settled (type_seen own.entry) }
{
    match want {
        Want::Wants(t) => !is_reference(t) && settled && differs_from(own, t),
        Want::Nothing | Want::Unknown | Want::Takes(_, _) | Want::Returns(_) => false,
    }
}

fn wanted_rule(want: Want, settled: bool, own: Option<TypeRef>) -> Option<u8>
    ensures { result ≡ rows.least (rows.wanted_rows (want_at want.entry) settled (type_seen own.entry)) }
{
    if lacks_a_type(want, settled) {
        return Some(18);
    }
    when(has_another_type(want, settled, own), 20)
}

pub fn given_reference<'a>(own: Option<TypeRef<'a>>) -> Option<Reference<'a>>
    ensures { reference_seen result ≡ option_and_then calls.reference_of (type_seen own.entry) }
{
    match own {
        Some(t) => reference_of(t),
        None => None,
    }
}

/// Whether the reference is in another region than the one that is required.
fn is_in_another_region(required: Option<Region>, given: Option<Reference>) -> bool
    ensures { result ≡ where_both required (reference_seen given.entry) (λ first r. not (values.same_region first r.region)) }
{
    match required {
        Some(first) => match given {
            Some(given) => !same_region(first, given.region),
            None => false,
        },
        None => false,
    }
}

/// Whether the reference only reads, where a callee may write.
fn only_reads(given: Option<Reference>, wanted: Reference) -> bool
    ensures { result ≡ where_there (reference_seen given.entry) (λ r. r.constant && not (reference_at wanted.entry).constant) }
{
    match given {
        Some(given) => given.constant && !wanted.constant,
        None => false,
    }
}

fn leads_to(area: &Area, given: Option<Reference>) -> bool
    ensures { result ≡ rules.leads_to (area_of area.now) (reference_seen given.entry) }
{
    match given {
        Some(given) => same_area(given.area, area),
        None => false,
    }
}

fn leads_elsewhere(own: Option<TypeRef>, wanted: Reference) -> bool
    ensures { result ≡ where_there (type_seen own.entry) (λ t. not (rules.leads_to (reference_at wanted.entry).area (calls.reference_of t))) }
{
    match own {
        Some(t) => !leads_to(wanted.area, reference_of(t)),
        None => false,
    }
}

/// The rules of an argument for a reference parameter.
fn argument_rule(
    required: Option<Region>,
    wanted: Reference,
    settled: bool,
    own: Option<TypeRef>,
) -> Option<u8>
    ensures { result ≡ rows.least (rows.reference_rows (wanting.Takes required (reference_at wanted.entry)) settled (type_seen own.entry)) }
{
    if !settled {
        return None;
    }
    if is_in_another_region(required, given_reference(own)) {
        return Some(35);
    }
    if only_reads(given_reference(own), wanted) {
        return Some(36);
    }
    when(leads_elsewhere(own, wanted), 37)
}

fn leaves_the_procedure(own: Option<TypeRef>) -> bool
    ensures { result ≡ where_there (type_seen own.entry) substitutions.escapes }
{
    match own {
        Some(t) => escapes(t),
        None => false,
    }
}

fn fits(wanted: Reference, given: Option<Reference>) -> bool
    ensures { result ≡ rules.fits (reference_at wanted.entry) (reference_seen given.entry) }
{
    match given {
        Some(given) => {
            same_region(given.region, wanted.region)
                && same_area(given.area, wanted.area)
                && (!given.constant || wanted.constant)
        }
        None => false,
    }
}

fn is_no_result(own: Option<TypeRef>, wanted: Reference) -> bool
    ensures { result ≡ where_there (type_seen own.entry) (λ t. not (rules.fits (reference_at wanted.entry) (calls.reference_of t))) }
{
    match own {
        Some(t) => !fits(wanted, reference_of(t)),
        None => false,
    }
}

/// The rules of a value to return, where the result is a reference.
fn returned_rule(wanted: Reference, settled: bool, own: Option<TypeRef>) -> Option<u8>
    ensures { result ≡ rows.least (rows.reference_rows (wanting.Returns (reference_at wanted.entry)) settled (type_seen own.entry)) }
{
    if !settled {
        return None;
    }
    if leaves_the_procedure(own) {
        return Some(38);
    }
    when(is_no_result(own, wanted), 39)
}

fn reference_rule(want: Want, settled: bool, own: Option<TypeRef>) -> Option<u8>
    ensures { result ≡ rows.least (rows.reference_rows (want_at want.entry) settled (type_seen own.entry)) }
{
    match want {
        Want::Takes(required, wanted) => argument_rule(required, wanted, settled, own),
        Want::Returns(wanted) => returned_rule(wanted, settled, own),
        Want::Nothing | Want::Unknown | Want::Wants(_) => None,
    }
}

/// The least rule that is broken at a node: among those of its form before and after what is wanted, and those of what is wanted.
pub(crate) fn node_rule(
    before: Option<u8>,
    want: Want,
    settled: bool,
    own: Option<TypeRef>,
    after: Option<u8>,
) -> Option<u8>
    ensures { result ≡ rows.node_rule before (want_at want.entry) settled (type_seen own.entry) after }
{
    let last = or(after, reference_rule(want, settled, own));
    or(before, or(wanted_rule(want, settled, own), last))
}

// ---- the forms

pub(crate) fn literal_rule(want: Want, value: &i128) -> Option<u8>
    ensures { result ≡ rows.least (rows.literal_rows (wanting.wanted_type (want_at want.entry)) value.now) }
{
    match wanted_type(want) {
        Some(t) => when(!holds(t, *value), 19),
        None => None,
    }
}

pub(crate) fn cast_rule(settled: bool, own: Option<TypeRef>) -> Option<u8>
    ensures { result ≡ rows.least (rows.cast_rows settled (type_seen own.entry)) }
{
    if !settled {
        return None;
    }
    match own {
        Some(t) => when(!(is_integer(t) || is_index_type(t)), 27),
        None => None,
    }
}

pub(crate) fn index_rule(own: Option<TypeRef>) -> Option<u8>
    ensures { result ≡ rows.least (rows.index_rows (type_seen own.entry)) }
{
    match own {
        Some(t) => when(!is_integer(t), 28),
        None => None,
    }
}

pub(crate) fn raw_rule(own: Option<TypeRef>) -> Option<u8>
    ensures { result ≡ rows.least (rows.raw_rows (type_seen own.entry)) }
{
    match own {
        Some(t) => when(!is_bit_data(t), 29),
        None => None,
    }
}

fn has_field(items: &Items, t: TypeRef, field: &Word) -> bool
    ensures { result ≡ is_some (parts.field_type (earlier_of items.now) (type_at t.entry) field.now) }
{
    match field_type(items, t, field) {
        Some(_) => true,
        None => false,
    }
}

pub(crate) fn set_rule(items: &Items, own: Option<TypeRef>, field: &Word) -> Option<u8>
    ensures { result ≡ rows.least (rows.set_rows (earlier_of items.now) (type_seen own.entry) field.now) }
{
    match own {
        Some(t) => {
            if is_bit_data(t) && !has_field(items, t, field) {
                return Some(25);
            }
            when(!is_bit_data(t), 29)
        }
        None => None,
    }
}

pub(crate) fn stores(t: TypeRef) -> bool
    ensures { result ≡ rules.stores (type_at t.entry) }
{
    match stored_type(t) {
        Some(_) => true,
        None => false,
    }
}

fn is_misread(op: PrefixOp, own: Option<TypeRef>) -> bool
    ensures { result ≡ rows.is_misread op (type_seen own.entry) }
{
    match op {
        PrefixOp::Deref => match own {
            Some(t) => !stores(t),
            None => false,
        },
        PrefixOp::Neg | PrefixOp::Not | PrefixOp::Flip => false,
    }
}

fn is_misfit(op: PrefixOp, operand: Option<TypeRef>) -> bool
    ensures { result ≡ (table.is_arithmetic op && where_there (type_seen operand.entry) (λ t. not (table.prefix_is_for op t))) }
{
    if !is_arithmetic(op) {
        return false;
    }
    match operand {
        Some(t) => !prefix_is_for(op, t),
        None => false,
    }
}

/// Of a prefix with an operand of a type as it is wanted, and of its own.
pub(crate) fn prefix_rule(
    op: PrefixOp,
    operand: Option<TypeRef>,
    own: Option<TypeRef>,
) -> Option<u8>
    ensures { result ≡ rows.least (rows.prefix_rows op (type_seen operand.entry) (type_seen own.entry)) }
{
    if is_misfit(op, operand) {
        return Some(22);
    }
    when(is_misread(op, own), 23)
}

/// Whether two settled operands or arms have different types.
fn differ(first: bool, second: bool, of_first: Option<TypeRef>, of_second: Option<TypeRef>) -> bool
    ensures { result ≡ rows.differ first second (type_seen of_first.entry) (type_seen of_second.entry) }
{
    if !first || !second {
        return false;
    }
    match of_first {
        Some(t) => match of_second {
            Some(u) => !same_type(t, u),
            None => false,
        },
        None => false,
    }
}

fn is_operator_misfit(op: BinOp, operand: Option<TypeRef>) -> bool
    ensures { result ≡ (not (table.is_logic op) && where_there (type_seen operand.entry) (λ t. not (table.is_for op t))) }
{
    if is_logic(op) {
        return false;
    }
    match operand {
        Some(t) => !is_for(op, t),
        None => false,
    }
}

/// Of an operator; `operand` is the type from which it takes its own.
pub(crate) fn binary_rule(
    op: BinOp,
    first: bool,
    second: bool,
    of_first: Option<TypeRef>,
    of_second: Option<TypeRef>,
    operand: Option<TypeRef>,
) -> Option<u8>
    ensures { result ≡ rows.least (rows.binary_rows op first second (type_seen of_first.entry) (type_seen of_second.entry) (type_seen operand.entry)) }
{
    if differ(first, second, of_first, of_second) {
        return Some(21);
    }
    when(is_operator_misfit(op, operand), 22)
}

fn has_fields(t: TypeRef) -> bool
    ensures { result ≡ rules.has_fields (type_at t.entry) }
{
    match struct_behind(t) {
        Some(_) => true,
        None => is_bit_data(t),
    }
}

pub(crate) fn field_rule(items: &Items, own: Option<TypeRef>, field: &Word) -> Option<u8>
    ensures { result ≡ rows.least (rows.field_rows (earlier_of items.now) (type_seen own.entry) field.now) }
{
    match own {
        Some(t) => {
            if !has_fields(t) {
                return Some(24);
            }
            when(!has_field(items, t, field), 25)
        }
        None => None,
    }
}

pub(crate) fn element_rule(own: Option<TypeRef>) -> Option<u8>
    ensures { result ≡ rows.least (rows.element_rows (type_seen own.entry)) }
{
    match own {
        Some(t) => match length_behind(t) {
            Some(_) => None,
            None => Some(26),
        },
        None => None,
    }
}

fn is_any_reference(own: Option<TypeRef>) -> bool
    ensures { result ≡ where_there (type_seen own.entry) values.is_reference }
{
    match own {
        Some(t) => is_reference(t),
        None => false,
    }
}

/// Of `?:` with its type.
pub(crate) fn cond_rule(
    first: bool,
    second: bool,
    of_first: Option<TypeRef>,
    of_second: Option<TypeRef>,
    own: Option<TypeRef>,
) -> Option<u8>
    ensures { result ≡ rows.least (rows.cond_rows first second (type_seen of_first.entry) (type_seen of_second.entry) (type_seen own.entry)) }
{
    if differ(first, second, of_first, of_second) {
        return Some(21);
    }
    when(is_any_reference(own), 30)
}
