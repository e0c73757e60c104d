//! The first fault of the fields of bit data and of a struct, each after those before it.

ghost use Rattle.std.specs.Prelude.{◌≡◌, [], IfOk, map};
ghost use Rattle.ivory_tree.specs.View.{field_of};
ghost use Rattle.rule_checker.specs.Contexts.{earlier_of};
ghost use Rattle.rule_checker.specs.Faults.{found};
ghost use Rattle.rule_checker.specs.Rows.{least};
ghost use Rattle.rule_faults.specs.FirstFault.{first_of};
ghost use Rattle.rule_faults.specs.ItemRows as nodes;
ghost use Rattle.source_types.specs.Environments.{has_word};
ghost use Rattle.item_rules.specs.Rules as rows;
ghost use Rattle.item_rules.specs.Fields as named;

use iv_words::{Memory, Word};
use ivory_tree::{AreaField, BitField};
use rule_checker::{Items, RuleFault, at_place, when};
use statement_rules::area_fault;
use std::alloc::Global;

fn has_bit_field(fields: &[BitField], name: &Word) -> bool
    ensures { result ≡ has_word (named.bit_names fields.now) name.now }
{
    for field in fields {
        if field.name.text == *name {
            return true;
        }
    }
    false
}

fn has_field(fields: &[AreaField], name: &Word) -> bool
    ensures { result ≡ has_word (named.field_names (map field_of fields.now)) name.now }
{
    for field in fields {
        if field.name.text == *name {
            return true;
        }
    }
    false
}

/// The rule of a field of bit data behind these.
fn bit_field_rule(before: &[BitField], field: &BitField) -> Option<u8>
    ensures { result ≡ least (rows.bit_field_rows (named.bit_names before.now) field.now) }
{
    if has_bit_field(before, &field.name.text) {
        return Some(3);
    }
    when(field.width == 0, 11)
}

/// The first fault of the fields of bit data.
pub(crate) fn bit_fields_fault(all: &[BitField]) -> Option<RuleFault>
    ensures { found result ≡ first_of (nodes.bit_fields_row [] all.now) }
{
    for (at, field) in all.iter().enumerate() {
        let rule = bit_field_rule(&all[..at], field);
        if let Some(fault) = at_place(rule, field.span, None) {
            return Some(fault);
        }
    }
    None
}

/// The first fault of a field of a struct behind these, its name before its area.
#[tactic(auto, using(crate::proofs::NodeRows::field_told))]
fn field_fault(
    alloc: Global,
    items: &Items,
    before: &[AreaField],
    field: &AreaField,
) -> Result<Option<RuleFault>, Memory>
    ensures { IfOk result (λ fault. found fault ≡ first_of (named.field_row (earlier_of items.now) (named.field_names (map field_of before.now)) (field_of field.now))) }
{
    let within = area_fault(alloc, items, &field.area)?;
    let rule = when(has_field(before, &field.name.text), 3);
    Ok(at_place(rule, field.span, within))
}

/// The first fault of the fields of a struct.
pub(crate) fn fields_fault(
    alloc: Global,
    items: &Items,
    all: &[AreaField],
) -> Result<Option<RuleFault>, Memory>
    ensures { IfOk result (λ fault. found fault ≡ first_of (nodes.fields_row (earlier_of items.now) [] (map field_of all.now))) }
{
    for (at, field) in all.iter().enumerate() {
        if let Some(fault) = field_fault(alloc, items, &all[..at], field)? {
            return Ok(Some(fault));
        }
    }
    Ok(None)
}
