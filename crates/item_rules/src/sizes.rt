//! The fields of a struct that have an area, and whether the struct is too large or too deep.

ghost use Rattle.std.specs.Prelude.{◌≡◌, ◌&&◌, IfOk, OnOk, map, filter_map, is_some, option_map};
ghost use Rattle.std.specs.List.{list_all};
ghost use Rattle.area_types.specs.View.{field_of as field_seen};
ghost use Rattle.ivory_tree.specs.View.{field_of};
ghost use Rattle.rule_checker.specs.Contexts.{earlier_of};
ghost use Rattle.source_types.specs.Written.{field_in};
ghost use Rattle.item_rules.specs.Fields.{with_field};
ghost use Rattle.item_rules.specs.Rules as rows;

use area_types::{FieldDef, are_small};
use iv_words::{Memory, Seq};
use ivory_tree::AreaField;
use rule_checker::{Items, area_in};
use statement_rules::words_of;
use std::alloc::Global;

/// The fields that have an area, and whether these are all.
#[derive(Drop)]
pub struct Found {
    pub fields: Seq<FieldDef>,
    pub all: bool,
}

/// A field, where it has an area.
fn found_field(alloc: Global, items: &Items, field: &AreaField) -> Result<Option<FieldDef>, Memory>
    ensures { IfOk result (λ f. option_map field_seen f ≡ field_in (earlier_of items.now) (field_of field.now)) }
{
    match area_in(alloc, items, &field.area)? {
        Some(area) => Ok(Some(FieldDef {
            name: field.name.text.copy(alloc)?,
            area,
        })),
        None => Ok(None),
    }
}

fn keep(found: &mut Found, field: Option<FieldDef>) -> Result<(), Memory>
    ensures fields { OnOk result (map field_seen found.new.fields ≡ with_field (map field_seen found.old.fields) (option_map field_seen field)) }
    ensures all { OnOk result (found.new.all ≡ (found.old.all && is_some field)) }
{
    match field {
        Some(field) => found.fields.push(field),
        None => {
            found.all = false;
            Ok(())
        }
    }
}

pub(crate) fn found_fields(
    alloc: Global,
    items: &Items,
    fields: &[AreaField],
) -> Result<Found, Memory>
    ensures fields { IfOk result (λ f. map field_seen f.fields ≡ filter_map (field_in (earlier_of items.now)) (map field_of fields.now)) }
    ensures all { IfOk result (λ f. f.all ≡ list_all (λ x. is_some (field_in (earlier_of items.now) x)) (map field_of fields.now)) }
{
    let mut found = Found {
        fields: Seq::new(alloc),
        all: true,
    };
    for field in fields {
        let next = found_field(alloc, items, field)?;
        keep(&mut found, next)?;
    }
    Ok(found)
}

/// Whether a struct of these fields is too large or too deep, where each has an area.
pub(crate) fn is_great_struct(
    alloc: Global,
    items: &Items,
    fields: &[AreaField],
) -> Result<bool, Memory>
    ensures { IfOk result (λ b. b ≡ rows.is_great_struct (earlier_of items.now) (map field_of fields.now)) }
{
    let found = found_fields(alloc, items, fields)?;
    if !found.all {
        return Ok(false);
    }
    let words = words_of(alloc, items)?;
    Ok(!are_small(
        found.fields.as_slice(),
        items.structs.as_slice(),
        words.as_slice(),
    ))
}
