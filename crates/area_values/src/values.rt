//! The first values of the cells of an area. Elements and fields that an initializer lacks are zero.

ghost use Rattle.std.specs.Prelude.{◌≡◌, ◌++◌, IfOk, OnOk, map, option_map};
ghost use Rattle.area_types.specs.Syntax as types;
ghost use Rattle.area_types.specs.Tables.{tree_over};
ghost use Rattle.area_types.specs.Trees.{trees_of};
ghost use Rattle.area_types.specs.View.{area_of, field_of, struct_of};
ghost use Rattle.core_tree.specs.Syntax as core;
ghost use Rattle.core_tree.specs.View.{init_of, inits_of};
ghost use Rattle.typing_rules.specs.Initializers.{cell_values, element_values};
ghost use Rattle.area_values.specs.Values.{values_of, values_of_fields};

use crate::constants::constant;
use crate::zeros::{add_zeros, add_zeros_of_elements, add_zeros_of_fields};
use area_types::{Area, FieldDef, StructDef};
use core_tree::CoreInit;
use iv_words::{Memory, Seq};
use std::alloc::Global;

/// Adds the values that an initializer gives an area over these structs.
#[cycle(values)]
#[tactic(auto, using(core_tree::proofs::View::one_is, core_tree::proofs::View::many_is))]
fn add_values(
    init: &CoreInit,
    area: &Area,
    structs: &[StructDef],
    values: &mut Seq<i128>,
) -> Result<(), Memory>
    ensures { OnOk result (values.new ≡ values.old ++ cell_values (tree_over structs.now (area_of area.now)) (init_of init.now)) }
{
    match init {
        CoreInit::One(e) => values.push(constant(e)),
        CoreInit::Many(inits) => match area {
            Area::Stored(_) => Ok(()),
            Area::Array(length, element) => add_elements(inits, *length, element, structs, values),
            Area::Struct(number) => add_struct(inits, *number, structs, values),
        },
    }
}

/// The values of so many elements.
#[cycle(values)]
fn add_elements(
    inits: &Seq<CoreInit>,
    length: u32,
    element: &Area,
    structs: &[StructDef],
    values: &mut Seq<i128>,
) -> Result<(), Memory>
    ensures { OnOk result (values.new ≡ values.old ++ element_values length (tree_over structs.now (area_of element.now)) (inits_of inits.now)) }
{
    let mut left = length;
    for init in inits.as_slice() {
        add_values(init, element, structs, values)?;
        left = left.saturating_sub(1);
    }
    add_zeros_of_elements(structs, left, element, values)
}

#[cycle(values)]
fn add_struct(
    inits: &Seq<CoreInit>,
    number: u32,
    structs: &[StructDef],
    values: &mut Seq<i128>,
) -> Result<(), Memory>
    ensures { OnOk result (values.new ≡ values.old ++ cell_values (tree_over structs.now (types.Struct number)) (core.Many (inits_of inits.now))) }
{
    let number = number as usize;
    match structs.get(number) {
        Some(found) => add_fields(inits, found.fields.as_slice(), &structs[..number], values),
        None => Ok(()),
    }
}

/// The values of fields after these structs.
#[cycle(values)]
fn add_fields(
    inits: &Seq<CoreInit>,
    fields: &[FieldDef],
    earlier: &[StructDef],
    values: &mut Seq<i128>,
) -> Result<(), Memory>
    ensures { OnOk result (values.new ≡ values.old ++ values_of_fields (trees_of (map struct_of earlier.now)) (map field_of fields.now) (inits_of inits.now)) }
{
    let mut rest = fields;
    for init in inits.as_slice() {
        match rest.split_first() {
            Some((field, later)) => {
                add_values(init, &field.area, earlier, values)?;
                rest = later;
            }
            None => return Ok(()),
        }
    }
    add_zeros_of_fields(earlier, rest, values)
}

/// The first values of the cells of an area over these structs, zero where it has no initializer.
pub fn first_values(
    alloc: Global,
    structs: &[StructDef],
    area: &Area,
    init: &Option<CoreInit>,
) -> Result<Seq<i128>, Memory>
    ensures { IfOk result (λ values. values ≡ values_of (tree_over structs.now (area_of area.now)) (option_map init_of init.now)) }
{
    let mut values = Seq::new(alloc);
    match init {
        Some(init) => add_values(init, area, structs, &mut values)?,
        None => add_zeros(structs, area, &mut values)?,
    }
    Ok(values)
}
