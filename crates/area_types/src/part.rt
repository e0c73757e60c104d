//! The part of an area to which a path leads.

ghost use Rattle.std.specs.Prelude.{◌≡◌, ◌∷◌, IfOk, IfSome, IsTrue};
ghost use Rattle.std.specs.Option.{option_map};
ghost use Rattle.type_trees.specs.Trees.{Struct};
ghost use Rattle.area_types.specs.Extents.{Finds, behind};
ghost use Rattle.area_types.specs.Syntax as syntax;
ghost use Rattle.area_types.specs.Tables.{tree_over, fields_over, is_area, written_out};
ghost use Rattle.area_types.specs.Trees.{cell_at};
ghost use Rattle.area_types.specs.View.{area_of, found_of};

use crate::area::Area;
use crate::measure::{extent, fields_extent};
use crate::structs::{FieldDef, StructDef};
use crate::table::StructTable;
use iv_words::{IntKind, Memory, Seq};
use std::alloc::Global;

/// The same part, where so many cells stand before the area in which it was found.
fn behind(before: u32, found: Option<(u32, Area)>) -> Option<(u32, Area)>
    ensures { option_map found_of result ≡ behind before (option_map found_of found) }
{
    match found {
        Some((first, area)) => Some((before.saturating_add(first), area)),
        None => None,
    }
}

/// The part behind a path, of an area over these structs.
#[cycle(parts)]
fn part(
    alloc: Global,
    area: &Area,
    structs: &[StructDef],
    words: &[IntKind],
    path: &[u32],
) -> Result<Option<(u32, Area)>, Memory>
    ensures { Finds result (tree_over structs.now (area_of area.now)) path.now }
{
    match path.split_first() {
        None => Ok(Some((0, area.copy(alloc)?))),
        Some((step, rest)) => part_within(alloc, area, structs, words, *step, rest),
    }
}

/// The part behind a step into the area and the rest of a path.
#[cycle(parts)]
fn part_within(
    alloc: Global,
    area: &Area,
    structs: &[StructDef],
    words: &[IntKind],
    step: u32,
    rest: &[u32],
) -> Result<Option<(u32, Area)>, Memory>
    ensures { Finds result (tree_over structs.now (area_of area.now)) (step ∷ rest.now) }
{
    match area {
        Area::Stored(_) => Ok(None),
        Area::Array(length, element) => {
            if step >= *length {
                return Ok(None);
            }
            let before = step.saturating_mul(extent(element, structs, words).cells);
            Ok(behind(before, part(alloc, element, structs, words, rest)?))
        }
        Area::Struct(number) => part_of_struct(alloc, *number, structs, words, step, rest),
    }
}

#[cycle(parts)]
fn part_of_struct(
    alloc: Global,
    number: u32,
    structs: &[StructDef],
    words: &[IntKind],
    step: u32,
    rest: &[u32],
) -> Result<Option<(u32, Area)>, Memory>
    ensures { Finds result (tree_over structs.now (syntax.Struct number)) (step ∷ rest.now) }
{
    let number = number as usize;
    match structs.get(number) {
        Some(found) => {
            part_of_fields(
                alloc,
                found.fields.as_slice(),
                &structs[..number],
                words,
                step,
                rest,
            )
        }
        None => Ok(None),
    }
}

/// The part behind a step to a field, of a struct with these fields after these structs.
#[cycle(parts)]
fn part_of_fields(
    alloc: Global,
    fields: &[FieldDef],
    earlier: &[StructDef],
    words: &[IntKind],
    step: u32,
    rest: &[u32],
) -> Result<Option<(u32, Area)>, Memory>
    ensures { Finds result (Struct 0 (fields_over earlier.now fields.now)) (step ∷ rest.now) }
{
    let step = step as usize;
    match fields.get(step) {
        Some(field) => {
            let before = fields_extent(&fields[..step], earlier, words).cells;
            Ok(behind(before, part(alloc, &field.area, earlier, words, rest)?))
        }
        None => Ok(None),
    }
}

/// The part of an area of the table to which a path leads: the number of its first cell, counted from 0, and its area; or
/// none where the path leaves the area. A path has the numbers of fields and elements, from the outermost inwards.
pub fn cell_at(
    alloc: Global,
    area: &Area,
    table: &StructTable,
    path: &Seq<u32>,
) -> Result<Option<(u32, Area)>, Memory>
    requires { IsTrue (is_area table.now (area_of area.now)) }
    ensures part { IfOk result (λ found. option_map found_of found ≡ cell_at (written_out table.now (area_of area.now)) path.now) }
    ensures area { IfOk result (λ found. IfSome found (λ f. IsTrue (is_area table.now (area_of f.1)))) }
{
    part(
        alloc,
        area,
        table.structs.as_slice(),
        table.words.as_slice(),
        path.as_slice(),
    )
}
