//! From the shape of an area, as a text names it, to the area of a table.

ghost use Rattle.std.specs.Prelude.{◌≡◌, ◌≤◌, ◌<◌, map, length, unwrap_or, IfOk, IfSome, IsTrue};
ghost use Rattle.area_types.specs.Answers.{Answers};
ghost use Rattle.area_types.specs.Interned.{stores_no_reference, stores_values, number_of, has_lengths, has_structs, area_named, interned};
ghost use Rattle.area_types.specs.Syntax.{Struct};
ghost use Rattle.area_types.specs.Tables.{is_area};
ghost use Rattle.area_types.specs.View.{area_of, shape_of, struct_of};

use crate::area::Area;
use crate::fault::AreaFault;
use crate::measure::extent;
use crate::shape::AreaShape;
use crate::structs::StructDef;
use crate::table::StructTable;
use iv_words::{Box, Memory, Word};
use std::alloc::Global;

/// The number of the first struct of the name.
fn number_of(structs: &[StructDef], name: &Word) -> Option<usize>
    ensures value { result ≡ number_of (map struct_of structs.now) name.now }
    ensures within { IfSome result (λ k. k < length structs.now) }
{
    for (number, found) in structs.iter().enumerate() {
        if found.name == *name {
            return Some(number);
        }
    }
    None
}

/// Whether each array has a length that it may have.
fn has_lengths(shape: &AreaShape) -> bool
    ensures { result ≡ has_lengths (shape_of shape.now) }
{
    match shape {
        AreaShape::Array(length, element) => {
            1 <= *length && *length <= 65_535 && has_lengths(element)
        }
        AreaShape::Stored(_) | AreaShape::Struct(_) => true,
    }
}

/// Whether each struct is there.
fn has_structs(shape: &AreaShape, structs: &[StructDef]) -> bool
    ensures { result ≡ has_structs (map struct_of structs.now) (shape_of shape.now) }
{
    match shape {
        AreaShape::Stored(_) => true,
        AreaShape::Array(_, element) => has_structs(element, structs),
        AreaShape::Struct(name) => number_of(structs, name).is_some(),
    }
}

/// The struct of the name.
fn struct_named(structs: &[StructDef], name: &Word) -> Area
    requires { length structs.now ≤ 4_294_967_296 }
    ensures { area_of result ≡ Struct (unwrap_or (number_of (map struct_of structs.now) name.now) 0) }
{
    match number_of(structs, name) {
        Some(number) => Area::Struct(number as u32),
        None => Area::Struct(0),
    }
}

/// The area of the shape, with a number in the place of each name.
fn area_named(alloc: Global, shape: &AreaShape, structs: &[StructDef]) -> Result<Area, Memory>
    requires lengths { IsTrue (has_lengths (shape_of shape.now)) }
    requires numbers { length structs.now ≤ 4_294_967_296 }
    ensures { IfOk result (λ area. area_of area ≡ area_named (map struct_of structs.now) (shape_of shape.now)) }
{
    match shape {
        AreaShape::Stored(held) => Ok(Area::Stored(Box::new(alloc, held.copy(alloc)?)?)),
        AreaShape::Array(length, element) => {
            let element = Box::new(alloc, area_named(alloc, element, structs)?)?;
            Ok(Area::Array(*length as u32, element))
        }
        AreaShape::Struct(name) => Ok(struct_named(structs, name)),
    }
}

/// The area that a shape names in the table. Of two structs of one name the first counts. Where each item of bit data that
/// the shape names is in the table, the result is an area of the table.
///
/// Errors, tried in this order over the whole shape: `ZeroLength` where an array has the length 0 or one above 65,535,
/// `LaterStruct` where a struct is not in the table, `TooLarge` where the area would have more than 65,535 bytes or more
/// than 32 levels.
pub fn intern(alloc: Global, text: &AreaShape, table: &StructTable) -> Result<Area, AreaFault>
    requires { IsTrue (stores_no_reference (shape_of text.now)) }
    ensures answer { Answers area_of result (interned table.now (shape_of text.now)) }
    ensures area { IsTrue (stores_values (length table.now.words) (shape_of text.now)) → IfOk result (λ area. IsTrue (is_area table.now (area_of area))) }
{
    let structs = table.structs.as_slice();
    if !has_lengths(text) {
        return Err(AreaFault::ZeroLength);
    }
    if !has_structs(text, structs) {
        return Err(AreaFault::LaterStruct);
    }
    let area = area_named(alloc, text, structs)?;
    if extent(&area, structs, table.words.as_slice()).is_small() {
        Ok(area)
    } else {
        Err(AreaFault::TooLarge)
    }
}
