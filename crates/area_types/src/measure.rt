//! One walk over an area, with its structs written out. This is the one place where each kind of area is measured.

ghost use Rattle.std.specs.Prelude.{◌≡◌, ◌≤◌};
ghost use Rattle.type_trees.specs.Trees.{Struct};
ghost use Rattle.area_types.specs.Extents.{extent_of};
ghost use Rattle.area_types.specs.Syntax as syntax;
ghost use Rattle.area_types.specs.Tables.{tree_over, fields_over};
ghost use Rattle.area_types.specs.View.{area_of};

use crate::area::Area;
use crate::extent::{Extent, scalar_bytes};
use crate::structs::{FieldDef, StructDef};
use iv_words::IntKind;

/// The numbers of an area of a table.
#[cycle(measure)]
pub(crate) fn extent(area: &Area, structs: &[StructDef], words: &[IntKind]) -> Extent
    ensures value { result ≡ extent_of words.now (tree_over structs.now (area_of area.now)) }
    ensures some { 1 ≤ result.alignment }
{
    match area {
        Area::Stored(held) => Extent::stored(scalar_bytes(held, words)),
        Area::Array(length, element) => extent(element, structs, words).times(*length),
        Area::Struct(number) => struct_extent(*number, structs, words),
    }
}

#[cycle(measure)]
fn struct_extent(number: u32, structs: &[StructDef], words: &[IntKind]) -> Extent
    ensures value { result ≡ extent_of words.now (tree_over structs.now (syntax.Struct number)) }
    ensures some { 1 ≤ result.alignment }
{
    let number = number as usize;
    match structs.get(number) {
        Some(found) => fields_extent(found.fields.as_slice(), &structs[..number], words),
        None => fields_extent(&[], structs, words),
    }
}

/// The numbers of a struct of such fields, which is made of the structs before it.
#[cycle(measure)]
pub(crate) fn fields_extent(fields: &[FieldDef], earlier: &[StructDef], words: &[IntKind]) -> Extent
    ensures value { result ≡ extent_of words.now (Struct 0 (fields_over earlier.now fields.now)) }
    ensures some { 1 ≤ result.alignment }
{
    let mut row = Extent::empty_row();
    for field in fields {
        row = row.with_field(extent(&field.area, earlier, words));
    }
    row.enclosed()
}
