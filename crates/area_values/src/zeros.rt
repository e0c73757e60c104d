//! Cells without an initializer are zero.

ghost use Rattle.std.specs.Prelude.{◌≡◌, ◌++◌, ◌*◌, OnOk, map};
ghost use Rattle.type_trees.specs.Trees.{count};
ghost use Rattle.area_types.specs.Syntax as types;
ghost use Rattle.area_types.specs.Tables.{tree_over};
ghost use Rattle.area_types.specs.Trees.{trees_of};
ghost use Rattle.area_types.specs.View.{area_of, field_of, struct_of};
ghost use Rattle.typing_rules.specs.Initializers.{zeros};
ghost use Rattle.area_values.specs.Values.{count_fields};

use area_types::{Area, FieldDef, StructDef};
use iv_words::{Memory, Seq};

/// Adds a zero for each cell of an area over these structs.
#[cycle(zeros)]
pub(crate) fn add_zeros(
    structs: &[StructDef],
    area: &Area,
    values: &mut Seq<i128>,
) -> Result<(), Memory>
    ensures { OnOk result (values.new ≡ values.old ++ zeros (count (tree_over structs.now (area_of area.now)))) }
{
    match area {
        Area::Stored(_) => values.push(0),
        Area::Array(length, element) => add_zeros_of_elements(structs, *length, element, values),
        Area::Struct(number) => add_zeros_of_struct(structs, *number, values),
    }
}

/// The same for so many elements.
#[cycle(zeros)]
pub(crate) fn add_zeros_of_elements(
    structs: &[StructDef],
    length: u32,
    element: &Area,
    values: &mut Seq<i128>,
) -> Result<(), Memory>
    ensures { OnOk result (values.new ≡ values.old ++ zeros (length * count (tree_over structs.now (area_of element.now)))) }
{
    for _ in 0..length {
        add_zeros(structs, element, values)?;
    }
    Ok(())
}

#[cycle(zeros)]
fn add_zeros_of_struct(
    structs: &[StructDef],
    number: u32,
    values: &mut Seq<i128>,
) -> Result<(), Memory>
    ensures { OnOk result (values.new ≡ values.old ++ zeros (count (tree_over structs.now (types.Struct number)))) }
{
    let number = number as usize;
    match structs.get(number) {
        Some(found) => add_zeros_of_fields(&structs[..number], found.fields.as_slice(), values),
        None => Ok(()),
    }
}

/// The same for fields after these structs.
#[cycle(zeros)]
pub(crate) fn add_zeros_of_fields(
    earlier: &[StructDef],
    fields: &[FieldDef],
    values: &mut Seq<i128>,
) -> Result<(), Memory>
    ensures { OnOk result (values.new ≡ values.old ++ zeros (count_fields (trees_of (map struct_of earlier.now)) (map field_of fields.now))) }
{
    for field in fields {
        add_zeros(earlier, &field.area, values)?;
    }
    Ok(())
}
