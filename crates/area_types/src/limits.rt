//! What an area of a table may be made of.

ghost use Rattle.std.specs.Prelude.{◌≡◌, ◌&&◌};
ghost use Rattle.area_types.specs.Tables.{is_length, is_stored, is_made_of, has_index_length, has_index_lengths, is_field};
ghost use Rattle.area_types.specs.View.{type_of, area_of, field_of};

use crate::area::{Area, ValueType};
use crate::structs::FieldDef;

/// Whether an array or an index may have the length: from 1 to 65,535.
fn is_length(n: u32) -> bool
    ensures { result ≡ is_length n }
{
    1 <= n && n <= 65_535
}

/// Whether an area may store values of the type, where there are so many words.
fn is_stored(held: &ValueType, words: usize) -> bool
    ensures { result ≡ is_stored words (type_of held.now) }
{
    match held {
        ValueType::Bool | ValueType::Int(_) | ValueType::Ix(_) => true,
        ValueType::Bits(word) => (*word as usize) < words,
        ValueType::Ref(_) => false,
    }
}

/// Whether the area is made of what there is: of so many structs and words.
fn is_made_of(area: &Area, structs: usize, words: usize) -> bool
    ensures { result ≡ is_made_of structs words (area_of area.now) }
{
    match area {
        Area::Stored(held) => is_stored(held, words),
        Area::Array(length, element) => is_length(*length) && is_made_of(element, structs, words),
        Area::Struct(number) => (*number as usize) < structs,
    }
}

/// Whether the length of an index is one that it may have; other types have none.
fn has_index_length(held: &ValueType) -> bool
    ensures { result ≡ has_index_length (type_of held.now) }
{
    match held {
        ValueType::Ix(length) => is_length(*length),
        ValueType::Bool | ValueType::Int(_) | ValueType::Bits(_) | ValueType::Ref(_) => true,
    }
}

/// Whether each index that is stored there has a length that it may have.
fn has_index_lengths(area: &Area) -> bool
    ensures { result ≡ has_index_lengths (area_of area.now) }
{
    match area {
        Area::Stored(held) => has_index_length(held),
        Area::Array(_, element) => has_index_lengths(element),
        Area::Struct(_) => true,
    }
}

/// Whether a struct may have the field, where there are so many structs and words before it.
pub(crate) fn is_field(field: &FieldDef, structs: usize, words: usize) -> bool
    ensures { result ≡ is_field structs words (field_of field.now) }
{
    is_made_of(&field.area, structs, words) && has_index_lengths(&field.area)
}
