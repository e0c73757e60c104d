//! Whether an area, or a struct of given fields, is within the limits.

ghost use Rattle.std.specs.Prelude.{ℕ, nat_le, length, ◌≡◌, ◌&&◌};
ghost use Rattle.type_trees.specs.Trees.{Struct};
ghost use Rattle.area_types.specs.Tables.{tree_over, fields_over, is_small};
ghost use Rattle.area_types.specs.View.{area_of};

use crate::area::Area;
use crate::measure::{extent, fields_extent};
use crate::structs::{FieldDef, StructDef};
use iv_words::IntKind;

/// Whether an area that is made of these structs and words is within the limits: 65,535 bytes and 32 levels.
pub fn is_small(area: &Area, structs: &[StructDef], words: &[IntKind]) -> bool
    ensures { result ≡ is_small words.now (tree_over structs.now (area_of area.now)) }
{
    extent(area, structs, words).is_small()
}

/// The same of the next struct after `earlier`, where it has these fields.
pub fn are_small(fields: &[FieldDef], earlier: &[StructDef], words: &[IntKind]) -> bool
    ensures { result ≡ is_small words.now (Struct (length earlier.now) (fields_over earlier.now fields.now)) }
{
    fields_extent(fields, earlier, words).is_small()
}
