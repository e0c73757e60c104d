//! How many cells and nodes an area of a table has.

ghost use Rattle.std.specs.Prelude.{◌≡◌, IsTrue};
ghost use Rattle.type_trees.specs.Trees.{count, nodes};
ghost use Rattle.area_types.specs.Tables.{is_area, written_out};
ghost use Rattle.area_types.specs.View.{area_of};

use crate::area::Area;
use crate::measure::extent;
use crate::table::StructTable;

/// How many stored places an area of the table has.
pub fn cells(area: &Area, table: &StructTable) -> u32
    requires { IsTrue (is_area table.now (area_of area.now)) }
    ensures { result ≡ count (written_out table.now (area_of area.now)) }
{
    extent(area, table.structs.as_slice(), table.words.as_slice()).cells
}

/// How many stored places, arrays and structs an area of the table has, itself included, each occurrence counted.
pub fn nodes(area: &Area, table: &StructTable) -> u32
    requires { IsTrue (is_area table.now (area_of area.now)) }
    ensures { result ≡ nodes (written_out table.now (area_of area.now)) }
{
    extent(area, table.structs.as_slice(), table.words.as_slice()).nodes
}
