//! Laws of areas, for the layers above: a call of one brings its clause.

ghost use Rattle.area_types.specs.Laws.{PartsAreAreas};

/// A part of an area of a table is an area of that table.
pub fn parts_are_areas()
    ensures { PartsAreAreas }
{}
