ghost use Rattle.std.specs.Prelude.{◌≡◌};
ghost use Rattle.area_types.specs.View.{type_of};
ghost use Rattle.region_check.specs.Substitutions as regions;

use area_types::{Region, ValueType};

/// Whether the type is that of a reference to what the procedure itself allocates.
pub fn escapes(t: &ValueType) -> bool
    ensures { result ≡ regions.escapes (type_of t.now) }
{
    match t {
        ValueType::Ref(reference) => match reference.region {
            Region::Own => true,
            Region::Global | Region::Param(_) => false,
        },
        ValueType::Bool | ValueType::Int(_) | ValueType::Ix(_) | ValueType::Bits(_) => false,
    }
}
