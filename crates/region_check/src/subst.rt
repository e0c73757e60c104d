ghost use Rattle.std.specs.Prelude.{◌≡◌, length, IfOk, IsTrue};
ghost use Rattle.area_types.specs.View.{type_of};
ghost use Rattle.region_check.specs.Substitutions.{region_of, under, is_within, has_regions, applied};

use area_types::{RefType, Region, ValueType};
use iv_words::{Memory, Seq};
use std::alloc::Global;

/// The region of each region parameter, in the order of their numbers.
pub type Subst = Seq<Region>;

fn replaced(s: &[Region], region: Region) -> Region
    requires { IsTrue (is_within (length s.now) region) }
    ensures { result ≡ under (region_of s.now) region }
{
    match region {
        Region::Param(number) => s[number as usize],
        Region::Global | Region::Own => region,
    }
}

fn replaced_in(alloc: Global, s: &[Region], reference: &RefType) -> Result<RefType, Memory>
    requires { IsTrue (is_within (length s.now) reference.now.region) }
    ensures { IfOk result (λ r. r ≡ record reference.now { region = under (region_of s.now) reference.now.region }) }
{
    Ok(RefType {
        constant: reference.constant,
        region: replaced(s, reference.region),
        area: reference.area.copy(alloc)?,
    })
}

/// The type with the region of the substitution in place of its region parameter. An area stores no reference, so it is kept.
pub fn apply_subst(alloc: Global, s: &Subst, t: &ValueType) -> Result<ValueType, Memory>
    requires { IsTrue (has_regions (length s.now) (type_of t.now)) }
    ensures { IfOk result (λ u. type_of u ≡ applied (region_of s.now) (type_of t.now)) }
{
    match t {
        ValueType::Ref(reference) => {
            let reference = replaced_in(alloc, s.as_slice(), reference)?;
            Ok(ValueType::Ref(reference))
        }
        ValueType::Bool => Ok(ValueType::Bool),
        ValueType::Int(kind) => Ok(ValueType::Int(*kind)),
        ValueType::Ix(length) => Ok(ValueType::Ix(*length)),
        ValueType::Bits(word) => Ok(ValueType::Bits(*word)),
    }
}
