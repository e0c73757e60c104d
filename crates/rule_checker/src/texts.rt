//! The types and areas that a text names, where they exist.

ghost use Rattle.std.specs.Prelude.{◌≡◌, ◌≤◌, length, IfOk, option_map};
ghost use Rattle.area_types.specs.Syntax as types;
ghost use Rattle.area_types.specs.View as seen;
ghost use Rattle.ivory_tree.specs.View as text;
ghost use Rattle.source_types.specs.Environments as earlier;
ghost use Rattle.source_types.specs.Written as written;
ghost use Rattle.rule_checker.specs.Contexts.{earlier_of};

use crate::items::Items;
use crate::lookups::{number_of_bits, number_of_struct, region_number};
use area_types::{Area, RefType, Region, ValueType};
use iv_words::{Box, Memory, Word};
use ivory_tree::{AreaKind, AreaText, RegionText, TypeKind, TypeText};
use std::alloc::Global;

/// The region that the text names, where these are the names of region parameters.
fn region_in(regions: &[Word], region: &RegionText) -> Option<Region>
    requires { length regions.now ≤ 4_294_967_296 }
    ensures { result ≡ written.region_in regions.now region.now }
{
    match region {
        RegionText::Global => Some(Region::Global),
        RegionText::Named(name) => match region_number(regions, name) {
            Some(number) => Some(Region::Param(number)),
            None => None,
        },
    }
}

fn index_of(length: u64) -> Option<ValueType>
    ensures { option_map seen.type_of result ≡ written.index_type length }
{
    if 1 <= length && length <= 65_535 {
        Some(ValueType::Ix(length as u32))
    } else {
        None
    }
}

fn bits_of(items: &Items, name: &Word) -> Option<ValueType>
    ensures { option_map seen.type_of result ≡ written.bits_type (earlier_of items.now) name.now }
{
    match number_of_bits(items, name) {
        Some(number) => Some(ValueType::Bits(number)),
        None => None,
    }
}

fn struct_named(items: &Items, name: &Word) -> Option<Area>
    ensures { option_map seen.area_of result ≡ option_map types.Struct (earlier.number_of_struct (earlier_of items.now) name.now) }
{
    match number_of_struct(items, name) {
        Some(number) => Some(Area::Struct(number)),
        None => None,
    }
}

fn stored(alloc: Global, held: Option<ValueType>) -> Result<Option<Area>, Memory>
    ensures { IfOk result (λ a. option_map seen.area_of a ≡ option_map types.Stored (option_map seen.type_of held)) }
{
    match held {
        Some(held) => Ok(Some(Area::Stored(Box::new(alloc, held)?))),
        None => Ok(None),
    }
}

fn array_of(alloc: Global, length: u64, element: Option<Area>) -> Result<Option<Area>, Memory>
    ensures { IfOk result (λ a. option_map seen.area_of a ≡ written.array_of length (option_map seen.area_of element)) }
{
    if !(1 <= length && length <= 65_535) {
        return Ok(None);
    }
    match element {
        Some(element) => Ok(Some(Area::Array(length as u32, Box::new(alloc, element)?))),
        None => Ok(None),
    }
}

#[tactic(auto, using(region_check::proofs::Apart::ref_is))]
fn reference(constant: bool, region: Region, area: Area) -> ValueType
    ensures { seen.type_of result ≡ types.Ref constant region (seen.area_of area) }
{
    ValueType::Ref(RefType {
        constant,
        region,
        area,
    })
}

fn reference_to(constant: bool, region: Option<Region>, area: Option<Area>) -> Option<ValueType>
    ensures { option_map seen.type_of result ≡ written.ref_type constant region (option_map seen.area_of area) }
{
    match region {
        Some(region) => match area {
            Some(area) => Some(reference(constant, region, area)),
            None => None,
        },
        None => None,
    }
}

/// The type that the text names, where these are the names of region parameters.
#[cycle(texts)]
pub fn type_in(
    alloc: Global,
    items: &Items,
    regions: &[Word],
    t: &TypeText,
) -> Result<Option<ValueType>, Memory>
    requires { length regions.now ≤ 4_294_967_296 }
    ensures { IfOk result (λ found. option_map seen.type_of found ≡ written.type_in (earlier_of items.now) regions.now (text.type_of t.now)) }
{
    match &t.kind {
        TypeKind::Bool => Ok(Some(ValueType::Bool)),
        TypeKind::Int(kind) => Ok(Some(ValueType::Int(*kind))),
        TypeKind::Ix(length) => Ok(index_of(*length)),
        TypeKind::Bits(name) => Ok(bits_of(items, name)),
        TypeKind::Ref(reference) => {
            let area = area_in(alloc, items, &reference.area)?;
            Ok(reference_to(
                reference.constant,
                region_in(regions, &reference.region),
                area,
            ))
        }
    }
}

/// The area that the text names.
#[cycle(texts)]
pub fn area_in(alloc: Global, items: &Items, a: &AreaText) -> Result<Option<Area>, Memory>
    ensures { IfOk result (λ found. option_map seen.area_of found ≡ written.area_in (earlier_of items.now) (text.area_of a.now)) }
{
    match &a.kind {
        AreaKind::Stored(held) => stored(alloc, type_in(alloc, items, &[], held)?),
        AreaKind::Array(length, element) => {
            array_of(alloc, *length, area_in(alloc, items, element)?)
        }
        AreaKind::Struct(name) => Ok(struct_named(items, name)),
    }
}
