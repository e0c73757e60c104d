//! Which region each region parameter of the callee stands for at a call.

ghost use Rattle.std.specs.Prelude.{◌≡◌, length, map, slice_get, IfOk, IfErr, IfSome, IfNone, OnOk, IsTrue, ◌↔◌};
ghost use Rattle.area_types.specs.View.{type_of, area_of};
ghost use Rattle.region_check.specs.Calls.{reference_of, call};
ghost use Rattle.region_check.specs.Faults.{required, argument_number, Accepts, IsFault, AcceptsPassed, IsFaultOf, Refused};
ghost use Rattle.region_check.specs.Found.{is_numbered, region_count, learned, learned_from, Found};
ghost use Rattle.region_check.specs.View.{reference_in};

use crate::fault::RegionFault;
use crate::subst::Subst;
use area_types::{Area, RefType, Region, ValueType};
use iv_words::{Memory, Seq};
use std::alloc::Global;

fn argument_number(at: usize) -> u32
    ensures { result ≡ argument_number at }
{
    u32::try_from(at).unwrap_or(u32::MAX)
}

/// The region that is already required for a region of the callee, where one is.
fn required(subst: &[Region], wanted: Region) -> Option<Region>
    ensures { result ≡ required (slice_get subst.now) wanted }
{
    match wanted {
        Region::Param(number) => subst.get(number as usize).copied(),
        Region::Global | Region::Own => Some(wanted),
    }
}

/// Whether the two are one area, as what they say is.
#[tactic(auto, using(crate::proofs::Apart::same_areas))]
fn is_area(given: &Area, wanted: &Area) -> bool
    ensures { IsTrue result ↔ (area_of given.now ≡ area_of wanted.now) }
{
    given.same(wanted)
}

/// The fault of a reference as the argument of that number, where such a region is already required.
fn fault_of(
    arg: u32,
    first: Option<Region>,
    wanted: &RefType,
    given: &RefType,
) -> Option<RegionFault>
    ensures some { IfSome result (λ fault. IsFault arg first (reference_in wanted.now) (reference_in given.now) fault) }
    ensures none { IfNone result (Accepts first (reference_in wanted.now) (reference_in given.now)) }
{
    if let Some(first) = first {
        if first != given.region {
            let second = given.region;
            return Some(RegionFault::Clash { arg, first, second });
        }
    }
    if given.constant && !wanted.constant {
        return Some(RegionFault::Mutable { arg });
    }
    if !is_area(&given.area, &wanted.area) {
        return Some(RegionFault::AreaDiffers { arg });
    }
    None
}

/// Keeps the region of an argument where its parameter has a new number.
fn learn(subst: &mut Subst, wanted: Region, given: Region) -> Result<(), Memory>
    ensures { OnOk result (subst.new ≡ learned subst.old wanted given) }
{
    match wanted {
        Region::Param(number) => {
            if (number as usize) < subst.len() {
                Ok(())
            } else {
                subst.push(given)
            }
        }
        Region::Global | Region::Own => Ok(()),
    }
}

/// Learns the region of the argument of that number, or says what is at fault with it.
fn match_references(
    subst: &mut Subst,
    arg: u32,
    wanted: &RefType,
    given: &RefType,
) -> Result<(), RegionFault>
    ensures ok { OnOk result (Accepts (required (slice_get subst.old) wanted.now.region) (reference_in wanted.now) (reference_in given.now)) }
    ensures learns { OnOk result (subst.new ≡ learned subst.old wanted.now.region given.now.region) }
    ensures err { IfErr result (λ fault. IsFault arg (required (slice_get subst.old) wanted.now.region) (reference_in wanted.now) (reference_in given.now) fault) }
{
    let first = required(subst.as_slice(), wanted.region);
    if let Some(fault) = fault_of(arg, first, wanted, given) {
        return Err(fault);
    }
    Ok(learn(subst, wanted.region, given.region)?)
}

/// The same for any parameter; the argument of one that is no reference is not looked at.
fn match_argument(
    subst: &mut Subst,
    arg: u32,
    wanted: &ValueType,
    given: &ValueType,
) -> Result<(), RegionFault>
    ensures ok { OnOk result (AcceptsPassed (slice_get subst.old) (reference_of (type_of wanted.now)) (reference_of (type_of given.now))) }
    ensures learns { OnOk result (subst.new ≡ learned_from subst.old (reference_of (type_of wanted.now)) (reference_of (type_of given.now))) }
    ensures err { IfErr result (λ fault. IsFaultOf arg (slice_get subst.old) (reference_of (type_of wanted.now)) (reference_of (type_of given.now)) fault) }
{
    match wanted {
        ValueType::Ref(wanted) => match given {
            ValueType::Ref(given) => match_references(subst, arg, wanted, given),
            ValueType::Bool | ValueType::Int(_) => Err(RegionFault::AreaDiffers { arg }),
            ValueType::Ix(_) | ValueType::Bits(_) => Err(RegionFault::AreaDiffers { arg }),
        },
        ValueType::Bool | ValueType::Int(_) | ValueType::Ix(_) | ValueType::Bits(_) => Ok(()),
    }
}

/// The only substitution under which the argument of each reference parameter fits it, or the first argument at fault.
pub fn match_regions(
    alloc: Global,
    params: &Seq<ValueType>,
    args: &Seq<ValueType>,
) -> Result<Subst, RegionFault>
    requires equal { length params.now ≡ length args.now }
    requires numbered { IsTrue (is_numbered 0 (map type_of params.now)) }
    ensures ok { IfOk result (λ found. Found (call (map type_of params.now) (map type_of args.now)) (region_count 0 (map type_of params.now)) found) }
    ensures err { IfErr result (λ fault. Refused (call (map type_of params.now) (map type_of args.now)) fault) }
{
    match_all(alloc, params.as_slice(), args.as_slice())
}

fn match_all(alloc: Global, params: &[ValueType], args: &[ValueType]) -> Result<Subst, RegionFault>
    requires equal { length params.now ≡ length args.now }
    requires numbered { IsTrue (is_numbered 0 (map type_of params.now)) }
    ensures ok { IfOk result (λ found. Found (call (map type_of params.now) (map type_of args.now)) (region_count 0 (map type_of params.now)) found) }
    ensures err { IfErr result (λ fault. Refused (call (map type_of params.now) (map type_of args.now)) fault) }
{
    let mut subst = Seq::new(alloc);
    for i in 0..params.len() {
        match_argument(&mut subst, argument_number(i), &params[i], &args[i])?;
    }
    Ok(subst)
}
