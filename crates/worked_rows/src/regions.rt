ghost use Rattle.std.specs.Prelude.{◌≡◌, [], ◌∷◌, length, map, IfOk, IsTrue};
ghost use Rattle.area_types.specs.Syntax as syntax;
ghost use Rattle.area_types.specs.View.{type_of};
ghost use Rattle.region_check.specs.Found.{is_numbered};

use area_types::{Area, RefType, Region, ValueType};
use iv_words::{Memory, Seq};
use region_check::{RegionFault, apply_subst, escapes, match_regions};
use std::alloc::Global;

#[tactic(auto, using(region_check::proofs::Apart::ref_is))]
fn reference(constant: bool, region: Region, number: u32) -> ValueType
    ensures { type_of result ≡ syntax.Ref constant region (syntax.Struct number) }
{
    ValueType::Ref(RefType {
        constant,
        region,
        area: Area::Struct(number),
    })
}

fn two(alloc: Global, first: ValueType, second: ValueType) -> Result<Seq<ValueType>, Memory>
    ensures { IfOk result (λ types. types ≡ first ∷ second ∷ []) }
{
    let mut types = Seq::new(alloc);
    types.push(first)?;
    types.push(second)?;
    Ok(types)
}

/// The fault of two references as arguments of two mutable ones to the first struct in one region, or that of none.
fn fault_of(
    alloc: Global,
    first: (bool, Region, u32),
    second: (bool, Region, u32),
) -> Result<Option<RegionFault>, Memory> {
    let params = two(
        alloc,
        reference(false, Region::Param(0), 0),
        reference(false, Region::Param(0), 0),
    )?;
    let args = two(
        alloc,
        reference(first.0, first.1, first.2),
        reference(second.0, second.1, second.2),
    )?;
    Ok(match_regions(alloc, &params, &args).err())
}

#[test]
fn the_first_argument_at_fault_is_named(rt: HostRuntime) -> Result<(), Memory> {
    let alloc = rt.alloc();
    let global = (false, Region::Global, 0);
    assert_eq!(rt; fault_of(alloc, global, global)?, None);
    let clash = RegionFault::Clash {
        arg: 1,
        first: Region::Global,
        second: Region::Own,
    };
    assert_eq!(rt;
        fault_of(alloc, global, (true, Region::Own, 1))?,
        Some(clash)
    );
    let mutable = RegionFault::Mutable { arg: 1 };
    assert_eq!(rt;
        fault_of(alloc, global, (true, Region::Global, 1))?,
        Some(mutable)
    );
    let differs = RegionFault::AreaDiffers { arg: 0 };
    assert_eq!(rt;
        fault_of(alloc, (false, Region::Own, 1), global)?,
        Some(differs)
    );
    Ok(())
}

#[test]
fn regions_are_replaced(rt: HostRuntime) -> Result<(), Memory> {
    let alloc = rt.alloc();
    let own = reference(true, Region::Own, 3);
    assert!(rt; escapes(&own));
    assert!(rt; !escapes(&ValueType::Bool));
    let mut subst = Seq::new(alloc);
    subst.push(Region::Own)?;
    let replaced = apply_subst(alloc, &subst, &reference(true, Region::Param(0), 3))?;
    assert!(rt; replaced.same(&own));
    Ok(())
}
