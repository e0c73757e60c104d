//! The region parameters of a procedure, in the order in which they first occur.

ghost use Rattle.std.specs.Prelude.{◌≡◌, ◌≤◌, IfOk, OnOk, length, map};
ghost use Rattle.ivory_tree.specs.View.{type_of, param_of};
ghost use Rattle.item_rules.specs.Params.{with_region_name};
ghost use Rattle.source_types.specs.Written.{with_region, regions_of};

use iv_words::{Memory, Seq, Word};
use ivory_tree::{Param, RegionText, TypeKind, TypeText};
use rule_checker::has_word;
use std::alloc::Global;

/// So many region parameters have a number.
const MOST: usize = 4_294_967_296;

fn add_name(alloc: Global, regions: &mut Seq<Word>, name: &Word) -> Result<(), Memory>
    ensures { OnOk result (regions.new ≡ with_region_name regions.old name.now) }
{
    if has_word(regions.as_slice(), name) {
        return Ok(());
    }
    regions.push(name.copy(alloc)?)
}

fn add_region(alloc: Global, regions: &mut Seq<Word>, t: &TypeText) -> Result<(), Memory>
    ensures { OnOk result (regions.new ≡ with_region regions.old (type_of t.now)) }
{
    match &t.kind {
        TypeKind::Ref(reference) => match &reference.region {
            RegionText::Named(name) => add_name(alloc, regions, name),
            RegionText::Global => Ok(()),
        },
        TypeKind::Bool | TypeKind::Int(_) | TypeKind::Ix(_) | TypeKind::Bits(_) => Ok(()),
    }
}

/// Those of all parameters. Where there is no number for one, that is want of memory too.
pub fn regions_of(alloc: Global, params: &[Param]) -> Result<Seq<Word>, Memory>
    ensures found { IfOk result (λ regions. regions ≡ regions_of (map param_of params.now)) }
    ensures few { IfOk result (λ regions. length regions ≤ 4_294_967_296) }
{
    let mut regions = Seq::new(alloc);
    for param in params {
        add_region(alloc, &mut regions, &param.ty)?;
    }
    if regions.len() > MOST {
        return Err(Memory);
    }
    Ok(regions)
}
