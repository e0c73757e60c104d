//! The type of a call: the result of the callee, its regions as the arguments give them.

ghost use Rattle.std.specs.Prelude.{◌≡◌, IfOk, map, option_map, unwrap_or};
ghost use Rattle.area_types.specs.View.{type_of};
ghost use Rattle.area_types.specs.declared.Region.TheVariants.{Global as GlobalRegion};
ghost use Rattle.ivory_tree.specs.View.{expr_of, call_of};
ghost use Rattle.region_check.specs.Faults as regions;
ghost use Rattle.region_check.specs.Substitutions.{under, applied};
ghost use Rattle.rule_faults.specs.ExpressionRows as nodes;
ghost use Rattle.rule_faults.specs.StatementRows as statements;
ghost use Rattle.rule_checker.specs.Arguments.{passed_at};
ghost use Rattle.rule_checker.specs.Contexts.{context_of, callee_entry_of};

use crate::scope::reference_to;
use area_types::{Region, ValueType};
use iv_words::{Memory, Seq};
use ivory_tree::{CallText, Expr};
use rule_checker::{CalleeEntry, Context, Matched, callee_named, known, learn, split_param};
use std::alloc::Global;

/// The parameters with their arguments, as far as there are both.
fn matched_all<'a>(
    alloc: Global,
    context: &'a Context,
    params: &'a [Option<ValueType>],
    args: &[Expr],
) -> Result<Seq<Matched<'a>>, Memory>
    ensures { IfOk result (λ all. map passed_at all ≡ nodes.matched_all (context_of context.now) (map (option_map type_of) params.now) (map expr_of args.now)) }
{
    let mut before = Seq::new(alloc);
    let mut rest = params;
    for arg in args {
        let (param, later) = split_param(rest);
        learn(&mut before, context, param, arg)?;
        rest = later;
    }
    Ok(before)
}

/// The caller's region that a region of the callee stands for.
fn region_for(before: &[Matched], region: Region) -> Region
    ensures { result ≡ under (λ j. unwrap_or (regions.known (map passed_at before.now) j) GlobalRegion) region }
{
    match region {
        Region::Param(number) => match known(before, number) {
            Some(given) => given,
            None => Region::Global,
        },
        Region::Global => Region::Global,
        Region::Own => Region::Own,
    }
}

/// The type, its region as the arguments give it.
fn applied(alloc: Global, before: &[Matched], t: &ValueType) -> Result<ValueType, Memory>
    ensures { IfOk result (λ u. type_of u ≡ applied (λ j. unwrap_or (regions.known (map passed_at before.now) j) GlobalRegion) (type_of t.now)) }
{
    match t {
        ValueType::Bool => Ok(ValueType::Bool),
        ValueType::Int(kind) => Ok(ValueType::Int(*kind)),
        ValueType::Ix(length) => Ok(ValueType::Ix(*length)),
        ValueType::Bits(word) => Ok(ValueType::Bits(*word)),
        ValueType::Ref(reference) => {
            let area = reference.area.copy(alloc)?;
            let region = region_for(before, reference.region);
            Ok(reference_to(reference.constant, region, area))
        }
    }
}

fn result_for(
    alloc: Global,
    context: &Context,
    call: &CallText,
    callee: &CalleeEntry,
) -> Result<Option<ValueType>, Memory>
    ensures { IfOk result (λ t. option_map type_of t ≡ statements.result_for (context_of context.now) (call_of call.now) (callee_entry_of callee.now)) }
{
    match &callee.result {
        Some(t) => {
            let before = matched_all(
                alloc,
                context,
                callee.params.as_slice(),
                call.args.as_slice(),
            )?;
            Ok(Some(applied(alloc, before.as_slice(), t)?))
        }
        None => Ok(None),
    }
}

/// The type of a call, where it has one.
pub fn call_type(
    alloc: Global,
    context: &Context,
    call: &CallText,
) -> Result<Option<ValueType>, Memory>
    ensures { IfOk result (λ t. option_map type_of t ≡ statements.call_type (context_of context.now) (call_of call.now)) }
{
    match callee_named(&context.items, &call.name.text) {
        Some(callee) => result_for(alloc, context, call, callee),
        None => Ok(None),
    }
}
