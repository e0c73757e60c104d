//! The first fault of a call.

ghost use Rattle.std.specs.Prelude.{◌≡◌, map, [], length, nat_eq, option_map, option_and_then, IfOk, OnOk};
ghost use Rattle.std.specs.Option.{option_copied};
ghost use Rattle.area_types.specs.View.{type_of};
ghost use Rattle.ivory_tree.specs.View.{expr_of, call_of};
ghost use Rattle.region_check.specs.Calls as calling;
ghost use Rattle.region_check.specs.Faults as regions;
ghost use Rattle.rule_faults.specs.ExpressionRows as nodes;
ghost use Rattle.rule_faults.specs.FirstFault.{first_of};
ghost use Rattle.rule_faults.specs.Wants as wanting;
ghost use Rattle.rule_checker.specs.Arguments as arguments;
ghost use Rattle.rule_checker.specs.Contexts.{context_of, callee_entry_of};
ghost use Rattle.rule_checker.specs.Faults.{found, at_place};
ghost use Rattle.rule_checker.specs.Rows.{least};
ghost use Rattle.rule_checker.specs.View.{reference_seen};
ghost use Rattle.rule_checker.specs.Wanted.{want_at};

use crate::expressions::expression_fault;
use crate::fault::{RuleFault, at_place};
use crate::items::CalleeEntry;
use crate::lookups::callee_named;
use crate::matched::Matched;
use crate::names::type_if_any;
use crate::rules::{given_reference, when};
use crate::scope::Context;
use crate::types::TypeRef;
use crate::typing::own_type;
use crate::wants::Want;
use area_types::{Region, ValueType};
use iv_words::{Memory, Seq};
use ivory_tree::{CallText, Expr};
use std::alloc::Global;

fn region_at(number: u32, wanted: Region, given: Region) -> Option<Region>
    ensures { result ≡ regions.region_at number wanted given }
{
    match wanted {
        Region::Param(other) => { if other == number { Some(given) } else { None } }
        Region::Global | Region::Own => None,
    }
}

fn region_from(number: u32, matched: Matched) -> Option<Region>
    ensures { result ≡ regions.region_from number (reference_seen matched.entry.wanted) (reference_seen matched.entry.given) }
{
    match matched.wanted {
        Some(wanted) => match matched.given {
            Some(given) => region_at(number, wanted.region, given.region),
            None => None,
        },
        None => None,
    }
}

/// The region of the first argument whose parameter's region has the number.
pub fn known(before: &[Matched], number: u32) -> Option<Region>
    ensures { result ≡ regions.known (map arguments.passed_at before.now) number }
{
    for matched in before {
        if let Some(region) = region_from(number, *matched) {
            return Some(region);
        }
    }
    None
}

/// The region that is already required for a region of the callee, where one is.
fn required(before: &[Matched], region: Region) -> Option<Region>
    ensures { result ≡ regions.required (regions.known (map arguments.passed_at before.now)) region }
{
    match region {
        Region::Param(number) => known(before, number),
        Region::Global => Some(Region::Global),
        Region::Own => Some(Region::Own),
    }
}

/// Of an argument, after those before it: the parameter's type.
fn of_argument<'a>(before: &[Matched<'a>], param: &'a Option<ValueType>) -> Want<'a>
    ensures { want_at result ≡ wanting.of_argument (map arguments.passed_at before.now) (option_map type_of param.now) }
{
    match type_if_any(param) {
        Some(t) => match t {
            TypeRef::Ref(wanted) => Want::Takes(required(before, wanted.region), wanted),
            TypeRef::Bool => Want::Wants(TypeRef::Bool),
            TypeRef::Int(kind) => Want::Wants(TypeRef::Int(kind)),
            TypeRef::Ix(length) => Want::Wants(TypeRef::Ix(length)),
            TypeRef::Bits(word) => Want::Wants(TypeRef::Bits(word)),
        },
        None => Want::Unknown,
    }
}

/// Of an argument, where it has a parameter.
fn argument_want<'a>(before: &[Matched<'a>], param: Option<&'a Option<ValueType>>) -> Want<'a>
    ensures { want_at result ≡ arguments.argument_want (map arguments.passed_at before.now) (option_map (option_map type_of) (option_copied param.entry)) }
{
    match param {
        Some(param) => of_argument(before, param),
        None => Want::Nothing,
    }
}

fn passed<'a>(context: &'a Context, param: &'a Option<ValueType>, arg: &Expr) -> Matched<'a>
    ensures { arguments.passed_at result ≡ nodes.matched (context_of context.now) (option_map type_of param.now) (expr_of arg.now) }
{
    Matched {
        wanted: given_reference(type_if_any(param)),
        given: given_reference(own_type(context, arg)),
    }
}

/// Keeps an argument with its parameter, where it has one.
pub fn learn<'a>(
    before: &mut Seq<Matched<'a>>,
    context: &'a Context,
    param: Option<&'a Option<ValueType>>,
    arg: &Expr,
) -> Result<(), Memory>
    ensures { OnOk result (map arguments.passed_at before.new ≡ arguments.learned (context_of context.now) (map arguments.passed_at before.old) (option_map (option_map type_of) (option_copied param.entry)) (expr_of arg.now)) }
{
    match param {
        Some(param) => before.push(passed(context, param, arg)),
        None => Ok(()),
    }
}

/// The first of the parameters, where there is one, and those after it.
pub fn split_param<'a>(
    params: &'a [Option<ValueType>],
) -> (Option<&'a Option<ValueType>>, &'a [Option<ValueType>])
    ensures { arguments.Splits (option_copied result.0) result.1.now params.now }
{
    match params.split_first() {
        Some((param, later)) => (Some(param), later),
        None => (None, params),
    }
}

/// The first fault of the arguments for these parameters.
fn args_fault<'a>(
    alloc: Global,
    context: &'a Context,
    params: &'a [Option<ValueType>],
    args: &[Expr],
) -> Result<Option<RuleFault>, Memory>
    ensures { IfOk result (λ fault. found fault ≡ first_of (nodes.args_row (context_of context.now) [] (map (option_map type_of) params.now) (map expr_of args.now))) }
{
    let mut before = Seq::new(alloc);
    let mut rest = params;
    for arg in args {
        let (param, later) = split_param(rest);
        if let Some(fault) = expression_fault(
            context,
            argument_want(before.as_slice(), param),
            arg,
        ) {
            return Ok(Some(fault));
        }
        learn(&mut before, context, param, arg)?;
        rest = later;
    }
    Ok(None)
}

/// The rule of a call of this with so many arguments.
fn call_rule(callee: Option<&CalleeEntry>, count: usize) -> Option<u8>
    ensures { result ≡ least (arguments.call_rows (option_map callee_entry_of (option_copied callee.entry)) count) }
{
    match callee {
        Some(callee) => when(callee.params.len() != count, 34),
        None => Some(7),
    }
}

fn params_of<'a>(callee: Option<&'a CalleeEntry>) -> &'a [Option<ValueType>]
    ensures { map (option_map type_of) result.now ≡ nodes.params_of (option_map callee_entry_of (option_copied callee.entry)) }
{
    match callee {
        Some(callee) => callee.params.as_slice(),
        None => &[],
    }
}

/// The first fault of a call.
pub fn call_fault(
    alloc: Global,
    context: &Context,
    call: &CallText,
) -> Result<Option<RuleFault>, Memory>
    ensures { IfOk result (λ fault. found fault ≡ first_of (nodes.call_row (context_of context.now) (call_of call.now))) }
{
    let callee = callee_named(&context.items, &call.name.text);
    let within = args_fault(alloc, context, params_of(callee), call.args.as_slice())?;
    Ok(at_place(call_rule(callee, call.args.len()), call.span, within))
}
