//! The first fault of a header: its parameters, each after those before it, and its result.

ghost use Rattle.std.specs.Prelude.{◌≡◌, ◌≤◌, IfOk, OnOk, length, map, option_map, option_and_then};
ghost use Rattle.area_types.specs.View.{type_of as type_seen};
ghost use Rattle.ivory_tree.specs.View.{type_of, param_of, header_of};
ghost use Rattle.rule_checker.specs.Contexts.{context_of, earlier_of};
ghost use Rattle.rule_checker.specs.Faults.{found};
ghost use Rattle.rule_faults.specs.FirstFault.{first_of};
ghost use Rattle.rule_faults.specs.ItemRows as nodes;
ghost use Rattle.source_types.specs.Written as written;
ghost use Rattle.item_rules.specs.Around.{Around};
ghost use Rattle.item_rules.specs.Boundaries.{boundary_at};
ghost use Rattle.item_rules.specs.Params as params;

use crate::boundaries::{Boundary, param_type_fault, result_type_fault};
use crate::regions::regions_of;
use area_types::ValueType;
use iv_words::{Memory, Word};
use ivory_tree::{Header, Param, TypeText};
use rule_checker::{Context, Items, RuleFault, at_place, either, is_taken, type_in, when};
use statement_rules::add_local;
use std::alloc::Global;

/// The type of a result, where there is one.
pub(crate) fn result_type(
    alloc: Global,
    items: &Items,
    regions: &[Word],
    given: &Option<TypeText>,
) -> Result<Option<ValueType>, Memory>
    requires { length regions.now ≤ 4_294_967_296 }
    ensures { IfOk result (λ t. option_map type_seen t ≡ option_and_then (written.type_in (earlier_of items.now) regions.now) (option_map type_of given.now)) }
{
    match given {
        Some(given) => type_in(alloc, items, regions, given),
        None => Ok(None),
    }
}

pub(crate) fn has_result(given: &Option<TypeText>) -> bool
    ensures { result ≡ written.has_result (option_map type_of given.now) }
{
    match given {
        Some(_) => true,
        None => false,
    }
}

/// What is known of a procedure at its first parameter.
fn enter(alloc: Global, context: &mut Context, header: &Header) -> Result<(), Memory>
    ensures view { OnOk result (context_of context.new ≡ nodes.at_header (context_of context.old) (header_of header.now)) }
    ensures few { OnOk result (length context.new.regions ≤ 4_294_967_296) }
    ensures around { OnOk result (Around context.old context.new) }
{
    let regions = regions_of(alloc, header.params.as_slice())?;
    let given = result_type(alloc, &context.items, regions.as_slice(), &header.result)?;
    context.regions = regions;
    context.gives = has_result(&header.result);
    context.result = given;
    Ok(())
}

/// The first fault of a result, where there is one.
fn result_fault(
    alloc: Global,
    context: &Context,
    boundary: Boundary,
    given: &Option<TypeText>,
) -> Result<Option<RuleFault>, Memory>
    ensures { IfOk result (λ fault. found fault ≡ first_of (nodes.result_row (context_of context.now) (boundary_at boundary) (option_map type_of given.now))) }
{
    match given {
        Some(given) => result_type_fault(
            alloc,
            &context.items,
            context.regions.as_slice(),
            boundary,
            given,
        ),
        None => Ok(None),
    }
}

/// The first fault of a parameter, its name before its type.
#[tactic(auto, using(crate::proofs::NodeRows::param_told))]
fn param_fault(
    alloc: Global,
    context: &Context,
    boundary: Boundary,
    param: &Param,
) -> Result<Option<RuleFault>, Memory>
    ensures { IfOk result (λ fault. found fault ≡ first_of (params.param_row (context_of context.now) (boundary_at boundary) (param_of param.now))) }
{
    let within = param_type_fault(
        alloc,
        &context.items,
        context.regions.as_slice(),
        boundary,
        &param.ty,
    )?;
    let rule = when(is_taken(context, &param.name.text), 1);
    Ok(at_place(rule, param.span, within))
}

/// Puts a parameter into scope.
fn add_param(alloc: Global, context: &mut Context, param: &Param) -> Result<(), Memory>
    requires { length context.now.regions ≤ 4_294_967_296 }
    ensures view { OnOk result (context_of context.new ≡ params.with_param (context_of context.old) (param_of param.now)) }
    ensures few { OnOk result (length context.new.regions ≤ 4_294_967_296) }
    ensures around { OnOk result (Around context.old context.new) }
{
    let ty = type_in(alloc, &context.items, context.regions.as_slice(), &param.ty)?;
    add_local(alloc, context, &param.name.text, ty)
}

/// The first fault of parameters, all of which are in scope then.
fn params_fault(
    alloc: Global,
    context: &mut Context,
    boundary: Boundary,
    all: &[Param],
) -> Result<Option<RuleFault>, Memory>
    requires { length context.now.regions ≤ 4_294_967_296 }
    ensures fault { IfOk result (λ fault. found fault ≡ first_of (nodes.params_row (context_of context.old) (boundary_at boundary) (map param_of all.now))) }
    ensures view { OnOk result (context_of context.new ≡ nodes.with_params (context_of context.old) (map param_of all.now)) }
    ensures around { OnOk result (Around context.old context.new) }
{
    let mut fault = None;
    for param in all {
        let next = param_fault(alloc, &*context, boundary, param)?;
        fault = either(fault, next);
        add_param(alloc, context, param)?;
    }
    Ok(fault)
}

/// The first fault of a header, whose parameters are in scope then.
pub(crate) fn header_fault(
    alloc: Global,
    context: &mut Context,
    boundary: Boundary,
    header: &Header,
) -> Result<Option<RuleFault>, Memory>
    ensures fault { IfOk result (λ fault. found fault ≡ first_of (nodes.header_row (context_of context.old) (boundary_at boundary) (header_of header.now))) }
    ensures view { OnOk result (context_of context.new ≡ nodes.with_params (nodes.at_header (context_of context.old) (header_of header.now)) (map param_of header.now.params)) }
    ensures around { OnOk result (Around context.old context.new) }
{
    enter(alloc, context, header)?;
    let of_result = result_fault(alloc, &*context, boundary, &header.result)?;
    let of_params = params_fault(alloc, context, boundary, header.params.as_slice())?;
    Ok(either(of_params, of_result))
}
