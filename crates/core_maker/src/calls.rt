//! The core of a call: the number of what it calls, and its arguments, each as its parameter wants it.

ghost use Rattle.std.specs.Prelude.{◌≡◌, Some, map, option_map, IfOk, OnOk};
ghost use Rattle.area_types.specs.View.{type_of};
ghost use Rattle.core_tree.specs.View as tree;
ghost use Rattle.ivory_tree.specs.View.{expr_of, call_of};
ghost use Rattle.rule_checker.specs.Contexts.{earlier_of, callee_entry_of};
ghost use Rattle.rule_checker.specs.View.{type_at};
ghost use Rattle.typing_rules.specs.Environments as typing;
ghost use Rattle.typing_rules.specs.ExpressionCores.{type_or};
ghost use Rattle.typing_rules.specs.StatementCores as cores;
ghost use Rattle.check_numbers.specs.NumberedParts.{exprs_from, exprs_after, call_from, call_after};
ghost use Rattle.core_maker.specs.Places.{env_of, Agrees};

use crate::expressions::expression;
use crate::place::Place;
use area_types::ValueType;
use core_parts::number;
use core_tree::{CoreCall, CoreExpr};
use iv_words::{Memory, Seq};
use ivory_tree::{CallText, Expr};
use rule_checker::{CalleeEntry, Items, TypeRef, callee_named};
use std::alloc::Global;

/// The number of the import or the procedure among those of its kind.
fn callee_number(items: &Items, callee: &CalleeEntry) -> Option<usize>
    ensures { result ≡ typing.callee_number (earlier_of items.now) (callee_entry_of callee.now) }
{
    if callee.import {
        items.callee_names.imports.position(&callee.name)
    } else {
        items.callee_names.procedures.position(&callee.name)
    }
}

/// What the argument for this parameter is wanted as.
fn argument_type<'a>(param: &'a Option<ValueType>) -> TypeRef<'a>
    ensures { type_at result ≡ type_or (option_map type_of param.now) }
{
    match param {
        Some(ty) => TypeRef::of(ty),
        None => TypeRef::Bool,
    }
}

#[tactic(auto, using(crate::proofs::Listed::expr_pushed))]
fn arguments(
    alloc: Global,
    place: &Place,
    params: &Seq<Option<ValueType>>,
    args: &Seq<Expr>,
    next: &mut u32,
) -> Result<Seq<CoreExpr>, Memory>
    requires { Agrees place.now }
    ensures args { IfOk result (λ cs. map tree.expr_of cs ≡ exprs_from next.old (cores.args_core (env_of place.now) (map (option_map type_of) params.now) (map expr_of args.now))) }
    ensures after { OnOk result (next.new ≡ exprs_after next.old (cores.args_core (env_of place.now) (map (option_map type_of) params.now) (map expr_of args.now))) }
{
    let mut made = Seq::new(alloc);
    let mut rest = params.as_slice();
    for arg in args.as_slice() {
        match rest.split_first() {
            Some((param, later)) => {
                made.push(expression(alloc, place, argument_type(param), arg, next)?)?;
                rest = later;
            }
            None => return Ok(made),
        }
    }
    Ok(made)
}

/// The core of a call of this.
fn call_to(
    alloc: Global,
    place: &Place,
    callee: &CalleeEntry,
    args: &Seq<Expr>,
    next: &mut u32,
) -> Result<CoreCall, Memory>
    requires { Agrees place.now }
    ensures call { IfOk result (λ c. tree.call_of c ≡ call_from next.old (cores.callee_core (env_of place.now) (Some (callee_entry_of callee.now)) (map expr_of args.now))) }
    ensures after { OnOk result (next.new ≡ call_after next.old (cores.callee_core (env_of place.now) (Some (callee_entry_of callee.now)) (map expr_of args.now))) }
{
    let number = number(callee_number(&place.context.items, callee))?;
    let args = arguments(alloc, place, &callee.params, args, next)?;
    Ok(CoreCall {
        import: callee.import,
        callee: number,
        args,
    })
}

/// The core of a call, with its checks numbered from `next` on.
pub fn call(
    alloc: Global,
    place: &Place,
    text: &CallText,
    next: &mut u32,
) -> Result<CoreCall, Memory>
    requires { Agrees place.now }
    ensures call { IfOk result (λ c. tree.call_of c ≡ call_from next.old (cores.call_core (env_of place.now) (call_of text.now))) }
    ensures after { OnOk result (next.new ≡ call_after next.old (cores.call_core (env_of place.now) (call_of text.now))) }
{
    match callee_named(&place.context.items, &text.name.text) {
        Some(callee) => call_to(alloc, place, callee, &text.args, next),
        None => Ok(CoreCall {
            import: false,
            callee: 0,
            args: Seq::new(alloc),
        }),
    }
}
