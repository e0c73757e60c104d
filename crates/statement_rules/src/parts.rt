//! The first fault of the parts of a statement that are no blocks.

ghost use Rattle.std.specs.Prelude.{◌≡◌, IfOk, option_map};
ghost use Rattle.ivory_tree.specs.View.{area_of, expr_of, init_of};
ghost use Rattle.rule_faults.specs.ExpressionRows.{expr_row};
ghost use Rattle.rule_faults.specs.FirstFault.{first_of};
ghost use Rattle.rule_faults.specs.StatementRows as statements;
ghost use Rattle.rule_faults.specs.Wants as wanting;
ghost use Rattle.rule_checker.specs.Contexts.{context_of};
ghost use Rattle.rule_checker.specs.Faults.{found};
ghost use Rattle.rule_checker.specs.View.{type_seen};
ghost use Rattle.rule_checker.specs.Wanted.{want_at};
ghost use Rattle.area_types.specs.View.{area_of as area_seen, type_of};
ghost use Rattle.source_types.specs.Written.{index_type};
ghost use Rattle.statement_rules.specs.Within as within;

use crate::areas::area_fault;
use area_types::{Area, ValueType};
use iv_words::Memory;
use ivory_tree::{AreaText, Expr, InitText};
use rule_checker::{
    Context, RuleFault, TypeRef, Want, area_in, either, expression_fault, index_type, init_fault,
    of_stored,
};
use std::alloc::Global;

/// The first fault of the value that is named.
pub(crate) fn let_fault(context: &Context, value: &Expr) -> Option<RuleFault>
    ensures { found result ≡ first_of (expr_row (context_of context.now) wanting.Nothing (expr_of value.now)) }
{
    expression_fault(context, Want::Nothing, value)
}

/// The first fault of an initializer, where there is one.
fn first_value_fault(
    context: &Context,
    area: &Option<Area>,
    init: &Option<InitText>,
) -> Option<RuleFault>
    ensures { found result ≡ first_of (statements.alloc_row (context_of context.now) (option_map area_seen area.now) (option_map init_of init.now)) }
{
    match init {
        Some(init) => init_fault(context, false, area.as_ref(), init),
        None => None,
    }
}

/// The first fault of an area with its initializer.
pub(crate) fn alloc_fault(
    alloc: Global,
    context: &Context,
    area: &AreaText,
    init: &Option<InitText>,
) -> Result<Option<RuleFault>, Memory>
    ensures { IfOk result (λ fault. found fault ≡ within.alloc_fault (context_of context.now) (area_of area.now) (option_map init_of init.now)) }
{
    let of_area = area_fault(alloc, &context.items, area)?;
    let named = area_in(alloc, &context.items, area)?;
    Ok(either(of_area, first_value_fault(context, &named, init)))
}

pub(crate) fn store_fault(context: &Context, target: &Expr, value: &Expr) -> Option<RuleFault>
    ensures { found result ≡ within.store_fault (context_of context.now) (expr_of target.now) (expr_of value.now) }
{
    let of_target = expression_fault(context, Want::Nothing, target);
    let stored = of_stored(context, target);
    either(of_target, expression_fault(context, stored, value))
}

pub(crate) fn copy_fault(context: &Context, target: &Expr, source: &Expr) -> Option<RuleFault>
    ensures { found result ≡ within.copy_fault (context_of context.now) (expr_of target.now) (expr_of source.now) }
{
    let of_target = expression_fault(context, Want::Nothing, target);
    either(of_target, expression_fault(context, Want::Nothing, source))
}

/// The first fault of a truth that is tested.
pub(crate) fn test_fault(context: &Context, test: &Expr) -> Option<RuleFault>
    ensures { found result ≡ within.test_fault (context_of context.now) (expr_of test.now) }
{
    expression_fault(context, Want::Wants(TypeRef::Bool), test)
}

/// Of the bound of a loop: the type of its index.
fn of_bound<'a>(length: u64) -> Want<'a>
    ensures { want_at result ≡ wanting.wants (index_type length) }
{
    match index_type(length) {
        Some(t) => Want::Wants(t),
        None => Want::Unknown,
    }
}

pub(crate) fn bound_fault(context: &Context, length: u64, bound: &Expr) -> Option<RuleFault>
    ensures { found result ≡ within.bound_fault (context_of context.now) length (expr_of bound.now) }
{
    expression_fault(context, of_bound(length), bound)
}

/// Of a value to return: the type of the result.
fn of_returned<'a>(result_type: &'a Option<ValueType>) -> Want<'a>
    ensures { want_at result ≡ wanting.of_returned (option_map type_of result_type.now) }
{
    match result_type {
        Some(t) => match TypeRef::of(t) {
            TypeRef::Ref(wanted) => Want::Returns(wanted),
            TypeRef::Bool => Want::Wants(TypeRef::Bool),
            TypeRef::Int(kind) => Want::Wants(TypeRef::Int(kind)),
            TypeRef::Ix(length) => Want::Wants(TypeRef::Ix(length)),
            TypeRef::Bits(word) => Want::Wants(TypeRef::Bits(word)),
        },
        None => Want::Unknown,
    }
}

fn of_value(context: &Context) -> Want
    ensures { want_at result ≡ statements.of_value (context_of context.now) }
{
    if context.gives {
        of_returned(&context.result)
    } else {
        Want::Nothing
    }
}

/// The first fault of the value of a `return`, where it has one.
pub(crate) fn value_fault(context: &Context, value: &Option<Expr>) -> Option<RuleFault>
    ensures { found result ≡ first_of (statements.value_row (context_of context.now) (option_map expr_of value.now)) }
{
    match value {
        Some(value) => expression_fault(context, of_value(context), value),
        None => None,
    }
}
