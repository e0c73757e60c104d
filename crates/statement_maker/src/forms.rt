//! The cores of the statements that hold no block.

ghost use Rattle.std.specs.Prelude.{◌≡◌, ◌+◌, option_map, IfOk, OnOk};
ghost use Rattle.area_types.specs.Syntax as types;
ghost use Rattle.area_types.specs.View.{area_of as area_seen, type_of};
ghost use Rattle.core_tree.specs.Syntax as core_syntax;
ghost use Rattle.core_tree.specs.View as tree;
ghost use Rattle.ivory_tree.specs.View.{area_of, call_of, expr_of, init_of};
ghost use Rattle.rule_checker.specs.View.{type_at};
ghost use Rattle.rule_faults.specs.StatementRows as rows;
ghost use Rattle.typing_rules.specs.Contexts.{context_of};
ghost use Rattle.typing_rules.specs.Environments as typing;
ghost use Rattle.typing_rules.specs.ExpressionCores.{core_of, any_type, type_or, length_or};
ghost use Rattle.typing_rules.specs.StatementCores as cores;
ghost use Rattle.typing_rules.specs.Statements as statements;
ghost use Rattle.check_numbers.specs.Numbered.{expr_from, expr_after};
ghost use Rattle.check_numbers.specs.NumberedParts as numbers;
ghost use Rattle.core_maker.specs.Places.{env_of, Agrees};
ghost use Rattle.statement_maker.specs.Parts as parts;
ghost use Rattle.statement_maker.specs.Places.{Stays};

use crate::nodes;
use crate::scope::add_name;
use area_types::{Area, Region, ValueType};
use core_maker::{
    Place, call, check, core_type, expression, first_token, init, owned, stored_type,
};
use core_tree::{CoreExpr, CoreInit, CoreStmt, SiteKind};
use iv_words::{Box, Memory, Name, Span};
use ivory_tree::{AreaText, CallText, Expr, InitText};
use rule_checker::{TypeRef, area_in, is_length};
use statement_rules::{call_type, reference_to};
use std::alloc::Global;

/// `let` of a value.
pub(crate) fn let_value(
    alloc: Global,
    place: &mut Place,
    name: &Name,
    value: &Expr,
    next: &mut u32,
) -> Result<CoreStmt, Memory>
    requires { Agrees place.old }
    ensures core { IfOk result (λ c. tree.stmt_of c ≡ core_syntax.Let (typing.next (env_of place.old)) (expr_from next.old (core_of (env_of place.old) any_type (expr_of value.now)))) }
    ensures after { OnOk result (next.new ≡ expr_after next.old (core_of (env_of place.old) any_type (expr_of value.now))) }
    ensures env { OnOk result (env_of place.new ≡ typing.with_local (env_of place.old) name.now.text (core_syntax.type_of (core_of (env_of place.old) any_type (expr_of value.now)))) }
    ensures stays { OnOk result (Stays place.old place.new) }
{
    let ty = owned(alloc, core_type(&*place, TypeRef::Bool, value))?;
    let core = expression(alloc, &*place, TypeRef::Bool, value, next)?;
    let number = add_name(alloc, place, &name.text, ty)?;
    Ok(nodes::let_value(number, core))
}

/// The type of the call, or a bool where it has none.
fn type_of_call(alloc: Global, place: &Place, text: &CallText) -> Result<ValueType, Memory>
    requires { Agrees place.now }
    ensures { IfOk result (λ t. type_of t ≡ type_or (rows.call_type (context_of (env_of place.now)) (call_of text.now))) }
{
    match call_type(alloc, &place.context, text)? {
        Some(t) => Ok(t),
        None => Ok(ValueType::Bool),
    }
}

/// `let` of what a call gives.
pub(crate) fn let_call(
    alloc: Global,
    place: &mut Place,
    name: &Name,
    text: &CallText,
    next: &mut u32,
) -> Result<CoreStmt, Memory>
    requires { Agrees place.old }
    ensures core { IfOk result (λ c. tree.stmt_of c ≡ core_syntax.LetCall (typing.next (env_of place.old)) (numbers.call_from next.old (cores.call_core (env_of place.old) (call_of text.now)))) }
    ensures after { OnOk result (next.new ≡ numbers.call_after next.old (cores.call_core (env_of place.old) (call_of text.now))) }
    ensures env { OnOk result (env_of place.new ≡ typing.with_local (env_of place.old) name.now.text (type_or (rows.call_type (context_of (env_of place.old)) (call_of text.now)))) }
    ensures stays { OnOk result (Stays place.old place.new) }
{
    let ty = type_of_call(alloc, &*place, text)?;
    let core = call(alloc, &*place, text, next)?;
    let number = add_name(alloc, place, &name.text, ty)?;
    Ok(nodes::let_call(number, core))
}

/// A cell with a bool.
#[tactic(auto, using(area_types::proofs::View::stored_is))]
fn stored_bool(alloc: Global) -> Result<Area, Memory>
    ensures { IfOk result (λ a. area_seen a ≡ types.Stored any_type) }
{
    Ok(Area::Stored(Box::new(alloc, ValueType::Bool)?))
}

/// The area that the text names, or a cell with a bool where it names none.
fn named_area(alloc: Global, place: &Place, text: &AreaText) -> Result<Area, Memory>
    ensures { IfOk result (λ a. area_seen a ≡ parts.area_named (env_of place.now) (area_of text.now)) }
{
    match area_in(alloc, &place.context.items, text)? {
        Some(area) => Ok(area),
        None => stored_bool(alloc),
    }
}

fn first_values(
    alloc: Global,
    place: &Place,
    area: &Area,
    first: &Option<InitText>,
    next: &mut u32,
) -> Result<Option<CoreInit>, Memory>
    requires { Agrees place.now }
    ensures core { IfOk result (λ c. option_map tree.init_of c ≡ numbers.maybe_init_from next.old (cores.maybe_init_core (env_of place.now) (area_seen area.now) (option_map init_of first.now))) }
    ensures after { OnOk result (next.new ≡ numbers.maybe_init_after next.old (cores.maybe_init_core (env_of place.now) (area_seen area.now) (option_map init_of first.now))) }
{
    match first {
        Some(text) => Ok(Some(init(alloc, place, text, area, next)?)),
        None => Ok(None),
    }
}

/// The type of the name of an area.
fn own_reference(alloc: Global, area: &Area) -> Result<ValueType, Memory>
    ensures { IfOk result (λ t. type_of t ≡ statements.own (area_seen area.now)) }
{
    Ok(reference_to(false, Region::Own, area.copy(alloc)?))
}

/// `alloc` of an area.
pub(crate) fn alloc_area(
    alloc: Global,
    place: &mut Place,
    name: &Name,
    text: &AreaText,
    first: &Option<InitText>,
    next: &mut u32,
) -> Result<CoreStmt, Memory>
    requires { Agrees place.old }
    ensures core { IfOk result (λ c. tree.stmt_of c ≡ parts.alloc_from next.old (env_of place.old) (parts.area_named (env_of place.old) (area_of text.now)) (option_map init_of first.now)) }
    ensures after { OnOk result (next.new ≡ parts.alloc_after next.old (env_of place.old) (parts.area_named (env_of place.old) (area_of text.now)) (option_map init_of first.now)) }
    ensures env { OnOk result (env_of place.new ≡ typing.with_local (env_of place.old) name.now.text (statements.own (parts.area_named (env_of place.old) (area_of text.now)))) }
    ensures stays { OnOk result (Stays place.old place.new) }
{
    let area = named_area(alloc, &*place, text)?;
    let ty = own_reference(alloc, &area)?;
    let first = first_values(alloc, &*place, &area, first, next)?;
    let number = add_name(alloc, place, &name.text, ty)?;
    Ok(nodes::alloc(number, area, first))
}

/// A value that is stored.
pub(crate) fn store(
    alloc: Global,
    place: &Place,
    target: &Expr,
    value: &Expr,
    next: &mut u32,
) -> Result<CoreStmt, Memory>
    requires { Agrees place.now }
    ensures core { IfOk result (λ c. tree.stmt_of c ≡ numbers.stmt_from next.old (parts.store_core (env_of place.now) (expr_of target.now) (expr_of value.now))) }
    ensures after { OnOk result (next.new ≡ numbers.stmt_after next.old (parts.store_core (env_of place.now) (expr_of target.now) (expr_of value.now))) }
{
    let want = stored_type(core_type(place, TypeRef::Bool, target));
    let target = expression(alloc, place, TypeRef::Bool, target, next)?;
    let value = expression(alloc, place, want, value, next)?;
    Ok(nodes::store(target, value))
}

/// A copy between two areas.
pub(crate) fn copy(
    alloc: Global,
    place: &Place,
    target: &Expr,
    source: &Expr,
    next: &mut u32,
) -> Result<CoreStmt, Memory>
    requires { Agrees place.now }
    ensures core { IfOk result (λ c. tree.stmt_of c ≡ numbers.stmt_from next.old (core_syntax.Copy (core_of (env_of place.now) any_type (expr_of target.now)) (core_of (env_of place.now) any_type (expr_of source.now)))) }
    ensures after { OnOk result (next.new ≡ numbers.stmt_after next.old (core_syntax.Copy (core_of (env_of place.now) any_type (expr_of target.now)) (core_of (env_of place.now) any_type (expr_of source.now)))) }
{
    let target = expression(alloc, place, TypeRef::Bool, target, next)?;
    let source = expression(alloc, place, TypeRef::Bool, source, next)?;
    Ok(nodes::copy(target, source))
}

/// A call whose result is dropped.
pub(crate) fn call_alone(
    alloc: Global,
    place: &Place,
    text: &CallText,
    next: &mut u32,
) -> Result<CoreStmt, Memory>
    requires { Agrees place.now }
    ensures core { IfOk result (λ c. tree.stmt_of c ≡ core_syntax.Call (numbers.call_from next.old (cores.call_core (env_of place.now) (call_of text.now)))) }
    ensures after { OnOk result (next.new ≡ numbers.call_after next.old (cores.call_core (env_of place.now) (call_of text.now))) }
{
    Ok(nodes::call(call(alloc, place, text, next)?))
}

/// What a returned value is wanted as.
fn result_type(place: &Place) -> TypeRef
    ensures { type_at result ≡ type_or (env_of place.now).result }
{
    match &place.context.result {
        Some(t) => TypeRef::of(t),
        None => TypeRef::Bool,
    }
}

/// The value that is returned, where there is one.
fn returned(
    alloc: Global,
    place: &Place,
    value: &Option<Expr>,
    next: &mut u32,
) -> Result<Option<CoreExpr>, Memory>
    requires { Agrees place.now }
    ensures core { IfOk result (λ c. option_map tree.expr_of c ≡ numbers.maybe_from next.old (cores.value_core (env_of place.now) (option_map expr_of value.now))) }
    ensures after { OnOk result (next.new ≡ numbers.maybe_after next.old (cores.value_core (env_of place.now) (option_map expr_of value.now))) }
{
    match value {
        Some(value) => Ok(Some(expression(alloc, place, result_type(place), value, next)?)),
        None => Ok(None),
    }
}

/// `return`.
pub(crate) fn give_back(
    alloc: Global,
    place: &Place,
    value: &Option<Expr>,
    next: &mut u32,
) -> Result<CoreStmt, Memory>
    requires { Agrees place.now }
    ensures core { IfOk result (λ c. tree.stmt_of c ≡ core_syntax.Return (numbers.maybe_from next.old (cores.value_core (env_of place.now) (option_map expr_of value.now)))) }
    ensures after { OnOk result (next.new ≡ numbers.maybe_after next.old (cores.value_core (env_of place.now) (option_map expr_of value.now))) }
{
    Ok(nodes::give_back(returned(alloc, place, value, next)?))
}

/// `assert`, which stands at this place.
pub(crate) fn assertion(
    alloc: Global,
    place: &Place,
    span: Span,
    cond: &Expr,
    next: &mut u32,
) -> Result<CoreStmt, Memory>
    requires { Agrees place.now }
    ensures core { IfOk result (λ c. tree.stmt_of c ≡ numbers.stmt_from next.old (core_syntax.Assert (core_of (env_of place.now) types.Truth (expr_of cond.now)) (cores.assert_at span))) }
    ensures after { OnOk result (next.new ≡ expr_after (next.old + 1) (core_of (env_of place.now) types.Truth (expr_of cond.now))) }
{
    let check = check(SiteKind::Assert, first_token(span, 6), next)?;
    let cond = expression(alloc, place, TypeRef::Bool, cond, next)?;
    Ok(nodes::assertion(cond, check))
}

/// The length of an index type, or 0 where there is none of that length.
pub(crate) fn index_length(length: u64) -> u32
    ensures { result ≡ length_or length }
{
    if is_length(length) { length as u32 } else { 0 }
}
