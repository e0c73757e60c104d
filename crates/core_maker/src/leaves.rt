//! The cores of the forms that have no operand, and of others from the cores of their operands.

ghost use Rattle.std.specs.Prelude.{◌≡◌, map, IfOk, OnOk};
ghost use Rattle.area_types.specs.Syntax as types;
ghost use Rattle.core_tree.specs.Syntax as core_syntax;
ghost use Rattle.core_tree.specs.View as tree;
ghost use Rattle.ivory_tree.specs.View as text;
ghost use Rattle.rule_checker.specs.View.{type_at};
ghost use Rattle.typing_rules.specs.Environments.{area_number};
ghost use Rattle.typing_rules.specs.Expressions.{truth_value};
ghost use Rattle.typing_rules.specs.ExpressionCores as cores;
ghost use Rattle.typing_rules.specs.Sites.{unchecked};
ghost use Rattle.check_numbers.specs.Numbered.{kinds_from, kinds_after};
ghost use Rattle.core_maker.specs.Chains as along;
ghost use Rattle.core_maker.specs.Forms.{form_of};
ghost use Rattle.core_maker.specs.Opened.{alone};
ghost use Rattle.core_maker.specs.Places.{env_of, Agrees};
ghost use Rattle.core_maker.specs.Postfixes as parts;

use crate::joining::Opened;
use crate::place::{Place, local_number, own};
use area_types::ValueType;
use core_parts::{
    area_position, check_unless, element_type, field_type, has_values_of, nodes, number, owned,
};
use core_tree::{Check, CoreExpr, SiteKind};
use iv_words::{IntKind, Memory, Seq, Span, Word};
use ivory_tree::{Expr, Link, Step};
use rule_checker::{TypeRef, is_settled};
use std::alloc::Global;

/// The test and the first arm of `?:`.
#[derive(Drop)]
pub(crate) struct Arm {
    pub test: CoreExpr,
    pub first: CoreExpr,
}

/// The checks of `set`, and its bit data.
#[derive(Drop)]
pub(crate) struct OldBits {
    pub checks: Seq<Check>,
    pub bits: CoreExpr,
}

pub(crate) fn literal(alloc: Global, want: TypeRef, value: &i128) -> Result<Opened, Memory>
    ensures { IfOk result (λ f. form_of f ≡ alone (core_syntax.Number (unchecked (type_at want.entry)) value.now)) }
{
    let ty = owned(alloc, want)?;
    Ok(Opened::Closed(nodes::number(alloc, ty, *value)))
}

pub(crate) fn truth(alloc: Global, value: bool) -> Opened
    ensures { form_of result ≡ alone (core_syntax.Number (unchecked types.Truth) (truth_value value)) }
{
    let number = if value { 1 } else { 0 };
    Opened::Closed(nodes::number(alloc, ValueType::Bool, number))
}

/// `result`, which has this type.
pub(crate) fn outcome(alloc: Global, t: TypeRef) -> Result<Opened, Memory>
    ensures { IfOk result (λ f. form_of f ≡ alone (core_syntax.Outcome (unchecked (type_at t.entry)))) }
{
    let ty = owned(alloc, t)?;
    Ok(Opened::Closed(nodes::outcome(alloc, ty)))
}

/// A name, of which this is the type.
pub(crate) fn variable(
    alloc: Global,
    place: &Place,
    t: TypeRef,
    name: &Word,
) -> Result<Opened, Memory>
    ensures { IfOk result (λ f. form_of f ≡ alone (cores.name_core (type_at t.entry) (cores.local_number (env_of place.now) name.now) (cores.number_or (area_number (env_of place.now).earlier name.now)))) }
{
    let ty = owned(alloc, t)?;
    match local_number(place, name) {
        Some(local) => Ok(Opened::Closed(nodes::local(alloc, ty, local))),
        None => {
            let area = number(area_position(&place.context.items, name))?;
            Ok(Opened::Closed(nodes::area_name(alloc, ty, area)))
        }
    }
}

/// `set` of that field, with its parts.
pub(crate) fn set_node(
    alloc: Global,
    t: TypeRef,
    checks: Seq<Check>,
    bits: CoreExpr,
    field: Option<usize>,
    value: CoreExpr,
) -> Result<Opened, Memory>
    ensures { IfOk result (λ f. form_of f ≡ alone (core_syntax.SetField (record { ty = type_at t.entry; checks = checks }) (tree.expr_of bits) (cores.number_or field) (tree.expr_of value))) }
{
    let ty = owned(alloc, t)?;
    let field = number(field)?;
    Ok(Opened::Closed(nodes::set_field(alloc, ty, checks, bits, field, value)?))
}

/// `?:` of this type, with its parts.
pub(crate) fn cond_node(
    alloc: Global,
    t: TypeRef,
    test: CoreExpr,
    first: CoreExpr,
    second: CoreExpr,
) -> Result<Opened, Memory>
    ensures { IfOk result (λ f. form_of f ≡ alone (core_syntax.Cond (unchecked (type_at t.entry)) (tree.expr_of test) (tree.expr_of first) (tree.expr_of second))) }
{
    let ty = owned(alloc, t)?;
    Ok(Opened::Closed(nodes::cond(alloc, ty, test, first, second)?))
}

/// What two arms are wanted as.
pub(crate) fn beside<'a>(
    place: &'a Place,
    want: TypeRef<'a>,
    first: &Expr,
    second: &Expr,
) -> TypeRef<'a>
    requires { Agrees place.now }
    ensures { type_at result ≡ cores.beside (env_of place.now) (type_at want.entry) (text.expr_of first.now) (text.expr_of second.now) }
{
    if is_settled(first) {
        return own(place, first);
    }
    if is_settled(second) {
        return own(place, second);
    }
    want
}

/// The type of the core of an expression of which this is wanted.
#[tactic(auto, using(crate::proofs::Wanted::core_typed))]
pub fn core_type<'a>(place: &'a Place, want: TypeRef<'a>, e: &Expr) -> TypeRef<'a>
    requires { Agrees place.now }
    ensures { type_at result ≡ core_syntax.type_of (cores.core_of (env_of place.now) (type_at want.entry) (text.expr_of e.now)) }
{
    if is_settled(e) { own(place, e) } else { want }
}

#[tactic(auto, using(crate::proofs::Begun::some_links))]
pub(crate) fn has_links(links: &Seq<Link>) -> bool
    ensures { result ≡ along.has_links (map text.link_of links.now) }
{
    0 < links.len()
}

#[tactic(auto, using(crate::proofs::Begun::some_steps))]
pub(crate) fn has_steps(steps: &Seq<Step>) -> bool
    ensures { result ≡ parts.has_steps (map text.step_of steps.now) }
{
    0 < steps.len()
}

/// The type of a part of what has that type.
pub(crate) fn step_type<'a>(place: &'a Place, t: TypeRef<'a>, step: &Step) -> TypeRef<'a>
    ensures { type_at result ≡ parts.step_own (env_of place.now) (type_at t.entry) (text.step_of step.now) }
{
    match step {
        Step::Field(name) => field_type(&place.context.items, t, &name.text),
        Step::Index(_, _) => element_type(t),
    }
}

/// The check of a conversion to the kind.
pub(crate) fn cast_checks(
    alloc: Global,
    place: &Place,
    kind: IntKind,
    operand: &Expr,
    at: Span,
    next: &mut u32,
) -> Result<Seq<Check>, Memory>
    requires { Agrees place.now }
    ensures checks { IfOk result (λ cs. cs ≡ kinds_from next.old (cores.cast_checks (env_of place.now) kind (text.expr_of operand.now)) at) }
    ensures after { OnOk result (next.new ≡ kinds_after next.old (cores.cast_checks (env_of place.now) kind (text.expr_of operand.now)) at) }
{
    if is_settled(operand) {
        let needless = has_values_of(kind, own(place, operand));
        return check_unless(alloc, needless, SiteKind::Cast, at, next);
    }
    Ok(Seq::new(alloc))
}
