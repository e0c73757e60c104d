//! The core of an expression, of which a type is wanted. The checks get their numbers in the order of their tokens: those of an operand that
//! stands before its operator come first.

ghost use Rattle.std.specs.Prelude.{◌≡◌, map, IfOk, OnOk};
ghost use Rattle.area_types.specs.Syntax.{Truth};
ghost use Rattle.core_tree.specs.Syntax as core_syntax;
ghost use Rattle.core_tree.specs.View as tree;
ghost use Rattle.ivory_tree.specs.Syntax as syntax;
ghost use Rattle.ivory_tree.specs.View.{expr_of, link_of, step_of};
ghost use Rattle.rule_checker.specs.View.{type_at};
ghost use Rattle.typing_rules.specs.ExpressionCores.{core_of, own};
ghost use Rattle.typing_rules.specs.Sites as sites;
ghost use Rattle.typing_rules.specs.Sites.{unchecked};
ghost use Rattle.core_maker.specs.Chains as along;
ghost use Rattle.core_maker.specs.Forms.{form_of};
ghost use Rattle.check_numbers.specs.Numbered.{expr_from, expr_after, kinds_from};
ghost use Rattle.core_maker.specs.Opened.{alone, based, first_of, opened};
ghost use Rattle.core_maker.specs.Places.{env_of, Agrees};
ghost use Rattle.core_maker.specs.Postfixes as parts;

use crate::before::{Before, after_link, before_links};
use crate::joining::{Opened, PostfixParts, base, close, keep, push_link, push_step};
use crate::leaves::{
    Arm, OldBits, beside, cast_checks, cond_node, core_type, has_links, has_steps, literal,
    outcome, set_node, step_type, truth, variable,
};
use crate::place::{Place, number_in, own};
use area_types::ValueType;
use core_parts::{
    bit_field_named, bit_field_number, bits_number, first_token, index_checks, length_behind,
    name_bytes, new_type, nodes, number, operator_checks, owned, prefix_checks, result_type,
    set_checks, word_type,
};
use core_tree::{CoreExpr, CoreStep};
use iv_words::{IntKind, Memory, Name, Seq, Span};
use ivory_tree::{Expr, ExprKind, Link, PrefixOp, Step};
use rule_checker::TypeRef;
use std::alloc::Global;

/// The core of an expression of which this is wanted, with its checks numbered from `next` on.
#[cycle(cores)]
pub fn expression(
    alloc: Global,
    place: &Place,
    want: TypeRef,
    e: &Expr,
    next: &mut u32,
) -> Result<CoreExpr, Memory>
    requires { Agrees place.now }
    ensures core { IfOk result (λ c. tree.expr_of c ≡ expr_from next.old (core_of (env_of place.now) (type_at want.entry) (expr_of e.now))) }
    ensures after { OnOk result (next.new ≡ expr_after next.old (core_of (env_of place.now) (type_at want.entry) (expr_of e.now))) }
{
    let opened = open_core(alloc, place, want, e, next)?;
    close(alloc, opened)
}

/// The same, open where it is a chain or a postfix.
#[cycle(cores)]
fn open_core(
    alloc: Global,
    place: &Place,
    want: TypeRef,
    e: &Expr,
    next: &mut u32,
) -> Result<Opened, Memory>
    requires { Agrees place.now }
    ensures form { IfOk result (λ f. form_of f ≡ opened (expr_of e.now) (expr_from next.old (core_of (env_of place.now) (type_at want.entry) (expr_of e.now)))) }
    ensures after { OnOk result (next.new ≡ expr_after next.old (core_of (env_of place.now) (type_at want.entry) (expr_of e.now))) }
{
    match &e.kind {
        ExprKind::Lit(value) => literal(alloc, want, value),
        ExprKind::Truth(value) => Ok(truth(alloc, *value)),
        ExprKind::Outcome => outcome(alloc, own(place, e)),
        ExprKind::Var(name) => variable(alloc, place, own(place, e), name),
        ExprKind::Cast(kind, operand) => cast(alloc, place, e.span, *kind, operand, next),
        ExprKind::ToIx(length, operand) => {
            to_index(
                alloc,
                place,
                want,
                own(place, e),
                e.span,
                *length,
                operand,
                next,
            )
        }
        ExprKind::WrapIx(_, operand) => {
            wrap_index(alloc, place, want, own(place, e), operand, next)
        }
        ExprKind::MakeBits(_, operand) => make_bits(alloc, place, own(place, e), operand, next),
        ExprKind::Raw(operand) => raw(alloc, place, want, own(place, e), operand, next),
        ExprKind::Set(operand, name, value) => {
            let old = set_old(alloc, place, want, e.span, operand, name, next)?;
            set_new(
                alloc,
                place,
                own(place, e),
                own(place, operand),
                name,
                old,
                value,
                next,
            )
        }
        ExprKind::Prefix(op, operand) => {
            prefix(
                alloc,
                place,
                want,
                own(place, e),
                e.span,
                *op,
                operand,
                next,
            )
        }
        ExprKind::Chain(first, links) => {
            let first = first.get();
            if has_links(links) {
                let before = before_links(place, want, first, links);
                let left = first_part(alloc, place, before.lead, e.span, first, next)?;
                return add_links(alloc, place, want, before, left, links, next);
            }
            alone_core(alloc, place, want, first, next)
        }
        ExprKind::Postfix(operand, steps) => {
            let operand = operand.get();
            if has_steps(steps) {
                let left = first_part(alloc, place, want, e.span, operand, next)?;
                return add_steps(alloc, place, own(place, operand), left, steps, next);
            }
            alone_core(alloc, place, want, operand, next)
        }
        ExprKind::Cond(test, first, second) => {
            let t = beside(place, want, first, second);
            let test = expression(alloc, place, TypeRef::Bool, test, next)?;
            let arm = first_arm(alloc, place, t, first, test, next)?;
            second_arm(alloc, place, t, arm, second, next)
        }
    }
}

/// The expression as a whole.
#[cycle(cores)]
fn alone_core(
    alloc: Global,
    place: &Place,
    want: TypeRef,
    e: &Expr,
    next: &mut u32,
) -> Result<Opened, Memory>
    requires { Agrees place.now }
    ensures form { IfOk result (λ f. form_of f ≡ alone (expr_from next.old (core_of (env_of place.now) (type_at want.entry) (expr_of e.now)))) }
    ensures after { OnOk result (next.new ≡ expr_after next.old (core_of (env_of place.now) (type_at want.entry) (expr_of e.now))) }
{
    Ok(Opened::Closed(expression(alloc, place, want, e, next)?))
}

/// The test and the first arm, where these are wanted as that.
#[cycle(cores)]
fn first_arm(
    alloc: Global,
    place: &Place,
    t: TypeRef,
    first: &Expr,
    test: CoreExpr,
    next: &mut u32,
) -> Result<Arm, Memory>
    requires { Agrees place.now }
    ensures test { IfOk result (λ a. tree.expr_of a.test ≡ tree.expr_of test) }
    ensures first { IfOk result (λ a. tree.expr_of a.first ≡ expr_from next.old (core_of (env_of place.now) (type_at t.entry) (expr_of first.now))) }
    ensures after { OnOk result (next.new ≡ expr_after next.old (core_of (env_of place.now) (type_at t.entry) (expr_of first.now))) }
{
    let first = expression(alloc, place, t, first, next)?;
    Ok(Arm { test, first })
}

/// `?:` with its second arm too.
#[cycle(cores)]
fn second_arm(
    alloc: Global,
    place: &Place,
    t: TypeRef,
    arm: Arm,
    second: &Expr,
    next: &mut u32,
) -> Result<Opened, Memory>
    requires { Agrees place.now }
    ensures form { IfOk result (λ f. form_of f ≡ alone (core_syntax.Cond (unchecked (type_at t.entry)) (tree.expr_of arm.test) (tree.expr_of arm.first) (expr_from next.old (core_of (env_of place.now) (type_at t.entry) (expr_of second.now))))) }
    ensures after { OnOk result (next.new ≡ expr_after next.old (core_of (env_of place.now) (type_at t.entry) (expr_of second.now))) }
{
    let second = expression(alloc, place, t, second, next)?;
    cond_node(alloc, t, arm.test, arm.first, second)
}

/// The checks of `set`, and its bit data.
#[cycle(cores)]
fn set_old(
    alloc: Global,
    place: &Place,
    want: TypeRef,
    span: Span,
    operand: &Expr,
    name: &Name,
    next: &mut u32,
) -> Result<OldBits, Memory>
    requires { Agrees place.now }
    ensures checks { IfOk result (λ o. o.checks ≡ kinds_from next.old (parts.set_kinds (env_of place.now) (expr_of operand.now) name.now.text) (sites.first_token span 3)) }
    ensures bits { IfOk result (λ o. tree.expr_of o.bits ≡ expr_from (parts.set_number (env_of place.now) next.old span (expr_of operand.now) name.now.text) (core_of (env_of place.now) (type_at want.entry) (expr_of operand.now))) }
    ensures after { OnOk result (next.new ≡ expr_after (parts.set_number (env_of place.now) next.old span (expr_of operand.now) name.now.text) (core_of (env_of place.now) (type_at want.entry) (expr_of operand.now))) }
{
    let number = bits_number(own(place, operand));
    let field = bit_field_named(&place.context.items, number, &name.text);
    let checks = set_checks(alloc, field, first_token(span, 3), next)?;
    let bits = expression(alloc, place, want, operand, next)?;
    Ok(OldBits { checks, bits })
}

/// `set` of this type, with its new value too; its bit data have that type.
#[cycle(cores)]
fn set_new(
    alloc: Global,
    place: &Place,
    t: TypeRef,
    bits: TypeRef,
    name: &Name,
    old: OldBits,
    value: &Expr,
    next: &mut u32,
) -> Result<Opened, Memory>
    requires { Agrees place.now }
    ensures form { IfOk result (λ f. form_of f ≡ alone (parts.set_with (env_of place.now) (type_at t.entry) (type_at bits.entry) name.now.text old.checks (tree.expr_of old.bits) next.old (expr_of value.now))) }
    ensures after { OnOk result (next.new ≡ expr_after next.old (parts.new_core (env_of place.now) (type_at bits.entry) name.now.text (expr_of value.now))) }
{
    let number = bits_number(bits);
    let field = bit_field_named(&place.context.items, number, &name.text);
    let value = expression(alloc, place, new_type(field), value, next)?;
    let at = bit_field_number(&place.context.items, number, &name.text);
    set_node(alloc, t, old.checks, old.bits, at, value)
}

/// A prefix; `t` is its type, where it reads.
#[cycle(cores)]
fn prefix(
    alloc: Global,
    place: &Place,
    want: TypeRef,
    t: TypeRef,
    span: Span,
    op: PrefixOp,
    operand: &Expr,
    next: &mut u32,
) -> Result<Opened, Memory>
    requires agrees { Agrees place.now }
    requires own { type_at t ≡ own (env_of place.now) (syntax.Prefix span op (expr_of operand.now)) }
    ensures form { IfOk result (λ f. form_of f ≡ alone (expr_from next.old (core_of (env_of place.now) (type_at want.entry) (syntax.Prefix span op (expr_of operand.now))))) }
    ensures after { OnOk result (next.new ≡ expr_after next.old (core_of (env_of place.now) (type_at want.entry) (syntax.Prefix span op (expr_of operand.now)))) }
{
    match op {
        PrefixOp::Not => negated(alloc, place, operand, next),
        PrefixOp::Deref => read(alloc, place, want, t, operand, next),
        PrefixOp::Neg => signed(alloc, place, want, span, PrefixOp::Neg, operand, next),
        PrefixOp::Flip => signed(alloc, place, want, span, PrefixOp::Flip, operand, next),
    }
}

/// What stands before the first link or step of a whole at this place.
#[cycle(cores)]
fn first_part(
    alloc: Global,
    place: &Place,
    want: TypeRef,
    span: Span,
    e: &Expr,
    next: &mut u32,
) -> Result<Opened, Memory>
    requires { Agrees place.now }
    ensures form { IfOk result (λ f. form_of f ≡ first_of span (expr_of e.now) (expr_from next.old (core_of (env_of place.now) (type_at want.entry) (expr_of e.now)))) }
    ensures after { OnOk result (next.new ≡ expr_after next.old (core_of (env_of place.now) (type_at want.entry) (expr_of e.now))) }
{
    let part = open_core(alloc, place, want, e, next)?;
    keep(alloc, span.start == e.span.start, part)
}

#[cycle(cores)]
fn cast(
    alloc: Global,
    place: &Place,
    span: Span,
    kind: IntKind,
    operand: &Expr,
    next: &mut u32,
) -> Result<Opened, Memory>
    requires { Agrees place.now }
    ensures form { IfOk result (λ f. form_of f ≡ alone (expr_from next.old (core_of (env_of place.now) Truth (syntax.Cast span kind (expr_of operand.now))))) }
    ensures after { OnOk result (next.new ≡ expr_after next.old (core_of (env_of place.now) Truth (syntax.Cast span kind (expr_of operand.now)))) }
{
    let token = first_token(span, name_bytes(kind));
    let checks = cast_checks(alloc, place, kind, operand, token, next)?;
    let inner = expression(alloc, place, TypeRef::Int(kind), operand, next)?;
    Ok(Opened::Closed(nodes::cast(alloc, ValueType::Int(kind), checks, inner)?))
}

/// `toix`, which has this type.
#[cycle(cores)]
fn to_index(
    alloc: Global,
    place: &Place,
    want: TypeRef,
    t: TypeRef,
    span: Span,
    length: u64,
    operand: &Expr,
    next: &mut u32,
) -> Result<Opened, Memory>
    requires agrees { Agrees place.now }
    requires own { type_at t ≡ own (env_of place.now) (syntax.ToIndex span length (expr_of operand.now)) }
    ensures form { IfOk result (λ f. form_of f ≡ alone (expr_from next.old (core_of (env_of place.now) (type_at want.entry) (syntax.ToIndex span length (expr_of operand.now))))) }
    ensures after { OnOk result (next.new ≡ expr_after next.old (core_of (env_of place.now) (type_at want.entry) (syntax.ToIndex span length (expr_of operand.now)))) }
{
    let checks = index_checks(
        alloc,
        length,
        own(place, operand),
        first_token(span, 4),
        next,
    )?;
    let inner = expression(alloc, place, want, operand, next)?;
    let ty = owned(alloc, t)?;
    Ok(Opened::Closed(nodes::to_index(alloc, ty, checks, inner)?))
}

#[cycle(cores)]
fn wrap_index(
    alloc: Global,
    place: &Place,
    want: TypeRef,
    t: TypeRef,
    operand: &Expr,
    next: &mut u32,
) -> Result<Opened, Memory>
    requires { Agrees place.now }
    ensures form { IfOk result (λ f. form_of f ≡ alone (core_syntax.WrapIndex (unchecked (type_at t.entry)) (expr_from next.old (core_of (env_of place.now) (type_at want.entry) (expr_of operand.now))))) }
    ensures after { OnOk result (next.new ≡ expr_after next.old (core_of (env_of place.now) (type_at want.entry) (expr_of operand.now))) }
{
    let ty = owned(alloc, t)?;
    let inner = expression(alloc, place, want, operand, next)?;
    Ok(Opened::Closed(nodes::wrap_index(alloc, ty, inner)?))
}

/// `bits` of this type; its word is wanted of the operand.
#[cycle(cores)]
fn make_bits(
    alloc: Global,
    place: &Place,
    t: TypeRef,
    operand: &Expr,
    next: &mut u32,
) -> Result<Opened, Memory>
    requires { Agrees place.now }
    ensures form { IfOk result (λ f. form_of f ≡ alone (core_syntax.MakeBits (unchecked (type_at t.entry)) (expr_from next.old (parts.word_core (env_of place.now) (type_at t.entry) (expr_of operand.now))))) }
    ensures after { OnOk result (next.new ≡ expr_after next.old (parts.word_core (env_of place.now) (type_at t.entry) (expr_of operand.now))) }
{
    let word = word_type(&place.context.items, t);
    let ty = owned(alloc, t)?;
    let inner = expression(alloc, place, word, operand, next)?;
    Ok(Opened::Closed(nodes::make_bits(alloc, ty, inner)?))
}

#[cycle(cores)]
fn raw(
    alloc: Global,
    place: &Place,
    want: TypeRef,
    t: TypeRef,
    operand: &Expr,
    next: &mut u32,
) -> Result<Opened, Memory>
    requires { Agrees place.now }
    ensures form { IfOk result (λ f. form_of f ≡ alone (core_syntax.Raw (unchecked (type_at t.entry)) (expr_from next.old (core_of (env_of place.now) (type_at want.entry) (expr_of operand.now))))) }
    ensures after { OnOk result (next.new ≡ expr_after next.old (core_of (env_of place.now) (type_at want.entry) (expr_of operand.now))) }
{
    let ty = owned(alloc, t)?;
    let inner = expression(alloc, place, want, operand, next)?;
    Ok(Opened::Closed(nodes::raw(alloc, ty, inner)?))
}

/// `!`, of a bool.
#[cycle(cores)]
fn negated(alloc: Global, place: &Place, operand: &Expr, next: &mut u32) -> Result<Opened, Memory>
    requires { Agrees place.now }
    ensures form { IfOk result (λ f. form_of f ≡ alone (core_syntax.Prefix (unchecked Truth) PrefixOp.Not (expr_from next.old (core_of (env_of place.now) Truth (expr_of operand.now))))) }
    ensures after { OnOk result (next.new ≡ expr_after next.old (core_of (env_of place.now) Truth (expr_of operand.now))) }
{
    let inner = expression(alloc, place, TypeRef::Bool, operand, next)?;
    let node = nodes::prefix(
        alloc,
        ValueType::Bool,
        Seq::new(alloc),
        PrefixOp::Not,
        inner,
    )?;
    Ok(Opened::Closed(node))
}

/// `*`, which reads a value of this type.
#[cycle(cores)]
fn read(
    alloc: Global,
    place: &Place,
    want: TypeRef,
    t: TypeRef,
    operand: &Expr,
    next: &mut u32,
) -> Result<Opened, Memory>
    requires { Agrees place.now }
    ensures form { IfOk result (λ f. form_of f ≡ alone (core_syntax.Prefix (unchecked (type_at t.entry)) PrefixOp.Deref (expr_from next.old (core_of (env_of place.now) (type_at want.entry) (expr_of operand.now))))) }
    ensures after { OnOk result (next.new ≡ expr_after next.old (core_of (env_of place.now) (type_at want.entry) (expr_of operand.now))) }
{
    let ty = owned(alloc, t)?;
    let inner = expression(alloc, place, want, operand, next)?;
    let node = nodes::prefix(alloc, ty, Seq::new(alloc), PrefixOp::Deref, inner)?;
    Ok(Opened::Closed(node))
}

/// `-` or `~`, of the type of its operand.
#[cycle(cores)]
fn signed(
    alloc: Global,
    place: &Place,
    want: TypeRef,
    span: Span,
    op: PrefixOp,
    operand: &Expr,
    next: &mut u32,
) -> Result<Opened, Memory>
    requires { Agrees place.now }
    ensures form { IfOk result (λ f. form_of f ≡ alone (expr_from next.old (parts.signed_core (env_of place.now) (type_at want.entry) span op (expr_of operand.now)))) }
    ensures after { OnOk result (next.new ≡ expr_after next.old (parts.signed_core (env_of place.now) (type_at want.entry) span op (expr_of operand.now))) }
{
    let ty = owned(alloc, core_type(place, want, operand))?;
    let checks = prefix_checks(alloc, op, first_token(span, 1), next)?;
    let inner = expression(alloc, place, want, operand, next)?;
    Ok(Opened::Closed(nodes::prefix(alloc, ty, checks, op, inner)?))
}

/// A chain with these links too.
#[cycle(cores)]
fn add_links<'a>(
    alloc: Global,
    place: &'a Place,
    want: TypeRef<'a>,
    before: Before<'a>,
    left: Opened,
    links: &Seq<Link>,
    next: &mut u32,
) -> Result<Opened, Memory>
    requires agrees { Agrees place.now }
    requires lead { type_at before.lead ≡ along.want_of (env_of place.now) (type_at want) before.settled (type_at before.own) (map link_of links.now) }
    ensures form { IfOk result (λ f. form_of f ≡ along.with_links (env_of place.now) (type_at want.entry) before.entry.settled (type_at before.entry.own) next.old (form_of left) (map link_of links.now)) }
    ensures after { OnOk result (next.new ≡ along.after_links (env_of place.now) (type_at want.entry) before.entry.settled (type_at before.entry.own) next.old (map link_of links.now)) }
{
    let mut so_far = left;
    let mut known = before;
    for (at, link) in links.as_slice().iter().enumerate() {
        let rest = &links.as_slice()[at + 1..];
        so_far = add_link(alloc, place, known.lead, so_far, link, next)?;
        known = after_link(place, want, known, link, rest);
    }
    Ok(so_far)
}

/// A chain with this link too, of whose operands this is wanted.
#[cycle(cores)]
fn add_link(
    alloc: Global,
    place: &Place,
    t: TypeRef,
    left: Opened,
    link: &Link,
    next: &mut u32,
) -> Result<Opened, Memory>
    requires { Agrees place.now }
    ensures form { IfOk result (λ f. form_of f ≡ along.with_link (env_of place.now) (type_at t.entry) next.old (form_of left) (link_of link.now)) }
    ensures after { OnOk result (next.new ≡ along.after_link (env_of place.now) (type_at t.entry) next.old (link_of link.now)) }
{
    let checks = operator_checks(alloc, link.op, t, link.at, next)?;
    let right = expression(alloc, place, t, &link.right, next)?;
    let ty = owned(alloc, result_type(link.op, t))?;
    push_link(alloc, left, link.op, ty, checks, right)
}

/// A postfix of what has this type, with these steps too.
#[cycle(cores)]
fn add_steps<'a>(
    alloc: Global,
    place: &'a Place,
    t: TypeRef<'a>,
    left: Opened,
    steps: &Seq<Step>,
    next: &mut u32,
) -> Result<Opened, Memory>
    requires { Agrees place.now }
    ensures form { IfOk result (λ f. form_of f ≡ parts.form_by (env_of place.now) (map step_of steps.now) (type_at t.entry) next.old (based (form_of left))) }
    ensures after { OnOk result (next.new ≡ parts.after_steps (env_of place.now) (type_at t.entry) next.old (map step_of steps.now)) }
{
    let (operand, mut made) = base(alloc, left)?;
    let mut so_far = t;
    for step in steps.as_slice() {
        let after = step_type(place, so_far, step);
        let new = step_core(alloc, place, so_far, after, step, next)?;
        push_step(&mut made, new)?;
        so_far = after;
    }
    let ty = owned(alloc, so_far)?;
    Ok(Opened::Postfix(PostfixParts {
        base: operand,
        steps: made,
        ty,
    }))
}

/// A step behind what has this type; the part has that type.
#[cycle(cores)]
fn step_core(
    alloc: Global,
    place: &Place,
    t: TypeRef,
    after: TypeRef,
    step: &Step,
    next: &mut u32,
) -> Result<CoreStep, Memory>
    requires agrees { Agrees place.now }
    requires part { type_at after ≡ parts.step_own (env_of place.now) (type_at t) (step_of step.now) }
    ensures step { IfOk result (λ x. (c : core_syntax.ExprCore) → tree.part_of c (tree.step_of x) ≡ parts.with_step (env_of place.now) (type_at t.entry) next.old c (step_of step.now)) }
    ensures after { OnOk result (next.new ≡ parts.after_step (env_of place.now) (type_at t.entry) next.old (step_of step.now)) }
{
    match step {
        Step::Field(name) => {
            let at = number(number_in(place, t, &name.text))?;
            Ok(nodes::field_step(owned(alloc, after)?, at))
        }
        Step::Index(index, _) => {
            let length = TypeRef::Ix(length_behind(t));
            let index = expression(alloc, place, length, index, next)?;
            Ok(nodes::index_step(owned(alloc, after)?, index))
        }
    }
}
