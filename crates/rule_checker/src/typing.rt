//! The type of an expression, by its form alone, whether or not a rule is broken within it.

ghost use Rattle.std.specs.Prelude.{◌≡◌, map, None, option_and_then};
ghost use Rattle.ivory_tree.specs.View.{expr_of, link_of, step_of};
ghost use Rattle.rule_faults.specs.Types.{type_of, own_type, only};
ghost use Rattle.source_types.specs.Parts as parts;
ghost use Rattle.source_types.specs.Values as values;
ghost use Rattle.rule_checker.specs.Chains.{chain_type, link_type, step_type, steps_type};
ghost use Rattle.rule_checker.specs.Contexts.{context_of, earlier_of};
ghost use Rattle.rule_checker.specs.View.{type_seen};

use crate::names::{bits_type, field_type, holds, index_type, name_type, outcome_type, word_type};
use crate::operators::gives_truth;
use crate::scope::Context;
use crate::settled::{has_steps, is_settled};
use crate::types::{TypeRef, element_type, is_bit_data, stored_type};
use iv_words::{Seq, Word};
use ivory_tree::{Expr, ExprKind, Link, PrefixOp, Step};

/// The type of a literal: the one that is wanted, where it holds the literal.
fn literal_type<'a>(wanted: Option<TypeRef<'a>>, value: i128) -> Option<TypeRef<'a>>
    ensures { type_seen result ≡ only (λ t. values.holds t value) (type_seen wanted.entry) }
{
    match wanted {
        Some(t) => { if holds(t, value) { Some(t) } else { None } }
        None => None,
    }
}

/// The word of bit data, where the operand has a type.
pub(crate) fn word_of<'a>(context: &'a Context, t: Option<TypeRef<'a>>) -> Option<TypeRef<'a>>
    ensures { type_seen result ≡ option_and_then (parts.word_type (earlier_of context.now.items)) (type_seen t.entry) }
{
    match t {
        Some(t) => word_type(&context.items, t),
        None => None,
    }
}

/// The type, where it is that of bit data.
pub(crate) fn bit_data_only<'a>(t: Option<TypeRef<'a>>) -> Option<TypeRef<'a>>
    ensures { type_seen result ≡ only values.is_bit_data (type_seen t.entry) }
{
    match t {
        Some(t) => { if is_bit_data(t) { Some(t) } else { None } }
        None => None,
    }
}

pub(crate) fn stored_of<'a>(t: Option<TypeRef<'a>>) -> Option<TypeRef<'a>>
    ensures { type_seen result ≡ option_and_then parts.stored_type (type_seen t.entry) }
{
    match t {
        Some(t) => stored_type(t),
        None => None,
    }
}

pub(crate) fn element_of<'a>(t: Option<TypeRef<'a>>) -> Option<TypeRef<'a>>
    ensures { type_seen result ≡ option_and_then parts.element_type (type_seen t.entry) }
{
    match t {
        Some(t) => element_type(t),
        None => None,
    }
}

pub(crate) fn field_of<'a>(
    context: &'a Context,
    t: Option<TypeRef<'a>>,
    name: &Word,
) -> Option<TypeRef<'a>>
    ensures { type_seen result ≡ option_and_then (λ u. parts.field_type (earlier_of context.now.items) u name.now) (type_seen t.entry) }
{
    match t {
        Some(t) => field_type(&context.items, t, name),
        None => None,
    }
}

/// The type of a part of what has that type.
pub(crate) fn step_type<'a>(
    context: &'a Context,
    t: Option<TypeRef<'a>>,
    step: &Step,
) -> Option<TypeRef<'a>>
    ensures { type_seen result ≡ step_type (context_of context.now) (type_seen t.entry) (step_of step.now) }
{
    match step {
        Step::Field(name) => field_of(context, t, &name.text),
        Step::Index(_, _) => element_of(t),
    }
}

fn steps_type<'a>(
    context: &'a Context,
    t: Option<TypeRef<'a>>,
    steps: &Seq<Step>,
) -> Option<TypeRef<'a>>
    ensures { type_seen result ≡ steps_type (context_of context.now) (type_seen t.entry) (map step_of steps.now) }
{
    let mut so_far = t;
    for step in steps.as_slice() {
        so_far = step_type(context, so_far, step);
    }
    so_far
}

/// The type of an expression of which this type is wanted, where one is.
#[cycle(typing)]
pub fn type_of<'a>(
    context: &'a Context,
    wanted: Option<TypeRef<'a>>,
    e: &Expr,
) -> Option<TypeRef<'a>>
    ensures { type_seen result ≡ type_of (context_of context.now) (type_seen wanted.entry) (expr_of e.now) }
{
    match &e.kind {
        ExprKind::Lit(value) => literal_type(wanted, *value),
        ExprKind::Truth(_) => Some(TypeRef::Bool),
        ExprKind::Outcome => outcome_type(context),
        ExprKind::Var(name) => name_type(context, name),
        ExprKind::Cast(kind, _) => Some(TypeRef::Int(*kind)),
        ExprKind::ToIx(length, _) => index_type(*length),
        ExprKind::WrapIx(length, _) => index_type(*length),
        ExprKind::MakeBits(name, _) => bits_type(&context.items, name),
        ExprKind::Raw(operand) => word_of(context, type_of(context, None, operand)),
        ExprKind::Set(operand, _, _) => bit_data_only(type_of(context, None, operand)),
        ExprKind::Prefix(op, operand) => match op {
            PrefixOp::Not => Some(TypeRef::Bool),
            PrefixOp::Deref => stored_of(type_of(context, None, operand)),
            PrefixOp::Neg => type_of(context, wanted, operand),
            PrefixOp::Flip => type_of(context, wanted, operand),
        },
        ExprKind::Chain(first, links) => {
            let t = type_of(context, wanted, first);
            chain_type(context, wanted, is_settled(first), t, links)
        }
        ExprKind::Postfix(base, steps) => {
            if has_steps(steps) {
                let t = type_of(context, None, base);
                return steps_type(context, t, steps);
            }
            type_of(context, wanted, base)
        }
        ExprKind::Cond(_, first, second) => {
            if is_settled(first) || !is_settled(second) {
                return type_of(context, wanted, first);
            }
            type_of(context, wanted, second)
        }
    }
}

/// The type of the chain, where what stands before these links has that type.
#[cycle(typing)]
fn chain_type<'a>(
    context: &'a Context,
    wanted: Option<TypeRef<'a>>,
    first: bool,
    t: Option<TypeRef<'a>>,
    links: &Seq<Link>,
) -> Option<TypeRef<'a>>
    ensures { type_seen result ≡ chain_type (context_of context.now) (type_seen wanted.entry) first (type_seen t.entry) (map link_of links.now) }
{
    let mut settled = first;
    let mut so_far = t;
    for link in links.as_slice() {
        let right = is_settled(&link.right);
        so_far = link_type(context, wanted, settled, so_far, link);
        settled = gives_truth(link.op) || settled || right;
    }
    so_far
}

/// The type of an operator, where its left operand is settled or not and has that type.
#[cycle(typing)]
pub(crate) fn link_type<'a>(
    context: &'a Context,
    wanted: Option<TypeRef<'a>>,
    settled: bool,
    t: Option<TypeRef<'a>>,
    link: &Link,
) -> Option<TypeRef<'a>>
    ensures { type_seen result ≡ link_type (context_of context.now) (type_seen wanted.entry) settled (type_seen t.entry) (link_of link.now) }
{
    if gives_truth(link.op) {
        return Some(TypeRef::Bool);
    }
    if settled || !is_settled(&link.right) {
        return t;
    }
    type_of(context, wanted, &link.right)
}

/// The type of an expression of which nothing is wanted.
pub fn own_type<'a>(context: &'a Context, e: &Expr) -> Option<TypeRef<'a>>
    ensures { type_seen result ≡ own_type (context_of context.now) (expr_of e.now) }
{
    type_of(context, None, e)
}
