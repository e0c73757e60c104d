//! What is wanted along a chain and a postfix, and where their parts stand.

ghost use Rattle.std.specs.Prelude.{◌≡◌, map};
ghost use Rattle.ivory_tree.specs.Places.{expr_span};
ghost use Rattle.ivory_tree.specs.View.{expr_of, link_of, step_of, prefix_span, step_span};
ghost use Rattle.rule_faults.specs.Types as typing;
ghost use Rattle.rule_faults.specs.Wants as wanting;
ghost use Rattle.source_types.specs.Settled as table;
ghost use Rattle.rule_checker.specs.Contexts.{context_of};
ghost use Rattle.rule_checker.specs.Faults.{found};
ghost use Rattle.rule_checker.specs.Links as along;
ghost use Rattle.rule_checker.specs.View.{type_seen};
ghost use Rattle.rule_checker.specs.Wanted.{want_at};

use crate::fault::{RuleFault, at_place};
use crate::operators::{gives_truth, is_comparison, is_logic};
use crate::rules::{binary_rule, element_rule, field_rule, node_rule};
use crate::scope::Context;
use crate::settled::is_settled;
use crate::types::TypeRef;
use crate::typing::{element_of, field_of, link_type, own_type, type_of};
use crate::wants::{Want, part, wanted_type, wants};
use iv_words::{Name, Seq, Span};
use ivory_tree::{Expr, Link, Step};

fn step_place(step: &Step) -> Span
    ensures { result ≡ step_span (step_of step.now) }
{
    match step {
        Step::Field(field) => field.span,
        Step::Index(_, brackets) => *brackets,
    }
}

/// The place of what ends with the step, before the rest of the steps.
pub(crate) fn place_of_step(whole: Span, step: &Step, rest: &[Step]) -> Span
    ensures { result ≡ prefix_span whole (step_span (step_of step.now)) (map step_of rest.now) }
{
    match rest.first() {
        Some(_) => Span {
            start: whole.start,
            end: step_place(step).end,
        },
        None => whole,
    }
}

#[tactic(auto, using(ivory_tree::proofs::Places::expr_place))]
fn place_of(e: &Expr) -> Span
    ensures { result ≡ expr_span (expr_of e.now) }
{
    e.span
}

/// The place of what ends with the link, before the rest of the links.
pub(crate) fn place_of_link(whole: Span, link: &Link, rest: &[Link]) -> Span
    ensures { result ≡ prefix_span whole (expr_span (link_of link.now).right) (map link_of rest.now) }
{
    match rest.first() {
        Some(_) => Span {
            start: whole.start,
            end: place_of(&link.right).end,
        },
        None => whole,
    }
}

/// Of what these steps follow: what the whole is wanted as, or nothing.
pub(crate) fn step_want<'a>(want: Want<'a>, rest: &[Step]) -> Want<'a>
    ensures { want_at result ≡ along.step_want (want_at want.entry) (map step_of rest.now) }
{
    match rest.first() {
        Some(_) => Want::Nothing,
        None => want,
    }
}

#[tactic(auto, using(crate::proofs::Chained::some_links))]
pub(crate) fn has_links(links: &Seq<Link>) -> bool
    ensures { result ≡ along.has_links (map link_of links.now) }
{
    0 < links.len()
}

/// What the links say of an unsettled operand before them.
pub(crate) fn said<'a>(context: &'a Context, want: Want<'a>, links: &Seq<Link>) -> Want<'a>
    ensures { want_at result ≡ along.said (context_of context.now) (want_at want.entry) (map link_of links.now) }
{
    for link in links.as_slice() {
        if is_logic(link.op) {
            return Want::Wants(TypeRef::Bool);
        }
        if is_settled(&link.right) {
            return wants(own_type(context, &link.right));
        }
        if is_comparison(link.op) {
            return Want::Nothing;
        }
    }
    want
}

/// Of the left operand of the link; `lead` is what it is wanted as where the link does not say.
fn left_want<'a>(context: &'a Context, lead: Want<'a>, done: bool, link: &Link) -> Want<'a>
    ensures { want_at result ≡ along.left_want (context_of context.now) (want_at lead.entry) done (link_of link.now) }
{
    if is_logic(link.op) {
        return Want::Wants(TypeRef::Bool);
    }
    if done {
        return Want::Nothing;
    }
    if is_settled(&link.right) {
        return wants(own_type(context, &link.right));
    }
    if is_comparison(link.op) {
        Want::Nothing
    } else {
        lead
    }
}

/// Of what stands before these links, which is settled or not.
pub(crate) fn next_want<'a>(
    context: &'a Context,
    want: Want<'a>,
    lead: Want<'a>,
    done: bool,
    rest: &[Link],
) -> Want<'a>
    ensures { want_at result ≡ along.next_want (context_of context.now) (want_at want.entry) (want_at lead.entry) done (map link_of rest.now) }
{
    match rest.first() {
        Some(link) => left_want(context, lead, done, link),
        None => want,
    }
}

/// What is known of the first operand of a chain: what an unsettled one is wanted as where the next link does not say, the type that it then
/// has, what it is wanted as here, whether it is settled, and its own type.
#[derive(Clone, Copy)]
pub(crate) struct Start<'a> {
    pub lead: Want<'a>,
    pub lead_type: Option<TypeRef<'a>>,
    pub want: Want<'a>,
    pub settled: bool,
    pub own: Option<TypeRef<'a>>,
}

pub(crate) fn start_of<'a>(
    context: &'a Context,
    want: Want<'a>,
    first: &Expr,
    links: &Seq<Link>,
) -> Start<'a>
    ensures lead { want_at result.lead ≡ wanting.part (along.said (context_of context.now) (want_at want.entry) (map link_of links.now)) }
    ensures lead_type { type_seen result.lead_type ≡ typing.type_of (context_of context.now) (wanting.wanted_type (want_at result.lead)) (expr_of first.now) }
    ensures want { want_at result.want ≡ along.next_want (context_of context.now) (want_at want.entry) (want_at result.lead) result.settled (map link_of links.now) }
    ensures settled { result.settled ≡ table.settled (expr_of first.now) }
    ensures own { type_seen result.own ≡ typing.own_type (context_of context.now) (expr_of first.now) }
{
    let lead = part(said(context, want, links));
    let settled = is_settled(first);
    Start {
        lead,
        lead_type: type_of(context, wanted_type(lead), first),
        want: next_want(context, want, lead, settled, links.as_slice()),
        settled,
        own: own_type(context, first),
    }
}

/// Of the right operand, where the operator is wanted as that.
pub(crate) fn right_want<'a>(
    want: Want<'a>,
    done: bool,
    own: Option<TypeRef<'a>>,
    link: &Link,
) -> Want<'a>
    ensures { want_at result ≡ along.right_want (want_at want.entry) done (type_seen own.entry) (link_of link.now) }
{
    if is_logic(link.op) {
        return Want::Wants(TypeRef::Bool);
    }
    if is_settled(&link.right) {
        return Want::Nothing;
    }
    if done {
        return wants(own);
    }
    if is_comparison(link.op) {
        Want::Nothing
    } else {
        part(want)
    }
}

/// The type from which an operator takes its own.
pub(crate) fn operand<'a>(
    context: &'a Context,
    lead_type: Option<TypeRef<'a>>,
    done: bool,
    own: Option<TypeRef<'a>>,
    link: &Link,
) -> Option<TypeRef<'a>>
    ensures { type_seen result ≡ along.operand (context_of context.now) (type_seen lead_type.entry) done (type_seen own.entry) (link_of link.now) }
{
    if done {
        return own;
    }
    if is_settled(&link.right) {
        return own_type(context, &link.right);
    }
    if is_comparison(link.op) {
        own
    } else {
        lead_type
    }
}

/// Whether the operator is settled.
pub(crate) fn is_link_settled(done: bool, link: &Link) -> bool
    ensures { result ≡ along.link_settled done (link_of link.now) }
{
    gives_truth(link.op) || done || is_settled(&link.right)
}

/// The fault of an operator, with the fault of its operands.
pub(crate) fn link_with<'a>(
    context: &'a Context,
    want: Want<'a>,
    lead_type: Option<TypeRef<'a>>,
    done: bool,
    own: Option<TypeRef<'a>>,
    link: &Link,
    place: Span,
    within: Option<RuleFault>,
) -> Option<RuleFault>
    ensures { found result ≡ along.link_at (context_of context.now) (want_at want.entry) (type_seen lead_type.entry) done (type_seen own.entry) (link_of link.now) place (found within) }
{
    let right = own_type(context, &link.right);
    let from = operand(context, lead_type, done, own, link);
    let after = binary_rule(link.op, done, is_settled(&link.right), own, right, from);
    let ty = link_type(context, None, done, own, link);
    at_place(
        node_rule(None, want, is_link_settled(done, link), ty, after),
        place,
        within,
    )
}

/// The fault of a field of what has this type and this fault.
pub(crate) fn field_step<'a>(
    context: &'a Context,
    want: Want<'a>,
    own: Option<TypeRef<'a>>,
    field: &Name,
    place: Span,
    within: Option<RuleFault>,
) -> Option<RuleFault>
    ensures { found result ≡ along.field_at (context_of context.now) (want_at want.entry) (type_seen own.entry) field.now place (found within) }
{
    let after = field_rule(&context.items, own, &field.text);
    let ty = field_of(context, own, &field.text);
    at_place(node_rule(None, want, true, ty, after), place, within)
}

/// The fault of an element of what has this type, with the fault of that and of the index.
pub(crate) fn element_step<'a>(
    want: Want<'a>,
    own: Option<TypeRef<'a>>,
    place: Span,
    within: Option<RuleFault>,
) -> Option<RuleFault>
    ensures { found result ≡ along.element_at (want_at want.entry) (type_seen own.entry) place (found within) }
{
    at_place(
        node_rule(None, want, true, element_of(own), element_rule(own)),
        place,
        within,
    )
}
