//! The first fault of an expression. The fault of a node counts before those of its parts.

ghost use Rattle.std.specs.Prelude.{◌≡◌, map};
ghost use Rattle.iv_words.specs.declared.Span.{Span};
ghost use Rattle.ivory_tree.specs.View.{expr_of, link_of, step_of};
ghost use Rattle.rule_faults.specs.ExpressionRows.{expr_row};
ghost use Rattle.rule_faults.specs.FirstFault.{first_of};
ghost use Rattle.rule_checker.specs.Contexts.{context_of};
ghost use Rattle.rule_checker.specs.Faults.{found};
ghost use Rattle.rule_checker.specs.Links as along;
ghost use Rattle.rule_checker.specs.View.{type_seen};
ghost use Rattle.rule_checker.specs.Wanted.{want_at};

use crate::fault::{RuleFault, either};
use crate::forms::{
    bare_fault, cast_fault, cond_fault, literal_fault, make_bits_fault, outcome_fault,
    prefix_fault, raw_fault, set_fault, to_index_fault, truth_fault, variable_fault,
    wrap_index_fault,
};
use crate::links::{
    Start, element_step, field_step, has_links, is_link_settled, link_with, next_want,
    place_of_link, place_of_step, right_want, start_of, step_want,
};
use crate::scope::Context;
use crate::settled::has_steps;
use crate::types::TypeRef;
use crate::typing::{link_type, own_type, step_type};
use crate::wants::{Want, of_arm, of_cast, of_index, of_new_value, of_operand, of_word};
use iv_words::{Seq, Span};
use ivory_tree::{Expr, ExprKind, Link, Step};

/// The first fault of an expression of which this is wanted, or none.
#[cycle(faults)]
pub fn expression_fault<'a>(context: &'a Context, want: Want<'a>, e: &Expr) -> Option<RuleFault>
    ensures { found result ≡ first_of (expr_row (context_of context.now) (want_at want.entry) (expr_of e.now)) }
{
    match &e.kind {
        ExprKind::Lit(value) => literal_fault(want, e.span, value),
        ExprKind::Truth(value) => truth_fault(want, e.span, *value),
        ExprKind::Outcome => outcome_fault(context, want, e.span),
        ExprKind::Var(name) => variable_fault(context, want, e.span, name),
        ExprKind::Cast(kind, operand) => {
            let within = expression_fault(context, of_cast(*kind, operand), operand);
            cast_fault(context, want, e.span, *kind, operand, within)
        }
        ExprKind::ToIx(length, operand) => {
            let within = expression_fault(context, Want::Nothing, operand);
            to_index_fault(context, want, e.span, *length, operand, within)
        }
        ExprKind::WrapIx(length, operand) => {
            let within = expression_fault(context, Want::Nothing, operand);
            wrap_index_fault(context, want, e.span, *length, operand, within)
        }
        ExprKind::MakeBits(name, operand) => {
            let within = expression_fault(context, of_word(context, name), operand);
            make_bits_fault(context, want, e.span, name, operand, within)
        }
        ExprKind::Raw(operand) => {
            let within = expression_fault(context, Want::Nothing, operand);
            raw_fault(context, want, e.span, operand, within)
        }
        ExprKind::Set(operand, field, value) => {
            let first = expression_fault(context, Want::Nothing, operand);
            let new_value = of_new_value(context, operand, &field.text);
            let within = either(first, expression_fault(context, new_value, value));
            set_fault(context, want, e.span, operand, field, value, within)
        }
        ExprKind::Prefix(op, operand) => {
            let within = expression_fault(context, of_operand(*op, want, operand), operand);
            prefix_fault(context, want, e.span, *op, operand, within)
        }
        ExprKind::Chain(first, links) => {
            let first = first.get();
            if has_links(links) {
                let start = start_of(context, want, first, links);
                let within = expression_fault(context, start.want, first);
                return chain_fault(context, want, start, e.span, within, links);
            }
            let within = expression_fault(context, want, first);
            bare_fault(context, want, e.span, first, within)
        }
        ExprKind::Postfix(base, steps) => {
            let base = base.get();
            if has_steps(steps) {
                let within = expression_fault(context, Want::Nothing, base);
                let own = own_type(context, base);
                return steps_fault(context, want, e.span, own, within, steps);
            }
            let within = expression_fault(context, want, base);
            bare_fault(context, want, e.span, base, within)
        }
        ExprKind::Cond(test, first, second) => {
            let of_test = expression_fault(context, Want::Wants(TypeRef::Bool), test);
            let of_first = expression_fault(context, of_arm(context, want, first, second), first);
            let of_second = expression_fault(context, of_arm(context, want, second, first), second);
            let within = either(of_test, either(of_first, of_second));
            cond_fault(context, want, e.span, test, first, second, within)
        }
    }
}

/// The first fault of a chain, where what stands before these links is settled or not and has this type and this fault.
#[cycle(faults)]
fn chain_fault<'a>(
    context: &'a Context,
    want: Want<'a>,
    start: Start<'a>,
    span: Span,
    within: Option<RuleFault>,
    links: &Seq<Link>,
) -> Option<RuleFault>
    ensures { found result ≡ along.chain_fault (context_of context.now) (want_at want.entry) (want_at start.entry.lead) (type_seen start.entry.lead_type) span start.entry.settled (type_seen start.entry.own) (found within) (map link_of links.now) }
{
    let mut settled = start.settled;
    let mut so_far = start.own;
    let mut fault = within;
    for (at, link) in links.as_slice().iter().enumerate() {
        let rest = &links.as_slice()[at + 1..];
        let after = is_link_settled(settled, link);
        let node = next_want(context, want, start.lead, after, rest);
        let place = place_of_link(span, link, rest);
        fault = link_fault(
            context,
            node,
            start.lead_type,
            settled,
            so_far,
            link,
            place,
            fault,
        );
        so_far = link_type(context, None, settled, so_far, link);
        settled = after;
    }
    fault
}

/// The first fault of an operator, where its left operand has this type and this fault.
#[cycle(faults)]
fn link_fault<'a>(
    context: &'a Context,
    want: Want<'a>,
    lead_type: Option<TypeRef<'a>>,
    done: bool,
    own: Option<TypeRef<'a>>,
    link: &Link,
    place: Span,
    within: Option<RuleFault>,
) -> Option<RuleFault>
    ensures { found result ≡ along.link_fault (context_of context.now) (want_at want.entry) (type_seen lead_type.entry) done (type_seen own.entry) (link_of link.now) place (found within) }
{
    let right = expression_fault(context, right_want(want, done, own, link), &link.right);
    link_with(
        context,
        want,
        lead_type,
        done,
        own,
        link,
        place,
        either(within, right),
    )
}

/// The first fault of a postfix, where what stands before these steps has this type and this fault.
#[cycle(faults)]
fn steps_fault<'a>(
    context: &'a Context,
    want: Want<'a>,
    span: Span,
    own: Option<TypeRef<'a>>,
    within: Option<RuleFault>,
    steps: &Seq<Step>,
) -> Option<RuleFault>
    ensures { found result ≡ along.steps_fault (context_of context.now) (want_at want.entry) span (type_seen own.entry) (found within) (map step_of steps.now) }
{
    let mut so_far = own;
    let mut fault = within;
    for (at, step) in steps.as_slice().iter().enumerate() {
        let rest = &steps.as_slice()[at + 1..];
        let place = place_of_step(span, step, rest);
        fault = step_fault(context, step_want(want, rest), so_far, step, place, fault);
        so_far = step_type(context, so_far, step);
    }
    fault
}

/// The first fault of a part of what has this type and this fault.
#[cycle(faults)]
fn step_fault<'a>(
    context: &'a Context,
    want: Want<'a>,
    own: Option<TypeRef<'a>>,
    step: &Step,
    place: Span,
    within: Option<RuleFault>,
) -> Option<RuleFault>
    ensures { found result ≡ along.step_fault (context_of context.now) (want_at want.entry) (type_seen own.entry) (step_of step.now) place (found within) }
{
    match step {
        Step::Field(field) => field_step(context, want, own, field, place, within),
        Step::Index(index, _) => {
            let of_its_index = expression_fault(context, of_index(own), index);
            element_step(want, own, place, either(within, of_its_index))
        }
    }
}
