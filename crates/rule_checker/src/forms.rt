//! The first fault of each form of an expression, from that of its parts.

ghost use Rattle.std.specs.Prelude.{◌≡◌, not, ◌||◌};
ghost use Rattle.area_types.specs.Syntax as types;
ghost use Rattle.iv_words.specs.declared.Span.{Span};
ghost use Rattle.ivory_tree.specs.Syntax.{ExprSyntax, Literal, Truth, Outcome, Variable, Cast, ToIndex, WrapIndex, MakeBits, Raw, SetField, Prefix, Cond, Bare};
ghost use Rattle.ivory_tree.specs.View.{expr_of};
ghost use Rattle.rule_faults.specs.Contexts as contexts;
ghost use Rattle.rule_faults.specs.ExpressionRows.{expr_row};
ghost use Rattle.rule_faults.specs.FirstFault.{first_of};
ghost use Rattle.rule_faults.specs.Types as typing;
ghost use Rattle.rule_faults.specs.Wants as wanting;
ghost use Rattle.source_types.specs.Operators as table;
ghost use Rattle.source_types.specs.Settled.{settled};
ghost use Rattle.rule_checker.specs.Contexts.{context_of};
ghost use Rattle.rule_checker.specs.Faults.{found, either};
ghost use Rattle.rule_checker.specs.Rows as rows;
ghost use Rattle.rule_checker.specs.View.{type_seen};
ghost use Rattle.rule_checker.specs.Wanted.{want_at};

use crate::fault::{RuleFault, at_place};
use crate::lookups::is_bits;
use crate::names::{
    bits_type, has_outcome, index_type, is_known, is_length, name_type, outcome_type,
};
use crate::operators::is_arithmetic;
use crate::rules::{
    cast_rule, cond_rule, index_rule, literal_rule, node_rule, prefix_rule, raw_rule, set_rule,
    when,
};
use crate::scope::Context;
use crate::settled::is_settled;
use crate::types::TypeRef;
use crate::typing::{bit_data_only, own_type, stored_of, type_of, word_of};
use crate::wants::{Want, of_operand, wanted_type};
use iv_words::{IntKind, Name, Span, Word};
use ivory_tree::{Expr, PrefixOp};

fn is_prefix_settled(op: PrefixOp, operand: &Expr) -> bool
    ensures { result ≡ (not (table.is_arithmetic op) || settled (expr_of operand.now)) }
{
    !is_arithmetic(op) || is_settled(operand)
}

fn prefix_type<'a>(context: &'a Context, op: PrefixOp, operand: &Expr) -> Option<TypeRef<'a>>
    ensures { (s : Span) → type_seen result ≡ typing.own_type (context_of context.now) (Prefix s op (expr_of operand.now)) }
{
    match op {
        PrefixOp::Not => Some(TypeRef::Bool),
        PrefixOp::Deref => stored_of(own_type(context, operand)),
        PrefixOp::Neg => own_type(context, operand),
        PrefixOp::Flip => own_type(context, operand),
    }
}

/// The type of the operand of a prefix, as it is wanted.
fn operand_type<'a>(
    context: &'a Context,
    want: Want<'a>,
    op: PrefixOp,
    operand: &Expr,
) -> Option<TypeRef<'a>>
    ensures { type_seen result ≡ typing.type_of (context_of context.now) (wanting.wanted_type (wanting.of_operand op (want_at want.entry) (expr_of operand.now))) (expr_of operand.now) }
{
    type_of(context, wanted_type(of_operand(op, want, operand)), operand)
}

fn are_settled(first: &Expr, second: &Expr) -> bool
    ensures { result ≡ (settled (expr_of first.now) || settled (expr_of second.now)) }
{
    is_settled(first) || is_settled(second)
}

/// The type of two arms of which nothing is wanted.
fn cond_type<'a>(context: &'a Context, first: &Expr, second: &Expr) -> Option<TypeRef<'a>>
    ensures { (s : Span) (test : ExprSyntax) → type_seen result ≡ typing.own_type (context_of context.now) (Cond s test (expr_of first.now) (expr_of second.now)) }
{
    if is_settled(first) || !is_settled(second) {
        own_type(context, first)
    } else {
        own_type(context, second)
    }
}

fn arms_rule(context: &Context, first: &Expr, second: &Expr) -> Option<u8>
    ensures { (s : Span) (test : ExprSyntax) → result ≡ rows.least (rows.cond_rows (settled (expr_of first.now)) (settled (expr_of second.now)) (typing.own_type (context_of context.now) (expr_of first.now)) (typing.own_type (context_of context.now) (expr_of second.now)) (typing.own_type (context_of context.now) (Cond s test (expr_of first.now) (expr_of second.now)))) }
{
    cond_rule(
        is_settled(first),
        is_settled(second),
        own_type(context, first),
        own_type(context, second),
        cond_type(context, first, second),
    )
}

/// A literal, of which this is wanted.
pub(crate) fn literal_fault(want: Want, span: Span, value: &i128) -> Option<RuleFault>
    ensures { (x : contexts.Context) → found result ≡ first_of (expr_row x (want_at want.entry) (Literal span value.now)) }
{
    let rule = node_rule(None, want, false, None, literal_rule(want, value));
    at_place(rule, span, None)
}

/// A bool.
pub(crate) fn truth_fault(want: Want, span: Span, value: bool) -> Option<RuleFault>
    ensures { (x : contexts.Context) → found result ≡ first_of (expr_row x (want_at want.entry) (Truth span value)) }
{
    let rule = node_rule(None, want, true, Some(TypeRef::Bool), None);
    at_place(rule, span, None)
}

/// `result`.
pub(crate) fn outcome_fault(context: &Context, want: Want, span: Span) -> Option<RuleFault>
    ensures { found result ≡ first_of (expr_row (context_of context.now) (want_at want.entry) (Outcome span)) }
{
    let rule = node_rule(
        when(!has_outcome(context), 4),
        want,
        true,
        outcome_type(context),
        None,
    );
    at_place(rule, span, None)
}

/// A name.
pub(crate) fn variable_fault(
    context: &Context,
    want: Want,
    span: Span,
    name: &Word,
) -> Option<RuleFault>
    ensures { found result ≡ first_of (expr_row (context_of context.now) (want_at want.entry) (Variable span name.now)) }
{
    let rule = node_rule(
        when(!is_known(context, name), 4),
        want,
        true,
        name_type(context, name),
        None,
    );
    at_place(rule, span, None)
}

/// `T(e)`, with the fault of its operand.
pub(crate) fn cast_fault(
    context: &Context,
    want: Want,
    span: Span,
    kind: IntKind,
    operand: &Expr,
    within: Option<RuleFault>,
) -> Option<RuleFault>
    requires { found within ≡ first_of (expr_row (context_of context.now) (wanting.of_cast kind (expr_of operand.now)) (expr_of operand.now)) }
    ensures { found result ≡ first_of (expr_row (context_of context.now) (want_at want.entry) (Cast span kind (expr_of operand.now))) }
{
    let rule = node_rule(
        None,
        want,
        true,
        Some(TypeRef::Int(kind)),
        cast_rule(is_settled(operand), own_type(context, operand)),
    );
    at_place(rule, span, within)
}

/// `ix(N, e)`, with the fault of its operand.
pub(crate) fn to_index_fault(
    context: &Context,
    want: Want,
    span: Span,
    length: u64,
    operand: &Expr,
    within: Option<RuleFault>,
) -> Option<RuleFault>
    requires { found within ≡ first_of (expr_row (context_of context.now) wanting.Nothing (expr_of operand.now)) }
    ensures { found result ≡ first_of (expr_row (context_of context.now) (want_at want.entry) (ToIndex span length (expr_of operand.now))) }
{
    let rule = node_rule(
        when(!is_length(length), 8),
        want,
        true,
        index_type(length),
        index_rule(own_type(context, operand)),
    );
    at_place(rule, span, within)
}

/// An index by remainder, with the fault of its operand.
pub(crate) fn wrap_index_fault(
    context: &Context,
    want: Want,
    span: Span,
    length: u64,
    operand: &Expr,
    within: Option<RuleFault>,
) -> Option<RuleFault>
    requires { found within ≡ first_of (expr_row (context_of context.now) wanting.Nothing (expr_of operand.now)) }
    ensures { found result ≡ first_of (expr_row (context_of context.now) (want_at want.entry) (WrapIndex span length (expr_of operand.now))) }
{
    let rule = node_rule(
        when(!is_length(length), 8),
        want,
        true,
        index_type(length),
        index_rule(own_type(context, operand)),
    );
    at_place(rule, span, within)
}

/// `bits(N, e)`, with the fault of its operand.
pub(crate) fn make_bits_fault(
    context: &Context,
    want: Want,
    span: Span,
    name: &Word,
    operand: &Expr,
    within: Option<RuleFault>,
) -> Option<RuleFault>
    requires { found within ≡ first_of (expr_row (context_of context.now) (wanting.of_word (context_of context.now) name.now) (expr_of operand.now)) }
    ensures { found result ≡ first_of (expr_row (context_of context.now) (want_at want.entry) (MakeBits span name.now (expr_of operand.now))) }
{
    let rule = node_rule(
        when(!is_bits(&context.items, name), 6),
        want,
        true,
        bits_type(&context.items, name),
        None,
    );
    at_place(rule, span, within)
}

/// `raw(e)`, with the fault of its operand.
pub(crate) fn raw_fault(
    context: &Context,
    want: Want,
    span: Span,
    operand: &Expr,
    within: Option<RuleFault>,
) -> Option<RuleFault>
    requires { found within ≡ first_of (expr_row (context_of context.now) wanting.Nothing (expr_of operand.now)) }
    ensures { found result ≡ first_of (expr_row (context_of context.now) (want_at want.entry) (Raw span (expr_of operand.now))) }
{
    let rule = node_rule(
        None,
        want,
        true,
        word_of(context, own_type(context, operand)),
        raw_rule(own_type(context, operand)),
    );
    at_place(rule, span, within)
}

/// `set`, with the fault of its parts.
pub(crate) fn set_fault(
    context: &Context,
    want: Want,
    span: Span,
    operand: &Expr,
    field: &Name,
    value: &Expr,
    within: Option<RuleFault>,
) -> Option<RuleFault>
    requires { found within ≡ either (first_of (expr_row (context_of context.now) wanting.Nothing (expr_of operand.now))) (first_of (expr_row (context_of context.now) (wanting.of_new_value (context_of context.now) (expr_of operand.now) field.now.text) (expr_of value.now))) }
    ensures { found result ≡ first_of (expr_row (context_of context.now) (want_at want.entry) (SetField span (expr_of operand.now) field.now (expr_of value.now))) }
{
    let rule = node_rule(
        None,
        want,
        true,
        bit_data_only(own_type(context, operand)),
        set_rule(&context.items, own_type(context, operand), &field.text),
    );
    at_place(rule, span, within)
}

/// A prefix, with the fault of its operand.
pub(crate) fn prefix_fault(
    context: &Context,
    want: Want,
    span: Span,
    op: PrefixOp,
    operand: &Expr,
    within: Option<RuleFault>,
) -> Option<RuleFault>
    requires { found within ≡ first_of (expr_row (context_of context.now) (wanting.of_operand op (want_at want) (expr_of operand.now)) (expr_of operand.now)) }
    ensures { found result ≡ first_of (expr_row (context_of context.now) (want_at want.entry) (Prefix span op (expr_of operand.now))) }
{
    let rule = node_rule(
        None,
        want,
        is_prefix_settled(op, operand),
        prefix_type(context, op, operand),
        prefix_rule(
            op,
            operand_type(context, want, op, operand),
            own_type(context, operand),
        ),
    );
    at_place(rule, span, within)
}

/// `?:`, with the fault of its parts.
pub(crate) fn cond_fault(
    context: &Context,
    want: Want,
    span: Span,
    test: &Expr,
    first: &Expr,
    second: &Expr,
    within: Option<RuleFault>,
) -> Option<RuleFault>
    requires { found within ≡ either (first_of (expr_row (context_of context.now) (wanting.Wants types.Truth) (expr_of test.now))) (either (first_of (expr_row (context_of context.now) (wanting.of_arm (context_of context.now) (want_at want) (expr_of first.now) (expr_of second.now)) (expr_of first.now))) (first_of (expr_row (context_of context.now) (wanting.of_arm (context_of context.now) (want_at want) (expr_of second.now) (expr_of first.now)) (expr_of second.now)))) }
    ensures { found result ≡ first_of (expr_row (context_of context.now) (want_at want.entry) (Cond span (expr_of test.now) (expr_of first.now) (expr_of second.now))) }
{
    let rule = node_rule(
        None,
        want,
        are_settled(first, second),
        cond_type(context, first, second),
        arms_rule(context, first, second),
    );
    at_place(rule, span, within)
}

/// A chain without a link, or a postfix without a step.
pub(crate) fn bare_fault(
    context: &Context,
    want: Want,
    span: Span,
    operand: &Expr,
    within: Option<RuleFault>,
) -> Option<RuleFault>
    requires { found within ≡ first_of (expr_row (context_of context.now) (want_at want) (expr_of operand.now)) }
    ensures { found result ≡ first_of (expr_row (context_of context.now) (want_at want.entry) (Bare span (expr_of operand.now))) }
{
    let rule = node_rule(
        None,
        want,
        is_settled(operand),
        own_type(context, operand),
        None,
    );
    at_place(rule, span, within)
}
