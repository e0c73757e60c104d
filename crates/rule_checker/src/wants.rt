//! What is wanted of an expression, and of its operands.

ghost use Rattle.std.specs.Prelude.{◌≡◌, option_and_then, option_map};
ghost use Rattle.area_types.specs.Syntax.{Ix};
ghost use Rattle.ivory_tree.specs.View.{expr_of};
ghost use Rattle.rule_faults.specs.Types.{only};
ghost use Rattle.rule_faults.specs.Wants as rules;
ghost use Rattle.source_types.specs.Parts as parts;
ghost use Rattle.source_types.specs.Values as values;
ghost use Rattle.rule_checker.specs.Contexts.{context_of, earlier_of};
ghost use Rattle.rule_checker.specs.View.{type_seen};
ghost use Rattle.rule_checker.specs.Wanted.{want_at};

use crate::names::{bits_type, field_type, word_type};
use crate::scope::Context;
use crate::settled::is_settled;
use crate::types::{Reference, TypeRef, length_behind};
use crate::typing::{bit_data_only, own_type, stored_of};
use area_types::Region;
use iv_words::{IntKind, Word};
use ivory_tree::{Expr, PrefixOp};

/// What is wanted: nothing; some type, and none is known; a type; an argument for a reference parameter, with the region that the
/// arguments before it require; a value to return, where the result is a reference.
#[derive(Clone, Copy)]
pub enum Want<'a> {
    Nothing,
    Unknown,
    Wants(TypeRef<'a>),
    Takes(Option<Region>, Reference<'a>),
    Returns(Reference<'a>),
}

/// The type that is wanted, where one is.
pub(crate) fn wanted_type<'a>(want: Want<'a>) -> Option<TypeRef<'a>>
    ensures { type_seen result ≡ rules.wanted_type (want_at want.entry) }
{
    match want {
        Want::Nothing | Want::Unknown => None,
        Want::Wants(t) => Some(t),
        Want::Takes(_, wanted) => Some(TypeRef::Ref(wanted)),
        Want::Returns(wanted) => Some(TypeRef::Ref(wanted)),
    }
}

pub fn wants<'a>(t: Option<TypeRef<'a>>) -> Want<'a>
    ensures { want_at result ≡ rules.wants (type_seen t.entry) }
{
    match t {
        Some(t) => Want::Wants(t),
        None => Want::Unknown,
    }
}

/// Of a part of an unsettled expression: what the whole is wanted as.
pub(crate) fn part<'a>(want: Want<'a>) -> Want<'a>
    ensures { want_at result ≡ rules.part (want_at want.entry) }
{
    match want {
        Want::Nothing => Want::Unknown,
        Want::Unknown => Want::Unknown,
        Want::Wants(t) => Want::Wants(t),
        Want::Takes(required, wanted) => Want::Takes(required, wanted),
        Want::Returns(wanted) => Want::Returns(wanted),
    }
}

/// Of the operand of a prefix.
pub(crate) fn of_operand<'a>(op: PrefixOp, want: Want<'a>, e: &Expr) -> Want<'a>
    ensures { want_at result ≡ rules.of_operand op (want_at want.entry) (expr_of e.now) }
{
    match op {
        PrefixOp::Not => Want::Wants(TypeRef::Bool),
        PrefixOp::Deref => Want::Nothing,
        PrefixOp::Neg => {
            if is_settled(e) {
                Want::Nothing
            } else {
                part(want)
            }
        }
        PrefixOp::Flip => {
            if is_settled(e) {
                Want::Nothing
            } else {
                part(want)
            }
        }
    }
}

/// Of an unsettled arm: the type of a settled one beside it, else what the whole is wanted as.
pub(crate) fn of_arm<'a>(context: &'a Context, want: Want<'a>, arm: &Expr, other: &Expr) -> Want<'a>
    ensures { want_at result ≡ rules.of_arm (context_of context.now) (want_at want.entry) (expr_of arm.now) (expr_of other.now) }
{
    if is_settled(arm) {
        return Want::Nothing;
    }
    if is_settled(other) {
        wants(own_type(context, other))
    } else {
        part(want)
    }
}

/// Of the operand of `T(e)`.
pub(crate) fn of_cast<'a>(kind: IntKind, e: &Expr) -> Want<'a>
    ensures { want_at result ≡ rules.of_cast kind (expr_of e.now) }
{
    if is_settled(e) {
        Want::Nothing
    } else {
        Want::Wants(TypeRef::Int(kind))
    }
}

/// Of the operand of `bits`: the word.
pub(crate) fn of_word<'a>(context: &'a Context, name: &Word) -> Want<'a>
    ensures { want_at result ≡ rules.of_word (context_of context.now) name.now }
{
    match bits_type(&context.items, name) {
        Some(t) => wants(word_type(&context.items, t)),
        None => Want::Unknown,
    }
}

/// The type of a field, where there is one of bit data.
fn field_of_bits<'a>(
    context: &'a Context,
    t: Option<TypeRef<'a>>,
    field: &Word,
) -> Option<TypeRef<'a>>
    ensures { type_seen result ≡ option_and_then (λ u. parts.field_type (earlier_of context.now.items) u field.now) (type_seen t.entry) }
{
    match t {
        Some(t) => field_type(&context.items, t, field),
        None => None,
    }
}

/// Of the new value in `set`: the field's type.
pub(crate) fn of_new_value<'a>(context: &'a Context, e: &Expr, field: &Word) -> Want<'a>
    ensures { want_at result ≡ rules.of_new_value (context_of context.now) (expr_of e.now) field.now }
{
    wants(field_of_bits(context, bit_data_only(own_type(context, e)), field))
}

/// Of an index into what has this type: an index of the array's length.
pub(crate) fn of_index<'a>(base: Option<TypeRef<'a>>) -> Want<'a>
    ensures { want_at result ≡ rules.wants (option_map Ix (option_and_then parts.length_behind (type_seen base.entry))) }
{
    match base {
        Some(t) => match length_behind(t) {
            Some(length) => Want::Wants(TypeRef::Ix(length)),
            None => Want::Unknown,
        },
        None => Want::Unknown,
    }
}

/// Of the value of a store: the cell's type.
pub fn of_stored<'a>(context: &'a Context, target: &Expr) -> Want<'a>
    ensures { want_at result ≡ rules.of_stored (context_of context.now) (expr_of target.now) }
{
    wants(stored_of(own_type(context, target)))
}
