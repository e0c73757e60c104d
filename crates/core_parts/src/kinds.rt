//! Which checks operators and forms make.

ghost use Rattle.std.specs.Prelude.{◌≡◌, [], IfOk, OnOk};
ghost use Rattle.std.specs.Option.{option_copied};
ghost use Rattle.iv_words.specs.Kinds as range;
ghost use Rattle.rule_checker.specs.View.{type_at};
ghost use Rattle.typing_rules.specs.ExpressionCores as cores;
ghost use Rattle.index_types.specs.Indices.{is_index};
ghost use Rattle.core_tree.specs.Operators as operators;
ghost use Rattle.core_tree.specs.Types as types;
ghost use Rattle.typing_rules.specs.Sites as table;
ghost use Rattle.check_numbers.specs.Numbered.{kinds_from, kinds_after};

use crate::sites::{one_check, two_checks};
use crate::types::{is_signed_integer, least_unsigned};
use core_tree::{Check, SiteKind};
use iv_words::{IntKind, Memory, Seq, Span};
use ivory_tree::{BinOp, BitField, PrefixOp};
use rule_checker::TypeRef;
use std::alloc::Global;

/// The first token of a form, of so many bytes.
pub fn first_token(span: Span, bytes: u32) -> Span
    ensures { result ≡ table.first_token span bytes }
{
    let wide = span.start as u64 + bytes as u64;
    let end = if wide <= span.end as u64 {
        wide as u32
    } else {
        span.end
    };
    Span {
        start: span.start,
        end,
    }
}

/// The bytes of the name of a kind.
pub fn name_bytes(kind: IntKind) -> u32
    ensures { result ≡ table.name_bytes kind }
{
    match kind {
        IntKind::I8 => 6,
        IntKind::U8 | IntKind::I16 | IntKind::I32 | IntKind::I64 => 7,
        IntKind::U16 | IntKind::U32 | IntKind::U64 => 8,
    }
}

fn least(kind: IntKind) -> i128
    ensures { result ≡ range.least kind }
{
    match kind {
        IntKind::U8 | IntKind::U16 | IntKind::U32 | IntKind::U64 => 0,
        IntKind::I8 => -128,
        IntKind::I16 => -32_768,
        IntKind::I32 => -2_147_483_648,
        IntKind::I64 => -9_223_372_036_854_775_808,
    }
}

fn greatest(kind: IntKind) -> i128
    ensures { result ≡ range.greatest kind }
{
    match kind {
        IntKind::U8 => 255,
        IntKind::U16 => 65_535,
        IntKind::U32 => 4_294_967_295,
        IntKind::U64 => 18_446_744_073_709_551_615,
        IntKind::I8 => 127,
        IntKind::I16 => 32_767,
        IntKind::I32 => 2_147_483_647,
        IntKind::I64 => 9_223_372_036_854_775_807,
    }
}

fn width(kind: IntKind) -> u64
    ensures { result ≡ range.width kind }
{
    match kind {
        IntKind::U8 | IntKind::I8 => 8,
        IntKind::U16 | IntKind::I16 => 16,
        IntKind::U32 | IntKind::I32 => 32,
        IntKind::U64 | IntKind::I64 => 64,
    }
}

/// Whether each value of the type is one of the kind.
pub fn has_values_of(kind: IntKind, t: TypeRef) -> bool
    ensures { result ≡ types.has_values_of kind (type_at t.entry) }
{
    match t {
        TypeRef::Int(from) => least(kind) <= least(from) && greatest(from) <= greatest(kind),
        TypeRef::Ix(length) => length as i128 - 1 <= greatest(kind),
        TypeRef::Bool | TypeRef::Bits(_) | TypeRef::Ref(_) => false,
    }
}

fn is_index(length: u64, v: i128) -> bool
    ensures { result ≡ is_index length v }
{
    0 <= v && v < length as i128
}

/// Whether each number of the kind is an index of the length.
fn has_indices_of(length: u64, kind: IntKind) -> bool
    ensures { result ≡ types.has_indices_of length kind }
{
    is_index(length, least(kind)) && is_index(length, greatest(kind))
}

/// One check, unless it is needless.
pub fn check_unless(
    alloc: Global,
    needless: bool,
    kind: SiteKind,
    at: Span,
    next: &mut u32,
) -> Result<Seq<Check>, Memory>
    ensures checks { IfOk result (λ cs. cs ≡ kinds_from next.old (operators.unless needless kind) at) }
    ensures after { OnOk result (next.new ≡ kinds_after next.old (operators.unless needless kind) at) }
{
    if needless {
        return Ok(Seq::new(alloc));
    }
    one_check(alloc, kind, at, next)
}

/// The checks of an operator for operands of the type.
pub fn operator_checks(
    alloc: Global,
    op: BinOp,
    t: TypeRef,
    at: Span,
    next: &mut u32,
) -> Result<Seq<Check>, Memory>
    ensures checks { IfOk result (λ cs. cs ≡ kinds_from next.old (operators.operator_sites op (type_at t.entry)) at) }
    ensures after { OnOk result (next.new ≡ kinds_after next.old (operators.operator_sites op (type_at t.entry)) at) }
{
    match op {
        BinOp::Add | BinOp::Sub | BinOp::Mul => one_check(alloc, SiteKind::Overflow, at, next),
        BinOp::Div | BinOp::Rem => {
            if is_signed_integer(t) {
                return two_checks(alloc, SiteKind::DivZero, SiteKind::Overflow, at, next);
            }
            one_check(alloc, SiteKind::DivZero, at, next)
        }
        BinOp::Shl | BinOp::Shr => one_check(alloc, SiteKind::Shift, at, next),
        BinOp::OrElse | BinOp::AndAlso | BinOp::Or | BinOp::Xor | BinOp::And | BinOp::Eq => {
            Ok(Seq::new(alloc))
        }
        BinOp::Ne | BinOp::Lt | BinOp::Le | BinOp::Gt | BinOp::Ge => Ok(Seq::new(alloc)),
        BinOp::WrapAdd | BinOp::WrapSub | BinOp::WrapMul => Ok(Seq::new(alloc)),
    }
}

/// The checks of a prefix.
pub fn prefix_checks(
    alloc: Global,
    op: PrefixOp,
    at: Span,
    next: &mut u32,
) -> Result<Seq<Check>, Memory>
    ensures checks { IfOk result (λ cs. cs ≡ kinds_from next.old (operators.prefix_sites op) at) }
    ensures after { OnOk result (next.new ≡ kinds_after next.old (operators.prefix_sites op) at) }
{
    match op {
        PrefixOp::Neg => one_check(alloc, SiteKind::Overflow, at, next),
        PrefixOp::Not | PrefixOp::Flip | PrefixOp::Deref => Ok(Seq::new(alloc)),
    }
}

/// The check of a conversion to an index.
pub fn index_checks(
    alloc: Global,
    length: u64,
    t: TypeRef,
    at: Span,
    next: &mut u32,
) -> Result<Seq<Check>, Memory>
    ensures checks { IfOk result (λ cs. cs ≡ kinds_from next.old (table.index_sites length (type_at t.entry)) at) }
    ensures after { OnOk result (next.new ≡ kinds_after next.old (table.index_sites length (type_at t.entry)) at) }
{
    match t {
        TypeRef::Int(kind) => {
            let needless = has_indices_of(length, kind);
            check_unless(alloc, needless, SiteKind::Index, at, next)
        }
        TypeRef::Bool | TypeRef::Ix(_) | TypeRef::Bits(_) | TypeRef::Ref(_) => {
            one_check(alloc, SiteKind::Index, at, next)
        }
    }
}

/// Whether each value of the type of the new value fits the field.
fn fills_its_type(field: &BitField) -> bool
    ensures { operators.unless result SiteKind.Cast ≡ table.set_sites field.now }
{
    field.truth || field.width == width(least_unsigned(field.width))
}

/// The check of a new value of a field of bit data.
pub fn set_checks(
    alloc: Global,
    field: Option<&BitField>,
    at: Span,
    next: &mut u32,
) -> Result<Seq<Check>, Memory>
    ensures checks { IfOk result (λ cs. cs ≡ kinds_from next.old (cores.new_sites (option_copied field.entry)) at) }
    ensures after { OnOk result (next.new ≡ kinds_after next.old (cores.new_sites (option_copied field.entry)) at) }
{
    match field {
        Some(field) => check_unless(alloc, fills_its_type(field), SiteKind::Cast, at, next),
        None => Ok(Seq::new(alloc)),
    }
}
