//! Guards: which form is taken where.

ghost use Rattle.std.specs.Prelude.{◌≡◌, IsTrue, IfOk};
ghost use Rattle.iv_words.specs.Kinds.{width, is_signed};
ghost use Rattle.int_ops.specs.Operators.{IsKindWidth, is_allowed, is_binary};
ghost use Rattle.c_ast.specs.Targets.{table_of};
ghost use Rattle.c_ast.specs.View.{expr_of};
ghost use Rattle.overflow_checks.specs.Checks.{is_check};
ghost use Rattle.overflow_checks.specs.Contract.{IsOperand, IsGuard, IsOperandOf, IsMadeOf, guard_levels};
ghost use Rattle.overflow_checks.specs.Forms as forms;

use crate::build::plain;
use crate::row::{Row, is_constant, of_row};
use crate::unsigned::{difference_fits, divisor_is_some};
use c_ast::{CExpr, Target};
use int_ops::{Op, Stop};
use iv_words::{IntKind, Memory};
use std::alloc::Global;

/// The bits of `int`.
fn int_bits(target: Target) -> u32
    ensures { result ≡ (table_of target).int_bits }
{
    match target {
        Target::T32 => 32,
    }
}

// Compilers see of a division by a constant, and not of one by a name, that it need not be made.
fn is_turned(op: Op, a: &CExpr) -> bool
    ensures { result ≡ forms.is_turned op (expr_of a.now) }
{
    match op {
        Op::Mul => is_constant(a),
        _ => false,
    }
}

impl<const BITS: u32, const SIGNED: bool> Row<BITS, SIGNED> {
    fn sum_guard(alloc: Global, int_bits: u32, a: &CExpr, b: &CExpr) -> Result<CExpr, Memory>
        requires { IsKindWidth BITS }
        ensures { IfOk result (λ e. expr_of e ≡ forms.sum_guard int_bits BITS SIGNED (expr_of a.now) (expr_of b.now)) }
    {
        if !SIGNED {
            Self::sum_fits(alloc, a, b)
        } else if BITS < int_bits {
            Self::narrow_sum_fits(alloc, a, b)
        } else {
            Self::wide_sum_fits(alloc, a, b)
        }
    }

    fn difference_guard(alloc: Global, int_bits: u32, a: &CExpr, b: &CExpr) -> Result<CExpr, Memory>
        requires { IsKindWidth BITS }
        ensures { IfOk result (λ e. expr_of e ≡ forms.difference_guard int_bits BITS SIGNED (expr_of a.now) (expr_of b.now)) }
    {
        if !SIGNED {
            difference_fits(alloc, a, b)
        } else if BITS < int_bits {
            Self::narrow_difference_fits(alloc, a, b)
        } else {
            Self::wide_difference_fits(alloc, a, b)
        }
    }

    fn product_guard(alloc: Global, a: &CExpr, b: &CExpr) -> Result<CExpr, Memory>
        requires { IsKindWidth BITS }
        ensures { IfOk result (λ e. expr_of e ≡ forms.product_guard BITS SIGNED (expr_of a.now) (expr_of b.now)) }
    {
        if SIGNED {
            if BITS < 64 {
                Self::narrow_signed_product_fits(alloc, a, b)
            } else {
                Self::wide_signed_product_fits(alloc, a, b)
            }
        } else if BITS < 64 {
            Self::narrow_product_fits(alloc, a, b)
        } else {
            Self::wide_product_fits(alloc, a, b)
        }
    }

    fn quotient_guard(alloc: Global, which: Stop, a: &CExpr, b: &CExpr) -> Result<CExpr, Memory>
        requires { IsKindWidth BITS }
        ensures { IfOk result (λ e. expr_of e ≡ forms.quotient_guard BITS which (expr_of a.now) (expr_of b.now)) }
    {
        match which {
            Stop::DivZero => divisor_is_some(alloc, b),
            Stop::Overflow => Self::quotient_fits(alloc, a, b),
            Stop::Shift => Ok(plain(1)),
        }
    }

    fn guard_of(
        alloc: Global,
        int_bits: u32,
        op: Op,
        which: Stop,
        a: &CExpr,
        b: &CExpr,
    ) -> Result<CExpr, Memory>
        requires { IsKindWidth BITS }
        ensures { IfOk result (λ e. expr_of e ≡ forms.guard_of int_bits BITS SIGNED op which (expr_of a.now) (expr_of b.now)) }
    {
        match op {
            Op::Add => Self::sum_guard(alloc, int_bits, a, b),
            Op::Sub => Self::difference_guard(alloc, int_bits, a, b),
            Op::Mul => Self::product_guard(alloc, a, b),
            Op::Neg => Self::opposite_fits(alloc, a),
            Op::Div | Op::Rem => Self::quotient_guard(alloc, which, a, b),
            Op::Shl | Op::Shr => Self::shift_fits(alloc, b),
            _ => Ok(plain(1)),
        }
    }

    fn turned_guard(
        alloc: Global,
        int_bits: u32,
        op: Op,
        which: Stop,
        is_turned: bool,
        a: &CExpr,
        b: &CExpr,
    ) -> Result<CExpr, Memory>
        requires { IsKindWidth BITS }
        ensures { IfOk result (λ e. expr_of e ≡ forms.turned_guard int_bits BITS SIGNED op which is_turned (expr_of a.now) (expr_of b.now)) }
    {
        if is_turned {
            Self::guard_of(alloc, int_bits, op, which, b, a)
        } else {
            Self::guard_of(alloc, int_bits, op, which, a, b)
        }
    }

    fn guard(
        alloc: Global,
        int_bits: u32,
        op: Op,
        which: Stop,
        a: CExpr,
        b: CExpr,
    ) -> Result<CExpr, Memory>
        requires { IsKindWidth BITS }
        ensures { IfOk result (λ e. expr_of e ≡ forms.guard_for int_bits BITS SIGNED op which (expr_of a) (expr_of b)) }
    {
        let is_turned = is_turned(op, &a);
        let a = Self::operand(alloc, a)?;
        let b = Self::operand(alloc, b)?;
        Self::turned_guard(alloc, int_bits, op, which, is_turned, &a, &b)
    }
}

fn guard_of_kind(
    alloc: Global,
    target: Target,
    op: Op,
    kind: IntKind,
    which: Stop,
    a: CExpr,
    b: CExpr,
) -> Result<CExpr, Memory>
    ensures { IfOk result (λ e. expr_of e ≡ forms.guard_for (table_of target).int_bits (width kind) (is_signed kind) op which (expr_of a) (expr_of b)) }
{
    let int_bits = int_bits(target);
    of_row!(kind, guard(alloc, int_bits, op, which, a, b))
}

/// The guard of a check: an expression that has a value for all numbers where no earlier check of the operator fails, and
/// is 0 exactly where `int_ops::apply` answers `which`. An operand is a constant of the kind, or an expression that evaluates
/// to a number of it as a value of its type; a prefix operator leaves `b` aside.
///
/// Errors: want of memory.
pub fn guard(
    alloc: Global,
    t: Target,
    op: Op,
    kind: IntKind,
    which: Stop,
    a: CExpr,
    b: CExpr,
) -> Result<CExpr, Memory>
    requires allowed { IsTrue (is_allowed op kind) }
    requires check { IsTrue (is_check op kind which) }
    requires left { IsOperand t kind (expr_of a) }
    requires right { IsTrue (is_binary op) → IsOperand t kind (expr_of b) }
    ensures exact { IfOk result (λ e. IsGuard t op kind which (expr_of a) (expr_of b) (expr_of e)) }
    ensures parts { IfOk result (λ e. IsMadeOf t (IsOperandOf op (expr_of a) (expr_of b)) (expr_of e) guard_levels) }
{
    guard_of_kind(alloc, t, op, kind, which, a, b)
}
