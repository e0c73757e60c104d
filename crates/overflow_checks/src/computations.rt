//! Computations: which expression gives what an operator answers.

ghost use Rattle.std.specs.Prelude.{◌≡◌, IsTrue, IfOk};
ghost use Rattle.iv_words.specs.Kinds.{width, is_signed};
ghost use Rattle.int_ops.specs.Operators.{IsKindWidth, is_allowed, is_binary};
ghost use Rattle.c_ast.specs.View.{expr_of};
ghost use Rattle.overflow_checks.specs.Contract.{IsOperand, IsComputation, IsOperandOf, IsMadeOf, computation_levels};
ghost use Rattle.overflow_checks.specs.Forms as forms;

use crate::build::{binary, unary};
use crate::row::{Row, of_row};
use c_ast::{CBinary, CExpr, CUnary, Target};
use int_ops::Op;
use iv_words::{IntKind, Memory};
use std::alloc::Global;

impl<const BITS: u32, const SIGNED: bool> Row<BITS, SIGNED> {
    fn product(alloc: Global, a: CExpr, b: CExpr) -> Result<CExpr, Memory>
        requires { IsKindWidth BITS }
        ensures { IfOk result (λ e. expr_of e ≡ forms.product_of BITS SIGNED (expr_of a) (expr_of b)) }
    {
        if BITS < 64 {
            Self::double_product(alloc, a, b)
        } else {
            binary(alloc, CBinary::Mul, a, b)
        }
    }

    fn computation_of(alloc: Global, op: Op, a: CExpr, b: CExpr) -> Result<CExpr, Memory>
        requires { IsKindWidth BITS }
        ensures { IfOk result (λ e. expr_of e ≡ forms.computation_of BITS SIGNED op (expr_of a) (expr_of b)) }
    {
        match op {
            Op::Add | Op::WrapAdd => binary(alloc, CBinary::Add, a, b),
            Op::Sub | Op::WrapSub => binary(alloc, CBinary::Sub, a, b),
            Op::Mul | Op::WrapMul => Self::product(alloc, a, b),
            Op::Div => binary(alloc, CBinary::Div, a, b),
            Op::Rem => binary(alloc, CBinary::Rem, a, b),
            Op::Shl => binary(alloc, CBinary::Shl, a, b),
            Op::Shr => binary(alloc, CBinary::Shr, a, b),
            Op::And => binary(alloc, CBinary::And, a, b),
            Op::Or => binary(alloc, CBinary::Or, a, b),
            Op::Xor => binary(alloc, CBinary::Xor, a, b),
            Op::Neg => unary(alloc, CUnary::Neg, a),
            Op::Not => unary(alloc, CUnary::Flip, a),
            Op::Eq => binary(alloc, CBinary::Eq, a, b),
            Op::Ne => binary(alloc, CBinary::Ne, a, b),
            Op::Lt => binary(alloc, CBinary::Lt, a, b),
            Op::Le => binary(alloc, CBinary::Le, a, b),
            Op::Gt => binary(alloc, CBinary::Gt, a, b),
            Op::Ge => binary(alloc, CBinary::Ge, a, b),
        }
    }

    fn computation(alloc: Global, op: Op, a: CExpr, b: CExpr) -> Result<CExpr, Memory>
        requires { IsKindWidth BITS }
        ensures { IfOk result (λ e. expr_of e ≡ forms.computation_for BITS SIGNED op (expr_of a) (expr_of b)) }
    {
        let a = Self::operand(alloc, a)?;
        let b = Self::operand(alloc, b)?;
        Self::computation_of(alloc, op, a, b)
    }
}

fn computation_of_kind(
    alloc: Global,
    op: Op,
    kind: IntKind,
    a: CExpr,
    b: CExpr,
) -> Result<CExpr, Memory>
    ensures { IfOk result (λ e. expr_of e ≡ forms.computation_for (width kind) (is_signed kind) op (expr_of a) (expr_of b)) }
{
    of_row!(kind, computation(alloc, op, a, b))
}

/// The computation of an operator: an expression that has a value for all numbers on which `int_ops::apply` answers, and is
/// that answer once it is converted to the kind, or to `bool` where the operator is a comparison. Operands are as those of
/// `guard`. No form depends on the target.
///
/// Errors: want of memory.
pub fn compute(
    alloc: Global,
    t: Target,
    op: Op,
    kind: IntKind,
    a: CExpr,
    b: CExpr,
) -> Result<CExpr, Memory>
    requires allowed { IsTrue (is_allowed op kind) }
    requires left { IsOperand t kind (expr_of a) }
    requires right { IsTrue (is_binary op) → IsOperand t kind (expr_of b) }
    ensures exact { IfOk result (λ e. IsComputation t op kind (expr_of a) (expr_of b) (expr_of e)) }
    ensures parts { IfOk result (λ e. IsMadeOf t (IsOperandOf op (expr_of a) (expr_of b)) (expr_of e) computation_levels) }
{
    let _ = t;
    computation_of_kind(alloc, op, kind, a, b)
}
