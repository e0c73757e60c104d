//! The table of operators: which are comparisons, and for which types each is.

ghost use Rattle.std.specs.Prelude.{◌≡◌};
ghost use Rattle.source_types.specs.Operators as table;
ghost use Rattle.rule_checker.specs.View.{type_at};

use crate::types::{
    TypeRef, is_index_type, is_integer, is_signed_integer, is_truth, is_unsigned_integer,
};
use ivory_tree::{BinOp, PrefixOp};

/// Whether it is `&&` or `||`.
pub(crate) fn is_logic(op: BinOp) -> bool
    ensures { result ≡ table.is_logic op }
{
    match op {
        BinOp::OrElse | BinOp::AndAlso => true,
        BinOp::Or | BinOp::Xor | BinOp::And | BinOp::Eq | BinOp::Ne | BinOp::Lt => false,
        BinOp::Le | BinOp::Gt | BinOp::Ge | BinOp::Shl | BinOp::Shr | BinOp::Add => false,
        BinOp::Sub | BinOp::WrapAdd | BinOp::WrapSub | BinOp::Mul | BinOp::Div => false,
        BinOp::Rem | BinOp::WrapMul => false,
    }
}

pub(crate) fn is_comparison(op: BinOp) -> bool
    ensures { result ≡ table.is_comparison op }
{
    match op {
        BinOp::Eq | BinOp::Ne | BinOp::Lt | BinOp::Le | BinOp::Gt | BinOp::Ge => true,
        BinOp::OrElse | BinOp::AndAlso | BinOp::Or | BinOp::Xor | BinOp::And => false,
        BinOp::Shl | BinOp::Shr | BinOp::Add | BinOp::Sub | BinOp::WrapAdd => false,
        BinOp::WrapSub | BinOp::Mul | BinOp::Div | BinOp::Rem | BinOp::WrapMul => false,
    }
}

/// Whether the result is a bool, whatever the operands are.
pub(crate) fn gives_truth(op: BinOp) -> bool
    ensures { result ≡ table.gives_truth op }
{
    is_logic(op) || is_comparison(op)
}

/// Whether the operator is for operands of the type.
pub(crate) fn is_for(op: BinOp, t: TypeRef) -> bool
    ensures { result ≡ table.is_for op (type_at t.entry) }
{
    match op {
        BinOp::OrElse | BinOp::AndAlso => is_truth(t),
        BinOp::Or | BinOp::Xor | BinOp::And => is_unsigned_integer(t),
        BinOp::Shl | BinOp::Shr => is_unsigned_integer(t),
        BinOp::WrapAdd | BinOp::WrapSub | BinOp::WrapMul => is_unsigned_integer(t),
        BinOp::Eq | BinOp::Ne => is_integer(t) || is_index_type(t) || is_truth(t),
        BinOp::Lt | BinOp::Le | BinOp::Gt | BinOp::Ge => is_integer(t) || is_index_type(t),
        BinOp::Add | BinOp::Sub | BinOp::Mul | BinOp::Div | BinOp::Rem => is_integer(t),
    }
}

/// Whether it is `-` or `~`, which give the type of their operand.
pub(crate) fn is_arithmetic(op: PrefixOp) -> bool
    ensures { result ≡ table.is_arithmetic op }
{
    match op {
        PrefixOp::Neg | PrefixOp::Flip => true,
        PrefixOp::Not | PrefixOp::Deref => false,
    }
}

/// Whether the prefix is for an operand of the type.
pub(crate) fn prefix_is_for(op: PrefixOp, t: TypeRef) -> bool
    ensures { result ≡ table.prefix_is_for op (type_at t.entry) }
{
    match op {
        PrefixOp::Neg => is_signed_integer(t),
        PrefixOp::Flip => is_unsigned_integer(t),
        PrefixOp::Not => is_truth(t),
        PrefixOp::Deref => false,
    }
}
