//! The operators of chains: what each does behind the value of its left operand.

ghost use Rattle.std.specs.Prelude.{◌≡◌, map};
ghost use Rattle.area_types.specs.View.{type_of};
ghost use Rattle.core_tree.specs.Syntax as syntax;
ghost use Rattle.core_tree.specs.View.{expr_of, link_of, step_of};
ghost use Rattle.core_expressions.specs.Chains as chains;

use crate::answers::operation;
use area_types::ValueType;
use core_tree::{CoreExpr, CoreLink, CoreStep};
use int_ops::Op;
use iv_words::Seq;
use ivory_tree::BinOp;

/// `||`, `&&`, or an operator on numbers.
#[derive(Clone, Copy, Drop)]
pub(crate) enum Joint {
    Either,
    Both,
    Numbers(Op),
}

pub(crate) fn joint_of(op: BinOp) -> Joint
    ensures { result ≡ chains.joint_of op }
{
    match op {
        BinOp::OrElse => Joint::Either,
        BinOp::AndAlso => Joint::Both,
        BinOp::Or => Joint::Numbers(Op::Or),
        BinOp::Xor => Joint::Numbers(Op::Xor),
        BinOp::And => Joint::Numbers(Op::And),
        BinOp::Eq => Joint::Numbers(Op::Eq),
        BinOp::Ne => Joint::Numbers(Op::Ne),
        BinOp::Lt => Joint::Numbers(Op::Lt),
        BinOp::Le => Joint::Numbers(Op::Le),
        BinOp::Gt => Joint::Numbers(Op::Gt),
        BinOp::Ge => Joint::Numbers(Op::Ge),
        BinOp::Shl => Joint::Numbers(Op::Shl),
        BinOp::Shr => Joint::Numbers(Op::Shr),
        BinOp::Add => Joint::Numbers(Op::Add),
        BinOp::Sub => Joint::Numbers(Op::Sub),
        BinOp::WrapAdd => Joint::Numbers(Op::WrapAdd),
        BinOp::WrapSub => Joint::Numbers(Op::WrapSub),
        BinOp::Mul => Joint::Numbers(Op::Mul),
        BinOp::Div => Joint::Numbers(Op::Div),
        BinOp::Rem => Joint::Numbers(Op::Rem),
        BinOp::WrapMul => Joint::Numbers(Op::WrapMul),
    }
}

fn is_formed(joint: Joint, ty: &ValueType) -> bool
    ensures { result ≡ chains.is_formed joint (type_of ty.now) }
{
    match joint {
        Joint::Either | Joint::Both => true,
        Joint::Numbers(op) => operation(op, ty).is_some(),
    }
}

/// Whether each operator on numbers has an answer on operands of the type before it.
pub(crate) fn formed(ty: &ValueType, links: &Seq<CoreLink>) -> bool
    ensures { result ≡ chains.formed (type_of ty.now) (map link_of links.now) }
{
    let mut before = ty;
    for link in links.as_slice() {
        if !is_formed(joint_of(link.op), before) {
            return false;
        }
        before = &link.ty;
    }
    true
}

/// The type that an expression carries.
pub(crate) fn type_of(e: &CoreExpr) -> &ValueType
    ensures { type_of result.now ≡ syntax.type_of (expr_of e.now) }
{
    &e.ty
}

/// The type of a postfix up to a step.
pub(crate) fn type_after(step: &CoreStep) -> &ValueType
    ensures { type_of result.now ≡ chains.type_after (step_of step.now) }
{
    match step {
        CoreStep::Field(_, ty) => ty,
        CoreStep::Index(_, ty) => ty,
    }
}
