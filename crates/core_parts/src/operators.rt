//! Operators: which give bools, and of which level each is.

ghost use Rattle.std.specs.Prelude.{◌≡◌};
ghost use Rattle.source_types.specs.Operators as table;
ghost use Rattle.rule_checker.specs.View.{type_at};
ghost use Rattle.core_tree.specs.Operators as operators;
ghost use Rattle.typing_rules.specs.Wholes as wholes;

use ivory_tree::BinOp;
use rule_checker::TypeRef;

/// The operators of one level make one chain.
pub fn level(op: BinOp) -> u8
    ensures { result ≡ wholes.level op }
{
    match op {
        BinOp::OrElse => 1,
        BinOp::AndAlso => 2,
        BinOp::Or => 3,
        BinOp::Xor => 4,
        BinOp::And => 5,
        BinOp::Eq | BinOp::Ne => 6,
        BinOp::Lt | BinOp::Le | BinOp::Gt | BinOp::Ge => 7,
        BinOp::Shl | BinOp::Shr => 8,
        BinOp::Add | BinOp::Sub | BinOp::WrapAdd | BinOp::WrapSub => 9,
        BinOp::Mul | BinOp::Div | BinOp::Rem | BinOp::WrapMul => 10,
    }
}

/// Whether it is `&&` or `||`.
pub fn is_logic(op: BinOp) -> bool
    ensures { result ≡ table.is_logic op }
{
    match op {
        BinOp::OrElse | BinOp::AndAlso => true,
        BinOp::Or | BinOp::Xor | BinOp::And | BinOp::Eq | BinOp::Ne | BinOp::Lt => false,
        BinOp::Le | BinOp::Gt | BinOp::Ge | BinOp::Shl | BinOp::Shr | BinOp::Add => false,
        BinOp::Sub | BinOp::WrapAdd | BinOp::WrapSub | BinOp::Mul | BinOp::Div => false,
        BinOp::Rem | BinOp::WrapMul => false,
    }
}

fn is_comparison(op: BinOp) -> bool
    ensures { result ≡ table.is_comparison op }
{
    match op {
        BinOp::Eq | BinOp::Ne | BinOp::Lt | BinOp::Le | BinOp::Gt | BinOp::Ge => true,
        BinOp::OrElse | BinOp::AndAlso | BinOp::Or | BinOp::Xor | BinOp::And => false,
        BinOp::Shl | BinOp::Shr | BinOp::Add | BinOp::Sub | BinOp::WrapAdd => false,
        BinOp::WrapSub | BinOp::Mul | BinOp::Div | BinOp::Rem | BinOp::WrapMul => false,
    }
}

/// Whether the result is a bool, whatever the operands are.
pub fn gives_truth(op: BinOp) -> bool
    ensures { result ≡ table.gives_truth op }
{
    is_logic(op) || is_comparison(op)
}

/// What an operator gives for operands of the type.
pub fn result_type<'a>(op: BinOp, t: TypeRef<'a>) -> TypeRef<'a>
    ensures { type_at result ≡ operators.result_type op (type_at t.entry) }
{
    if is_comparison(op) { TypeRef::Bool } else { t }
}
