//! What each binary operator does with its operands.

ghost use Rattle.std.specs.Prelude.{◌≡◌};
ghost use Rattle.c_operators.specs.Classes as classes;

use c_ast::CBinary;

/// An operator that computes in the common type of its operands.
#[derive(Clone, Copy, Drop)]
pub enum Usual {
    Add,
    Sub,
    Mul,
    Div,
    Rem,
    And,
    Or,
    Xor,
}

/// A comparison in the common type of its operands.
#[derive(Clone, Copy, Drop)]
pub enum Comparison {
    Eq,
    Ne,
    Lt,
    Le,
    Gt,
    Ge,
}

/// Where a shift moves the bits of its left operand.
#[derive(Clone, Copy, Drop)]
pub enum Direction {
    Left,
    Right,
}

/// What a binary operator does with its operands: it computes or compares in their common type, it shifts, or it asks which
/// of them are true.
#[derive(Clone, Copy, Drop)]
pub enum Class {
    Computes(Usual),
    Compares(Comparison),
    Shifts(Direction),
    AsksBoth,
    AsksEither,
}

pub fn class_of(op: CBinary) -> Class
    ensures { result ≡ classes.class_of op }
{
    match op {
        CBinary::Add => Class::Computes(Usual::Add),
        CBinary::Sub => Class::Computes(Usual::Sub),
        CBinary::Mul => Class::Computes(Usual::Mul),
        CBinary::Div => Class::Computes(Usual::Div),
        CBinary::Rem => Class::Computes(Usual::Rem),
        CBinary::And => Class::Computes(Usual::And),
        CBinary::Or => Class::Computes(Usual::Or),
        CBinary::Xor => Class::Computes(Usual::Xor),
        CBinary::Shl => Class::Shifts(Direction::Left),
        CBinary::Shr => Class::Shifts(Direction::Right),
        CBinary::Eq => Class::Compares(Comparison::Eq),
        CBinary::Ne => Class::Compares(Comparison::Ne),
        CBinary::Lt => Class::Compares(Comparison::Lt),
        CBinary::Le => Class::Compares(Comparison::Le),
        CBinary::Gt => Class::Compares(Comparison::Gt),
        CBinary::Ge => Class::Compares(Comparison::Ge),
        CBinary::AndAlso => Class::AsksBoth,
        CBinary::OrElse => Class::AsksEither,
    }
}
