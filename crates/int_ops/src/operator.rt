//! The operators, the reasons why one stops, and which kinds have which operators.

ghost use Rattle.std.specs.Prelude.{◌≡◌};
ghost use Rattle.iv_words.specs.Kinds.{is_signed};
ghost use Rattle.int_ops.specs.Operators.{is_allowed};

use iv_words::IntKind;

/// An operator on whole numbers. `Neg` and `Not` are the prefix `-` and `~`, and have one operand.
#[derive(Clone, Copy, Debug, Drop, PartialEq, Eq)]
pub enum Op {
    Add,
    Sub,
    Mul,
    Div,
    Rem,
    Shl,
    Shr,
    And,
    Or,
    Xor,
    Neg,
    Not,
    WrapAdd,
    WrapSub,
    WrapMul,
    Eq,
    Ne,
    Lt,
    Le,
    Gt,
    Ge,
}

/// Why an operator has no answer.
#[derive(Clone, Copy, Debug, Drop, PartialEq, Eq)]
pub enum Stop {
    /// The exact number is out of the kind's range.
    Overflow,
    /// A quotient or a remainder by 0.
    DivZero,
    /// A shift by the kind's width or more.
    Shift,
}

/// Whether a kind has an operator. Arithmetic and comparisons are for every kind, the prefix `-` for the signed kinds, and
/// shifts, bitwise and wrapping operators for the unsigned kinds.
pub fn allowed(op: Op, kind: IntKind) -> bool
    ensures { result ≡ is_allowed op kind }
{
    match op {
        Op::Add | Op::Sub | Op::Mul | Op::Div | Op::Rem => true,
        Op::Eq | Op::Ne | Op::Lt | Op::Le | Op::Gt | Op::Ge => true,
        Op::Neg => is_signed(kind),
        Op::Shl | Op::Shr | Op::And | Op::Or | Op::Xor | Op::Not => !is_signed(kind),
        Op::WrapAdd | Op::WrapSub | Op::WrapMul => !is_signed(kind),
    }
}

fn is_signed(kind: IntKind) -> bool
    ensures { result ≡ is_signed kind }
{
    match kind {
        IntKind::U8 | IntKind::U16 | IntKind::U32 | IntKind::U64 => false,
        IntKind::I8 | IntKind::I16 | IntKind::I32 | IntKind::I64 => true,
    }
}
