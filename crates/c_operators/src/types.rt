//! The types in which operators compute (C99 6.3.1.1, 6.3.1.8).

ghost use Rattle.std.specs.Prelude.{◌≡◌, ◌≤◌};
ghost use Rattle.iv_words.specs.Kinds as kinds;
ghost use Rattle.c_ast.specs.Targets as targets;
ghost use Rattle.c_ast.specs.Targets.{table_of, arith_bits, arith_signed};

use c_ast::{Arith, CKind, Target, common, promote};
use iv_words::IntKind;

/// The bits of a kind.
pub fn width(kind: IntKind) -> u32
    ensures value { result ≡ kinds.width kind }
    ensures some { 1 ≤ result }
    ensures most { result ≤ 64 }
{
    match kind {
        IntKind::U8 | IntKind::I8 => 8,
        IntKind::U16 | IntKind::I16 => 16,
        IntKind::U32 | IntKind::I32 => 32,
        IntKind::U64 | IntKind::I64 => 64,
    }
}

pub fn is_signed(kind: IntKind) -> bool
    ensures { result ≡ kinds.is_signed kind }
{
    match kind {
        IntKind::U8 | IntKind::U16 | IntKind::U32 | IntKind::U64 => false,
        IntKind::I8 | IntKind::I16 | IntKind::I32 | IntKind::I64 => true,
    }
}

/// The kind of whole numbers that has the numbers of a type in which C computes.
pub fn kind_of(t: Target, c: Arith) -> IntKind
    ensures bits { kinds.width result ≡ arith_bits (table_of t) c }
    ensures sign { kinds.is_signed result ≡ arith_signed c }
{
    match t {
        Target::T32 => match c {
            Arith::Int | Arith::Long => IntKind::I32,
            Arith::UInt | Arith::ULong => IntKind::U32,
            Arith::LongLong => IntKind::I64,
            Arith::ULongLong => IntKind::U64,
        },
    }
}

/// The type of a value once it is promoted.
pub fn promoted(t: Target, k: CKind) -> Arith
    ensures { result ≡ targets.promoted (table_of t) k }
{
    match k {
        CKind::Scalar(s) => promote(t, s),
        CKind::Arith(a) => a,
    }
}

/// The type to which an operator converts values of two types.
pub fn common_type(t: Target, k: CKind, l: CKind) -> Arith
    ensures { result ≡ targets.common_type (table_of t) k l }
{
    common(t, promoted(t, k), promoted(t, l))
}
