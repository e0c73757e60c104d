//! The table of a target, and the types in which C computes there.

ghost use Rattle.std.specs.Prelude.{◌≡◌, ◌≤◌};
ghost use Rattle.iv_words.specs.Kinds as kinds;
ghost use Rattle.c_ast.specs.Targets as targets;

use crate::types::{Arith, Target};
use iv_words::IntKind;

/// The number of bits of an exact-width kind (C99 7.18.1.1).
pub(crate) fn width(kind: IntKind) -> u32
    ensures value { result ≡ kinds.width kind }
    ensures some { 1 ≤ result }
    ensures most { result ≤ 64 }
{
    match kind {
        IntKind::U8 | IntKind::I8 => 8,
        IntKind::U16 | IntKind::I16 => 16,
        IntKind::U32 | IntKind::I32 => 32,
        IntKind::U64 | IntKind::I64 => 64,
    }
}

pub(crate) fn is_signed(kind: IntKind) -> bool
    ensures { result ≡ kinds.is_signed kind }
{
    match kind {
        IntKind::U8 | IntKind::U16 | IntKind::U32 | IntKind::U64 => false,
        IntKind::I8 | IntKind::I16 | IntKind::I32 | IntKind::I64 => true,
    }
}

impl Target {
    /// The bits of `int`.
    pub(crate) fn int_bits(self) -> u32
        ensures value { result ≡ (targets.table_of self).int_bits }
        ensures some { 1 ≤ result }
        ensures most { result ≤ 64 }
    {
        match self {
            Target::T32 => 32,
        }
    }

    /// The bits of `long`.
    pub(crate) fn long_bits(self) -> u32
        ensures value { result ≡ (targets.table_of self).long_bits }
        ensures some { 1 ≤ result }
        ensures most { result ≤ 64 }
    {
        match self {
            Target::T32 => 32,
        }
    }

    /// The bits of `long long`.
    pub(crate) fn long_long_bits(self) -> u32
        ensures value { result ≡ (targets.table_of self).long_long_bits }
        ensures some { 1 ≤ result }
        ensures most { result ≤ 64 }
    {
        match self {
            Target::T32 => 64,
        }
    }

    /// The alignment, in bytes, that no scalar's exceeds.
    pub(crate) fn greatest_alignment(self) -> u64
        ensures value { result ≡ (targets.table_of self).greatest_alignment }
        ensures some { 1 ≤ result }
    {
        match self {
            Target::T32 => 8,
        }
    }

    /// Which type an exact-width kind is: none for the chars and shorts, whose rank is below that of `int`.
    pub(crate) fn exact(self, kind: IntKind) -> Option<Arith>
        ensures { result ≡ (targets.table_of self).exact kind }
    {
        match self {
            Target::T32 => exact_with_wide_int(kind),
        }
    }

    /// The number of bits of a type in which C computes (C99 6.2.5, 6.2.6.2).
    pub(crate) fn arith_bits(self, a: Arith) -> u32
        ensures value { result ≡ targets.arith_bits (targets.table_of self) a }
        ensures some { 1 ≤ result }
        ensures most { result ≤ 64 }
    {
        match a {
            Arith::Int | Arith::UInt => self.int_bits(),
            Arith::Long | Arith::ULong => self.long_bits(),
            Arith::LongLong | Arith::ULongLong => self.long_long_bits(),
        }
    }
}

fn exact_with_wide_int(kind: IntKind) -> Option<Arith>
    ensures { result ≡ targets.exact_with_wide_int kind }
{
    match kind {
        IntKind::U8 | IntKind::I8 | IntKind::U16 | IntKind::I16 => None,
        IntKind::U32 => Some(Arith::UInt),
        IntKind::I32 => Some(Arith::Int),
        IntKind::U64 => Some(Arith::ULongLong),
        IntKind::I64 => Some(Arith::LongLong),
    }
}

impl Arith {
    pub(crate) fn is_signed(self) -> bool
        ensures { result ≡ targets.arith_signed self }
    {
        match self {
            Arith::Int | Arith::Long | Arith::LongLong => true,
            Arith::UInt | Arith::ULong | Arith::ULongLong => false,
        }
    }

    /// The conversion rank, which the signed and the unsigned type share (C99 6.3.1.1).
    pub(crate) fn rank(self) -> u32
        ensures { result ≡ targets.rank self }
    {
        match self {
            Arith::Int | Arith::UInt => 0,
            Arith::Long | Arith::ULong => 1,
            Arith::LongLong | Arith::ULongLong => 2,
        }
    }

    /// The unsigned type that corresponds to a type.
    pub(crate) fn unsigned(self) -> Arith
        ensures { result ≡ targets.unsigned_of self }
    {
        match self {
            Arith::Int | Arith::UInt => Arith::UInt,
            Arith::Long | Arith::ULong => Arith::ULong,
            Arith::LongLong | Arith::ULongLong => Arith::ULongLong,
        }
    }
}
