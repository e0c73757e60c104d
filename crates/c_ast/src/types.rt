ghost use Rattle.std.specs.Prelude.{◌≡◌, IfOk};

use iv_words::{Copied, IntKind, Memory, Word};
use std::alloc::Global;

/// What a C compiler decides about types: widths, byte order, alignments and the types of constants.
///
/// `T32` has 32 bits in `int` and `long`, 64 in `long long`, two's complement, and is little-endian.
#[derive(Clone, Copy, Drop, PartialEq, Eq)]
pub enum Target {
    T32,
}

/// A type of one value: `bool`, or an exact-width integer of `<stdint.h>` (C99 7.16 and 7.18.1.1).
#[derive(Clone, Copy, Drop, PartialEq, Eq)]
pub enum CScalar {
    Truth,
    Int(IntKind),
}

/// A type in which C computes: `int`, `long` and `long long`, signed and unsigned (C99 6.2.5).
#[derive(Clone, Copy, Debug, Drop, PartialEq, Eq)]
pub enum Arith {
    Int,
    UInt,
    Long,
    ULong,
    LongLong,
    ULongLong,
}

/// The type of a value that is no pointer: as a name or a cast gives it, or as C computes in it.
#[derive(Clone, Copy, Drop, PartialEq, Eq)]
pub enum CKind {
    Scalar(CScalar),
    Arith(Arith),
}

/// The type of an object: a scalar, or the struct of a tag.
#[derive(Drop, PartialEq, Eq)]
pub enum CBase {
    Scalar(CScalar),
    Struct(Word),
}

/// The type of a parameter, a result, a name or a cast. A pointer's flag is `const` on what it points to.
#[derive(Drop, PartialEq, Eq)]
pub enum CType {
    Void,
    Value(CScalar),
    Pointer(bool, CBase),
}

impl CBase {
    /// A type that equals this one.
    pub fn copy(&self, alloc: Global) -> Result<CBase, Memory>
        ensures { IfOk result (λ t. t ≡ self.now) }
    {
        match self {
            CBase::Scalar(scalar) => Ok(CBase::Scalar(*scalar)),
            CBase::Struct(name) => Ok(CBase::Struct(name.copy(alloc)?)),
        }
    }
}

impl CType {
    /// A type that equals this one.
    pub fn copy(&self, alloc: Global) -> Result<CType, Memory>
        ensures { IfOk result (λ t. t ≡ self.now) }
    {
        match self {
            CType::Void => Ok(CType::Void),
            CType::Value(scalar) => Ok(CType::Value(*scalar)),
            CType::Pointer(constant, base) => Ok(CType::Pointer(*constant, base.copy(alloc)?)),
        }
    }
}

impl Copied for CType {
    fn copied(&self, alloc: Global) -> Result<CType, Memory> {
        self.copy(alloc)
    }
}
