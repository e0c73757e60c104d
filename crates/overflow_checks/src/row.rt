//! What the forms of a kind need of it: the kind itself, its ends as constants, and its operands.

ghost use Rattle.std.specs.Prelude.{◌≡◌, ◌*◌, true, IfOk};
ghost use Rattle.c_ast.specs.View.{expr_of};
ghost use Rattle.int_ops.specs.Operators.{IsKindWidth};
ghost use Rattle.iv_words.specs.Kinds.{kind_at};
ghost use Rattle.overflow_checks.specs.Parts as parts;

use crate::build::{binary, cast, plain, unary, unsigned};
use c_ast::{CBinary, CExpr, CUnary};
use int_ops::Range;
use iv_words::{IntKind, Memory};
use std::alloc::Global;

/// The kind of so many bits.
fn kind_of(bits: u32, signed: bool) -> IntKind
    ensures { result ≡ kind_at bits signed }
{
    match bits {
        8 => if signed { IntKind::I8 } else { IntKind::U8 },
        16 => if signed { IntKind::I16 } else { IntKind::U16 },
        32 => if signed { IntKind::I32 } else { IntKind::U32 },
        _ => if signed { IntKind::I64 } else { IntKind::U64 },
    }
}

pub fn is_constant(e: &CExpr) -> bool
    ensures { result ≡ parts.is_constant (expr_of e.now) }
{
    matches!(e, CExpr::Number(_, _))
}

/// Calls a function of the kind's row.
macro_rules! of_row {
    ($kind:expr, $call:ident($($argument:expr),*)) => {
        match $kind {
            IntKind::U8 => Row::<8, false>::$call($($argument),*),
            IntKind::U16 => Row::<16, false>::$call($($argument),*),
            IntKind::U32 => Row::<32, false>::$call($($argument),*),
            IntKind::U64 => Row::<64, false>::$call($($argument),*),
            IntKind::I8 => Row::<8, true>::$call($($argument),*),
            IntKind::I16 => Row::<16, true>::$call($($argument),*),
            IntKind::I32 => Row::<32, true>::$call($($argument),*),
            IntKind::I64 => Row::<64, true>::$call($($argument),*),
        }
    };
}

pub(crate) use of_row;

/// The expressions of the operators of one kind: of `BITS` bits, 8, 16, 32 or 64, and with a sign where it is `SIGNED`.
#[derive(Drop)]
pub struct Row<const BITS: u32, const SIGNED: bool>;

impl<const BITS: u32, const SIGNED: bool> Row<BITS, SIGNED> {
    pub fn kind() -> IntKind
        ensures { result ≡ kind_at BITS SIGNED }
    {
        kind_of(BITS, SIGNED)
    }

    pub fn double_kind() -> IntKind
        requires { IsKindWidth BITS }
        ensures { result ≡ kind_at (2 * BITS) SIGNED }
    {
        kind_of(2 * BITS, SIGNED)
    }

    /// The greatest number.
    pub fn greatest() -> CExpr
        requires { IsKindWidth BITS }
        ensures { expr_of result ≡ parts.greatest_constant BITS SIGNED }
    {
        let greatest = Range::<BITS, SIGNED>::greatest() as u64;
        if SIGNED {
            plain(greatest)
        } else {
            unsigned(greatest)
        }
    }

    /// The least number of a signed kind.
    pub fn least(alloc: Global) -> Result<CExpr, Memory>
        requires { IsKindWidth BITS }
        ensures { IfOk result (λ e. expr_of e ≡ parts.least_constant BITS) }
    {
        let above = unary(alloc, CUnary::Neg, Row::<BITS, true>::greatest())?;
        binary(alloc, CBinary::Sub, above, plain(1))
    }

    /// The product of the operands in the kind of twice as many bits.
    pub fn double_product(alloc: Global, a: CExpr, b: CExpr) -> Result<CExpr, Memory>
        requires { IsKindWidth BITS }
        ensures { IfOk result (λ e. expr_of e ≡ parts.double_product BITS SIGNED (expr_of a) (expr_of b)) }
    {
        let left = cast(alloc, Self::double_kind(), a)?;
        let right = cast(alloc, Self::double_kind(), b)?;
        binary(alloc, CBinary::Mul, left, right)
    }

    /// The operand as a value of the kind's type.
    #[tactic(auto, using(crate::proofs::Operands::constant_is_cast, crate::proofs::Operands::other_stays))]
    pub fn operand(alloc: Global, e: CExpr) -> Result<CExpr, Memory>
        ensures { IfOk result (λ r. expr_of r ≡ parts.operand_of BITS SIGNED (expr_of e)) }
    {
        if is_constant(&e) {
            cast(alloc, Self::kind(), e)
        } else {
            Ok(e)
        }
    }
}
