//! Which numbers a kind has, and what an operator answers on them.

ghost use Rattle.std.specs.Prelude.{◌≡◌, IsTrue, IfOk};
ghost use Rattle.iv_words.specs.Kinds.{in_range_of, in_range};
ghost use Rattle.int_ops.specs.Operators.{IsKindWidth, is_allowed_at, is_binary, exact_at, is_allowed, exact};

use crate::operator::{Op, Stop};
use crate::range::Range;
use iv_words::IntKind;

impl<const BITS: u32, const SIGNED: bool> Range<BITS, SIGNED> {
    fn answer(op: Op, a: i128, b: i128) -> Result<i128, Stop>
        requires width { IsKindWidth BITS }
        requires allowed { IsTrue (is_allowed_at op SIGNED) }
        requires left { IsTrue (in_range_of BITS SIGNED a) }
        requires right { IsTrue (is_binary op) → IsTrue (in_range_of BITS SIGNED b) }
        ensures { result ≡ exact_at op BITS SIGNED a b }
    {
        match op {
            Op::Add => Self::sum(a, b),
            Op::Sub => Self::difference(a, b),
            Op::Mul => Self::product(a, b),
            Op::Div => Self::quotient(a, b),
            Op::Rem => Self::remainder(a, b),
            Op::Shl => Self::shifted_left(a, b),
            Op::Shr => Self::shifted_right(a, b),
            Op::And => Ok(a & b),
            Op::Or => Ok(a | b),
            Op::Xor => Ok(a ^ b),
            Op::Neg => Self::opposite(a),
            Op::Not => Ok(Self::greatest() - a),
            Op::WrapAdd => Ok(Self::modulo(a + b)),
            Op::WrapSub => Ok(Self::modulo(a - b)),
            Op::WrapMul => Ok(Self::wrapped_product(a, b)),
            Op::Eq => Ok(i128::from(a == b)),
            Op::Ne => Ok(i128::from(a != b)),
            Op::Lt => Ok(i128::from(a < b)),
            Op::Le => Ok(i128::from(a <= b)),
            Op::Gt => Ok(i128::from(a > b)),
            Op::Ge => Ok(i128::from(a >= b)),
        }
    }
}

/// Calls a function of the kind's range.
macro_rules! of_range {
    ($kind:expr, $call:ident($($argument:expr),*)) => {
        match $kind {
            IntKind::U8 => Range::<8, false>::$call($($argument),*),
            IntKind::U16 => Range::<16, false>::$call($($argument),*),
            IntKind::U32 => Range::<32, false>::$call($($argument),*),
            IntKind::U64 => Range::<64, false>::$call($($argument),*),
            IntKind::I8 => Range::<8, true>::$call($($argument),*),
            IntKind::I16 => Range::<16, true>::$call($($argument),*),
            IntKind::I32 => Range::<32, true>::$call($($argument),*),
            IntKind::I64 => Range::<64, true>::$call($($argument),*),
        }
    };
}

/// Whether a number is in the kind's range.
pub fn fits(kind: IntKind, v: i128) -> bool
    ensures { result ≡ in_range kind v }
{
    of_range!(kind, has(v))
}

/// What an operator of the kind answers, as a whole number of the kind; a comparison answers 1 where it holds, else 0. The
/// prefix operators leave `b` aside.
///
/// Errors: `Overflow` where the exact number, or the quotient that a remainder needs, is out of the kind's range; `DivZero`
/// where the divisor is 0; `Shift` where a shift is by the kind's width or more.
pub fn apply(op: Op, kind: IntKind, a: i128, b: i128) -> Result<i128, Stop>
    requires allowed { IsTrue (is_allowed op kind) }
    requires left { IsTrue (in_range kind a) }
    requires right { IsTrue (is_binary op) → IsTrue (in_range kind b) }
    ensures exact { result ≡ exact op kind a b }
    ensures in_range { IfOk result (λ v. IsTrue (in_range kind v)) }
{
    of_range!(kind, answer(op, a, b))
}
