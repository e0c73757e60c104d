//! Arithmetic on a range, exact, or stopped where the range has no answer.

ghost use Rattle.std.specs.Prelude.{◌≡◌, ◌+ℤ◌, ◌-ℤ◌, ◌*ℤ◌, neg_ℤ, IsTrue};
ghost use Rattle.iv_words.specs.Kinds.{in_range_of};
ghost use Rattle.int_ops.specs.Operators.{IsKindWidth, fitted, quotient, remainder};

use crate::operator::Stop;
use crate::range::Range;

impl<const BITS: u32, const SIGNED: bool> Range<BITS, SIGNED> {
    pub(crate) fn sum(a: i128, b: i128) -> Result<i128, Stop>
        requires width { IsKindWidth BITS }
        requires left { IsTrue (in_range_of BITS SIGNED a) }
        requires right { IsTrue (in_range_of BITS SIGNED b) }
        ensures { result ≡ fitted BITS SIGNED (a +ℤ b) }
    {
        Self::fitted(a + b)
    }

    pub(crate) fn difference(a: i128, b: i128) -> Result<i128, Stop>
        requires width { IsKindWidth BITS }
        requires left { IsTrue (in_range_of BITS SIGNED a) }
        requires right { IsTrue (in_range_of BITS SIGNED b) }
        ensures { result ≡ fitted BITS SIGNED (a -ℤ b) }
    {
        Self::fitted(a - b)
    }

    pub(crate) fn opposite(a: i128) -> Result<i128, Stop>
        requires width { IsKindWidth BITS }
        requires operand { IsTrue (in_range_of BITS SIGNED a) }
        ensures { result ≡ fitted BITS SIGNED (neg_ℤ a) }
    {
        Self::fitted(-a)
    }

    // Two numbers of 64 bits may have a product of more than 128.
    pub(crate) fn product(a: i128, b: i128) -> Result<i128, Stop>
        requires { IsKindWidth BITS }
        ensures { result ≡ fitted BITS SIGNED (a *ℤ b) }
    {
        match a.checked_mul(b) {
            Some(product) => Self::fitted(product),
            None => Err(Stop::Overflow),
        }
    }

    pub(crate) fn quotient(a: i128, b: i128) -> Result<i128, Stop>
        requires width { IsKindWidth BITS }
        requires left { IsTrue (in_range_of BITS SIGNED a) }
        requires right { IsTrue (in_range_of BITS SIGNED b) }
        ensures { result ≡ quotient BITS SIGNED a b }
    {
        if b == 0 {
            Err(Stop::DivZero)
        } else {
            Self::fitted(a / b)
        }
    }

    pub(crate) fn remainder(a: i128, b: i128) -> Result<i128, Stop>
        requires width { IsKindWidth BITS }
        requires left { IsTrue (in_range_of BITS SIGNED a) }
        requires right { IsTrue (in_range_of BITS SIGNED b) }
        ensures { result ≡ remainder BITS SIGNED a b }
    {
        if b == 0 {
            Err(Stop::DivZero)
        } else if Self::has(a / b) {
            Ok(a % b)
        } else {
            Err(Stop::Overflow)
        }
    }
}
