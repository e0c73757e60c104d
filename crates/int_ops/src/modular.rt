//! Arithmetic modulo 2 to the width, and shifts.

ghost use Rattle.std.specs.Prelude.{◌≡◌, pos, ◌*ℤ◌, int_lt, IsTrue, false};
ghost use Rattle.std.specs.Int.{int_div_euclid};
ghost use Rattle.iv_words.specs.Kinds.{in_range_of};
ghost use Rattle.iv_words.specs.Bits.{modulo, two_to};
ghost use Rattle.int_ops.specs.Operators.{IsKindWidth, shifted};

use crate::operator::Stop;
use crate::range::Range;

impl<const BITS: u32, const SIGNED: bool> Range<BITS, SIGNED> {
    pub(crate) fn modulo(v: i128) -> i128
        requires { IsKindWidth BITS }
        ensures { result ≡ modulo BITS v }
    {
        v.rem_euclid(1i128 << BITS)
    }

    pub(crate) fn wrapped_product(a: i128, b: i128) -> i128
        requires width { IsKindWidth BITS }
        requires left { IsTrue (in_range_of BITS false a) }
        requires right { IsTrue (in_range_of BITS false b) }
        ensures { result ≡ modulo BITS (a *ℤ b) }
    {
        (a as u128 * b as u128 % (1u128 << BITS)) as i128
    }

    fn can_shift_by(b: i128) -> bool
        ensures { result ≡ int_lt b (pos BITS) }
    {
        b < i128::from(BITS)
    }

    pub(crate) fn shifted_left(a: i128, b: i128) -> Result<i128, Stop>
        requires width { IsKindWidth BITS }
        requires left { IsTrue (in_range_of BITS false a) }
        requires right { IsTrue (in_range_of BITS false b) }
        ensures { result ≡ shifted BITS b (modulo BITS (a *ℤ two_to b)) }
    {
        if Self::can_shift_by(b) {
            Ok(Self::modulo(a << b))
        } else {
            Err(Stop::Shift)
        }
    }

    pub(crate) fn shifted_right(a: i128, b: i128) -> Result<i128, Stop>
        requires width { IsKindWidth BITS }
        requires left { IsTrue (in_range_of BITS false a) }
        requires right { IsTrue (in_range_of BITS false b) }
        ensures { result ≡ shifted BITS b (int_div_euclid a (two_to b)) }
    {
        if Self::can_shift_by(b) {
            Ok(a >> b)
        } else {
            Err(Stop::Shift)
        }
    }
}
