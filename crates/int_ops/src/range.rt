//! The range of the whole numbers of one width and sign.

ghost use Rattle.std.specs.Prelude.{◌≡◌};
ghost use Rattle.iv_words.specs.Kinds.{in_range_of, least_of, greatest_of};
ghost use Rattle.int_ops.specs.Operators.{IsKindWidth, fitted};

use crate::operator::Stop;

/// The whole numbers of `BITS` bits, 8, 16, 32 or 64: in two's complement where they are `SIGNED`, else from 0.
#[derive(Drop)]
pub struct Range<const BITS: u32, const SIGNED: bool>;

impl<const BITS: u32, const SIGNED: bool> Range<BITS, SIGNED> {
    /// The least number of the range.
    pub fn least() -> i128
        requires { IsKindWidth BITS }
        ensures { result ≡ least_of BITS SIGNED }
    {
        if SIGNED { -(1i128 << (BITS - 1)) } else { 0 }
    }

    /// The greatest number of the range.
    pub fn greatest() -> i128
        requires { IsKindWidth BITS }
        ensures { result ≡ greatest_of BITS SIGNED }
    {
        if SIGNED {
            (1i128 << (BITS - 1)) - 1
        } else {
            (1i128 << BITS) - 1
        }
    }

    pub(crate) fn has(v: i128) -> bool
        requires { IsKindWidth BITS }
        ensures { result ≡ in_range_of BITS SIGNED v }
    {
        Self::least() <= v && v <= Self::greatest()
    }

    pub(crate) fn fitted(v: i128) -> Result<i128, Stop>
        requires { IsKindWidth BITS }
        ensures { result ≡ fitted BITS SIGNED v }
    {
        if Self::has(v) {
            Ok(v)
        } else {
            Err(Stop::Overflow)
        }
    }
}
