//! Numbers bit by bit (C99 6.5.3.3, 6.5.10 to 6.5.12).

ghost use Rattle.std.specs.Prelude.{◌≡◌, ◌<◌, ◌^◌, bit_and, bit_or, bit_xor, Ok};
ghost use Rattle.iv_words.specs.Kinds.{is_signed, width};
ghost use Rattle.c_meaning.specs.Operators as operators;

use crate::arithmetic::modulo;
use crate::types::{is_signed, width};
use iv_words::IntKind;

/// The bits of a number, as a number from 0.
fn bits_of(kind: IntKind, v: i128) -> u64
    ensures value { result ≡ operators.bits_of (width kind) v }
    ensures within { result < 2 ^ width kind }
{
    modulo(kind, v) as u64
}

/// The number of a kind that has these bits.
fn number_of_bits(kind: IntKind, n: u64) -> i128
    ensures { result ≡ operators.number_of_bits (width kind) (is_signed kind) n }
{
    let bits = width(kind);
    if is_signed(kind) && n >= 1u64 << (bits - 1) {
        i128::from(n) - (1i128 << bits)
    } else {
        i128::from(n)
    }
}

pub fn both(kind: IntKind, a: i128, b: i128) -> i128
    ensures { operators.bitwise bit_and (width kind) (is_signed kind) a b ≡ Ok result }
{
    number_of_bits(kind, bits_of(kind, a) & bits_of(kind, b))
}

pub fn either(kind: IntKind, a: i128, b: i128) -> i128
    ensures { operators.bitwise bit_or (width kind) (is_signed kind) a b ≡ Ok result }
{
    number_of_bits(kind, bits_of(kind, a) | bits_of(kind, b))
}

pub fn one_of_both(kind: IntKind, a: i128, b: i128) -> i128
    ensures { operators.bitwise bit_xor (width kind) (is_signed kind) a b ≡ Ok result }
{
    number_of_bits(kind, bits_of(kind, a) ^ bits_of(kind, b))
}
