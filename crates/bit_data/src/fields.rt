//! The numbers in the fields of a word.

ghost use Rattle.std.specs.Prelude.{◌≡◌, ◌≤◌, ◌<◌, ◌+◌, ◌^◌, pos, ◌*ℤ◌, ◌≤ℤ◌, int_lt, length, false, IfOk, IsTrue};
ghost use Rattle.iv_words.specs.Kinds.{in_range_of, in_range};
ghost use Rattle.bit_data.specs.Layouts.{IsLayout};
ghost use Rattle.bit_data.specs.Fields.{part, with_part, field_at, field_of, changed, HasPart};

use crate::fault::TooWide;
use crate::layout::{BitLayout, FieldBits};

/// The number in so many bits from the bit `low` on.
fn part(low: u32, bits: u32, v: i128) -> i128
    requires { low + bits ≤ 64 }
    ensures value { result ≡ part low bits v }
    ensures small { IsTrue (in_range_of bits false result) }
{
    (v >> low).rem_euclid(1i128 << bits)
}

/// A number of so many bits, moved up to the bit `low`.
fn moved(low: u32, bits: u32, x: i128) -> i128
    requires place { low + bits ≤ 64 }
    requires number { IsTrue (in_range_of bits false x) }
    ensures value { result ≡ x *ℤ pos (2 ^ low) }
    ensures small { IsTrue (in_range_of 64 false result) }
{
    x << low
}

/// `v` with `x` in those bits.
fn with_part(low: u32, bits: u32, v: i128, x: i128) -> i128
    requires place { low + bits ≤ 64 }
    requires word { IsTrue (in_range_of 64 false v) }
    requires number { IsTrue (in_range_of bits false x) }
    ensures { result ≡ with_part low bits v x }
{
    v - moved(low, bits, part(low, bits, v)) + moved(low, bits, x)
}

/// Whether a number from 0 has at most so many bits.
fn has_room(bits: u32, x: i128) -> bool
    requires { bits ≤ 64 }
    ensures { result ≡ int_lt x (pos (2 ^ bits)) }
{
    x < 1i128 << bits
}

/// The field of that number.
fn field_at(layout: &BitLayout, field: u32) -> &FieldBits
    requires { field < length layout.now.fields }
    ensures { result.now ≡ field_at layout.now field }
{
    &layout.fields[field as usize]
}

/// The number in a field of a word: `v / 2 ^ low` modulo `2 ^ width`.
pub fn field_of(layout: &BitLayout, field: u32, v: i128) -> i128
    requires layout { IsLayout layout.now }
    requires field { field < length layout.now.fields }
    requires word { IsTrue (in_range layout.now.word v) }
    ensures { result ≡ field_of layout.now field v }
{
    let bits = field_at(layout, field);
    part(bits.low, bits.width, v)
}

/// The word `v` with the number `x` in a field, and all other bits as they are.
///
/// Errors: `TooWide` where `x` is at least 2 to the field's width.
pub fn with_field(layout: &BitLayout, field: u32, v: i128, x: i128) -> Result<i128, TooWide>
    requires layout { IsLayout layout.now }
    requires field { field < length layout.now.fields }
    requires word { IsTrue (in_range layout.now.word v) }
    requires number { pos 0 ≤ℤ x }
    ensures exact { result ≡ changed layout.now field v x }
    ensures kept { IfOk result (λ r. HasPart (field_at layout.now field).low (field_at layout.now field).width v x r) }
    ensures in_range { IfOk result (λ r. IsTrue (in_range layout.now.word r)) }
{
    let bits = field_at(layout, field);
    if has_room(bits.width, x) {
        Ok(with_part(bits.low, bits.width, v, x))
    } else {
        Err(TooWide {
            width: bits.width,
            x,
        })
    }
}
