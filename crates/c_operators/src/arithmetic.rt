//! Sums, products, quotients and shifts of numbers of one type (C99 6.5.5 to 6.5.7).

ghost use Rattle.std.specs.Prelude.{◌≡◌, ◌<◌, ◌≤◌, ◌^◌, ◌-ℤ◌, int_lt, neg_ℤ, pos, IsTrue, MatchOption};
ghost use Rattle.iv_words.specs.Bits.{modulo};
ghost use Rattle.iv_words.specs.Kinds.{in_range, is_signed, width};
ghost use Rattle.c_meaning.specs.Operators as operators;
ghost use Rattle.c_operators.specs.Reasons.{or_reason};

use crate::types::{is_signed, width};
use int_ops::{Op, Stop, apply, fits};
use iv_words::IntKind;
use run_records::Reason;

fn power_of_two(bits: u32) -> i128
    requires { bits ≤ 64 }
    ensures value { result ≡ pos (2 ^ bits) }
    ensures some { 1 ≤ 2 ^ bits }
    ensures most { 2 ^ bits ≤ 2 ^ 64 }
{
    1i128 << bits
}

pub fn modulo(kind: IntKind, v: i128) -> i128
    ensures { result ≡ modulo (width kind) v }
{
    v.rem_euclid(power_of_two(width(kind)))
}

/// A number of a type, or the reason for which C has none there.
fn or_reason(answer: Result<i128, Stop>) -> Result<i128, Reason>
    ensures { result ≡ or_reason answer }
{
    match answer {
        Ok(v) => Ok(v),
        Err(Stop::Overflow) => Err(Reason::SignedOverflow),
        Err(Stop::DivZero) => Err(Reason::DivZero),
        Err(Stop::Shift) => Err(Reason::Shift),
    }
}

pub fn fitted(kind: IntKind, v: i128) -> Result<i128, Reason>
    ensures { result ≡ operators.fitted (width kind) (is_signed kind) v }
{
    if !is_signed(kind) {
        Ok(modulo(kind, v))
    } else if fits(kind, v) {
        Ok(v)
    } else {
        Err(Reason::SignedOverflow)
    }
}

pub fn sum(kind: IntKind, a: i128, b: i128) -> Result<i128, Reason>
    requires left { IsTrue (in_range kind a) }
    requires right { IsTrue (in_range kind b) }
    ensures { result ≡ operators.sum (width kind) (is_signed kind) a b }
{
    if is_signed(kind) {
        return or_reason(apply(Op::Add, kind, a, b));
    }
    or_reason(apply(Op::WrapAdd, kind, a, b))
}

pub fn difference(kind: IntKind, a: i128, b: i128) -> Result<i128, Reason>
    requires left { IsTrue (in_range kind a) }
    requires right { IsTrue (in_range kind b) }
    ensures { result ≡ operators.difference (width kind) (is_signed kind) a b }
{
    if is_signed(kind) {
        return or_reason(apply(Op::Sub, kind, a, b));
    }
    or_reason(apply(Op::WrapSub, kind, a, b))
}

pub fn product(kind: IntKind, a: i128, b: i128) -> Result<i128, Reason>
    requires left { IsTrue (in_range kind a) }
    requires right { IsTrue (in_range kind b) }
    ensures { result ≡ operators.product (width kind) (is_signed kind) a b }
{
    if is_signed(kind) {
        return or_reason(apply(Op::Mul, kind, a, b));
    }
    or_reason(apply(Op::WrapMul, kind, a, b))
}

pub fn quotient(kind: IntKind, a: i128, b: i128) -> Result<i128, Reason>
    requires left { IsTrue (in_range kind a) }
    requires right { IsTrue (in_range kind b) }
    ensures { result ≡ operators.quotient (width kind) (is_signed kind) a b }
{
    or_reason(apply(Op::Div, kind, a, b))
}

pub fn remainder(kind: IntKind, a: i128, b: i128) -> Result<i128, Reason>
    requires left { IsTrue (in_range kind a) }
    requires right { IsTrue (in_range kind b) }
    ensures { result ≡ operators.remainder (width kind) (is_signed kind) a b }
{
    or_reason(apply(Op::Rem, kind, a, b))
}

/// A shift to the left by an amount below the width.
pub fn shifted_left(kind: IntKind, a: i128, b: u32) -> Result<i128, Reason>
    requires { b < width kind }
    ensures { result ≡ operators.shifted_left (width kind) (is_signed kind) a (pos b) }
{
    if !is_signed(kind) {
        return or_reason(apply(Op::Shl, kind, modulo(kind, a), i128::from(b)));
    }
    if a < 0 {
        return Err(Reason::SignedOverflow);
    }
    match a.checked_mul(power_of_two(b)) {
        Some(shifted) => fitted(kind, shifted),
        None => Err(Reason::SignedOverflow),
    }
}

/// A shift to the right by an amount below the width.
pub fn shifted_right(kind: IntKind, a: i128, b: u32) -> Result<i128, Reason>
    requires { b < width kind }
    ensures { result ≡ operators.shifted_right (width kind) (is_signed kind) a (pos b) }
{
    if a < 0 {
        return Err(Reason::Implementation);
    }
    Ok(a >> b)
}

/// The opposite of a number.
pub fn negated(kind: IntKind, v: i128) -> Result<i128, Reason>
    ensures { result ≡ operators.fitted (width kind) (is_signed kind) (neg_ℤ v) }
{
    if !is_signed(kind) {
        return Ok(modulo(kind, -modulo(kind, v)));
    }
    match v.checked_neg() {
        Some(opposite) => fitted(kind, opposite),
        None => Err(Reason::SignedOverflow),
    }
}

/// The number with each bit set where it was not; none only of a number below all that a kind has.
pub fn flipped(kind: IntKind, v: i128) -> Option<i128>
    ensures { MatchOption result (IsTrue (int_lt v (pos 0 -ℤ pos (2 ^ 64)))) (λ r. r ≡ operators.flipped (width kind) (is_signed kind) v) }
{
    if is_signed(kind) {
        return Some(-1 - v);
    }
    if v < -(1i128 << 64) {
        return None;
    }
    Some(power_of_two(width(kind)) - 1 - v)
}
