//! Integer promotions, usual arithmetic conversions, and conversions of numbers.

ghost use Rattle.std.specs.Prelude.{◌≡◌, ◌≤◌, ◌^◌, is_none, pos};
ghost use Rattle.iv_words.specs.Kinds.{in_range_of, least_of, greatest_of};
ghost use Rattle.c_ast.specs.Conversions as conversions;
ghost use Rattle.c_ast.specs.Targets as targets;

use crate::target::{is_signed, width};
use crate::types::{Arith, CKind, CScalar, Target};

/// The type to which an operator promotes a value of a scalar type (C99 6.3.1.1): `int` where that represents all values of
/// a type of lesser rank, else `unsigned int`; a type of no lesser rank stays.
pub fn promote(t: Target, s: CScalar) -> Arith
    ensures { result ≡ targets.promote t s }
{
    match s {
        CScalar::Truth => promote_small(t, 1, false),
        CScalar::Int(kind) => match t.exact(kind) {
            Some(a) => a,
            None => promote_small(t, width(kind), is_signed(kind)),
        },
    }
}

fn promote_small(t: Target, bits: u32, signed: bool) -> Arith
    requires some { 1 ≤ bits }
    requires most { bits ≤ 64 }
    ensures { result ≡ targets.promote_small (targets.table_of t) bits signed }
{
    if represents(t.int_bits(), true, bits, signed) {
        Arith::Int
    } else {
        Arith::UInt
    }
}

/// The common type of two promoted types, in which an operator computes (C99 6.3.1.8).
pub fn common(t: Target, a: Arith, b: Arith) -> Arith
    ensures { result ≡ targets.common t a b }
{
    match (a.is_signed(), b.is_signed()) {
        (true, true) | (false, false) => common_alike(a, b),
        (false, true) => common_mixed(t, a, b),
        (true, false) => common_mixed(t, b, a),
    }
}

/// Of two types that both have a sign or both have none: the one of greater rank.
fn common_alike(a: Arith, b: Arith) -> Arith
    ensures { result ≡ targets.common_alike a b }
{
    if a.rank() < b.rank() { b } else { a }
}

fn common_mixed(t: Target, unsigned: Arith, signed: Arith) -> Arith
    ensures { result ≡ targets.common_mixed (targets.table_of t) unsigned signed }
{
    if signed.rank() <= unsigned.rank() {
        unsigned
    } else if represents(t.arith_bits(signed), true, t.arith_bits(unsigned), false) {
        signed
    } else {
        signed.unsigned()
    }
}

/// A number converted to a type: to `bool` 0 for 0 and 1 for all else (C99 6.3.1.2), to an unsigned type modulo a power of two,
/// and to a signed type as it is (6.3.1.3).
///
/// None exactly where the type is signed and cannot hold the number: there the implementation decides.
pub fn convert(t: Target, to: CKind, v: i128) -> Option<i128>
    ensures value { result ≡ conversions.convert t to v }
    ensures none { is_none result ≡ conversions.is_lost (targets.table_of t) to v }
{
    match to {
        CKind::Scalar(CScalar::Truth) => Some(i128::from(v != 0)),
        CKind::Scalar(CScalar::Int(kind)) => converted(width(kind), is_signed(kind), v),
        CKind::Arith(a) => converted(t.arith_bits(a), a.is_signed(), v),
    }
}

fn converted(bits: u32, signed: bool, v: i128) -> Option<i128>
    requires some { 1 ≤ bits }
    requires most { bits ≤ 64 }
    ensures { result ≡ conversions.converted bits signed v }
{
    if !signed {
        Some(v.rem_euclid(power_of_two(bits)))
    } else if in_range(bits, true, v) {
        Some(v)
    } else {
        None
    }
}

/// Whether a type of so many bits has all values of one of other bits.
fn represents(bits: u32, signed: bool, other_bits: u32, other_signed: bool) -> bool
    requires some { 1 ≤ bits }
    requires most { bits ≤ 64 }
    requires other_some { 1 ≤ other_bits }
    requires other_most { other_bits ≤ 64 }
    ensures { result ≡ targets.represents bits signed other_bits other_signed }
{
    in_range(bits, signed, least(other_bits, other_signed))
        && in_range(bits, signed, greatest(other_bits, other_signed))
}

fn in_range(bits: u32, signed: bool, v: i128) -> bool
    requires some { 1 ≤ bits }
    requires most { bits ≤ 64 }
    ensures { result ≡ in_range_of bits signed v }
{
    least(bits, signed) <= v && v <= greatest(bits, signed)
}

fn least(bits: u32, signed: bool) -> i128
    requires some { 1 ≤ bits }
    requires most { bits ≤ 64 }
    ensures { result ≡ least_of bits signed }
{
    if signed { -power_of_two(bits - 1) } else { 0 }
}

fn greatest(bits: u32, signed: bool) -> i128
    requires some { 1 ≤ bits }
    requires most { bits ≤ 64 }
    ensures { result ≡ greatest_of bits signed }
{
    if signed {
        power_of_two(bits - 1) - 1
    } else {
        power_of_two(bits) - 1
    }
}

fn power_of_two(bits: u32) -> i128
    requires { bits ≤ 64 }
    ensures value { result ≡ pos (2 ^ bits) }
    ensures some { 1 ≤ 2 ^ bits }
    ensures most { 2 ^ bits ≤ 2 ^ 64 }
{
    1i128 << bits
}
