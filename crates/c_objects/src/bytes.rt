//! Whole numbers in bytes (C99 6.2.6.2).

ghost use Rattle.std.specs.Prelude.{◌≡◌, ◌+◌, ◌*◌, ◌^◌, ◌<◌, ◌≤◌, pos, map, length, IfSome, slice_set};
ghost use Rattle.std.specs.Option.{option_map};
ghost use Rattle.c_memory.specs.Bytes as memory;
ghost use Rattle.c_memory.specs.Codecs.{all_numbers, digits, digits_value, stored, number, decode_number, numbers};
ghost use Rattle.c_memory.specs.Seen.{over, with_scalar};
ghost use Rattle.c_ast.specs.Conversions.{kind_signed};
ghost use Rattle.c_ast.specs.declared.CKind.TheVariants.{Scalar};
ghost use Rattle.c_ast.specs.Scalars.{scalar_bytes};
ghost use Rattle.c_ast.specs.Targets.{table_of};
ghost use Rattle.c_meaning.specs.Memory.{scalar_table};
ghost use Rattle.c_objects.specs.Bytes.{byte_of, as_number};

use crate::layout::width;
use c_ast::{CScalar, Target};
use iv_words::IntKind;

/// A byte of an object: indeterminate, or a number.
#[derive(Clone, Copy, Drop)]
pub enum Byte {
    Unset,
    Number(u8),
}

fn is_signed(s: CScalar) -> bool
    ensures { result ≡ kind_signed (Scalar s) }
{
    match s {
        CScalar::Truth => false,
        CScalar::Int(IntKind::U8 | IntKind::U16 | IntKind::U32 | IntKind::U64) => false,
        CScalar::Int(IntKind::I8 | IntKind::I16 | IntKind::I32 | IntKind::I64) => true,
    }
}

/// How many numbers the bytes of a scalar tell apart.
fn numbers_of(s: CScalar) -> i128
    ensures { result ≡ pos (256 ^ scalar_bytes s) }
{
    match s {
        CScalar::Truth => 256,
        CScalar::Int(IntKind::U8 | IntKind::I8) => 256,
        CScalar::Int(IntKind::U16 | IntKind::I16) => 65_536,
        CScalar::Int(IntKind::U32 | IntKind::I32) => 4_294_967_296,
        CScalar::Int(IntKind::U64 | IntKind::I64) => 18_446_744_073_709_551_616,
    }
}

/// The number whose digits in base 256 the bytes are, the lowest first; none where one is indeterminate.
fn number_in(bytes: &[Byte]) -> Option<u64>
    requires { length bytes.now ≤ 8 }
    ensures value { result ≡ option_map digits_value (all_numbers (map byte_of bytes.now)) }
    ensures within { IfSome result (λ v. v < 256 ^ length bytes.now) }
{
    match bytes.split_first() {
        None => Some(0),
        Some((Byte::Unset, _)) => None,
        Some((Byte::Number(n), rest)) => match number_in(rest) {
            None => None,
            Some(v) => Some(u64::from(*n) + 256 * v),
        },
    }
}

/// A number of 64 bits as that of a scalar in two's complement.
#[tactic(auto, unfolding(c_memory::specs::Codecs::signed_value))]
fn with_sign(s: CScalar, n: u64) -> i128
    ensures { result ≡ number (kind_signed (Scalar s)) (scalar_bytes s) n }
{
    let n = i128::from(n);
    if is_signed(s) && numbers_of(s) <= n + n {
        n - numbers_of(s)
    } else {
        n
    }
}

/// The value of a scalar that is made of these bytes; none where one is indeterminate.
pub fn decode(t: Target, s: CScalar, bytes: &[Byte]) -> Option<i128>
    requires { length bytes.now ≤ 8 }
    ensures { result ≡ decode_number (scalar_table (table_of t)) s (map byte_of bytes.now) }
{
    match t {
        Target::T32 => match number_in(bytes) {
            None => None,
            Some(n) => Some(with_sign(s, n)),
        },
    }
}

/// The number whose digits are stored for a value.
#[tactic(auto, unfolding(c_memory::specs::Codecs::stored))]
fn stored_number(s: CScalar, v: i128) -> i128
    ensures { result ≡ pos (stored (scalar_bytes s) v) }
{
    if v < 0 { (numbers_of(s) + v).max(0) } else { v }
}

fn put_byte(bytes: &mut [Byte], at: usize, n: u8)
    ensures { map byte_of bytes.new ≡ slice_set (map byte_of bytes.old) at (memory.Number n) }
{
    if at < bytes.len() {
        bytes[at] = Byte::Number(n);
    }
}

fn put_digits(bytes: &mut [Byte], at: usize, many: usize, n: u128)
    requires { at + many < 2 ^ 64 }
    ensures { map byte_of bytes.new ≡ over at (map as_number (digits many n)) (map byte_of bytes.old) }
{
    let mut rest = n;
    for i in 0..many {
        put_byte(bytes, at + i, (rest % 256) as u8);
        rest /= 256;
    }
}

/// Writes a value into a scalar. Bytes behind the last are dropped.
pub fn encode(t: Target, s: CScalar, at: usize, v: i128, bytes: &mut [Byte])
    ensures { map byte_of bytes.new ≡ with_scalar (numbers (scalar_table (table_of t))) (map byte_of bytes.old) (at, s) v }
{
    match t {
        Target::T32 => {
            if at < bytes.len() {
                put_digits(bytes, at, width(s) as usize, stored_number(s, v) as u128);
            }
        }
    }
}
