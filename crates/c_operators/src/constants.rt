//! The values of constants (C99 6.4.4.1).

ghost use Rattle.std.specs.Prelude.{◌≡◌, ◌∷◌, [], pos};
ghost use Rattle.iv_words.specs.Kinds.{in_range_of};
ghost use Rattle.c_ast.specs.Conversions.{first_of_types};
ghost use Rattle.c_ast.specs.Conversions as conversions;
ghost use Rattle.c_ast.specs.Targets.{table_of, arith_bits, arith_signed};
ghost use Rattle.c_meaning.specs.Values as meaning;
ghost use Rattle.c_operators.specs.Values.{value_of, Gives, Never};

use crate::types::kind_of;
use crate::values::{Trouble, Value};
use c_ast::{Arith, CKind, Suffix, Target};
use int_ops::fits;

fn holds(t: Target, c: Arith, v: u64) -> bool
    ensures { result ≡ in_range_of (arith_bits (table_of t) c) (arith_signed c) (pos v) }
{
    fits(kind_of(t, c), i128::from(v))
}

fn first_of(t: Target, first: Arith, second: Arith, third: Arith, v: u64) -> Option<Arith>
    ensures { result ≡ first_of_types (table_of t) (first ∷ second ∷ third ∷ []) (pos v) }
{
    if holds(t, first, v) {
        return Some(first);
    }
    if holds(t, second, v) {
        return Some(second);
    }
    if holds(t, third, v) {
        return Some(third);
    }
    None
}

fn only(t: Target, c: Arith, v: u64) -> Option<Arith>
    ensures { result ≡ first_of_types (table_of t) (c ∷ []) (pos v) }
{
    if holds(t, c, v) { Some(c) } else { None }
}

fn constant_type(t: Target, suffix: Suffix, v: u64) -> Option<Arith>
    ensures { result ≡ conversions.constant_type t suffix v }
{
    match suffix {
        Suffix::Plain => first_of(t, Arith::Int, Arith::Long, Arith::LongLong, v),
        Suffix::U => first_of(t, Arith::UInt, Arith::ULong, Arith::ULongLong, v),
        Suffix::Ll => only(t, Arith::LongLong, v),
        Suffix::Ull => only(t, Arith::ULongLong, v),
    }
}

/// The value of a constant.
pub fn constant_value<'a>(t: Target, suffix: Suffix, v: u64) -> Result<Value<'a>, Trouble>
    ensures { Gives Never value_of (meaning.constant_value t suffix v) result }
{
    match constant_type(t, suffix, v) {
        Some(c) => Ok(Value::Num(CKind::Arith(c), i128::from(v))),
        None => Err(Trouble::Stuck),
    }
}
