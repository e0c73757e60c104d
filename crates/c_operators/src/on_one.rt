//! Truth of values, and what the operators on one value give (C99 6.5.3.3).

ghost use Rattle.std.specs.Prelude.{◌≡◌, neg_ℤ, pos, ◌-ℤ◌, ◌^◌, int_lt, IsTrue, Ok};
ghost use Rattle.c_ast.specs.Targets.{table_of, arith_bits, arith_signed};
ghost use Rattle.c_meaning.specs.Operators as operators;
ghost use Rattle.c_meaning.specs.Values as meaning;
ghost use Rattle.c_operators.specs.Values.{value_of, itself, Gives, Never, IsBelowAllTypes};

use crate::arithmetic::{flipped, negated};
use crate::types::{kind_of, promoted};
use crate::values::{Trouble, Value};
use c_ast::{Arith, CKind, CUnary, Target};
use run_records::Reason;

/// Whether a number is other than 0; of pointers nothing asks that.
pub fn is_true(v: Value) -> Result<bool, Trouble>
    ensures { Gives Never itself (meaning.is_true (value_of v.entry)) result }
{
    match v {
        Value::Num(_, n) => Ok(n != 0),
        Value::Ptr(_, _, _) => Err(Trouble::Stuck),
    }
}

/// The int that comparisons and `!`, `&&` and `||` give.
pub fn truth<'a>(holds: bool) -> Value<'a>
    ensures { value_of result ≡ operators.truth holds }
{
    Value::Num(CKind::Arith(Arith::Int), i128::from(holds))
}

/// Whether a value is true, as an int.
pub fn tested<'a>(v: Value<'a>) -> Result<Value<'a>, Trouble>
    ensures { Gives Never value_of (operators.tested (value_of v.entry)) result }
{
    match v {
        Value::Num(_, n) => Ok(truth(n != 0)),
        Value::Ptr(_, _, _) => Err(Trouble::Stuck),
    }
}

/// A number of a type, where there is one.
pub(crate) fn computed<'a>(c: Arith, answer: Result<i128, Reason>) -> Result<Value<'a>, Trouble>
    ensures { Gives Never value_of (operators.computed c answer) result }
{
    match answer {
        Ok(v) => Ok(Value::Num(CKind::Arith(c), v)),
        Err(reason) => Err(Trouble::Undefined(reason)),
    }
}

/// What a unary operator gives. Of a number below all that a type holds there may be no memory for it.
pub fn unary<'a>(t: Target, op: CUnary, v: Value<'a>) -> Result<Value<'a>, Trouble>
    ensures { Gives (IsBelowAllTypes (value_of v.entry)) value_of (operators.unary (table_of t) op (value_of v.entry)) result }
{
    match v {
        Value::Ptr(_, _, _) => Err(Trouble::Stuck),
        Value::Num(k, n) => match op {
            CUnary::Neg => opposite(t, promoted(t, k), n),
            CUnary::Flip => flip(t, promoted(t, k), n),
            CUnary::Not => Ok(truth(n == 0)),
        },
    }
}

fn opposite<'a>(t: Target, c: Arith, n: i128) -> Result<Value<'a>, Trouble>
    ensures { Gives Never value_of (operators.computed c (operators.fitted (arith_bits (table_of t) c) (arith_signed c) (neg_ℤ n))) result }
{
    computed(c, negated(kind_of(t, c), n))
}

fn flip<'a>(t: Target, c: Arith, n: i128) -> Result<Value<'a>, Trouble>
    ensures { Gives (IsTrue (int_lt n (pos 0 -ℤ pos (2 ^ 64)))) value_of (operators.computed c (Ok (operators.flipped (arith_bits (table_of t) c) (arith_signed c) n))) result }
{
    match flipped(kind_of(t, c), n) {
        Some(v) => Ok(Value::Num(CKind::Arith(c), v)),
        None => Err(Trouble::Memory),
    }
}
