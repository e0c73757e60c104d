//! Operators that compute or compare in the common type of their operands (C99 6.5.5, 6.5.6, 6.5.8 to 6.5.12).

ghost use Rattle.std.specs.Prelude.{◌≡◌, IsTrue, IfOk};
ghost use Rattle.iv_words.specs.Kinds as kinds;
ghost use Rattle.iv_words.specs.Kinds.{in_range_of};
ghost use Rattle.c_ast.specs.Targets.{table_of, arith_bits, arith_signed};
ghost use Rattle.c_meaning.specs.Operators as operators;
ghost use Rattle.c_meaning.specs.Values.{Num};
ghost use Rattle.c_operators.specs.Classes.{operator_of, comparison_of, in_type, computing, comparing};
ghost use Rattle.c_operators.specs.Values.{value_of, Gives, Never};

use crate::arithmetic::{difference, product, quotient, remainder, sum};
use crate::bitwise::{both, either, one_of_both};
use crate::classes::{Comparison, Usual};
use crate::on_one::{computed, truth};
use crate::types::{common_type, kind_of};
use crate::values::{Trouble, Value};
use c_ast::{Arith, CKind, Target, convert};
use iv_words::IntKind;
use run_records::Reason;

/// An operand, converted to the type in which C computes.
fn operand(t: Target, c: Arith, v: i128) -> Result<i128, Reason>
    ensures value { result ≡ operators.operand (table_of t) c v }
    ensures held { IfOk result (λ x. IsTrue (in_range_of (arith_bits (table_of t) c) (arith_signed c) x)) }
{
    match convert(t, CKind::Arith(c), v) {
        Some(x) => Ok(x),
        None => Err(Reason::Implementation),
    }
}

/// An operator that computes in the common type of its operands.
pub fn usual<'a>(t: Target, op: Usual, a: Value<'a>, b: Value<'a>) -> Result<Value<'a>, Trouble>
    ensures { Gives Never value_of (operators.usual (table_of t) (operator_of op) (value_of a.entry) (value_of b.entry)) result }
{
    match a {
        Value::Ptr(_, _, _) => Err(Trouble::Stuck),
        Value::Num(k, x) => match b {
            Value::Ptr(_, _, _) => Err(Trouble::Stuck),
            Value::Num(l, y) => usual_of(t, op, k, l, x, y),
        },
    }
}

fn usual_of<'a>(
    t: Target,
    op: Usual,
    k: CKind,
    l: CKind,
    a: i128,
    b: i128,
) -> Result<Value<'a>, Trouble>
    ensures { Gives Never value_of (operators.usual (table_of t) (operator_of op) (Num k a) (Num l b)) result }
{
    usual_in(t, op, common_type(t, k, l), a, b)
}

fn usual_in<'a>(t: Target, op: Usual, c: Arith, a: i128, b: i128) -> Result<Value<'a>, Trouble>
    ensures { Gives Never value_of (in_type (table_of t) c (computing (table_of t) op) a b) result }
{
    match operand(t, c, a) {
        Err(reason) => Err(Trouble::Undefined(reason)),
        Ok(x) => match operand(t, c, b) {
            Err(reason) => Err(Trouble::Undefined(reason)),
            Ok(y) => computed(c, operate(op, kind_of(t, c), x, y)),
        },
    }
}

/// A comparison in the common type of its operands.
pub fn compared<'a>(
    t: Target,
    op: Comparison,
    a: Value<'a>,
    b: Value<'a>,
) -> Result<Value<'a>, Trouble>
    ensures { Gives Never value_of (operators.compared (table_of t) (comparison_of op) (value_of a.entry) (value_of b.entry)) result }
{
    match a {
        Value::Ptr(_, _, _) => Err(Trouble::Stuck),
        Value::Num(k, x) => match b {
            Value::Ptr(_, _, _) => Err(Trouble::Stuck),
            Value::Num(l, y) => compared_of(t, op, k, l, x, y),
        },
    }
}

fn compared_of<'a>(
    t: Target,
    op: Comparison,
    k: CKind,
    l: CKind,
    a: i128,
    b: i128,
) -> Result<Value<'a>, Trouble>
    ensures { Gives Never value_of (operators.compared (table_of t) (comparison_of op) (Num k a) (Num l b)) result }
{
    compared_in(t, op, common_type(t, k, l), a, b)
}

fn compared_in<'a>(
    t: Target,
    op: Comparison,
    c: Arith,
    a: i128,
    b: i128,
) -> Result<Value<'a>, Trouble>
    ensures { Gives Never value_of (in_type (table_of t) c (comparing op) a b) result }
{
    match operand(t, c, a) {
        Err(reason) => Err(Trouble::Undefined(reason)),
        Ok(x) => match operand(t, c, b) {
            Err(reason) => Err(Trouble::Undefined(reason)),
            Ok(y) => Ok(truth(compare(op, x, y))),
        },
    }
}

/// An operator on numbers of one type.
fn operate(op: Usual, kind: IntKind, a: i128, b: i128) -> Result<i128, Reason>
    requires left { IsTrue (kinds.in_range kind a) }
    requires right { IsTrue (kinds.in_range kind b) }
    ensures { result ≡ operator_of op (kinds.width kind) (kinds.is_signed kind) a b }
{
    match op {
        Usual::Add => sum(kind, a, b),
        Usual::Sub => difference(kind, a, b),
        Usual::Mul => product(kind, a, b),
        Usual::Div => quotient(kind, a, b),
        Usual::Rem => remainder(kind, a, b),
        Usual::And => Ok(both(kind, a, b)),
        Usual::Or => Ok(either(kind, a, b)),
        Usual::Xor => Ok(one_of_both(kind, a, b)),
    }
}

/// Whether a comparison holds.
fn compare(op: Comparison, a: i128, b: i128) -> bool
    ensures { result ≡ comparison_of op a b }
{
    match op {
        Comparison::Eq => a == b,
        Comparison::Ne => a != b,
        Comparison::Lt => a < b,
        Comparison::Le => a <= b,
        Comparison::Gt => a > b,
        Comparison::Ge => a >= b,
    }
}
