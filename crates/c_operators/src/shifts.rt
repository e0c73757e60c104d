//! Shifts (C99 6.5.7).

ghost use Rattle.std.specs.Prelude.{◌≡◌, ◌<◌, MatchOption, pos, true};
ghost use Rattle.iv_words.specs.Kinds as kinds;
ghost use Rattle.c_ast.specs.Targets.{table_of};
ghost use Rattle.c_meaning.specs.Operators as operators;
ghost use Rattle.c_operators.specs.Classes.{shift_of, is_out_of_width};
ghost use Rattle.c_operators.specs.Values.{value_of, Gives, Never};

use crate::arithmetic::{shifted_left, shifted_right};
use crate::classes::Direction;
use crate::on_one::computed;
use crate::types::{kind_of, promoted, width};
use crate::values::{Trouble, Value};
use c_ast::{Arith, Target};
use iv_words::IntKind;
use run_records::Reason;

/// A shift of the left operand, in its promoted type.
pub fn shifted<'a>(
    t: Target,
    op: Direction,
    a: Value<'a>,
    b: Value<'a>,
) -> Result<Value<'a>, Trouble>
    ensures { Gives Never value_of (operators.shifted (table_of t) (shift_of op) (value_of a.entry) (value_of b.entry)) result }
{
    match a {
        Value::Ptr(_, _, _) => Err(Trouble::Stuck),
        Value::Num(k, x) => match b {
            Value::Ptr(_, _, _) => Err(Trouble::Stuck),
            Value::Num(_, y) => shifted_at(t, op, promoted(t, k), x, y),
        },
    }
}

fn shifted_at<'a>(
    t: Target,
    op: Direction,
    c: Arith,
    a: i128,
    b: i128,
) -> Result<Value<'a>, Trouble>
    ensures { Gives Never value_of (operators.shifted_at (table_of t) (shift_of op) c a b) result }
{
    let kind = kind_of(t, c);
    match amount(kind, b) {
        Some(few) => computed(c, shift(op, kind, a, few)),
        None => Err(Trouble::Undefined(Reason::Shift)),
    }
}

/// The number as an amount by which a kind can shift: from 0 to the width - 1.
fn amount(kind: IntKind, b: i128) -> Option<u32>
    ensures { MatchOption result (is_out_of_width (kinds.width kind) b ≡ true) (λ few. (b ≡ pos few) × (few < kinds.width kind)) }
{
    if b < 0 || i128::from(width(kind)) <= b {
        None
    } else {
        Some(b as u32)
    }
}

/// A shift by an amount below the width.
fn shift(op: Direction, kind: IntKind, a: i128, few: u32) -> Result<i128, Reason>
    requires { few < kinds.width kind }
    ensures { result ≡ shift_of op (kinds.width kind) (kinds.is_signed kind) a (pos few) }
{
    match op {
        Direction::Left => shifted_left(kind, a, few),
        Direction::Right => shifted_right(kind, a, few),
    }
}
