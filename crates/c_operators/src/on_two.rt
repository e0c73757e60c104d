//! What the operators on two values give (C99 6.5.5 to 6.5.14).

ghost use Rattle.std.specs.Prelude.{Ok};
ghost use Rattle.c_ast.specs.declared.CBinary.TheVariants.{AndAlso, OrElse};
ghost use Rattle.c_ast.specs.Targets.{table_of};
ghost use Rattle.c_meaning.specs.Operators as operators;
ghost use Rattle.c_operators.specs.Classes.{by_class, both_tested, either_tested};
ghost use Rattle.c_operators.specs.Values.{value_of, Gives, Never, Decides};

use crate::alike::{compared, usual};
use crate::classes::{Class, class_of};
use crate::on_one::{tested, truth};
use crate::shifts::shifted;
use crate::values::{Trouble, Value};
use c_ast::{CBinary, Target};

/// What the left operand decides, whatever the right one comes to: none where the right one is evaluated.
pub fn decided<'a>(op: CBinary, a: Value<'a>) -> Result<Option<Value<'a>>, Trouble>
    ensures { Decides op (value_of a.entry) result }
{
    match op {
        CBinary::AndAlso => false_decides(a),
        CBinary::OrElse => true_decides(a),
        _ => Ok(None),
    }
}

fn false_decides<'a>(a: Value<'a>) -> Result<Option<Value<'a>>, Trouble>
    ensures { Decides AndAlso (value_of a.entry) result }
{
    match a {
        Value::Ptr(_, _, _) => Err(Trouble::Stuck),
        Value::Num(_, n) => Ok(if n == 0 { Some(truth(false)) } else { None }),
    }
}

fn true_decides<'a>(a: Value<'a>) -> Result<Option<Value<'a>>, Trouble>
    ensures { Decides OrElse (value_of a.entry) result }
{
    match a {
        Value::Ptr(_, _, _) => Err(Trouble::Stuck),
        Value::Num(_, n) => Ok(if n == 0 { None } else { Some(truth(true)) }),
    }
}

/// What an operator gives on the values of its operands.
pub fn binary<'a>(t: Target, op: CBinary, a: Value<'a>, b: Value<'a>) -> Result<Value<'a>, Trouble>
    ensures { Gives Never value_of (operators.binary (table_of t) op (value_of a.entry) (Ok (value_of b.entry))) result }
{
    of_class(t, class_of(op), a, b)
}

fn of_class<'a>(t: Target, class: Class, a: Value<'a>, b: Value<'a>) -> Result<Value<'a>, Trouble>
    ensures { Gives Never value_of (by_class class (table_of t) (value_of a.entry) (value_of b.entry)) result }
{
    match class {
        Class::Computes(op) => usual(t, op, a, b),
        Class::Compares(op) => compared(t, op, a, b),
        Class::Shifts(op) => shifted(t, op, a, b),
        Class::AsksBoth => both_tested(a, b),
        Class::AsksEither => either_tested(a, b),
    }
}

/// Whether both values are true, as an int.
fn both_tested<'a>(a: Value<'a>, b: Value<'a>) -> Result<Value<'a>, Trouble>
    ensures { Gives Never value_of (both_tested (value_of a.entry) (value_of b.entry)) result }
{
    match a {
        Value::Ptr(_, _, _) => Err(Trouble::Stuck),
        Value::Num(_, n) => if n == 0 { Ok(truth(false)) } else { tested(b) },
    }
}

/// Whether one of the values is true, as an int.
fn either_tested<'a>(a: Value<'a>, b: Value<'a>) -> Result<Value<'a>, Trouble>
    ensures { Gives Never value_of (either_tested (value_of a.entry) (value_of b.entry)) result }
{
    match a {
        Value::Ptr(_, _, _) => Err(Trouble::Stuck),
        Value::Num(_, n) => if n == 0 { tested(b) } else { Ok(truth(true)) },
    }
}
