//! What the forms do behind the values of their operands: checks, a step, and the answer.

ghost use Rattle.std.specs.Prelude.{◌≡◌, not};
ghost use Rattle.step_semantics.specs.Steps.{give, tick};
ghost use Rattle.int_ops.specs.Operators.{truth};
ghost use Rattle.bit_data.specs.Layouts.{IsLayout};
ghost use Rattle.core_meaning.specs.Checks.{on_truth};
ghost use Rattle.core_meaning.specs.Values.{Num};
ghost use Rattle.core_state.specs.State.{value_of};
ghost use Rattle.core_expressions.specs.Forms.{binary_answer};
ghost use Rattle.core_expressions.specs.Operands.{number_in, truth_in, on_one, on_both, set_by, Chosen, Decides};
ghost use Rattle.core_expressions.specs.Scopes.{core_in, Gives, Behind};

use crate::answers::{Binary, Unary, answering, formless, number};
use crate::fields::with_field;
use crate::scope::Scope;
use bit_data::BitLayout;
use core_state::Value;
use core_tree::Check;
use run_world::{Stopped, World};

/// The number that a value is, where it is no reference.
pub(crate) fn number_in(x: &Value) -> Option<i128>
    ensures { result ≡ number_in (value_of x.now) }
{
    match x {
        Value::Num(v) => Some(*v),
        Value::Ref(_, _) => None,
    }
}

/// The truth that a value stands for, where it is no reference.
fn truth_in(x: &Value) -> Option<bool>
    ensures { result ≡ truth_in (value_of x.now) }
{
    match x {
        Value::Num(v) => Some(*v != 0),
        Value::Ref(_, _) => None,
    }
}

/// The truth that a value stands for, and a step.
pub(crate) fn chosen(world: &mut World, x: &Value) -> Result<bool, Stopped>
    ensures { Chosen (value_of x.now) result world.old world.new }
{
    let Some(holds) = truth_in(x) else {
        return Err(formless());
    };
    world.tick()?;
    Ok(holds)
}

/// The truth of an operand, and a step.
pub(crate) fn decided(world: &mut World, x: Result<Value, Stopped>) -> Result<bool, Stopped>
    ensures { Decides x world.old result world.new }
{
    let x = x?;
    chosen(world, &x)
}

/// A form on one number.
pub(crate) fn answered(
    scope: &Scope,
    world: &mut World,
    form: Unary,
    checks: &[Check],
    x: &Value,
) -> Result<Value, Stopped>
    ensures { Gives scope.now value_of (on_one (core_in scope.now) checks.now form (value_of x.now)) world.old result world.new }
{
    let Some(a) = number_in(x) else {
        return Err(formless());
    };
    let answer = form.answer(a)?;
    answering(scope, world, checks, &answer)
}

/// An operator on two numbers.
pub(crate) fn operated(
    scope: &Scope,
    world: &mut World,
    form: Binary,
    checks: &[Check],
    x: &Value,
    y: &Value,
) -> Result<Value, Stopped>
    ensures { Gives scope.now value_of (on_both (core_in scope.now) checks.now (binary_answer form) (value_of x.now) (value_of y.now)) world.old result world.new }
{
    let Some(a) = number_in(x) else {
        return Err(formless());
    };
    let Some(b) = number_in(y) else {
        return Err(formless());
    };
    let answer = form.answer(a, b)?;
    answering(scope, world, checks, &answer)
}

/// The word with the number in the field, where that has room for it.
fn changed(
    scope: &Scope,
    world: &mut World,
    layout: &BitLayout,
    field: u32,
    checks: &[Check],
    x: &Value,
    y: &Value,
) -> Result<Value, Stopped>
    requires { IsLayout layout.now }
    ensures { Gives scope.now value_of (on_both (core_in scope.now) checks.now (set_by layout.now field) (value_of x.now) (value_of y.now)) world.old result world.new }
{
    let Some(a) = number_in(x) else {
        return Err(formless());
    };
    let Some(b) = number_in(y) else {
        return Err(formless());
    };
    let answer = with_field(layout, field, a, b)?;
    answering(scope, world, checks, &answer)
}

/// `set(b, f, x)`, once the word is there.
pub(crate) fn set_in(
    scope: &Scope,
    world: &mut World,
    layout: &BitLayout,
    field: u32,
    checks: &[Check],
    word: Value,
    number: Result<Value, Stopped>,
) -> Result<Value, Stopped>
    requires { IsLayout layout.now }
    ensures { Behind scope.now number world.old (on_both (core_in scope.now) checks.now (set_by layout.now field) (value_of word)) result world.new }
{
    let number = number?;
    changed(scope, world, layout, field, checks, &word, &number)
}

/// `!e`.
pub(crate) fn negated(scope: &Scope, world: &mut World, x: &Value) -> Result<Value, Stopped>
    ensures { Gives scope.now value_of (on_truth (core_in scope.now) (value_of x.now) (λ holds. tick (give (Num (truth (not holds)))))) world.old result world.new }
{
    let Some(holds) = truth_in(x) else {
        return Err(formless());
    };
    number(scope, world, i128::from(!holds))
}
