//! What names and references come to in a state, and how they are led on.

ghost use Rattle.std.specs.Prelude.{◌≡◌, [], Some};
ghost use Rattle.step_semantics.specs.Steps.{give, tick};
ghost use Rattle.area_types.specs.View.{type_of};
ghost use Rattle.core_meaning.specs.Checks.{on_some};
ghost use Rattle.core_meaning.specs.Expressions as meaning;
ghost use Rattle.core_meaning.specs.State as states;
ghost use Rattle.core_meaning.specs.Values.{Ref};
ghost use Rattle.core_state.specs.State.{value_of, state_of};
ghost use Rattle.core_expressions.specs.Operands.{leads, in_cell};
ghost use Rattle.core_expressions.specs.Scopes.{core_in, outcome_in, Gives, Finds};

use crate::answers::{formless, not_followed, number};
use crate::fields::field_in;
use crate::operands::number_in;
use crate::scope::Scope;
use area_types::ValueType;
use core_state::{Held, State, Value};
use iv_words::Seq;
use run_world::{Stopped, World};
use std::alloc::Global;

// ---- names

/// The procedure's result, where it is named.
pub(crate) fn outcome_of(alloc: Global, scope: &Scope) -> Result<Value, Stopped>
    ensures { Finds scope.now value_of (on_some (core_in scope.now) (outcome_in scope.now) give) result }
{
    match scope.outcome {
        Some(value) => Ok(value.copy(alloc)?),
        None => Err(formless()),
    }
}

/// Whether a value is no reference, or leads to a part of an area that is there.
fn leads(state: &State, value: &Value) -> bool
    ensures { result ≡ leads (state_of state.now).areas (value_of value.now) }
{
    match value {
        Value::Num(_) => true,
        Value::Ref(area, path) => state.type_at(*area, path.as_slice()).is_some(),
    }
}

/// The value of a name; a reference whose area is gone is lost.
fn found(scope: &Scope, value: Value) -> Result<Value, Stopped>
    ensures { Finds scope.now value_of (meaning.found (core_in scope.now) (state_of scope.now.state.now).areas (value_of value)) result }
{
    if leads(scope.state, &value) {
        Ok(value)
    } else {
        Err(formless())
    }
}

/// A name is read.
pub(crate) fn read_name(alloc: Global, scope: &Scope, name: usize) -> Result<Value, Stopped>
    ensures { Finds scope.now value_of (meaning.read_name (core_in scope.now) (states.value_of name)) result }
{
    let Some(value) = scope.state.value(name) else {
        return Err(formless());
    };
    let value = value.copy(alloc)?;
    found(scope, value)
}

/// The name of an area of the module is read.
pub(crate) fn read_area(alloc: Global, scope: &Scope, area: usize) -> Result<Value, Stopped>
    ensures { Finds scope.now value_of (meaning.read_name (core_in scope.now) (λ s. Some (Ref area []))) result }
{
    found(scope, Value::Ref(area, Seq::new(alloc)))
}

// ---- behind references

/// `*r`: the number in the cell.
pub(crate) fn cell(scope: &Scope, world: &mut World, x: &Value) -> Result<Value, Stopped>
    ensures { Gives scope.now value_of (in_cell (core_in scope.now) (value_of x.now)) world.old result world.new }
{
    let Value::Ref(area, path) = x else {
        return Err(formless());
    };
    let Some(held) = scope.state.held_at(*area, path.as_slice()) else {
        return Err(formless());
    };
    match held {
        Held::Cell(v) => number(scope, world, *v),
        Held::Parts(_) => Err(formless()),
    }
}

/// A step, and then the reference.
fn reference(
    scope: &Scope,
    world: &mut World,
    area: usize,
    path: Seq<u32>,
) -> Result<Value, Stopped>
    ensures { Gives scope.now value_of (tick (give (Ref area path))) world.old result world.new }
{
    world.tick()?;
    Ok(Value::Ref(area, path))
}

/// `.f`: the number in a field of bit data, or a reference to the field of a struct.
pub(crate) fn field_of(
    alloc: Global,
    scope: &Scope,
    world: &mut World,
    x: &Value,
    ty: &ValueType,
    field: u32,
) -> Result<Value, Stopped>
    ensures { Gives scope.now value_of (meaning.field_behind (core_in scope.now) (type_of ty.now) field (value_of x.now)) world.old result world.new }
{
    match x {
        Value::Num(word) => {
            let Some(layout) = scope.program.layout(ty) else {
                return Err(formless());
            };
            let v = field_in(layout, field, *word)?;
            number(scope, world, v)
        }
        Value::Ref(area, path) => {
            let mut path = path.copy(alloc)?;
            path.push(field)?;
            reference(scope, world, *area, path)
        }
    }
}

/// `r[e]`: a reference to an element.
pub(crate) fn element_of(
    alloc: Global,
    scope: &Scope,
    world: &mut World,
    x: &Value,
    y: &Value,
) -> Result<Value, Stopped>
    ensures { Gives scope.now value_of (meaning.element_behind (core_in scope.now) (value_of x.now) (value_of y.now)) world.old result world.new }
{
    let Value::Ref(area, path) = x else {
        return Err(formless());
    };
    let Some(i) = number_in(y) else {
        return Err(formless());
    };
    let Some(index) = index_types::to_index(u32::MAX, i) else {
        return Err(not_followed());
    };
    let mut path = path.copy(alloc)?;
    path.push(index)?;
    reference(scope, world, *area, path)
}
