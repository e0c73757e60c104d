//! Assignments to scalars.

ghost use Rattle.std.specs.Prelude.{◌≡◌};
ghost use Rattle.c_meaning.specs.Initializers as initializers;
ghost use Rattle.c_meaning.specs.Places as places;
ghost use Rattle.c_meaning.specs.Statements as meaning;
ghost use Rattle.c_objects.specs.Shapes.{type_tree};
ghost use Rattle.c_operators.specs.Values.{value_of, address_of, itself, Gives};
ghost use Rattle.c_expressions.specs.Places.{lvalue_of, Excused};
ghost use Rattle.c_expressions.specs.Programs.{program_of};
ghost use Rattle.c_expressions.specs.State.{state_of};
ghost use Rattle.c_statements.specs.Parts.{control_of, Does, Alters};
ghost use Rattle.c_statements.specs.Stores.{leaf_of, scalar_stored};

use crate::parts::{Control, Run};
use crate::trouble::{answered, given, reason_of};
use c_ast::{CKind, CScalar, Target};
use c_expressions::{Lvalue, Program, State};
use c_objects::{ObjectType, Shape};
use c_operators::{Address, Trouble, Value, as_kind};
use run_world::Stopped;

/// The scalar that a type is, if it is one.
fn scalar_of(ty: ObjectType) -> Option<CScalar>
    ensures { result ≡ leaf_of (type_tree ty.entry) }
{
    match ty {
        ObjectType::Scalar(s) => Some(s),
        ObjectType::Missing(_) => None,
        ObjectType::Shaped(shape) => match shape {
            Shape::Leaf(s) => Some(*s),
            Shape::Many(_, _) | Shape::Struct(_, _) => None,
        },
    }
}

/// The number that is put into a scalar.
pub fn as_number(t: Target, s: CScalar, v: Value) -> Result<i128, Trouble>
    ensures { Gives Excused itself (initializers.as_number t s (value_of v.entry)) result }
{
    match as_kind(t, CKind::Scalar(s), v)? {
        Value::Num(_, n) => Ok(n),
        Value::Ptr(_, _, _) => Err(Trouble::Stuck),
    }
}

/// What may not be written is known before the value is converted.
fn store_scalar<'a>(
    t: Target,
    state: &mut State<'a>,
    to: Address,
    s: CScalar,
    v: Value<'a>,
) -> Result<(), Trouble>
    ensures { Alters (scalar_stored t (state_of state.old) (address_of to) s (value_of v.entry)) (state_of state.old) (state_of state.new) result }
{
    match state.objects.refuses(t, to.object, to.offset, s) {
        Err(_) => return Err(Trouble::Memory),
        Ok(Some(fault)) => return Err(Trouble::Undefined(reason_of(fault))),
        Ok(None) => {}
    }
    let n = as_number(t, s, v)?;
    answered(state.objects.write(t, to.object, to.offset, s, n))
}

fn store<'a>(
    t: Target,
    state: &mut State<'a>,
    place: Lvalue<'a>,
    v: Value<'a>,
) -> Result<(), Trouble>
    ensures { Alters (meaning.stored t (state_of state.old) (lvalue_of place.entry) (value_of v.entry)) (state_of state.old) (state_of state.new) result }
{
    match place {
        Lvalue::Known(_) => Err(Trouble::Stuck),
        Lvalue::Located(_, to, ty) => match scalar_of(ty) {
            Some(s) => store_scalar(t, state, to, s, v),
            None => Err(Trouble::Stuck),
        },
    }
}

/// An assignment to the scalar at a place.
pub fn assign<'a>(
    program: &'a Program,
    run: &mut Run<'a>,
    place: Lvalue<'a>,
    v: Value<'a>,
) -> Result<Control<'a>, Stopped>
    ensures { Does program.now control_of (meaning.assign (program_of program.now) (lvalue_of place.entry) (value_of v.entry)) run.old run.new result }
{
    given(store(program.target(), &mut run.state, place, v))?;
    Ok(Control::Falls)
}
