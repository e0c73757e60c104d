//! The objects of file scope, with their first values.

ghost use Rattle.c_ast.specs.View.{object_of};
ghost use Rattle.c_meaning.specs.Runs as meaning;
ghost use Rattle.c_meaning.specs.State.{at_rest};
ghost use Rattle.c_objects.specs.Store.{objects_of};
ghost use Rattle.c_operators.specs.Values.{Gives};
ghost use Rattle.c_expressions.specs.Places.{Excused};
ghost use Rattle.c_expressions.specs.Programs.{program_of};
ghost use Rattle.c_expressions.specs.State.{state_of};
ghost use Rattle.c_run.specs.Start.{Makes, made_by};

use c_ast::CObject;
use c_expressions::{Program, State};
use c_objects::Objects;
use c_operators::{Trouble, base_ref};
use c_statements::{eval_init, numbers_of, room};
use std::alloc::Global;

/// An object of file scope is made. In its initializer is no name.
fn make_object<'a>(
    alloc: Global,
    program: &'a Program,
    object: &'a CObject,
    objects: &mut Objects<'a>,
) -> Result<(), Trouble>
    ensures { Makes (made_by (program_of program.now) (object_of object.now) (objects_of objects.old)) (objects_of objects.new) result }
{
    let rest = State::at_rest(alloc);
    let values = eval_init(alloc, program, &rest, &object.init)?;
    let ty = program.type_of(base_ref(&object.base));
    let numbers = numbers_of(alloc, program.target(), ty, &values)?;
    room(objects.initialize(
        alloc,
        program.target(),
        ty,
        object.constant,
        numbers.as_slice(),
    ))
}

/// The state before the first entry call.
pub fn first_state<'a>(alloc: Global, program: &'a Program) -> Result<State<'a>, Trouble>
    ensures { Gives Excused state_of (meaning.first_state (program_of program.now)) result }
{
    let mut state = State::at_rest(alloc);
    for object in program.unit().objects.as_slice() {
        make_object(alloc, program, object, &mut state.objects)?;
    }
    Ok(state)
}
