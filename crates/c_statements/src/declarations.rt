//! Declarations of names and objects in blocks.

ghost use Rattle.c_meaning.specs.Statements as meaning;
ghost use Rattle.c_operators.specs.Values.{value_of};
ghost use Rattle.c_expressions.specs.Programs.{program_of};
ghost use Rattle.c_statements.specs.Parts.{control_of, Does};
ghost use Rattle.c_statements.specs.Given.{given_of};

use crate::initial::Given;
use crate::numbers::numbers_of;
use crate::parts::{Control, Run};
use crate::trouble::given;
use c_ast::{CBase, CType};
use c_expressions::Program;
use c_operators::{Value, as_assigned, base_ref};
use iv_words::Word;
use run_world::Stopped;
use std::alloc::Global;

/// A const name comes to hold a value, converted as by assignment.
pub fn declaration<'a>(
    program: &'a Program,
    run: &mut Run<'a>,
    name: &'a Word,
    ty: &'a CType,
    v: Value<'a>,
) -> Result<Control<'a>, Stopped>
    ensures { Does program.now control_of (meaning.declaration (program_of program.now) name.now ty.now (value_of v.entry)) run.old run.new result }
{
    let converted = given(as_assigned(program.target(), ty, v))?;
    run.state.declare(name, converted)?;
    Ok(Control::Falls)
}

/// An object without values is made.
pub fn object<'a>(
    alloc: Global,
    program: &'a Program,
    run: &mut Run<'a>,
    name: &'a Word,
    base: &'a CBase,
) -> Result<Control<'a>, Stopped>
    ensures { Does program.now control_of (meaning.object (program_of program.now) name.now base.now) run.old run.new result }
{
    run.state
        .declare_object(alloc, program, name, base_ref(base))?;
    Ok(Control::Falls)
}

/// An object is made with the values of its initializer.
pub fn object_with<'a>(
    alloc: Global,
    program: &'a Program,
    run: &mut Run<'a>,
    name: &'a Word,
    base: &'a CBase,
    values: &Given<'a>,
) -> Result<Control<'a>, Stopped>
    ensures { Does program.now control_of (meaning.object_with (program_of program.now) name.now base.now (given_of values.now)) run.old run.new result }
{
    let ty = program.type_of(base_ref(base));
    let numbers = given(numbers_of(alloc, program.target(), ty, values))?;
    run.state
        .declare_made(alloc, program, name, base_ref(base), numbers.as_slice())?;
    Ok(Control::Falls)
}
