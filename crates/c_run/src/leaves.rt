//! Statements that call no function.

ghost use Rattle.std.specs.Prelude.{◌≡◌, Some};
ghost use Rattle.std.specs.Option.{option_map};
ghost use Rattle.c_ast.specs.View.{expr_of, place_of, init_of};
ghost use Rattle.c_meaning.specs.Statements as meaning;
ghost use Rattle.c_operators.specs.Values.{value_of};
ghost use Rattle.c_expressions.specs.Programs.{program_of};
ghost use Rattle.c_statements.specs.Parts.{control_of, called_of, Does};
ghost use Rattle.c_run.specs.Choices.{const_step, const_part, made_part, assign_part, return_part};
ghost use Rattle.step_semantics.specs.Control.{Broke};
ghost use Rattle.step_semantics.specs.Steps.{give, tick};
ghost use Rattle.run_world.specs.declared.Halt.TheVariants.{NoMeaning};
ghost use Rattle.run_world.specs.declared.Stopped.TheVariants as stopped;
ghost use Rattle.run_records.specs.declared.Reason.TheVariants.{NoValue};

use c_ast::{CBase, CExpr, CInit, CPlace, CType};
use c_expressions::{Program, eval, eval_place};
use c_statements::{
    Called, Control, Run, assign, declaration, eval_init, given, object, object_with, value_step,
};
use iv_words::Word;
use run_records::Reason;
use run_world::{Halt, Stopped};
use std::alloc::Global;

/// How a run ends that lacks a value, and also one that is stuck, which is shown so.
pub fn no_value() -> Stopped
    ensures { result ≡ stopped.Halted (NoMeaning NoValue) }
{
    Stopped::Halted(Halt::NoMeaning(Reason::NoValue))
}

/// `const T x = e;`
pub fn const_name<'a>(
    program: &'a Program,
    run: &mut Run<'a>,
    name: &'a Word,
    ty: &'a CType,
    e: &'a CExpr,
) -> Result<Control<'a>, Stopped>
    ensures { Does program.now control_of (const_part (program_of program.now) name.now ty.now (expr_of e.now)) run.old run.new result }
{
    let v = value_step(program, run, e)?;
    declaration(program, run, name, ty, v)
}

/// The second step of `const T x = f(..);`, and its declaration.
pub fn const_of_call<'a>(
    program: &'a Program,
    run: &mut Run<'a>,
    name: &'a Word,
    ty: &'a CType,
    called: Called<'a>,
) -> Result<Control<'a>, Stopped>
    ensures { Does program.now control_of (const_step (program_of program.now) name.now ty.now (called_of called.entry)) run.old run.new result }
{
    run.world.tick()?;
    match called {
        Called::Gave(v) => declaration(program, run, name, ty, v),
        Called::Missing => Err(no_value()),
        Called::Nothing => Err(no_value()),
    }
}

/// `T x;`
pub fn plain_object<'a>(
    alloc: Global,
    program: &'a Program,
    run: &mut Run<'a>,
    name: &'a Word,
    base: &'a CBase,
) -> Result<Control<'a>, Stopped>
    ensures { Does program.now control_of (tick (meaning.object (program_of program.now) name.now base.now)) run.old run.new result }
{
    run.world.tick()?;
    object(alloc, program, run, name, base)
}

/// `T x = ..;`
pub fn made_object<'a>(
    alloc: Global,
    program: &'a Program,
    run: &mut Run<'a>,
    name: &'a Word,
    base: &'a CBase,
    init: &'a CInit,
) -> Result<Control<'a>, Stopped>
    ensures { Does program.now control_of (made_part (program_of program.now) name.now base.now (init_of init.now)) run.old run.new result }
{
    let values = given(eval_init(alloc, program, &run.state, init))?;
    run.world.tick()?;
    object_with(alloc, program, run, name, base, &values)
}

/// `place = e;`
pub fn assignment<'a>(
    program: &'a Program,
    run: &mut Run<'a>,
    place: &'a CPlace,
    e: &'a CExpr,
) -> Result<Control<'a>, Stopped>
    ensures { Does program.now control_of (assign_part (program_of program.now) (place_of place.now) (expr_of e.now)) run.old run.new result }
{
    let to = given(eval_place(program, &run.state, place))?;
    let v = value_step(program, run, e)?;
    assign(program, run, to, v)
}

/// `break;`
pub fn break_step<'a>(program: &'a Program, run: &mut Run<'a>) -> Result<Control<'a>, Stopped>
    ensures { Does program.now control_of (tick (give Broke)) run.old run.new result }
{
    run.world.tick()?;
    Ok(Control::Broke)
}

/// `return e;`
fn return_value<'a>(
    program: &'a Program,
    run: &mut Run<'a>,
    e: &'a CExpr,
) -> Result<Control<'a>, Stopped>
    ensures { Does program.now control_of (return_part (program_of program.now) (Some (expr_of e.now))) run.old run.new result }
{
    let v = value_step(program, run, e)?;
    Ok(Control::Returned(Some(v)))
}

/// `return;` or `return e;`
pub fn return_step<'a>(
    program: &'a Program,
    run: &mut Run<'a>,
    value: &'a Option<CExpr>,
) -> Result<Control<'a>, Stopped>
    ensures { Does program.now control_of (return_part (program_of program.now) (option_map expr_of value.now)) run.old run.new result }
{
    match value {
        None => {
            run.world.tick()?;
            Ok(Control::Returned(None))
        }
        Some(e) => return_value(program, run, e),
    }
}
