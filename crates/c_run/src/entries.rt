//! Calls of the outside.

ghost use Rattle.std.specs.Prelude.{◌≡◌, map};
ghost use Rattle.step_semantics.specs.Runs.{entry_calls};
ghost use Rattle.c_ast.specs.View.{function_of};
ghost use Rattle.c_meaning.specs.Runs as meaning;
ghost use Rattle.c_operators.specs.Values.{value_of, itself, Gives};
ghost use Rattle.c_expressions.specs.Places.{Excused};
ghost use Rattle.c_expressions.specs.Programs.{Parts, program_of};
ghost use Rattle.c_statements.specs.Parts.{called_of, Does};
ghost use Rattle.c_run.specs.Calls.{calls_of};
ghost use Rattle.c_run.specs.Entries as steps;
ghost use Rattle.c_run.specs.Entries.{number_as};
ghost use Rattle.c_statements.specs.declared.Run.{Run};

use crate::find::find_entry;
use crate::leaves::no_value;
use crate::walk::function_call;
use c_ast::{CFunction, CKind, CParam, CType};
use c_expressions::Program;
use c_operators::{Trouble, Value};
use c_statements::{Called, Run, given, room};
use iv_words::Seq;
use run_records::{EntryCall, Event};
use run_world::Stopped;
use std::alloc::Global;

/// What the outside gets of a call: nothing, or its value.
fn entry_result(called: Called) -> Result<Option<i128>, Stopped>
    ensures { (p : Parts) (run : Run) → Does p itself (meaning.entry_result (program_of p) (called_of called.entry)) run run result }
{
    match called {
        Called::Nothing => Ok(None),
        Called::Gave(Value::Num(_, v)) => Ok(Some(v)),
        Called::Missing | Called::Gave(Value::Ptr(_, _, _)) => Err(no_value()),
    }
}

/// The number of a script as the value of a parameter.
fn number_as<'a>(ty: &CType, v: &i128) -> Result<Value<'a>, Trouble>
    ensures { Gives Excused value_of (number_as ty.now v.now) result }
{
    match ty {
        CType::Value(s) => Ok(Value::Num(CKind::Scalar(*s), *v)),
        CType::Void | CType::Pointer(_, _) => Err(Trouble::Stuck),
    }
}

/// The numbers of a script as the values of parameters.
fn entry_values<'a>(
    alloc: Global,
    params: &[CParam],
    numbers: &[i128],
) -> Result<Seq<Value<'a>>, Trouble>
    ensures { Gives Excused (map value_of) (meaning.entry_values (meaning.param_types params.now) numbers.now) result }
{
    let mut values = Seq::new(alloc);
    if params.len() != numbers.len() {
        return Err(Trouble::Stuck);
    }
    for i in 0..params.len() {
        let v = number_as(&params[i].ty, &numbers[i])?;
        room(values.push(v))?;
    }
    Ok(values)
}

/// The outside calls a function, which may call those before it.
fn entered<'a>(
    alloc: Global,
    program: &'a Program,
    earlier: &'a [CFunction],
    run: &mut Run<'a>,
    f: &'a CFunction,
    numbers: &[i128],
) -> Result<Option<i128>, Stopped>
    ensures { Does program.now itself (meaning.entered (program_of program.now) (calls_of (program_of program.now) earlier.now) (function_of f.now) numbers.now) run.old run.new result }
{
    let values = given(entry_values(alloc, f.params.as_slice(), numbers))?;
    let called = function_call(alloc, program, earlier, run, f, values.as_slice())?;
    entry_result(called)
}

fn entry<'a>(
    alloc: Global,
    program: &'a Program,
    run: &mut Run<'a>,
    call: &EntryCall,
) -> Result<Option<i128>, Stopped>
    ensures { Does program.now itself (meaning.entry (program_of program.now) call.now) run.old run.new result }
{
    match find_entry(program.unit().functions.as_slice(), &call.name) {
        Some(found) => {
            let values = call.values.as_slice();
            entered(alloc, program, found.earlier, run, found.function, values)
        }
        None => Err(no_value()),
    }
}

/// An entry call with its step, and its end, which is seen.
fn entry_step<'a>(
    alloc: Global,
    program: &'a Program,
    run: &mut Run<'a>,
    call: &EntryCall,
) -> Result<(), Stopped>
    ensures { Does program.now itself (steps.entry_step (program_of program.now) call.now) run.old run.new result }
{
    run.world.tick()?;
    let result = entry(alloc, program, run, call)?;
    let name = call.name.copy(alloc)?;
    run.world.add_event(Event::Ret(name, result))?;
    Ok(())
}

/// The entry calls of a script, in order.
pub fn run_calls<'a>(
    alloc: Global,
    program: &'a Program,
    run: &mut Run<'a>,
    calls: &[EntryCall],
) -> Result<(), Stopped>
    ensures { Does program.now itself (entry_calls (meaning.entry (program_of program.now)) calls.now) run.old run.new result }
{
    for call in calls {
        entry_step(alloc, program, run, call)?;
    }
    Ok(())
}
