//! Calls of the outside.

ghost use Rattle.std.specs.Prelude.{◌≡◌, map, IfOk};
ghost use Rattle.std.specs.Option.{option_map};
ghost use Rattle.step_semantics.specs.Runs.{entry_calls};
ghost use Rattle.core_tree.specs.Cores.{Parts, core_of};
ghost use Rattle.core_tree.specs.View.{proc_of};
ghost use Rattle.core_meaning.specs.Run as meaning;
ghost use Rattle.core_meaning.specs.Values.{Num};
ghost use Rattle.core_state.specs.State.{value_of};
ghost use Rattle.core_statements.specs.Parts.{Does};
ghost use Rattle.core_statements.specs.declared.Run.{Run};
ghost use Rattle.core_run.specs.Calls.{calls_of};
ghost use Rattle.core_run.specs.Entries as steps;
ghost use Rattle.run_world.specs.Comes.{itself};

use crate::find::find_entry;
use crate::walk::procedure_call;
use core_state::{Program, Value};
use core_statements::{Run, formless};
use core_tree::CoreProc;
use iv_words::{Memory, Seq};
use run_records::{EntryCall, Event};
use run_world::Stopped;
use std::alloc::Global;

/// What the outside gets of a call: nothing, or its number.
fn entry_result(called: Option<Value>) -> Result<Option<i128>, Stopped>
    ensures { (p : Parts) (run : Run) → Does p itself (meaning.entry_result (core_of p) (option_map value_of called)) run run result }
{
    match called {
        None => Ok(None),
        Some(Value::Num(v)) => Ok(Some(v)),
        Some(Value::Ref(_, _)) => Err(formless()),
    }
}

/// The numbers of a script as values.
fn entry_values(alloc: Global, numbers: &[i128]) -> Result<Seq<Value>, Memory>
    ensures { IfOk result (λ vs. map value_of vs ≡ map Num numbers.now) }
{
    let mut values = Seq::with_capacity(alloc, numbers.len())?;
    for v in numbers {
        values.push(Value::Num(*v))?;
    }
    Ok(values)
}

/// The outside calls a procedure, which may call those before it.
fn entered(
    alloc: Global,
    program: &Program,
    earlier: &[CoreProc],
    proc: &CoreProc,
    run: &mut Run,
    numbers: &[i128],
) -> Result<Option<i128>, Stopped>
    ensures { Does program.now itself (steps.entered (core_of program.now) (calls_of (core_of program.now) earlier.now) (proc_of proc.now) numbers.now) run.old run.new result }
{
    let values = entry_values(alloc, numbers)?;
    let called = procedure_call(alloc, program, earlier, proc, run, values)?;
    entry_result(called)
}

fn entry(
    alloc: Global,
    program: &Program,
    run: &mut Run,
    call: &EntryCall,
) -> Result<Option<i128>, Stopped>
    ensures { Does program.now itself (meaning.entry (core_of program.now) call.now) run.old run.new result }
{
    match find_entry(program.procs(), &call.name) {
        Some(found) => {
            let numbers = call.values.as_slice();
            entered(alloc, program, found.earlier, found.proc, run, numbers)
        }
        None => Err(formless()),
    }
}

/// An entry call with its step, and its end, which is seen.
fn entry_step(
    alloc: Global,
    program: &Program,
    run: &mut Run,
    call: &EntryCall,
) -> Result<(), Stopped>
    ensures { Does program.now itself (steps.entry_step (core_of program.now) call.now) run.old run.new result }
{
    run.world.tick()?;
    let result = entry(alloc, program, run, call)?;
    let name = call.name.copy(alloc)?;
    run.world.add_event(Event::Ret(name, result))?;
    Ok(())
}

/// The entry calls of a script, in order.
pub fn run_calls(
    alloc: Global,
    program: &Program,
    run: &mut Run,
    calls: &[EntryCall],
) -> Result<(), Stopped>
    ensures { Does program.now itself (entry_calls (meaning.entry (core_of program.now)) calls.now) run.old run.new result }
{
    for call in calls {
        entry_step(alloc, program, run, call)?;
    }
    Ok(())
}
