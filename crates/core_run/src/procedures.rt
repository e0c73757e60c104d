//! What a procedure requires at its beginning, and what it gives back at its end.

ghost use Rattle.std.specs.Option.{option_map};
ghost use Rattle.core_tree.specs.Cores.{core_of};
ghost use Rattle.core_tree.specs.View.{proc_of};
ghost use Rattle.core_meaning.specs.Conditions as conditions;
ghost use Rattle.core_meaning.specs.Run as meaning;
ghost use Rattle.core_state.specs.State.{value_of};
ghost use Rattle.core_statements.specs.Parts.{control_of, Does};
ghost use Rattle.run_world.specs.Comes.{itself};

use core_expressions::test_all;
use core_state::{Program, Value};
use core_statements::{Control, Run, ensured, formless};
use core_tree::CoreProc;
use run_world::Stopped;
use std::alloc::Global;

/// What a procedure requires.
pub fn required(
    alloc: Global,
    program: &Program,
    run: &mut Run,
    proc: &CoreProc,
) -> Result<(), Stopped>
    ensures { Does program.now itself (conditions.required (core_of program.now) (proc_of proc.now)) run.old run.new result }
{
    let contracts = proc.contracts.as_slice();
    test_all(
        alloc,
        program,
        &run.state,
        &mut run.world,
        &None,
        contracts,
        true,
    )
}

/// What a procedure gives back where control leaves its statements.
pub fn result_of(
    alloc: Global,
    program: &Program,
    run: &mut Run,
    proc: &CoreProc,
    control: Control,
) -> Result<Option<Value>, Stopped>
    ensures { Does program.now (option_map value_of) (meaning.result_of (core_of program.now) (conditions.ensured (core_of program.now) (proc_of proc.now)) (control_of control)) run.old run.new result }
{
    match control {
        Control::Falls => {
            ensured(alloc, program, run, proc, &None)?;
            Ok(None)
        }
        Control::Broke => Err(formless()),
        Control::Returned(v) => Ok(v),
    }
}
