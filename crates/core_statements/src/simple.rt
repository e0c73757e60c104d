//! Statements that call nothing and contain none.

ghost use Rattle.std.specs.Prelude.{◌≡◌, Some};
ghost use Rattle.std.specs.Option.{option_map};
ghost use Rattle.area_types.specs.View.{area_of};
ghost use Rattle.step_semantics.specs.Control.{Broke};
ghost use Rattle.step_semantics.specs.Steps.{give, tick};
ghost use Rattle.core_tree.specs.Cores.{core_of};
ghost use Rattle.core_tree.specs.View.{expr_of, init_of, proc_of};
ghost use Rattle.core_meaning.specs.Conditions.{ensured};
ghost use Rattle.core_meaning.specs.Statements as meaning;
ghost use Rattle.core_state.specs.State.{value_of};
ghost use Rattle.run_world.specs.Comes.{itself};
ghost use Rattle.core_statements.specs.Parts.{control_of, Does};
ghost use Rattle.core_statements.specs.Simple.{let_part, result_part, alloc_part, store_part, copy_part, assert_part, return_part};

use crate::initial::first_value;
use crate::parts::{Control, Run, formless};
use crate::stores::{copy, store};
use area_types::Area;
use core_expressions::{eval, test, test_all};
use core_state::{Program, Value};
use core_tree::{Check, CoreExpr, CoreInit, CoreProc};
use run_world::Stopped;
use std::alloc::Global;

/// `let x = e;`
pub fn let_value(
    alloc: Global,
    program: &Program,
    run: &mut Run,
    number: u32,
    e: &CoreExpr,
) -> Result<Control, Stopped>
    ensures { Does program.now control_of (let_part (core_of program.now) number (expr_of e.now)) run.old run.new result }
{
    let v = eval(alloc, program, &run.state, &mut run.world, &None, e)?;
    run.world.tick()?;
    run.state.add_name(number as usize, v)?;
    Ok(Control::Falls)
}

/// The result of a call gets its name.
pub fn let_result(
    program: &Program,
    run: &mut Run,
    number: u32,
    value: Option<Value>,
) -> Result<Control, Stopped>
    ensures { Does program.now control_of (result_part (core_of program.now) number (option_map value_of value)) run.old run.new result }
{
    match value {
        None => Err(formless()),
        Some(v) => {
            run.state.add_name(number as usize, v)?;
            Ok(Control::Falls)
        }
    }
}

/// `alloc x : area = init;`
pub fn alloc_area(
    alloc: Global,
    program: &Program,
    run: &mut Run,
    number: u32,
    area: &Area,
    init: &Option<CoreInit>,
) -> Result<Control, Stopped>
    ensures { Does program.now control_of (alloc_part (core_of program.now) number (area_of area.now) (option_map init_of init.now)) run.old run.new result }
{
    let ty = program.written(alloc, area)?;
    let held = first_value(alloc, program, &run.state, &mut run.world, init, &ty)?;
    run.world.tick()?;
    run.state.add_area(alloc, number as usize, ty, held)?;
    Ok(Control::Falls)
}

/// `*target = value;`
pub fn store_value(
    alloc: Global,
    program: &Program,
    run: &mut Run,
    target: &CoreExpr,
    value: &CoreExpr,
) -> Result<Control, Stopped>
    ensures { Does program.now control_of (store_part (core_of program.now) (expr_of target.now) (expr_of value.now)) run.old run.new result }
{
    let v = eval(alloc, program, &run.state, &mut run.world, &None, value)?;
    let r = eval(alloc, program, &run.state, &mut run.world, &None, target)?;
    store(program, run, &r, &v)
}

/// `copy target, source;`
pub fn copy_area(
    alloc: Global,
    program: &Program,
    run: &mut Run,
    target: &CoreExpr,
    source: &CoreExpr,
) -> Result<Control, Stopped>
    ensures { Does program.now control_of (copy_part (core_of program.now) (expr_of target.now) (expr_of source.now)) run.old run.new result }
{
    let r = eval(alloc, program, &run.state, &mut run.world, &None, target)?;
    let from = eval(alloc, program, &run.state, &mut run.world, &None, source)?;
    copy(alloc, program, run, &r, &from)
}

/// `assert(cond);`
pub fn assert_true(
    alloc: Global,
    program: &Program,
    run: &mut Run,
    cond: &CoreExpr,
    check: &Check,
) -> Result<Control, Stopped>
    ensures { Does program.now control_of (assert_part (core_of program.now) (expr_of cond.now) check.now) run.old run.new result }
{
    test(
        alloc,
        program,
        &run.state,
        &mut run.world,
        &None,
        cond,
        check,
    )?;
    Ok(Control::Falls)
}

/// `break;`
pub fn break_off(program: &Program, run: &mut Run) -> Result<Control, Stopped>
    ensures { Does program.now control_of (tick (give Broke)) run.old run.new result }
{
    run.world.tick()?;
    Ok(Control::Broke)
}

/// What a procedure ensures, with its result, if it has one.
pub fn ensured(
    alloc: Global,
    program: &Program,
    run: &mut Run,
    proc: &CoreProc,
    outcome: &Option<Value>,
) -> Result<(), Stopped>
    ensures { Does program.now itself (ensured (core_of program.now) (proc_of proc.now) (option_map value_of outcome.now)) run.old run.new result }
{
    let contracts = proc.contracts.as_slice();
    test_all(
        alloc,
        program,
        &run.state,
        &mut run.world,
        outcome,
        contracts,
        false,
    )
}

/// The step of a return, and what its procedure ensures of this result.
fn returning(
    alloc: Global,
    program: &Program,
    run: &mut Run,
    proc: &CoreProc,
    value: Option<Value>,
) -> Result<Control, Stopped>
    ensures { Does program.now control_of (meaning.returning (ensured (core_of program.now) (proc_of proc.now)) (option_map value_of value)) run.old run.new result }
{
    run.world.tick()?;
    ensured(alloc, program, run, proc, &value)?;
    Ok(Control::Returned(value))
}

/// `return;` or `return e;`, from a procedure.
pub fn return_value(
    alloc: Global,
    program: &Program,
    run: &mut Run,
    proc: &CoreProc,
    e: &Option<CoreExpr>,
) -> Result<Control, Stopped>
    ensures { Does program.now control_of (return_part (core_of program.now) (ensured (core_of program.now) (proc_of proc.now)) (option_map expr_of e.now)) run.old run.new result }
{
    match e {
        None => returning(alloc, program, run, proc, None),
        Some(e) => {
            let v = eval(alloc, program, &run.state, &mut run.world, &None, e)?;
            returning(alloc, program, run, proc, Some(v))
        }
    }
}
