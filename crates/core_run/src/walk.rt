//! Statements, blocks, loops and calls of procedures.

ghost use Rattle.std.specs.Prelude.{◌≡◌, map};
ghost use Rattle.std.specs.Option.{option_map};
ghost use Rattle.core_tree.specs.Cores.{core_of};
ghost use Rattle.core_tree.specs.Syntax.{LetCall, Call, Map, Upto, Downto};
ghost use Rattle.core_tree.specs.View.{expr_of, stmt_of, stmts_of, call_of, proc_of};
ghost use Rattle.core_meaning.specs.Calls as calls;
ghost use Rattle.core_meaning.specs.Conditions.{ensured};
ghost use Rattle.core_meaning.specs.Run as runs;
ghost use Rattle.core_meaning.specs.State.{leave};
ghost use Rattle.core_meaning.specs.Statements as meaning;
ghost use Rattle.core_state.specs.State.{value_of};
ghost use Rattle.core_statements.specs.Parts.{control_of, Does};
ghost use Rattle.core_run.specs.Calls.{calls_of};
ghost use Rattle.core_run.specs.Loops.{choice_of, next_of, called_by, last};
ghost use Rattle.step_semantics.specs.Control.{forever, counted};
ghost use Rattle.step_semantics.specs.Steps.{block, tick};

use crate::bounds::{Turns, behind_first, bound_step, count, next};
use crate::find::find_proc;
use crate::procedures::{required, result_of};
use core_expressions::{choose, eval_all};
use core_state::{Program, Value};
use core_statements::{
    Control, Run, alloc_area, assert_true, break_off, call_import, copy_area, formless, let_result,
    let_value, return_value, store_value,
};
use core_tree::{CoreCall, CoreExpr, CoreProc, CoreStmt};
use iv_words::Seq;
use run_world::Stopped;
use std::alloc::Global;

/// A statement of a procedure that may call those before it.
#[cycle(walk)]
pub fn exec(
    alloc: Global,
    program: &Program,
    earlier: &[CoreProc],
    proc: &CoreProc,
    run: &mut Run,
    stmt: &CoreStmt,
) -> Result<Control, Stopped>
    ensures { Does program.now control_of (meaning.exec (core_of program.now) (calls_of (core_of program.now) earlier.now) (ensured (core_of program.now) (proc_of proc.now)) (stmt_of stmt.now)) run.old run.new result }
{
    match stmt {
        CoreStmt::Let(number, e) => let_value(alloc, program, run, *number, e),
        CoreStmt::LetCall(number, call) => {
            let_call(alloc, program, earlier, proc, run, *number, call)
        }
        CoreStmt::Alloc(number, area, init) => {
            alloc_area(alloc, program, run, *number, area, init)
        }
        CoreStmt::Store(target, value) => store_value(alloc, program, run, target, value),
        CoreStmt::Copy(target, source) => copy_area(alloc, program, run, target, source),
        CoreStmt::Call(call) => dropped_call(alloc, program, earlier, proc, run, call),
        CoreStmt::If(test, first, second) => {
            choice(alloc, program, earlier, proc, run, test, first, second)
        }
        CoreStmt::Map(number, length, body) => {
            map_loop(alloc, program, earlier, proc, run, *number, *length, body)
        }
        CoreStmt::Upto(number, length, last, body) => {
            upto(
                alloc, program, earlier, proc, run, *number, *length, last, body,
            )
        }
        CoreStmt::Downto(number, length, first, body) => {
            downto(
                alloc, program, earlier, proc, run, *number, *length, first, body,
            )
        }
        CoreStmt::Forever(body) => forever(alloc, program, earlier, proc, run, body),
        CoreStmt::Break => break_off(program, run),
        CoreStmt::Return(value) => return_value(alloc, program, run, proc, value),
        CoreStmt::Assert(cond, check) => assert_true(alloc, program, run, cond, check),
        CoreStmt::NoAlloc(body) => block(alloc, program, earlier, proc, run, body),
        CoreStmt::NoBreak(body) => block(alloc, program, earlier, proc, run, body),
        CoreStmt::NoReturn(body) => block(alloc, program, earlier, proc, run, body),
    }
}

/// Statements in order, up to one through which control does not fall.
#[cycle(walk)]
fn exec_all(
    alloc: Global,
    program: &Program,
    earlier: &[CoreProc],
    proc: &CoreProc,
    run: &mut Run,
    stmts: &Seq<CoreStmt>,
) -> Result<Control, Stopped>
    ensures { Does program.now control_of (meaning.exec_all (core_of program.now) (calls_of (core_of program.now) earlier.now) (ensured (core_of program.now) (proc_of proc.now)) (stmts_of stmts.now)) run.old run.new result }
{
    for stmt in stmts.as_slice() {
        match exec(alloc, program, earlier, proc, run, stmt)? {
            Control::Falls => {}
            Control::Broke => return Ok(Control::Broke),
            Control::Returned(v) => return Ok(Control::Returned(v)),
        }
    }
    Ok(Control::Falls)
}

/// A block: at its end its names are out of scope, and its areas are marked.
#[cycle(walk)]
fn block(
    alloc: Global,
    program: &Program,
    earlier: &[CoreProc],
    proc: &CoreProc,
    run: &mut Run,
    body: &Seq<CoreStmt>,
) -> Result<Control, Stopped>
    ensures { Does program.now control_of (block leave (meaning.exec_all (core_of program.now) (calls_of (core_of program.now) earlier.now) (ensured (core_of program.now) (proc_of proc.now)) (stmts_of body.now))) run.old run.new result }
{
    let names = run.state.own.names.len();
    let areas = run.state.areas.len();
    let control = exec_all(alloc, program, earlier, proc, run, body)?;
    run.state.leave(names, areas);
    Ok(control)
}

/// `if`, with or without `else`.
#[cycle(walk)]
fn choice(
    alloc: Global,
    program: &Program,
    earlier: &[CoreProc],
    proc: &CoreProc,
    run: &mut Run,
    test: &CoreExpr,
    first: &Seq<CoreStmt>,
    second: &Option<Seq<CoreStmt>>,
) -> Result<Control, Stopped>
    ensures { Does program.now control_of (meaning.exec (core_of program.now) (calls_of (core_of program.now) earlier.now) (ensured (core_of program.now) (proc_of proc.now)) (choice_of (expr_of test.now) first.now second.now)) run.old run.new result }
{
    if choose(alloc, program, &run.state, &mut run.world, test)? {
        return block(alloc, program, earlier, proc, run, first);
    }
    match second {
        Some(body) => block(alloc, program, earlier, proc, run, body),
        None => Ok(Control::Falls),
    }
}

/// A turn of `forever`, with its step.
#[cycle(walk)]
fn turn(
    alloc: Global,
    program: &Program,
    earlier: &[CoreProc],
    proc: &CoreProc,
    run: &mut Run,
    body: &Seq<CoreStmt>,
) -> Result<Control, Stopped>
    ensures { Does program.now control_of (tick (block leave (meaning.exec_all (core_of program.now) (calls_of (core_of program.now) earlier.now) (ensured (core_of program.now) (proc_of proc.now)) (stmts_of body.now)))) run.old run.new result }
{
    run.world.tick()?;
    block(alloc, program, earlier, proc, run, body)
}

/// `forever`: no run has more turns than steps.
#[cycle(walk)]
fn forever(
    alloc: Global,
    program: &Program,
    earlier: &[CoreProc],
    proc: &CoreProc,
    run: &mut Run,
    body: &Seq<CoreStmt>,
) -> Result<Control, Stopped>
    ensures { Does program.now control_of (forever (block leave (meaning.exec_all (core_of program.now) (calls_of (core_of program.now) earlier.now) (ensured (core_of program.now) (proc_of proc.now)) (stmts_of body.now)))) run.old run.new result }
{
    let most = run.world.steps;
    for _ in 0..most {
        match turn(alloc, program, earlier, proc, run, body)? {
            Control::Falls => {}
            Control::Broke => return Ok(Control::Falls),
            Control::Returned(v) => return Ok(Control::Returned(v)),
        }
    }
    Err(Stopped::Exhausted)
}

/// A turn of a loop that counts, with its step and the name for its count.
#[cycle(walk)]
fn counted_turn(
    alloc: Global,
    program: &Program,
    earlier: &[CoreProc],
    proc: &CoreProc,
    run: &mut Run,
    number: u32,
    i: u64,
    body: &Seq<CoreStmt>,
) -> Result<Control, Stopped>
    ensures { Does program.now control_of (tick (meaning.turn number (meaning.exec_all (core_of program.now) (calls_of (core_of program.now) earlier.now) (ensured (core_of program.now) (proc_of proc.now)) (stmts_of body.now)) i)) run.old run.new result }
{
    run.world.tick()?;
    let names = run.state.own.names.len();
    let areas = run.state.areas.len();
    run.state.add_name(number as usize, count(i))?;
    let control = exec_all(alloc, program, earlier, proc, run, body)?;
    run.state.leave(names, areas);
    Ok(control)
}

/// The last turn of a loop that counts, behind which the loop falls through.
#[cycle(walk)]
fn last_turn(
    alloc: Global,
    program: &Program,
    earlier: &[CoreProc],
    proc: &CoreProc,
    run: &mut Run,
    number: u32,
    i: u64,
    body: &Seq<CoreStmt>,
) -> Result<Control, Stopped>
    ensures { Does program.now control_of (last (meaning.turn number (meaning.exec_all (core_of program.now) (calls_of (core_of program.now) earlier.now) (ensured (core_of program.now) (proc_of proc.now)) (stmts_of body.now)) i)) run.old run.new result }
{
    match counted_turn(alloc, program, earlier, proc, run, number, i, body)? {
        Control::Falls => Ok(Control::Falls),
        Control::Broke => Ok(Control::Falls),
        Control::Returned(v) => Ok(Control::Returned(v)),
    }
}

/// The turns of a loop that counts.
#[cycle(walk)]
fn counted(
    alloc: Global,
    program: &Program,
    earlier: &[CoreProc],
    proc: &CoreProc,
    run: &mut Run,
    number: u32,
    turns: Turns,
    body: &Seq<CoreStmt>,
) -> Result<Control, Stopped>
    ensures { Does program.now control_of (counted turns.more (next_of turns.down) turns.first (meaning.turn number (meaning.exec_all (core_of program.now) (calls_of (core_of program.now) earlier.now) (ensured (core_of program.now) (proc_of proc.now)) (stmts_of body.now)))) run.old run.new result }
{
    let mut i = turns.first;
    for _ in 0..turns.more {
        match counted_turn(alloc, program, earlier, proc, run, number, i, body)? {
            Control::Falls => i = next(turns.down, i)?,
            Control::Broke => return Ok(Control::Falls),
            Control::Returned(v) => return Ok(Control::Returned(v)),
        }
    }
    last_turn(alloc, program, earlier, proc, run, number, i, body)
}

/// A loop over all indices of a length.
#[cycle(walk)]
fn map_loop(
    alloc: Global,
    program: &Program,
    earlier: &[CoreProc],
    proc: &CoreProc,
    run: &mut Run,
    number: u32,
    length: u32,
    body: &Seq<CoreStmt>,
) -> Result<Control, Stopped>
    ensures { Does program.now control_of (meaning.exec (core_of program.now) (calls_of (core_of program.now) earlier.now) (ensured (core_of program.now) (proc_of proc.now)) (Map number length (stmts_of body.now))) run.old run.new result }
{
    run.world.tick()?;
    let turns = Turns {
        more: behind_first(length),
        first: 0,
        down: false,
    };
    counted(alloc, program, earlier, proc, run, number, turns, body)
}

/// A loop from 0 up to a bound.
#[cycle(walk)]
fn upto(
    alloc: Global,
    program: &Program,
    earlier: &[CoreProc],
    proc: &CoreProc,
    run: &mut Run,
    number: u32,
    length: u32,
    e: &CoreExpr,
    body: &Seq<CoreStmt>,
) -> Result<Control, Stopped>
    ensures { Does program.now control_of (meaning.exec (core_of program.now) (calls_of (core_of program.now) earlier.now) (ensured (core_of program.now) (proc_of proc.now)) (Upto number length (expr_of e.now) (stmts_of body.now))) run.old run.new result }
{
    let turns = Turns {
        more: bound_step(alloc, program, run, e)?,
        first: 0,
        down: false,
    };
    counted(alloc, program, earlier, proc, run, number, turns, body)
}

/// A loop from a bound down to 0.
#[cycle(walk)]
fn downto(
    alloc: Global,
    program: &Program,
    earlier: &[CoreProc],
    proc: &CoreProc,
    run: &mut Run,
    number: u32,
    length: u32,
    e: &CoreExpr,
    body: &Seq<CoreStmt>,
) -> Result<Control, Stopped>
    ensures { Does program.now control_of (meaning.exec (core_of program.now) (calls_of (core_of program.now) earlier.now) (ensured (core_of program.now) (proc_of proc.now)) (Downto number length (expr_of e.now) (stmts_of body.now))) run.old run.new result }
{
    let first = bound_step(alloc, program, run, e)?;
    let turns = Turns {
        more: first,
        first,
        down: true,
    };
    counted(alloc, program, earlier, proc, run, number, turns, body)
}

/// `let x = f(..);`
#[cycle(walk)]
fn let_call(
    alloc: Global,
    program: &Program,
    earlier: &[CoreProc],
    proc: &CoreProc,
    run: &mut Run,
    number: u32,
    call: &CoreCall,
) -> Result<Control, Stopped>
    ensures { Does program.now control_of (meaning.exec (core_of program.now) (calls_of (core_of program.now) earlier.now) (ensured (core_of program.now) (proc_of proc.now)) (LetCall number (call_of call.now))) run.old run.new result }
{
    let result = call_step(alloc, program, earlier, run, call)?;
    let_result(program, run, number, result)
}

/// `f(..);`, whose result is dropped.
#[cycle(walk)]
fn dropped_call(
    alloc: Global,
    program: &Program,
    earlier: &[CoreProc],
    proc: &CoreProc,
    run: &mut Run,
    call: &CoreCall,
) -> Result<Control, Stopped>
    ensures { Does program.now control_of (meaning.exec (core_of program.now) (calls_of (core_of program.now) earlier.now) (ensured (core_of program.now) (proc_of proc.now)) (Call (call_of call.now))) run.old run.new result }
{
    call_step(alloc, program, earlier, run, call)?;
    Ok(Control::Falls)
}

/// The arguments of a call, and what is called.
#[cycle(walk)]
fn call_step(
    alloc: Global,
    program: &Program,
    earlier: &[CoreProc],
    run: &mut Run,
    call: &CoreCall,
) -> Result<Option<Value>, Stopped>
    ensures { Does program.now (option_map value_of) (calls.call (core_of program.now) (calls_of (core_of program.now) earlier.now) (call_of call.now)) run.old run.new result }
{
    let values = call.args.as_slice();
    let args = eval_all(alloc, program, &run.state, &mut run.world, values)?;
    called(alloc, program, earlier, run, call.import, call.callee, args)
}

/// The call of an import or of a procedure by its number.
#[cycle(walk)]
fn called(
    alloc: Global,
    program: &Program,
    earlier: &[CoreProc],
    run: &mut Run,
    import: bool,
    callee: u32,
    args: Seq<Value>,
) -> Result<Option<Value>, Stopped>
    ensures { Does program.now (option_map value_of) (called_by (core_of program.now) (calls_of (core_of program.now) earlier.now) import callee (map value_of args)) run.old run.new result }
{
    if import {
        return call_import(alloc, program, run, callee, args.as_slice());
    }
    run.world.tick()?;
    numbered_call(alloc, program, earlier, run, callee, args)
}

/// The call of a procedure by its number.
#[cycle(walk)]
fn numbered_call(
    alloc: Global,
    program: &Program,
    earlier: &[CoreProc],
    run: &mut Run,
    callee: u32,
    args: Seq<Value>,
) -> Result<Option<Value>, Stopped>
    ensures { Does program.now (option_map value_of) (calls_of (core_of program.now) earlier.now callee (map value_of args)) run.old run.new result }
{
    match find_proc(earlier, callee) {
        Some(found) => procedure_call(alloc, program, found.earlier, found.proc, run, args),
        None => Err(formless()),
    }
}

/// A procedure is called with these values, in a frame of its own.
#[cycle(walk)]
pub fn procedure_call(
    alloc: Global,
    program: &Program,
    earlier: &[CoreProc],
    proc: &CoreProc,
    run: &mut Run,
    args: Seq<Value>,
) -> Result<Option<Value>, Stopped>
    ensures { Does program.now (option_map value_of) (runs.procedure_call (core_of program.now) (calls_of (core_of program.now) earlier.now) (proc_of proc.now) (map value_of args)) run.old run.new result }
{
    run.state.enter(alloc, args)?;
    let result = body(alloc, program, earlier, proc, run)?;
    run.state.back();
    Ok(result)
}

/// What a procedure requires, its statements, and what it ensures where control falls off their end.
#[cycle(walk)]
fn body(
    alloc: Global,
    program: &Program,
    earlier: &[CoreProc],
    proc: &CoreProc,
    run: &mut Run,
) -> Result<Option<Value>, Stopped>
    ensures { Does program.now (option_map value_of) (runs.body_of (core_of program.now) (calls_of (core_of program.now) earlier.now) (proc_of proc.now)) run.old run.new result }
{
    required(alloc, program, run, proc)?;
    let control = exec_all(alloc, program, earlier, proc, run, &proc.body)?;
    result_of(alloc, program, run, proc, control)
}
