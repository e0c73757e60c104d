//! Statements, blocks, loops and calls of functions.

ghost use Rattle.std.specs.Prelude.{◌≡◌, map};
ghost use Rattle.c_ast.specs.Syntax.{ConstCall, Call};
ghost use Rattle.c_ast.specs.View.{expr_of, stmt_of, stmts_of, call_of, function_of};
ghost use Rattle.c_meaning.specs.Calls as calls;
ghost use Rattle.c_meaning.specs.Statements as meaning;
ghost use Rattle.c_meaning.specs.Runs as runs;
ghost use Rattle.c_meaning.specs.State.{leave};
ghost use Rattle.c_operators.specs.Values.{value_of};
ghost use Rattle.c_expressions.specs.Programs.{program_of};
ghost use Rattle.c_statements.specs.Parts.{control_of, called_of, Does};
ghost use Rattle.c_run.specs.Calls.{calls_of};
ghost use Rattle.c_run.specs.Choices.{choice_of};
ghost use Rattle.step_semantics.specs.Steps.{block, tick};
ghost use Rattle.step_semantics.specs.Control.{forever};

use crate::find::{find_extern, find_function, is_stop};
use crate::functions::{entry_frame, function_value};
use crate::leaves::{
    assignment, break_step, const_name, const_of_call, made_object, no_value, plain_object,
    return_step,
};
use c_ast::{CCall, CExpr, CFunction, CStmt, CType};
use c_expressions::Program;
use c_operators::Value;
use c_statements::{
    Called, Control, Params, Run, argument_step, as_arguments, extern_call, given, stop_call,
    truth_step,
};
use iv_words::{Seq, Word};
use run_world::Stopped;
use std::alloc::Global;

/// A statement, in a function that may call those before it.
#[cycle(walk)]
pub fn exec<'a>(
    alloc: Global,
    program: &'a Program,
    functions: &'a [CFunction],
    run: &mut Run<'a>,
    stmt: &'a CStmt,
) -> Result<Control<'a>, Stopped>
    ensures { Does program.now control_of (meaning.exec (program_of program.now) (calls_of (program_of program.now) functions.now) (stmt_of stmt.now)) run.old run.new result }
{
    match stmt {
        CStmt::Const(name, ty, e) => const_name(program, run, name, ty, e),
        CStmt::ConstCall(name, ty, call) => {
            const_call(alloc, program, functions, run, name, ty, call)
        }
        CStmt::Object(name, base, init) => match init {
            None => plain_object(alloc, program, run, name, base),
            Some(init) => made_object(alloc, program, run, name, base, init),
        },
        CStmt::Assign(place, e) => assignment(program, run, place, e),
        CStmt::If(e, first, second) => { choice(alloc, program, functions, run, e, first, second) }
        CStmt::Forever(body) => forever(alloc, program, functions, run, body),
        CStmt::Break => break_step(program, run),
        CStmt::Return(value) => return_step(program, run, value),
        CStmt::Block(body) => block(alloc, program, functions, run, body),
        CStmt::Call(call) => dropped_call(alloc, program, functions, run, call),
    }
}

/// Statements in order, up to one through which control does not fall.
#[cycle(walk)]
fn exec_all<'a>(
    alloc: Global,
    program: &'a Program,
    functions: &'a [CFunction],
    run: &mut Run<'a>,
    stmts: &'a Seq<CStmt>,
) -> Result<Control<'a>, Stopped>
    ensures { Does program.now control_of (meaning.exec_all (program_of program.now) (calls_of (program_of program.now) functions.now) (stmts_of stmts.now)) run.old run.new result }
{
    for stmt in stmts.as_slice() {
        match exec(alloc, program, functions, run, stmt)? {
            Control::Falls => {}
            Control::Broke => return Ok(Control::Broke),
            Control::Returned(v) => return Ok(Control::Returned(v)),
        }
    }
    Ok(Control::Falls)
}

/// A block, with which its names and objects end.
#[cycle(walk)]
pub fn block<'a>(
    alloc: Global,
    program: &'a Program,
    functions: &'a [CFunction],
    run: &mut Run<'a>,
    body: &'a Seq<CStmt>,
) -> Result<Control<'a>, Stopped>
    ensures { Does program.now control_of (block leave (meaning.exec_all (program_of program.now) (calls_of (program_of program.now) functions.now) (stmts_of body.now))) run.old run.new result }
{
    let names = run.state.own.len();
    let objects = run.state.objects.len();
    let control = exec_all(alloc, program, functions, run, body)?;
    run.state.leave(names, objects);
    Ok(control)
}

/// `if`, with or without `else`.
#[cycle(walk)]
fn choice<'a>(
    alloc: Global,
    program: &'a Program,
    functions: &'a [CFunction],
    run: &mut Run<'a>,
    e: &'a CExpr,
    first: &'a Seq<CStmt>,
    second: &'a Option<Seq<CStmt>>,
) -> Result<Control<'a>, Stopped>
    ensures { Does program.now control_of (meaning.exec (program_of program.now) (calls_of (program_of program.now) functions.now) (choice_of (expr_of e.now) first.now second.now)) run.old run.new result }
{
    if truth_step(program, run, e)? {
        return block(alloc, program, functions, run, first);
    }
    match second {
        Some(body) => block(alloc, program, functions, run, body),
        None => Ok(Control::Falls),
    }
}

/// A turn of a loop, with its step.
#[cycle(walk)]
fn turn<'a>(
    alloc: Global,
    program: &'a Program,
    functions: &'a [CFunction],
    run: &mut Run<'a>,
    body: &'a Seq<CStmt>,
) -> Result<Control<'a>, Stopped>
    ensures { Does program.now control_of (tick (block leave (meaning.exec_all (program_of program.now) (calls_of (program_of program.now) functions.now) (stmts_of body.now)))) run.old run.new result }
{
    run.world.tick()?;
    block(alloc, program, functions, run, body)
}

/// `for (;;)`: no run has more turns than steps.
#[cycle(walk)]
fn forever<'a>(
    alloc: Global,
    program: &'a Program,
    functions: &'a [CFunction],
    run: &mut Run<'a>,
    body: &'a Seq<CStmt>,
) -> Result<Control<'a>, Stopped>
    ensures { Does program.now control_of (forever (block leave (meaning.exec_all (program_of program.now) (calls_of (program_of program.now) functions.now) (stmts_of body.now)))) run.old run.new result }
{
    let most = run.world.steps;
    for _ in 0..most {
        match turn(alloc, program, functions, run, body)? {
            Control::Falls => {}
            Control::Broke => return Ok(Control::Falls),
            Control::Returned(v) => return Ok(Control::Returned(v)),
        }
    }
    Err(Stopped::Exhausted)
}

/// `const T x = f(..);`
#[cycle(walk)]
fn const_call<'a>(
    alloc: Global,
    program: &'a Program,
    functions: &'a [CFunction],
    run: &mut Run<'a>,
    name: &'a Word,
    ty: &'a CType,
    call: &'a CCall,
) -> Result<Control<'a>, Stopped>
    ensures { Does program.now control_of (meaning.exec (program_of program.now) (calls_of (program_of program.now) functions.now) (ConstCall name.now ty.now (call_of call.now))) run.old run.new result }
{
    let called = call_step(alloc, program, functions, run, call)?;
    const_of_call(program, run, name, ty, called)
}

/// `f(..);`, whose value is dropped.
#[cycle(walk)]
fn dropped_call<'a>(
    alloc: Global,
    program: &'a Program,
    functions: &'a [CFunction],
    run: &mut Run<'a>,
    call: &'a CCall,
) -> Result<Control<'a>, Stopped>
    ensures { Does program.now control_of (meaning.exec (program_of program.now) (calls_of (program_of program.now) functions.now) (Call (call_of call.now))) run.old run.new result }
{
    call_step(alloc, program, functions, run, call)?;
    Ok(Control::Falls)
}

/// The arguments of a call, its step, and what is called.
#[cycle(walk)]
fn call_step<'a>(
    alloc: Global,
    program: &'a Program,
    functions: &'a [CFunction],
    run: &mut Run<'a>,
    call: &'a CCall,
) -> Result<Called<'a>, Stopped>
    ensures { Does program.now called_of (meaning.call_step (program_of program.now) (calls_of (program_of program.now) functions.now) (call_of call.now)) run.old run.new result }
{
    let values = argument_step(alloc, program, run, call.args.as_slice())?;
    called(
        alloc,
        program,
        functions,
        run,
        &call.name,
        values.as_slice(),
    )
}

/// What is called by a name: the end of the run, an extern or a function.
#[cycle(walk)]
fn called<'a>(
    alloc: Global,
    program: &'a Program,
    functions: &'a [CFunction],
    run: &mut Run<'a>,
    name: &'a Word,
    values: &[Value<'a>],
) -> Result<Called<'a>, Stopped>
    ensures { Does program.now called_of (calls.call (program_of program.now) (calls_of (program_of program.now) functions.now) name.now (map value_of values.now)) run.old run.new result }
{
    if is_stop(name) {
        return Err(stop_call(program, run, values));
    }
    match find_extern(program.unit().externs.as_slice(), name) {
        Some(x) => extern_call(alloc, program, run, x, values),
        None => named_call(alloc, program, functions, run, name, values),
    }
}

/// The call of a function of the unit.
#[cycle(walk)]
fn named_call<'a>(
    alloc: Global,
    program: &'a Program,
    functions: &'a [CFunction],
    run: &mut Run<'a>,
    name: &'a Word,
    values: &[Value<'a>],
) -> Result<Called<'a>, Stopped>
    ensures { Does program.now called_of (calls_of (program_of program.now) functions.now name.now (map value_of values.now)) run.old run.new result }
{
    match find_function(functions, name) {
        Some(found) => function_call(alloc, program, found.earlier, run, found.function, values),
        None => Err(no_value()),
    }
}

/// A function is called with these values, and may call those before it.
#[cycle(walk)]
pub fn function_call<'a>(
    alloc: Global,
    program: &'a Program,
    earlier: &'a [CFunction],
    run: &mut Run<'a>,
    f: &'a CFunction,
    values: &[Value<'a>],
) -> Result<Called<'a>, Stopped>
    ensures { Does program.now called_of (runs.function_call (program_of program.now) (calls_of (program_of program.now) earlier.now) (function_of f.now) (map value_of values.now)) run.old run.new result }
{
    let params = Params::Function(f.params.as_slice());
    let args = given(as_arguments(alloc, program.target(), params, values))?;
    let frame = entry_frame(alloc, f.params.as_slice(), args.as_slice())?;
    run.state.enter(frame)?;
    let control = block(alloc, program, earlier, run, &f.body)?;
    run.state.back();
    function_value(program, run, &f.result, control)
}
