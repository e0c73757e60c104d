//! How many turns a loop has, and with which numbers.

ghost use Rattle.std.specs.Prelude.{◌≡◌, pos, pred, unsigned_abs, IfOk};
ghost use Rattle.step_semantics.specs.Steps.{give};
ghost use Rattle.core_tree.specs.Cores.{core_of};
ghost use Rattle.core_tree.specs.View.{expr_of};
ghost use Rattle.core_meaning.specs.Values.{Num};
ghost use Rattle.core_state.specs.State.{value_of};
ghost use Rattle.core_statements.specs.Parts.{Does};
ghost use Rattle.core_run.specs.Loops.{next_of, with_bound, bound_behind};
ghost use Rattle.run_world.specs.Comes.{itself};

use core_expressions::eval;
use core_state::{Program, Value};
use core_statements::{Run, formless};
use core_tree::CoreExpr;
use iv_words::Memory;
use run_world::Stopped;
use std::alloc::Global;

/// How many turns come behind the first, the number of the first, and whether the numbers go down.
#[derive(Clone, Copy, Drop)]
pub struct Turns {
    pub more: u64,
    pub first: u64,
    pub down: bool,
}

/// The number of the next turn.
pub fn next(down: bool, i: u64) -> Result<u64, Memory>
    ensures { IfOk result (λ n. n ≡ next_of down i) }
{
    if down {
        return Ok(i.saturating_sub(1));
    }
    match i.checked_add(1) {
        Some(n) => Ok(n),
        None => Err(Memory),
    }
}

/// How many indices of a length come behind the first.
pub fn behind_first(length: u32) -> u64
    ensures { result ≡ pred length }
{
    u64::from(length.saturating_sub(1))
}

/// The value of the name for a count.
pub fn count(i: u64) -> Value
    ensures { value_of result ≡ Num (pos i) }
{
    Value::Num(i128::from(i))
}

/// A bound as a word of 64 bits, which has room for every index.
fn word_of(v: &i128) -> Result<u64, Memory>
    ensures { IfOk result (λ n. n ≡ unsigned_abs v.now) }
{
    match u64::try_from(v.unsigned_abs()) {
        Ok(n) => Ok(n),
        Err(_) => Err(Memory),
    }
}

/// The step of a loop with this bound.
fn bounded(program: &Program, run: &mut Run, x: &Value) -> Result<u64, Stopped>
    ensures { Does program.now itself (bound_behind (core_of program.now) (value_of x.now) give) run.old run.new result }
{
    match x {
        Value::Ref(_, _) => Err(formless()),
        Value::Num(v) => {
            let bound = word_of(v)?;
            run.world.tick()?;
            Ok(bound)
        }
    }
}

/// The bound of a loop, and its step.
pub fn bound_step(
    alloc: Global,
    program: &Program,
    run: &mut Run,
    e: &CoreExpr,
) -> Result<u64, Stopped>
    ensures { Does program.now itself (with_bound (core_of program.now) (expr_of e.now) give) run.old run.new result }
{
    let x = eval(alloc, program, &run.state, &mut run.world, &None, e)?;
    bounded(program, run, &x)
}
