//! Conditions: what is chosen by one, and those at which a run stops.

ghost use Rattle.std.specs.Prelude.{◌≡◌, map, not, if◌then◌else◌, None, Ok, Err};
ghost use Rattle.std.specs.Option.{option_map};
ghost use Rattle.step_semantics.specs.Steps.{give};
ghost use Rattle.core_tree.specs.Cores.{core_of};
ghost use Rattle.core_tree.specs.View.{expr_of, contract_of};
ghost use Rattle.core_meaning.specs.Conditions as meaning;
ghost use Rattle.core_meaning.specs.Expressions as expressions;
ghost use Rattle.core_state.specs.State.{value_of};
ghost use Rattle.core_expressions.specs.Reads.{Reads, with_truth, standing};
ghost use Rattle.run_world.specs.Comes.{itself};

use crate::evaluation::eval;
use crate::operands::chosen;
use core_state::{Program, State, Value};
use core_tree::{Check, CoreContract, CoreExpr};
use run_world::{Halt, Stopped, World};
use std::alloc::Global;

/// Whether an expression is true, and the step of the choice.
pub fn choose(
    alloc: Global,
    program: &Program,
    state: &State,
    world: &mut World,
    test: &CoreExpr,
) -> Result<bool, Stopped>
    ensures { Reads program.now itself (with_truth (core_of program.now) (expressions.eval (core_of program.now) None (expr_of test.now)) give) state.now world.old result world.new }
{
    let x = eval(alloc, program, state, world, &None, test)?;
    chosen(world, &x)
}

/// The end of the run where the condition is false.
fn passed(holds: bool, check: &Check) -> Result<(), Stopped>
    ensures { result ≡ (if holds then Ok tt else Err (Stopped.Halted (Halt.FailedCheck check.now.site))) }
{
    if holds {
        Ok(())
    } else {
        Err(Stopped::Halted(Halt::FailedCheck(check.site)))
    }
}

/// Stops at the site of a condition that is false.
pub fn test(
    alloc: Global,
    program: &Program,
    state: &State,
    world: &mut World,
    outcome: &Option<Value>,
    cond: &CoreExpr,
    check: &Check,
) -> Result<(), Stopped>
    ensures { Reads program.now itself (meaning.tested (core_of program.now) (option_map value_of outcome.now) (expr_of cond.now) check.now) state.now world.old result world.new }
{
    let x = eval(alloc, program, state, world, outcome, cond)?;
    passed(chosen(world, &x)?, check)
}

fn counts(contract: &CoreContract, before: bool) -> bool
    ensures { result ≡ (if before then contract.now.before else not contract.now.before) }
{
    contract.before == before
}

/// Tests the conditions of a procedure that stand before its body, or those behind it, in order.
pub fn test_all(
    alloc: Global,
    program: &Program,
    state: &State,
    world: &mut World,
    outcome: &Option<Value>,
    contracts: &[CoreContract],
    before: bool,
) -> Result<(), Stopped>
    ensures { Reads program.now itself (meaning.tested_all (core_of program.now) (option_map value_of outcome.now) (standing before (map contract_of contracts.now))) state.now world.old result world.new }
{
    for contract in contracts {
        if counts(contract, before) {
            test(
                alloc,
                program,
                state,
                world,
                outcome,
                &contract.cond,
                &contract.check,
            )?;
        }
    }
    Ok(())
}
