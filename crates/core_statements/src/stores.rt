//! Stores into cells, and copies of areas.

ghost use Rattle.std.specs.Prelude.{◌≡◌, IfOk};
ghost use Rattle.std.specs.Option.{option_map};
ghost use Rattle.type_trees.specs.Trees as trees;
ghost use Rattle.step_semantics.specs.Control.{Falls};
ghost use Rattle.step_semantics.specs.Steps.{ticks, change};
ghost use Rattle.core_tree.specs.Cores.{core_of};
ghost use Rattle.core_meaning.specs.Areas as areas;
ghost use Rattle.core_meaning.specs.State.{holding};
ghost use Rattle.core_meaning.specs.Statements as meaning;
ghost use Rattle.core_state.specs.Types.{held_of};
ghost use Rattle.core_state.specs.State.{value_of, state_of};
ghost use Rattle.core_statements.specs.Parts.{control_of, Does};
ghost use Rattle.core_statements.specs.Simple.{put_there, counted_copy};

use crate::nodes::nodes;
use crate::parts::{Control, Run, formless};
use core_state::{Held, Program, State, Value};
use iv_words::Memory;
use run_world::Stopped;
use std::alloc::Global;

/// The cell behind a reference comes to hold a number.
fn store_number(
    program: &Program,
    run: &mut Run,
    area: usize,
    path: &[u32],
    v: i128,
) -> Result<Control, Stopped>
    ensures { Does program.now control_of (put_there (core_of program.now) area path.now v) run.old run.new result }
{
    match run.state.type_at(area, path) {
        None => Err(formless()),
        Some(_) => {
            run.world.tick()?;
            run.state.put_at(area, path, Held::Cell(v));
            Ok(Control::Falls)
        }
    }
}

/// A value is stored behind a reference.
pub fn store(
    program: &Program,
    run: &mut Run,
    target: &Value,
    value: &Value,
) -> Result<Control, Stopped>
    ensures { Does program.now control_of (meaning.store (core_of program.now) (value_of target.now) (value_of value.now)) run.old run.new result }
{
    match value {
        Value::Ref(_, _) => Err(formless()),
        Value::Num(v) => match target {
            Value::Num(_) => Err(formless()),
            Value::Ref(area, path) => store_number(program, run, *area, path, *v),
        },
    }
}

/// How many nodes the part behind a reference has, where it leads to one.
fn nodes_at(state: &State, area: usize, path: &[u32]) -> Result<Option<u64>, Memory>
    ensures { IfOk result (λ n. n ≡ option_map trees.nodes (areas.type_at (state_of state.now).areas area path.now)) }
{
    match state.type_at(area, path) {
        None => Ok(None),
        Some(ty) => Ok(Some(nodes(ty)?)),
    }
}

/// What that part holds.
fn copy_at(alloc: Global, state: &State, area: usize, path: &[u32]) -> Result<Option<Held>, Memory>
    ensures { IfOk result (λ held. option_map held_of held ≡ areas.held_at (state_of state.now).areas area path.now) }
{
    match state.held_at(area, path) {
        None => Ok(None),
        Some(held) => Ok(Some(held.copy(alloc)?)),
    }
}

/// A part comes to hold a value, with so many steps.
fn put_whole(
    program: &Program,
    run: &mut Run,
    area: usize,
    path: &[u32],
    count: u64,
    held: Held,
) -> Result<Control, Stopped>
    ensures { Does program.now control_of (ticks count (change Falls (holding area path.now (held_of held)))) run.old run.new result }
{
    run.world.ticks(count)?;
    run.state.put_at(area, path, held);
    Ok(Control::Falls)
}

/// A part that has so many nodes comes to hold a value, with a step for each.
fn put_copy(
    program: &Program,
    run: &mut Run,
    area: usize,
    path: &[u32],
    count: Option<u64>,
    held: Option<Held>,
) -> Result<Control, Stopped>
    ensures { Does program.now control_of (counted_copy (core_of program.now) area path.now count (option_map held_of held)) run.old run.new result }
{
    match count {
        None => Err(formless()),
        Some(count) => match held {
            None => Err(formless()),
            Some(held) => put_whole(program, run, area, path, count, held),
        },
    }
}

/// What is behind one reference is copied behind another.
pub fn copy(
    alloc: Global,
    program: &Program,
    run: &mut Run,
    target: &Value,
    source: &Value,
) -> Result<Control, Stopped>
    ensures { Does program.now control_of (meaning.copy (core_of program.now) (value_of target.now) (value_of source.now)) run.old run.new result }
{
    match target {
        Value::Num(_) => Err(formless()),
        Value::Ref(area, path) => match source {
            Value::Num(_) => Err(formless()),
            Value::Ref(other, from) => {
                let count = nodes_at(&run.state, *area, path)?;
                let held = copy_at(alloc, &run.state, *other, from)?;
                put_copy(program, run, *area, path, count, held)
            }
        },
    }
}
