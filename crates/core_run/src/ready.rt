//! Cores that can be run, and whole runs.

ghost use Rattle.std.specs.Prelude.{◌≡◌, ◌+◌, if◌then◌else◌, [], length, Err, IfOk, OnOk, OnErr};
ghost use Rattle.iv_base.specs.Counts.{capped};
ghost use Rattle.iv_base.specs.Sinks.{grown, GrewByPrefix};
ghost use Rattle.iv_script.specs.Report.{report};
ghost use Rattle.run_records.specs.Scripts.{Fits};
ghost use Rattle.core_tree.specs.Cores.{core_of};
ghost use Rattle.core_tree.specs.Exports.{exports_of};
ghost use Rattle.core_meaning.specs.Run.{run_src};
ghost use Rattle.core_meaning.specs.State.{seen};
ghost use Rattle.core_state.specs.State.{state_of};
ghost use Rattle.run_world.specs.Comes.{shows_areas};
ghost use Rattle.core_run.specs.Reports.{HasSinkCause, IsDefined};
ghost use Rattle.core_run.specs.declared.ready.RunError.TheVariants.{Memory as memory};

use crate::areas::areas_of;
use crate::entries::run_calls;
use crate::start::first_state;
use core_state::{Program, State};
use core_statements::Run;
use core_tree::Core;
use iv_base::{Sink, SinkFault};
use iv_script::write_report;
use iv_words::{Memory, Seq};
use region_soundness::laws::runs_are_defined;
use run_records::{AreaCells, End, Outcome, Script};
use run_world::{World, end_after, shows_areas};
use std::alloc::Global;
use std::marker::Model;

/// A core that can be run. Contracts see it as its core, which is valid.
#[derive(Drop)]
pub struct Ready {
    program: Program,
}

impl Model for Ready {
    ghost use Rattle.std.specs.Coded.{codes};
    ghost use Rattle.area_types.specs.contracts.Area as area;
    ghost use Rattle.area_types.specs.contracts.ValueType as ty;
    ghost use Rattle.core_tree.specs.contracts.CoreExpr as expr;
    ghost use Rattle.core_tree.specs.contracts.CoreInit as init;
    ghost use Rattle.core_tree.specs.contracts.CoreStmt as stmt;
    ghost use Rattle.core_tree.specs.Cores.{Parts, core_of};
    ghost use Rattle.core_tree.specs.Valid.{ValidCore};

    ghost Value = { Parts };

    ghost coded = { Prim.hlevel (codes, area.the_row.coded, ty.the_row.coded, expr.the_row.coded, init.the_row.coded, stmt.the_row.coded) };

    ghost view = { λ r. r.program };

    ghost invariant = { λ r. ValidCore (core_of r.program) };
}

/// Why the report of a run was not put whole.
#[derive(Clone, Copy, Debug, Drop, PartialEq, Eq)]
pub enum RunError {
    /// The sink refused, as its count of faults shows.
    SinkFault,
    /// Want of memory, which says nothing of the run.
    Memory,
}

impl From<Memory> for RunError {
    ghost use Rattle.std.specs.Prelude.{◌≡◌};
    ghost use Rattle.core_run.specs.declared.ready.RunError.TheVariants as error;

    ghost from_gives = { λ _ why. why ≡ error.Memory };

    fn from(_memory: Memory) -> RunError {
        RunError::Memory
    }
}

impl From<SinkFault> for RunError {
    ghost use Rattle.std.specs.Prelude.{◌≡◌};
    ghost use Rattle.core_run.specs.declared.ready.RunError.TheVariants as error;

    ghost from_gives = { λ _ why. why ≡ error.SinkFault };

    fn from(_fault: SinkFault) -> RunError {
        RunError::SinkFault
    }
}

/// Takes a core for runs.
pub fn prepare(alloc: Global, core: Core) -> Result<Ready, Memory>
    ensures { IfOk result (λ r. r ≡ core) }
{
    core.is_valid();
    Ok(Ready {
        program: Program::new(alloc, core)?,
    })
}

/// The areas that a run with this end shows.
fn shown_areas(
    alloc: Global,
    program: &Program,
    state: &State,
    end: End,
) -> Result<Seq<AreaCells>, Memory>
    ensures { IfOk result (λ areas. areas ≡ (if shows_areas end then seen (core_of program.now) (state_of state.now) else [])) }
{
    if shows_areas(end) {
        areas_of(alloc, program, state)
    } else {
        Ok(Seq::new(alloc))
    }
}

/// The run of a script.
fn outcome_of(alloc: Global, program: &Program, script: &Script, n: u64) -> Result<Outcome, Memory>
    ensures { IfOk result (λ o. o ≡ run_src (core_of program.now) script.now n) }
{
    let state = first_state(alloc, program)?;
    let world = World::start(alloc, script, n)?;
    let mut run = Run { state, world };
    let calls = run_calls(alloc, program, &mut run, script.calls.as_slice());
    let end = end_after(calls)?;
    let areas = shown_areas(alloc, program, &run.state, end)?;
    let Run { state: _, world } = run;
    let World {
        events,
        steps: _,
        replies: _,
        taken: _,
    } = world;
    Ok(Outcome { events, end, areas })
}

impl Ready {
    /// Runs a script within n steps, from the first state, and puts the report. The core stays as it was.
    ///
    /// Want of memory comes before anything is put. The run of a script that fits never ends undefined: no reference is read whose area is gone.
    pub fn run<K: Sink>(
        &mut self,
        alloc: Global,
        script: &Script,
        n: u64,
        out: &mut K,
    ) -> Result<End, RunError>
        ensures end { IfOk result (λ end. end ≡ (run_src (core_of self.old) script.now n).end) }
        ensures defined { Fits script.now (exports_of (core_of self.old)) → IfOk result IsDefined }
        ensures held { OnOk result (K.held out.new ≡ grown (K.held out.old) (report (run_src (core_of self.old) script.now n))) }
        ensures taken { OnOk result (K.taken out.new ≡ capped (K.taken out.old + length (report (run_src (core_of self.old) script.now n)))) }
        ensures part { OnErr result (GrewByPrefix (K.held out.old) (K.held out.new) (report (run_src (core_of self.old) script.now n))) }
        ensures cause { HasSinkCause (K.faults out.old) (K.faults out.new) result }
        ensures before { result ≡ Err memory → out.new ≡ out.old }
        ensures same { self.new ≡ self.old }
    {
        runs_are_defined();
        let outcome = outcome_of(alloc, &self.program, script, n)?;
        write_report(&outcome, out)?;
        Ok(outcome.end)
    }
}
