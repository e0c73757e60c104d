//! Units that can be run, and whole runs.

ghost use Rattle.std.specs.Prelude.{◌≡◌, ◌+◌, if◌then◌else◌, [], length, Ok, Err, IfOk, OnOk, OnErr};
ghost use Rattle.iv_base.specs.Counts.{capped};
ghost use Rattle.iv_base.specs.Sinks.{grown, GrewByPrefix};
ghost use Rattle.iv_script.specs.Report.{report};
ghost use Rattle.c_ast.specs.View.{unit_of};
ghost use Rattle.c_meaning.specs.Runs.{run_c, run_program, run_from};
ghost use Rattle.c_meaning.specs.State.{seen};
ghost use Rattle.run_world.specs.Comes.{shows_areas};
ghost use Rattle.c_expressions.specs.Programs.{program_of};
ghost use Rattle.c_expressions.specs.State.{state_of};
ghost use Rattle.c_run.specs.Reports.{HasSinkCause};
ghost use Rattle.c_run.specs.declared.ready.RunError.TheVariants.{Memory as memory};

use crate::areas::areas_of;
use crate::entries::run_calls;
use crate::start::first_state;
use c_ast::{CUnit, Target};
use c_expressions::{Program, State};
use c_statements::{Run, given};
use iv_base::{Sink, SinkFault};
use iv_script::write_report;
use iv_words::{Memory, Seq};
use run_records::{AreaCells, End, Outcome, Script};
use run_world::{World, end_after, shows_areas};
use std::alloc::Global;
use std::marker::Model;

/// A unit of C for a target that can be run. Contracts see it as both.
#[derive(Drop)]
pub struct CReady {
    program: Program,
}

impl Model for CReady {
    ghost use Rattle.std.specs.Coded.{codes};
    ghost use Rattle.c_ast.specs.contracts.CExpr as expr;
    ghost use Rattle.c_ast.specs.contracts.CInit as init;
    ghost use Rattle.c_ast.specs.contracts.CStmt as stmt;
    ghost use Rattle.c_expressions.specs.Programs.{Parts};

    ghost Value = { Parts };

    ghost coded = { Prim.hlevel (codes, expr.the_row.coded, init.the_row.coded, stmt.the_row.coded) };

    ghost view = { λ r. r.program };
}

/// Why the report of a run was not put whole.
#[derive(Clone, Copy, Debug, Drop, PartialEq, Eq)]
pub enum RunError {
    /// The sink refused, as its count of faults shows.
    SinkFault,
    /// Want of memory, which says nothing of the run.
    Memory,
}

impl From<Memory> for RunError {
    ghost use Rattle.std.specs.Prelude.{◌≡◌};
    ghost use Rattle.c_run.specs.declared.ready.RunError.TheVariants as error;

    ghost from_gives = { λ _ why. why ≡ error.Memory };

    fn from(_memory: Memory) -> RunError {
        RunError::Memory
    }
}

impl From<SinkFault> for RunError {
    ghost use Rattle.std.specs.Prelude.{◌≡◌};
    ghost use Rattle.c_run.specs.declared.ready.RunError.TheVariants as error;

    ghost from_gives = { λ _ why. why ≡ error.SinkFault };

    fn from(_fault: SinkFault) -> RunError {
        RunError::SinkFault
    }
}

/// Takes a unit for runs.
pub fn prepare_c(alloc: Global, u: CUnit, t: Target) -> Result<CReady, Memory>
    ensures { IfOk result (λ r. r ≡ record { unit = u; target = t }) }
{
    Ok(CReady {
        program: Program::new(alloc, u, t)?,
    })
}

/// The areas that a run with this end shows.
fn shown_areas<'a>(
    alloc: Global,
    program: &'a Program,
    state: &State<'a>,
    end: End,
) -> Result<Seq<AreaCells>, Memory>
    ensures { IfOk result (λ areas. areas ≡ (if shows_areas end then seen (program_of program.now) (state_of state.now) else [])) }
{
    if shows_areas(end) {
        areas_of(alloc, program, state)
    } else {
        Ok(Seq::new(alloc))
    }
}

/// The run of a script's calls from a state.
fn run_from<'a>(
    alloc: Global,
    program: &'a Program,
    first: State<'a>,
    script: &Script,
    n: u64,
) -> Result<Outcome, Memory>
    ensures { IfOk result (λ o. o ≡ run_from (program_of program.now) (Ok (state_of first.entry)) script.now n) }
{
    let mut run = Run {
        state: first,
        world: World::start(alloc, script, n)?,
    };
    let calls = run_calls(alloc, program, &mut run, script.calls.as_slice());
    let end = end_after(calls)?;
    let areas = shown_areas(alloc, program, &run.state, end)?;
    let Run { state: _, world } = run;
    let World {
        events,
        steps: _,
        replies: _,
        taken: _,
    } = world;
    Ok(Outcome { events, end, areas })
}

/// The run of a program whose initializers of file scope have a meaning, or else that it has none.
fn outcome_of(alloc: Global, program: &Program, script: &Script, n: u64) -> Result<Outcome, Memory>
    ensures { IfOk result (λ o. o ≡ run_program (program_of program.now) script.now n) }
{
    match given(first_state(alloc, program)) {
        Ok(first) => run_from(alloc, program, first, script, n),
        Err(why) => Ok(Outcome {
            events: Seq::new(alloc),
            end: end_after(Err(why))?,
            areas: Seq::new(alloc),
        }),
    }
}

impl CReady {
    /// Runs a script within n steps, from the first state, and puts the report. The unit stays as it was.
    ///
    /// Want of memory comes before anything is put.
    pub fn run<K: Sink>(
        &mut self,
        alloc: Global,
        script: &Script,
        n: u64,
        out: &mut K,
    ) -> Result<End, RunError>
        ensures end { IfOk result (λ end. end ≡ (run_c (unit_of self.old.unit) self.old.target script.now n).end) }
        ensures held { OnOk result (K.held out.new ≡ grown (K.held out.old) (report (run_c (unit_of self.old.unit) self.old.target script.now n))) }
        ensures taken { OnOk result (K.taken out.new ≡ capped (K.taken out.old + length (report (run_c (unit_of self.old.unit) self.old.target script.now n)))) }
        ensures part { OnErr result (GrewByPrefix (K.held out.old) (K.held out.new) (report (run_c (unit_of self.old.unit) self.old.target script.now n))) }
        ensures cause { HasSinkCause (K.faults out.old) (K.faults out.new) result }
        ensures before { result ≡ Err memory → out.new ≡ out.old }
        ensures same { self.new ≡ self.old }
    {
        let outcome = outcome_of(alloc, &self.program, script, n)?;
        write_report(&outcome, out)?;
        Ok(outcome.end)
    }
}
