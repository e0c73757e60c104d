//! Runs of modules.

ghost use Rattle.std.specs.Prelude.{◌≤◌, length};
ghost use Rattle.iv_script.specs.ScriptText.{script_limit};
ghost use Rattle.core_tree.specs.Cores.{core_of};
ghost use Rattle.ivoryc.specs.Calls.{change_of, store_seen, sink_seen};
ghost use Rattle.ivoryc.specs.RunAnswers.{RunsModule, module_report};
ghost use Rattle.ivoryc.specs.Steps.{LoadsFor, Performed, Does, Written};
ghost use Rattle.ivoryc.specs.declared.command.Command.TheVariants.{Run};

use crate::load::load_both;
use crate::read::read_core;
use crate::refusal::Refusal;
use crate::script::script_for;
use core_run::{RunError, prepare};
use core_tree::{Core, exports_of};
use iv_base::{Sink, Store};
use iv_script::Script;
use iv_words::Word;
use module_text::SOURCE_LIMIT;
use std::alloc::Global;

/// Writes the report of a run of the module in a file, by the script in another, within so many steps.
pub fn run<S: Store, K: Sink>(
    alloc: Global,
    file: &Word,
    script: &Word,
    steps: u64,
    store: &mut S,
    out: &mut K,
) -> Result<(), Refusal>
    ensures loads { LoadsFor (Run file.now script.now steps) (change_of (store_seen S.holds S.loads S.faults) store.old store.new) }
    ensures performed { Performed (Run file.now script.now steps) (change_of (store_seen S.holds S.loads S.faults) store.old store.new) (change_of (sink_seen K.held K.taken K.faults) out.old out.new) result }
{
    let (text, said) = load_both(alloc, file, SOURCE_LIMIT, script, store)?;
    run_texts(alloc, text.as_slice(), said.as_slice(), steps, out)
}

/// Writes the report of a run of the module of a text by a script.
fn run_texts<K: Sink>(
    alloc: Global,
    text: &[u8],
    said: &[u8],
    steps: u64,
    out: &mut K,
) -> Result<(), Refusal>
    requires { length said.now ≤ script_limit }
    ensures { Does (RunsModule text.now said.now steps) (change_of (sink_seen K.held K.taken K.faults) out.old out.new) result }
{
    let core = read_core(alloc, text)?;
    let exports = exports_of(alloc, &core)?;
    let script = script_for(alloc, &exports, said)?;
    run_core(alloc, core, &script, steps, out)
}

/// Writes the report of a run of a core by a script.
fn run_core<K: Sink>(
    alloc: Global,
    core: Core,
    script: &Script,
    steps: u64,
    out: &mut K,
) -> Result<(), Refusal>
    ensures { Written (module_report (core_of core) steps script.now) (change_of (sink_seen K.held K.taken K.faults) out.old out.new) result }
{
    let mut ready = prepare(alloc, core)?;
    match ready.run(alloc, script, steps, out) {
        Ok(_end) => Ok(()),
        Err(RunError::SinkFault) => Err(Refusal::WriteFault),
        Err(RunError::Memory) => Err(Refusal::Memory),
    }
}
