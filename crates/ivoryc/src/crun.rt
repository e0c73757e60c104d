//! Runs of C texts.

ghost use Rattle.std.specs.Prelude.{◌≤◌, length};
ghost use Rattle.iv_script.specs.ScriptText.{script_limit};
ghost use Rattle.c_ast.specs.View.{unit_of};
ghost use Rattle.c_reader.specs.Answers.{text_limit};
ghost use Rattle.ivoryc.specs.Calls.{change_of, store_seen, sink_seen};
ghost use Rattle.ivoryc.specs.RunAnswers.{RunsUnit, unit_report};
ghost use Rattle.ivoryc.specs.Steps.{LoadsFor, Performed, ReadC, Does, Written};
ghost use Rattle.ivoryc.specs.declared.command.Command.TheVariants.{CRun};

use crate::c_fault::CTextFault;
use crate::input_fault::InputFault;
use crate::load::load_both;
use crate::refusal::Refusal;
use crate::script::script_for;
use c_ast::{CUnit, Target, c_exports};
use c_reader::{ReadFault, read_unit};
use c_run::{RunError, prepare_c};
use iv_base::{Sink, Store};
use iv_script::Script;
use iv_words::Word;
use std::alloc::Global;

/// The greatest number of bytes of a C text.
const C_LIMIT: u64 = 268_435_456;

/// Writes the report of a run of the C text in a file, by the script in another, within so many steps.
pub fn crun<S: Store, K: Sink>(
    alloc: Global,
    file: &Word,
    script: &Word,
    steps: u64,
    store: &mut S,
    out: &mut K,
) -> Result<(), Refusal>
    ensures loads { LoadsFor (CRun file.now script.now steps) (change_of (store_seen S.holds S.loads S.faults) store.old store.new) }
    ensures performed { Performed (CRun file.now script.now steps) (change_of (store_seen S.holds S.loads S.faults) store.old store.new) (change_of (sink_seen K.held K.taken K.faults) out.old out.new) result }
{
    let (text, said) = load_both(alloc, file, C_LIMIT, script, store)?;
    run_texts(alloc, text.as_slice(), said.as_slice(), steps, out)
}

/// Writes the report of a run of a C text by a script.
fn run_texts<K: Sink>(
    alloc: Global,
    text: &[u8],
    said: &[u8],
    steps: u64,
    out: &mut K,
) -> Result<(), Refusal>
    requires text { length text.now ≤ text_limit }
    requires script { length said.now ≤ script_limit }
    ensures { Does (RunsUnit text.now said.now steps) (change_of (sink_seen K.held K.taken K.faults) out.old out.new) result }
{
    let unit = read_c(alloc, text)?;
    let exports = c_exports(alloc, &unit)?;
    let script = script_for(alloc, &exports, said)?;
    run_unit(alloc, unit, &script, steps, out)
}

/// The unit of a C text.
fn read_c(alloc: Global, text: &[u8]) -> Result<CUnit, Refusal>
    requires { length text.now ≤ text_limit }
    ensures { ReadC text.now result }
{
    match read_unit(alloc, text, Target::T32) {
        Ok(unit) => Ok(unit),
        Err(ReadFault::At(fault)) => {
            let fault = CTextFault::at(text, fault);
            Err(Refusal::Input(InputFault::CText(fault)))
        }
        Err(ReadFault::Memory) => Err(Refusal::Memory),
    }
}

/// Writes the report of a run of a unit by a script.
fn run_unit<K: Sink>(
    alloc: Global,
    unit: CUnit,
    script: &Script,
    steps: u64,
    out: &mut K,
) -> Result<(), Refusal>
    ensures { Written (unit_report (unit_of unit) steps script.now) (change_of (sink_seen K.held K.taken K.faults) out.old out.new) result }
{
    let mut ready = prepare_c(alloc, unit, Target::T32)?;
    match ready.run(alloc, script, steps, out) {
        Ok(_end) => Ok(()),
        Err(RunError::SinkFault) => Err(Refusal::WriteFault),
        Err(RunError::Memory) => Err(Refusal::Memory),
    }
}
