//! Whether a module is well typed.

ghost use Rattle.ivoryc.specs.Calls.{change_of, store_seen, sink_seen};
ghost use Rattle.ivoryc.specs.ModuleAnswers.{Checks};
ghost use Rattle.ivoryc.specs.Steps.{LoadsFor, Performed, Does};
ghost use Rattle.ivoryc.specs.declared.command.Command.TheVariants.{Check};

use crate::load::load;
use crate::output::put;
use crate::read::read_well_typed;
use crate::refusal::Refusal;
use iv_base::{Sink, Store};
use iv_words::Word;
use module_text::SOURCE_LIMIT;
use std::alloc::Global;

/// Writes `ok` where the module in a file is well typed.
pub fn check<S: Store, K: Sink>(
    alloc: Global,
    file: &Word,
    store: &mut S,
    out: &mut K,
) -> Result<(), Refusal>
    ensures loads { LoadsFor (Check file.now) (change_of (store_seen S.holds S.loads S.faults) store.old store.new) }
    ensures performed { Performed (Check file.now) (change_of (store_seen S.holds S.loads S.faults) store.old store.new) (change_of (sink_seen K.held K.taken K.faults) out.old out.new) result }
{
    let text = load(alloc, file, SOURCE_LIMIT, store)?;
    check_text(alloc, text.as_slice(), out)
}

/// Writes `ok` where a text is that of a well typed module.
fn check_text<K: Sink>(alloc: Global, text: &[u8], out: &mut K) -> Result<(), Refusal>
    ensures { Does (Checks text.now) (change_of (sink_seen K.held K.taken K.faults) out.old out.new) result }
{
    read_well_typed(alloc, text)?;
    put(b"ok\n", out)
}
