//! Texts that are written at once.

ghost use Rattle.ivoryc.specs.Calls.{change_of, sink_seen};
ghost use Rattle.ivoryc.specs.Steps.{Written};

use crate::refusal::Refusal;
use iv_base::Sink;

/// Writes a text.
pub fn put<K: Sink>(text: &[u8], out: &mut K) -> Result<(), Refusal>
    ensures { Written text.now (change_of (sink_seen K.held K.taken K.faults) out.old out.new) result }
{
    Ok(out.put(text)?)
}
