//! Whole texts from a store, within their limits.

ghost use Rattle.std.specs.Prelude.{◌<◌, ◌^◌};
ghost use Rattle.ivoryc.specs.Calls.{change_of, store_seen};
ghost use Rattle.ivoryc.specs.Steps.{LoadsAtMost, Loaded, BothLoaded, LoadsBoth};

use crate::input_fault::InputFault;
use crate::refusal::Refusal;
use iv_base::Store;
use iv_words::Word;
use std::alloc::Global;

/// The greatest number of bytes of a script.
const SCRIPT_LIMIT: u64 = 1_048_576;

/// The text under a name, which has at most so many bytes.
pub fn load<S: Store>(
    alloc: Global,
    file: &Word,
    limit: u64,
    store: &mut S,
) -> Result<Word, Refusal>
    requires { limit < 2 ^ 32 }
    ensures once { LoadsAtMost 1 (change_of (store_seen S.holds S.loads S.faults) store.old store.new) }
    ensures loaded { Loaded file.now limit (change_of (store_seen S.holds S.loads S.faults) store.old store.new) result }
{
    // one byte past the limit shows that there are more
    let text = store.load(alloc, file, limit)?;
    if text.len() as u64 > limit {
        return Err(Refusal::Input(InputFault::TooLarge));
    }
    Ok(text)
}

/// A text that has at most so many bytes, and that of a script.
pub fn load_both<S: Store>(
    alloc: Global,
    file: &Word,
    limit: u64,
    script: &Word,
    store: &mut S,
) -> Result<(Word, Word), Refusal>
    requires { limit < 2 ^ 32 }
    ensures loads { LoadsBoth file.now limit (change_of (store_seen S.holds S.loads S.faults) store.old store.new) }
    ensures loaded { BothLoaded file.now limit script.now (change_of (store_seen S.holds S.loads S.faults) store.old store.new) result }
{
    let text = load(alloc, file, limit, store)?;
    let said = load(alloc, script, SCRIPT_LIMIT, store)?;
    Ok((text, said))
}
