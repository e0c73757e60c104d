ghost use Rattle.std.specs.Prelude.{◌≡◌, IfOk};
ghost use Rattle.c_ast.specs.Names.{prefixed};

use iv_words::{Memory, Word};
use std::alloc::Global;

/// The C name for a name of the module.
pub fn prefixed_name(alloc: Global, name: &[u8]) -> Result<Word, Memory>
    ensures { IfOk result (λ w. w ≡ prefixed name.now) }
{
    let mut word = Word::with_capacity(alloc, name.len().saturating_add(3))?;
    word.extend_from_slice(b"iv_")?;
    word.extend_from_slice(name)?;
    Ok(word)
}
