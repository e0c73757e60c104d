ghost use Rattle.std.specs.Prelude.{◌≡◌, ◌+◌, ◌<◌, ◌≤◌, ◌^◌, length, Option, Some, IfOk};
ghost use Rattle.iv_base.specs.Counts.{capped};
ghost use Rattle.iv_base.specs.SureStores.{state, after, Answers};
ghost use Rattle.iv_base.specs.Stores.{file_of, Gives, HasLoadCause};
ghost use Rattle.iv_base.specs.Tables.{map_of};

use crate::files::Files;
use crate::store::{File, LoadFault, Store};
use iv_words::{Memory, Seq, Word};
use std::alloc::Global;

/// Tells what it holds, gives the empty text for a name that it lacks, and never fails but for want of memory.
#[derive(Debug, Drop)]
pub struct SureStore {
    files: Files,
    loads: u64,
}

impl SureStore {
    /// A store of the files, of two of one name the first.
    pub fn new(alloc: Global, files: Seq<File>) -> Result<SureStore, Memory>
        ensures holds { IfOk result (λ s. ⟦<SureStore as Store>⟧.holds s ≡ Some (file_of files)) }
        ensures loads { IfOk result (λ s. ⟦<SureStore as Store>⟧.loads s ≡ 0) }
    {
        Ok(SureStore {
            files: Files::new(alloc, files)?,
            loads: 0,
        })
    }
}

impl Store for SureStore {
    ghost faults = { λ _. 0 };

    ghost holds = { λ s. Some (map_of s.files) };

    ghost loads = { λ s. s.loads };

    fn load(&mut self, alloc: Global, name: &Word, most: u64) -> Result<Word, LoadFault>
        requires { most < 2 ^ 32 }
        ensures given { IfOk result (λ w. Gives (Some (map_of self.old.files)) name.now most w) }
        ensures bounded { IfOk result (λ w. length w ≤ most + 1) }
        ensures holds { Some (map_of self.new.files) ≡ Some (map_of self.old.files) }
        ensures loads { self.new.loads ≡ capped (self.old.loads + 1) }
        ensures cause { HasLoadCause 0 0 result }
        ensures after { state self.new ≡ after (state self.old) }
        ensures answers { Answers (state self.old) name.now most result }
    {
        self.loads = self.loads.saturating_add(1);
        match self.files.front(alloc, name, most)? {
            Some(front) => Ok(front),
            None => Ok(Word::new(alloc)),
        }
    }
}
