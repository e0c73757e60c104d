ghost use Rattle.std.specs.Prelude.{◌≡◌, ◌+◌, ◌<◌, ◌≤◌, ◌^◌, length, Option, Some, IfOk};
ghost use Rattle.iv_base.specs.Counts.{capped};
ghost use Rattle.iv_base.specs.MemStores.{state, after, Answers};
ghost use Rattle.iv_base.specs.Stores.{file_of, Gives, HasLoadCause};
ghost use Rattle.iv_base.specs.Tables.{map_of};

use crate::files::Files;
use crate::store::{File, LoadFault, Store};
use iv_words::{Memory, Seq, Word};
use std::alloc::Global;

/// Tells what it holds, and fails where it is told to and on names that it lacks.
#[derive(Debug, Drop)]
pub struct MemStore {
    files: Files,
    failing: Seq<u64>,
    faults: u64,
    loads: u64,
}

impl MemStore {
    /// A store of the files, of two of one name the first. The calls of `load` are numbered from 0, and those in
    /// `failing` fail.
    pub fn new(alloc: Global, files: Seq<File>, failing: Seq<u64>) -> Result<MemStore, Memory>
        ensures holds { IfOk result (λ s. ⟦<MemStore as Store>⟧.holds s ≡ Some (file_of files)) }
        ensures failing { IfOk result (λ s. s.failing ≡ failing) }
        ensures faults { IfOk result (λ s. ⟦<MemStore as Store>⟧.faults s ≡ 0) }
        ensures loads { IfOk result (λ s. ⟦<MemStore as Store>⟧.loads s ≡ 0) }
    {
        Ok(MemStore {
            files: Files::new(alloc, files)?,
            failing,
            faults: 0,
            loads: 0,
        })
    }
}

impl Store for MemStore {
    ghost faults = { λ s. s.faults };

    ghost holds = { λ s. Some (map_of s.files) };

    ghost loads = { λ s. s.loads };

    fn load(&mut self, alloc: Global, name: &Word, most: u64) -> Result<Word, LoadFault>
        requires { most < 2 ^ 32 }
        ensures given { IfOk result (λ w. Gives (Some (map_of self.old.files)) name.now most w) }
        ensures bounded { IfOk result (λ w. length w ≤ most + 1) }
        ensures holds { Some (map_of self.new.files) ≡ Some (map_of self.old.files) }
        ensures loads { self.new.loads ≡ capped (self.old.loads + 1) }
        ensures cause { HasLoadCause self.old.faults self.new.faults result }
        ensures after { state self.new ≡ after (state self.old) name.now }
        ensures answers { Answers (state self.old) name.now most result }
    {
        let call = self.loads;
        self.loads = self.loads.saturating_add(1);
        if self.failing.as_slice().contains(&call) {
            self.faults = self.faults.saturating_add(1);
            return Err(LoadFault::Fault);
        }
        match self.files.front(alloc, name, most) {
            Ok(Some(front)) => Ok(front),
            Ok(None) => {
                self.faults = self.faults.saturating_add(1);
                Err(LoadFault::Fault)
            }
            Err(Memory) => Err(LoadFault::Memory),
        }
    }
}
