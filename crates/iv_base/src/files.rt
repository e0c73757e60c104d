ghost use Rattle.std.specs.Prelude.{◌≡◌, ◌+◌, ◌<◌, ◌^◌, List, ℕ, take, Option, IfOk, OnOk, OnErr, IsSome};
ghost use Rattle.std.specs.Option.{option_map};
ghost use Rattle.iv_base.specs.Stores.{file_of, with_first};
ghost use Rattle.iv_base.specs.Tables.{map_of};

use crate::store::File;
use iv_words::{Memory, Seq, Word};
use std::alloc::Global;
use std::collections::HashMap;

/// The bytes of files, by their names.
#[derive(Debug, Drop)]
pub struct Files {
    by_name: HashMap<Word, Word>,
}

impl Files {
    /// Of two files of one name the first counts, so the last file is put in first.
    #[tactic(auto, unfolding(crate::specs::Tables::map_of))]
    pub fn new(alloc: Global, files: Seq<File>) -> Result<Files, Memory>
        ensures { IfOk result (λ f. map_of f ≡ file_of files) }
    {
        let mut left = files;
        let mut table = Files {
            by_name: HashMap::new(alloc),
        };
        while let Some(file) = left.pop() {
            table.put(file)?;
        }
        Ok(table)
    }

    /// Puts in a file, in place of one of its name that is there.
    #[tactic(auto, unfolding(crate::specs::Tables::map_of))]
    fn put(&mut self, file: File) -> Result<(), Memory>
        ensures { OnOk result ((name : List ℕ) → map_of self.new name ≡ with_first file (map_of self.old) name) }
    {
        let File { name, bytes } = file;
        match self.by_name.insert(name, bytes) {
            Ok(_) => Ok(()),
            Err(_) => Err(Memory),
        }
    }

    /// The first `most + 1` bytes under the name, or all where there are fewer, or none for an absent name,
    /// which takes no memory.
    #[tactic(auto, unfolding(crate::specs::Tables::map_of))]
    pub fn front(&self, alloc: Global, name: &Word, most: u64) -> Result<Option<Word>, Memory>
        requires { most < 2 ^ 32 }
        ensures front { IfOk result (λ w. w ≡ option_map (take (most + 1)) (map_of self.now name.now)) }
        ensures err { OnErr result (IsSome (map_of self.now name.now)) }
    {
        match self.by_name.get(name) {
            Some(bytes) => {
                let most = most as usize + 1;
                let end = bytes.len().min(most);
                let mut front = Word::new(alloc);
                front.extend_from_slice(&bytes.as_slice()[..end])?;
                Ok(Some(front))
            }
            None => Ok(None),
        }
    }
}
