ghost use Rattle.std.specs.Prelude.{◌≡◌, [], ◌∷◌, OnOk};
ghost use Rattle.name_tables.specs.Latest.{latest};

use indexmap::IndexMap;
use iv_words::{Memory, Seq, Word};
use std::alloc::Global;
use std::marker::Model;

/// A name, and what it was declared as.
#[derive(Drop)]
struct Declared<'u, T: Copy> {
    name: &'u Word,
    value: T,
}

/// What names were declared as, the latest declaration first.
#[derive(Drop)]
pub struct NameTable<'u, T: Copy> {
    entries: Seq<Declared<'u, T>>,
    hashed: IndexMap<&'u [u8], T>,
}

impl<'u, T: Copy> Model for NameTable<'u, T> {
    ghost use Rattle.std.specs.Prelude.{List, ℕ, []};
    ghost use Rattle.name_tables.specs.Tables.{declared_in, Agree};

    ghost Value = { List (List ℕ × T) };

    ghost view = { λ t. declared_in [] t.entries };

    ghost invariant = { λ t. Agree t.hashed (declared_in [] t.entries) };
}

impl<'u, T: Copy> NameTable<'u, T> {
    pub fn new(alloc: Global) -> NameTable<'u, T>
        ensures { result ≡ [] }
    {
        NameTable {
            entries: Seq::new(alloc),
            hashed: IndexMap::new(alloc),
        }
    }

    /// What a name was declared as last.
    pub fn find(&self, name: &Word) -> Option<T>
        ensures { result ≡ latest self.now name.now }
    {
        self.hashed.get(name.as_slice()).copied()
    }

    /// Declares a name, whatever it was declared as before.
    pub fn declare(&mut self, name: &'u Word, value: T) -> Result<(), Memory>
        ensures { OnOk result (self.new ≡ (name.now, value) ∷ self.old) }
    {
        let count = self.entries.len();
        self.entries.push(Declared { name, value })?;
        match self.hashed.insert(name.as_slice(), value) {
            Ok(_) => Ok(()),
            Err(_) => {
                self.entries.truncate(count);
                Err(Memory)
            }
        }
    }
}
