ghost use Rattle.std.specs.Prelude.{◌≡◌, [], ◌∷◌, ◌++◌, length, OnOk};
ghost use Rattle.name_tables.specs.FirstPlaces.{first_from};

use indexmap::IndexMap;
use iv_words::{Memory, Seq, Word};
use std::alloc::Global;
use std::marker::Model;

/// Names in a row, and the place of the first of each.
#[derive(Drop)]
pub struct NameRow<'u> {
    names: Seq<&'u Word>,
    places: IndexMap<&'u [u8], usize>,
}

impl<'u> Model for NameRow<'u> {
    ghost use Rattle.std.specs.Prelude.{List, ℕ, map};
    ghost use Rattle.name_tables.specs.FirstPlaces.{Placed};

    ghost Value = { List (List ℕ) };

    ghost view = { λ r. map (λ n. n.now) r.names };

    ghost invariant = { λ r. Placed r.places (map (λ n. n.now) r.names) };
}

impl<'u> NameRow<'u> {
    pub fn new(alloc: Global) -> NameRow<'u>
        ensures { result ≡ [] }
    {
        NameRow {
            names: Seq::new(alloc),
            places: IndexMap::new(alloc),
        }
    }

    /// The place of the first of a name, counted from 0.
    pub fn find(&self, name: &Word) -> Option<usize>
        ensures { result ≡ first_from 0 self.now name.now }
    {
        self.places.get(name.as_slice()).copied()
    }

    /// Puts a name behind the others.
    pub fn push(&mut self, name: &'u Word) -> Result<(), Memory>
        ensures { OnOk result (self.new ≡ self.old ++ name.now ∷ []) }
    {
        let count = self.names.len();
        let before = self.places.get(name.as_slice()).copied();
        self.names.push(name)?;
        match before {
            Some(_) => Ok(()),
            None => match self.places.insert(name.as_slice(), count) {
                Ok(_) => Ok(()),
                Err(_) => {
                    self.names.truncate(count);
                    Err(Memory)
                }
            },
        }
    }
}
