//! Tables of names, found by hashing.

ghost use Rattle.std.specs.Prelude.{◌≡◌, [], not, IfOk, OnOk, IfErr};
ghost use Rattle.std.specs.List.{list_any};
ghost use Rattle.first_form.specs.Tables.{place_of, is_noted, noted};
ghost use Rattle.first_form.specs.Valid.{AllDifferent};
ghost use Rattle.first_form.specs.Answers.{IfRefused};

use crate::stop::Stop;
use indexmap::IndexSet;
use iv_words::{Memory, Word};
use std::alloc::Global;
use std::marker::Model;

/// Names in the order in which they were noted, each once.
#[derive(Drop)]
pub struct Names {
    set: IndexSet<Word>,
}

impl Model for Names {
    ghost use Rattle.std.specs.Prelude.{List, ℕ};

    ghost Value = { List (List ℕ) };

    ghost view = { λ n. n.set.keys };
}

impl Names {
    pub fn new(alloc: Global) -> Names
        ensures { result ≡ [] }
    {
        Names {
            set: IndexSet::new(alloc),
        }
    }

    /// The place of a name, counted from 0.
    pub fn find(&self, name: &Word) -> Option<usize>
        ensures { result ≡ place_of name.now self.now }
    {
        self.set.get_index_of(name)
    }

    pub fn contains(&self, name: &Word) -> bool
        ensures { result ≡ is_noted name.now self.now }
    {
        self.set.contains(name)
    }

    /// Whether one of these names is noted.
    pub fn contains_any(&self, names: &[Word]) -> bool
        ensures { result ≡ list_any (λ name. is_noted name self.now) names.now }
    {
        names.iter().any(|name| self.contains(name))
    }

    /// Notes a name, and tells whether it was new.
    pub fn note(&mut self, name: Word) -> Result<bool, Memory>
        ensures fresh { IfOk result (λ fresh. fresh ≡ not (is_noted name self.old)) }
        ensures names { OnOk result (self.new ≡ noted self.old name) }
    {
        let (_, fresh) = self.set.insert_full(name).map_err(|_| Memory)?;
        Ok(fresh)
    }
}

/// The table of these names, no two of which may be the same.
pub fn table_of(alloc: Global, names: &[Word]) -> Result<Names, Stop>
    ensures names { IfOk result (λ table. table ≡ names.now) }
    ensures different { OnOk result (AllDifferent names.now) }
    ensures refused { IfRefused result (¬ AllDifferent names.now) }
{
    let mut table = Names::new(alloc);
    for name in names {
        if !table.note(name.copy(alloc)?)? {
            return Err(Stop::Refused);
        }
    }
    Ok(table)
}
