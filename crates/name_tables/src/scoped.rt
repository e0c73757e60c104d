ghost use Rattle.std.specs.Prelude.{◌≡◌, ℕ, List, [], ◌∷◌, ◌++◌, cond, length, take, is_some, true, OnOk, MatchOption};
ghost use Rattle.std.specs.Borrow.{Bor};
ghost use Rattle.indexmap.specs.IndexMap.{get_by};
ghost use Rattle.iv_words.specs.Words.{same_word};
ghost use Rattle.name_tables.specs.Latest.{latest};
ghost use Rattle.name_tables.specs.Scoped.{latest_first};

use indexmap::IndexMap;
use iv_words::{Memory, Seq, Word};
use std::alloc::Global;
use std::marker::Model;

/// A name, what it was declared as, and what it stood for before that.
#[derive(Drop)]
struct Shadowing<'u, T: Copy> {
    name: &'u Word,
    value: T,
    before: Option<T>,
}

/// What names were declared as, the latest declaration last: the latest ones can be taken back.
#[derive(Drop)]
pub struct ScopeTable<'u, T: Copy> {
    entries: Seq<Shadowing<'u, T>>,
    hashed: IndexMap<&'u [u8], T>,
}

impl<'u, T: Copy> Model for ScopeTable<'u, T> {
    ghost use Rattle.std.specs.Prelude.{List, ℕ, [], map};
    ghost use Rattle.name_tables.specs.Scoped.{declaration, Scoped};

    ghost Value = { List (List ℕ × T) };

    ghost view = { λ t. map declaration t.entries };

    ghost invariant = { λ t. Scoped t.hashed t.entries };
}

/// Lets a name that has a value stand for what it stood for before.
fn restore<'u, T: Copy>(hashed: &mut IndexMap<&'u [u8], T>, name: &'u Word, before: Option<T>)
    requires { is_some (get_by (λ k. same_word name.now k.now) hashed.old) ≡ true }
    ensures { (q : Bor (List ℕ)) → get_by (λ k. same_word q.now k.now) hashed.new ≡ cond (same_word name.now q.now) before (get_by (λ k. same_word q.now k.now) hashed.old) }
{
    match before {
        None => {
            hashed.swap_remove(name.as_slice());
        }
        Some(value) => {
            let _ = hashed.insert(name.as_slice(), value);
        }
    }
}

impl<'u, T: Copy> ScopeTable<'u, T> {
    pub fn new(alloc: Global) -> ScopeTable<'u, T>
        ensures { result ≡ [] }
    {
        ScopeTable {
            entries: Seq::new(alloc),
            hashed: IndexMap::new(alloc),
        }
    }

    /// The number of declarations.
    pub fn len(&self) -> usize
        ensures { result ≡ length self.now }
    {
        self.entries.len()
    }

    /// What a name was declared as last.
    pub fn find(&self, name: &Word) -> Option<T>
        ensures { result ≡ latest (latest_first [] self.now) name.now }
    {
        self.hashed.get(name.as_slice()).copied()
    }

    /// Declares a name, whatever it was declared as before.
    pub fn declare(&mut self, name: &'u Word, value: T) -> Result<(), Memory>
        ensures { OnOk result (self.new ≡ self.old ++ (name.now, value) ∷ []) }
    {
        let count = self.entries.len();
        let before = self.hashed.get(name.as_slice()).copied();
        self.entries.push(Shadowing {
            name,
            value,
            before,
        })?;
        match self.hashed.insert(name.as_slice(), value) {
            Ok(_) => Ok(()),
            Err(_) => {
                self.entries.truncate(count);
                Err(Memory)
            }
        }
    }

    /// Takes the latest declaration back.
    fn take_back(&mut self) -> Option<(&'u Word, T)>
        ensures { MatchOption result ((self.old ≡ []) × (self.new ≡ [])) (λ d. self.old ≡ self.new ++ (d.0.now, d.1) ∷ []) }
    {
        match self.entries.pop() {
            None => None,
            Some(last) => {
                restore(&mut self.hashed, last.name, last.before);
                Some((last.name, last.value))
            }
        }
    }

    /// Takes back all declarations but the first so many.
    pub fn truncate(&mut self, count: usize)
        ensures { self.new ≡ take count self.old }
    {
        while count < self.entries.len() {
            self.take_back();
        }
    }
}
