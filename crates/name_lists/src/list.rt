ghost use Rattle.std.specs.Prelude.{◌≡◌, ◌<◌, ℕ, List, [], ◌∷◌, ◌++◌, length, cond, Some, None, IfSome, OnOk, OnErr};
ghost use Rattle.std.specs.List.{list_any, position_from};
ghost use Rattle.std.specs.Option.{option_or};
ghost use Rattle.indexmap.specs.IndexMap.{get_by};
ghost use Rattle.iv_words.specs.Words.{same_word};

use indexmap::IndexMap;
use iv_words::{Memory, Seq, Word};
use std::alloc::Global;
use std::marker::Model;

/// A list of names, with the number of each one's first place. Contracts see it as the list.
pub struct NameList {
    names: Seq<Word>,
    numbers: IndexMap<Word, usize>,
}

impl Drop for NameList {
    fn drop(self) {
        let NameList {
            names: _,
            numbers: _,
        } = self;
    }
}

impl Model for NameList {
    ghost use Rattle.std.specs.Prelude.{List, ℕ};
    ghost use Rattle.name_lists.specs.Numbers.{NumbersOf};

    ghost Value = { List (List ℕ) };

    ghost view = { λ l. l.names };

    ghost invariant = { λ l. NumbersOf l.numbers l.names };
}

impl NameList {
    pub fn new(alloc: Global) -> NameList
        ensures { result ≡ [] }
    {
        NameList {
            names: Seq::new(alloc),
            numbers: IndexMap::new(alloc),
        }
    }

    /// The number of the first place of a name, counted from 0.
    pub fn position(&self, name: &Word) -> Option<usize>
        ensures first { result ≡ position_from (λ n. same_word n name.now) 0 self.now }
        ensures within { IfSome result (λ k. k < length self.now) }
    {
        self.numbers.get(name).copied()
    }

    #[tactic(auto, using(crate::proofs::Positions::position_is_any))]
    pub fn contains(&self, name: &Word) -> bool
        ensures { result ≡ list_any (λ n. same_word n name.now) self.now }
    {
        self.position(name).is_some()
    }

    /// Adds a name at the end. For want of memory the list stays as it was.
    pub fn push(&mut self, alloc: Global, name: Word) -> Result<(), Memory>
        ensures ok { OnOk result (self.new ≡ self.old ++ name ∷ []) }
        ensures err { OnErr result (self.new ≡ self.old) }
    {
        let count = self.names.len();
        let key = name.copy(alloc)?;
        self.names.push(name)?;
        match number_new(&mut self.numbers, key, count) {
            Ok(()) => Ok(()),
            Err(memory) => {
                self.names.truncate(count);
                Err(memory)
            }
        }
    }
}

/// Numbers a name that has no number so far.
fn number_new(numbers: &mut IndexMap<Word, usize>, name: Word, number: usize) -> Result<(), Memory>
    ensures ok { OnOk result ((q : List ℕ) → get_by (λ k. same_word q k) numbers.new ≡ option_or (get_by (λ k. same_word q k) numbers.old) (cond (same_word name q) (Some number) None)) }
    ensures err { OnErr result ((q : List ℕ) → get_by (λ k. same_word q k) numbers.new ≡ get_by (λ k. same_word q k) numbers.old) }
{
    match numbers.get(&name) {
        Some(_) => Ok(()),
        None => match numbers.insert(name, number) {
            Ok(_) => Ok(()),
            Err(_) => Err(Memory),
        },
    }
}
