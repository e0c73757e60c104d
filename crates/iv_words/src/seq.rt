ghost use Rattle.std.specs.Prelude.{◌≡◌, [], ◌∷◌, ◌++◌, ◌<◌, length, take, slice_get, IfOk, OnOk, OnErr, OnSome, MatchOption};
ghost use Rattle.std.specs.Option.{option_copied};
ghost use Rattle.std.specs.Cmp.Lexicographic.{pointwise, lists_per, lists_equiv};

use crate::copied::Copied;
use crate::memory::Memory;
use std::alloc::Global;
use std::marker::Model;
use std::ops::DerefSlice;

/// A list of `T`. Contracts see a `Seq` as the list of its elements.
#[derive(Debug)]
pub struct Seq<T> {
    items: Vec<T>,
}

impl<T> Model for Seq<T> {
    ghost use Rattle.std.specs.Prelude.{List};
    ghost use Rattle.std.specs.Coded.{coded_list};

    ghost Value = { List T };

    ghost coded = { coded_list T.code };

    ghost view = { λ s. s.items.items };
}

impl<T> Seq<T> {
    /// The empty list, which takes the memory that it grows by from `alloc`.
    pub fn new(alloc: Global) -> Seq<T>
        ensures { result ≡ [] }
    {
        Seq {
            items: Vec::new(alloc),
        }
    }

    /// The empty list with room for so many elements: they are added later without another block of memory.
    pub fn with_capacity(alloc: Global, capacity: usize) -> Result<Seq<T>, Memory>
        ensures { IfOk result (λ s. s ≡ []) }
    {
        match Vec::with_capacity(alloc, capacity) {
            Ok(items) => Ok(Seq { items }),
            Err(_) => Err(Memory),
        }
    }

    /// The list of a `Vec`'s elements.
    pub fn from_vec(items: Vec<T>) -> Seq<T>
        ensures { result ≡ items.items }
    {
        Seq { items }
    }

    /// The elements as a `Vec`.
    pub fn into_vec(self) -> Vec<T>
        ensures { result.items ≡ self }
    {
        let Seq { items } = self;
        items
    }

    pub fn len(&self) -> usize
        ensures { result ≡ length self.now }
    {
        self.items.len()
    }

    pub fn as_slice(&self) -> &[T]
        ensures { result.now ≡ self.now }
    {
        self.items.as_slice()
    }

    /// The element at `at`, counted from 0, or none past the last.
    pub fn get(&self, at: usize) -> Option<&T>
        ensures value { option_copied result ≡ slice_get self.now at }
        ensures within { OnSome result (at < length self.now) }
    {
        self.items.get(at)
    }

    /// Takes the last element off, or answers none where there is none.
    pub fn pop(&mut self) -> Option<T>
        ensures { MatchOption result ((self.old ≡ []) × (self.new ≡ [])) (λ last. self.old ≡ self.new ++ last ∷ []) }
    {
        self.items.pop()
    }
}

impl<T: Drop> Drop for Seq<T> {
    fn drop(self) {
        let Seq { items: _ } = self;
    }
}

impl<T: Drop> Seq<T> {
    /// Adds an element at the end. For want of memory the list stays as it was.
    pub fn push(&mut self, x: T) -> Result<(), Memory>
        ensures ok { OnOk result (self.new ≡ self.old ++ x ∷ []) }
        ensures err { OnErr result (self.new ≡ self.old) }
    {
        self.items.push(x).map_err(|_| Memory)
    }

    /// Gives the elements up to the end of the process: their memory is never freed, and none of them is dropped.
    pub fn leak<'a>(self) -> &'a [T]
    where
        T: 'a,
        ensures { result.now ≡ self }
    {
        let Seq { items } = self;
        items.leak()
    }

    /// Keeps the first `n` elements, or all where there are fewer.
    pub fn truncate(&mut self, n: usize)
        ensures { self.new ≡ take n self.old }
    {
        self.items.truncate(n)
    }
}

impl<T: Drop + Copied> Seq<T> {
    /// A list that equals this one.
    pub fn copy(&self, alloc: Global) -> Result<Seq<T>, Memory>
        ensures { IfOk result (λ s. s ≡ self.now) }
    {
        let mut items = Seq::with_capacity(alloc, self.items.len())?;
        for x in self.items.as_slice() {
            items.push(x.copied(alloc)?)?;
        }
        Ok(items)
    }
}

impl<T: Drop + Copied> Copied for Seq<T> {
    fn copied(&self, alloc: Global) -> Result<Seq<T>, Memory> {
        self.copy(alloc)
    }
}

impl<T> DerefSlice for Seq<T> {
    type Elem = T;

    ghost deref_gives = { λ s xs. xs ≡ s };

    fn deref(&self) -> &[T]
        ensures { result.now ≡ self.now }
    {
        self.items.as_slice()
    }
}

impl<T: PartialEq> PartialEq for Seq<T> {
    ghost eq = { pointwise T.eq };

    ghost laws = { lists_per T.laws };

    fn eq(&self, other: &Seq<T>) -> bool {
        self.items == other.items
    }
}

impl<T: Eq> Eq for Seq<T> {
    ghost laws = { lists_equiv T.Eq.laws };
}
