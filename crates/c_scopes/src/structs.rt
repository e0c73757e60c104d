//! Those structs of a unit that are declared before a place.

ghost use Rattle.std.specs.Prelude.{◌≡◌, ◌<◌, length, IfSome};
ghost use Rattle.std.specs.List.{list_any};
ghost use Rattle.iv_words.specs.Words.{same_word};
ghost use Rattle.c_ast.specs.Places.{place_from};
ghost use Rattle.c_scopes.specs.StructViews.{structs_view};

use crate::tables::StructTable;
use iv_words::Word;

/// The first structs of a unit: those that are declared before a place.
#[derive(Clone, Copy, Drop)]
pub struct Structs<'u> {
    pub table: &'u StructTable<'u>,
    pub count: usize,
}

/// All structs of a unit.
pub fn all_structs<'u>(table: &'u StructTable<'u>) -> Structs<'u>
    ensures { structs_view result ≡ table.now }
{
    Structs {
        table,
        count: table.len(),
    }
}

impl<'u> Structs<'u> {
    /// The place of the first struct of a tag.
    pub fn find(&self, tag: &Word) -> Option<usize>
        ensures place { result ≡ place_from 0 (structs_view self.now) tag.now }
        ensures within { IfSome result (λ k. k < length (structs_view self.now)) }
    {
        match self.table.find(tag) {
            None => None,
            Some(k) => if k < self.count { Some(k) } else { None },
        }
    }

    /// Whether there is a struct of a tag.
    pub fn has(&self, tag: &Word) -> bool
        ensures { result ≡ list_any (λ s. same_word s.name tag.now) (structs_view self.now) }
    {
        self.find(tag).is_some()
    }
}
