//! Values of types that are made of numbers, one for each cell in order.

ghost use Rattle.std.specs.Prelude.{◌≡◌, ◌*◌, drop, get_or, map, pos, IfOk, OnOk};
ghost use Rattle.type_trees.specs.Trees.{count, count_row};
ghost use Rattle.core_meaning.specs.Areas as areas;
ghost use Rattle.core_state.specs.Types.{written_of, held_of, fields_from, row_of};

use crate::held::Held;
use crate::written::Written;
use iv_words::{Memory, Seq};
use std::alloc::Global;

/// Numbers that are left to be put into cells. Behind the last of them come zeros.
#[derive(Drop)]
pub struct Numbers<'a> {
    pub rest: &'a [i128],
}

impl<'a> Numbers<'a> {
    /// Takes the next.
    fn next(&mut self) -> i128
        ensures number { result ≡ get_or self.old.rest.now 0 (pos 0) }
        ensures rest { self.new.rest.now ≡ drop 1 self.old.rest.now }
    {
        match self.rest.split_first() {
            Some((v, rest)) => {
                self.rest = rest;
                *v
            }
            None => 0,
        }
    }

    /// The value of a type with the next numbers in its cells.
    #[cycle(filled)]
    pub fn filled(&mut self, alloc: Global, ty: &Written) -> Result<Held, Memory>
        ensures held { IfOk result (λ h. held_of h ≡ areas.filled (written_of ty.now) self.old.rest.now) }
        ensures rest { OnOk result (self.new.rest.now ≡ drop (count (written_of ty.now)) self.old.rest.now) }
    {
        match ty {
            Written::Leaf(_) => Ok(Held::Cell(self.next())),
            Written::Many(length, element) => {
                Ok(Held::Parts(self.elements(alloc, *length, element.get())?))
            }
            Written::Struct(_, fields) => Ok(Held::Parts(self.fields(alloc, fields)?)),
        }
    }

    /// So many values of a type.
    #[cycle(filled)]
    fn elements(
        &mut self,
        alloc: Global,
        length: u32,
        element: &Written,
    ) -> Result<Seq<Held>, Memory>
        ensures held { IfOk result (λ hs. row_of (map held_of hs) ≡ areas.filled_each length (count (written_of element.now)) (areas.filled (written_of element.now)) self.old.rest.now) }
        ensures rest { OnOk result (self.new.rest.now ≡ drop (length * count (written_of element.now)) self.old.rest.now) }
    {
        let mut parts = Seq::with_capacity(alloc, length as usize)?;
        for _ in 0..length {
            let part = self.filled(alloc, element)?;
            parts.push(part)?;
        }
        Ok(parts)
    }

    /// The values of fields.
    #[cycle(filled)]
    fn fields(&mut self, alloc: Global, fields: &Seq<Written>) -> Result<Seq<Held>, Memory>
        ensures held { IfOk result (λ hs. row_of (map held_of hs) ≡ areas.filled_row (fields_from 0 (map written_of fields.now)) self.old.rest.now) }
        ensures rest { OnOk result (self.new.rest.now ≡ drop (count_row (fields_from 0 (map written_of fields.now))) self.old.rest.now) }
    {
        let mut parts = Seq::with_capacity(alloc, fields.len())?;
        for field in fields.iter() {
            let part = self.filled(alloc, field)?;
            parts.push(part)?;
        }
        Ok(parts)
    }
}
