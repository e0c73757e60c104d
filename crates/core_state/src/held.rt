//! What areas hold: a cell with its number, or the values of the elements or fields.

ghost use Rattle.std.specs.Prelude.{◌≡◌, ◌++◌, map, IfOk, OnOk, MatchOption};
ghost use Rattle.type_trees.specs.Values as values;
ghost use Rattle.core_state.specs.Types.{held_of, row_of};

use iv_words::{Memory, Seq};
use std::alloc::Global;
use std::mem;

#[derive(Drop)]
pub enum Held {
    Cell(i128),
    Parts(Seq<Held>),
}

impl Held {
    /// A value that equals this one.
    #[cycle(copies)]
    pub fn copy(&self, alloc: Global) -> Result<Held, Memory>
        ensures { IfOk result (λ h. h ≡ self.now) }
    {
        match self {
            Held::Cell(v) => Ok(Held::Cell(*v)),
            Held::Parts(parts) => Ok(Held::Parts(copied_all(parts, alloc)?)),
        }
    }

    /// The part to which a path leads, where there is one.
    pub fn at(&self, path: &[u32]) -> Option<&Held>
        ensures { MatchOption result (values.at (held_of self.now) path.now ≡ None) (λ found. values.at (held_of self.now) path.now ≡ Some (held_of found.now)) }
    {
        let Some((step, rest)) = path.split_first() else {
            return Some(self);
        };
        match self {
            Held::Cell(_) => None,
            Held::Parts(parts) => match parts.get(*step as usize) {
                Some(part) => part.at(rest),
                None => None,
            },
        }
    }

    /// The value with another in the place of the part to which a path leads.
    pub fn put(self, path: &[u32], value: Held) -> Held
        ensures { held_of result ≡ values.put (held_of self) path.now (held_of value) }
    {
        let Some((step, rest)) = path.split_first() else {
            return value;
        };
        match self {
            Held::Cell(v) => Held::Cell(v),
            Held::Parts(parts) => {
                let at = *step as usize;
                let mut items = parts.into_vec();
                if at >= items.len() {
                    return Held::Parts(Seq::from_vec(items));
                }
                let part = mem::replace(&mut items[at], Held::Cell(0));
                items[at] = part.put(rest, value);
                Held::Parts(Seq::from_vec(items))
            }
        }
    }

    /// Adds the numbers of all cells, in order.
    #[cycle(cells)]
    pub fn add_cells(&self, numbers: &mut Seq<i128>) -> Result<(), Memory>
        ensures { OnOk result (numbers.new ≡ numbers.old ++ values.cells (held_of self.now)) }
    {
        match self {
            Held::Cell(v) => numbers.push(*v),
            Held::Parts(parts) => add_all_cells(parts, numbers),
        }
    }
}

#[cycle(copies)]
fn copied_all(parts: &Seq<Held>, alloc: Global) -> Result<Seq<Held>, Memory>
    ensures { IfOk result (λ c. c ≡ parts.now) }
{
    let mut items = Seq::with_capacity(alloc, parts.len())?;
    for part in parts.iter() {
        items.push(part.copy(alloc)?)?;
    }
    Ok(items)
}

#[cycle(cells)]
fn add_all_cells(parts: &Seq<Held>, numbers: &mut Seq<i128>) -> Result<(), Memory>
    ensures { OnOk result (numbers.new ≡ numbers.old ++ values.cells_row (row_of (map held_of parts.now))) }
{
    for part in parts.iter() {
        part.add_cells(numbers)?;
    }
    Ok(())
}
