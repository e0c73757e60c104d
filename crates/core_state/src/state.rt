//! The state of a run: the areas, and a frame for each call that is open.

ghost use Rattle.std.specs.Prelude.{◌≡◌, [], ◌∷◌, ◌++◌, length, take, map, reverse, IfOk, OnOk, OnErr, None, Some};
ghost use Rattle.std.specs.Option.{option_map, option_copied};
ghost use Rattle.core_meaning.specs.Areas as areas;
ghost use Rattle.core_meaning.specs.State as meaning;
ghost use Rattle.core_state.specs.Types.{written_of, held_of};
ghost use Rattle.core_state.specs.State.{value_of, area_of, slot_of, name_of, state_of};

use crate::held::Held;
use crate::value::Value;
use crate::written::Written;
use iv_words::{Memory, Seq};
use std::mem;

/// An area with its type and what it holds.
#[derive(Drop)]
pub struct HeldArea {
    pub ty: Written,
    pub constant: bool,
    pub held: Held,
}

/// An area while its block goes on, after it, and when its procedure has ended.
#[derive(Drop)]
pub enum Slot {
    Live(HeldArea),
    Marked(HeldArea),
    Gone,
}

/// A name in scope, by number.
#[derive(Drop)]
pub struct Name {
    pub number: usize,
    pub value: Value,
}

/// The names in scope in a call, the latest last, and the number of its first area.
#[derive(Drop)]
pub struct Frame {
    pub names: Seq<Name>,
    pub first: usize,
}

/// The areas by number, the frame of the call that runs, and those of its callers, the nearest last.
#[derive(Drop)]
pub struct State {
    pub areas: Vec<Slot>,
    pub own: Frame,
    pub callers: Seq<Frame>,
}

impl Slot {
    fn with_part(self, path: &[u32], held: Held) -> Slot
        ensures { slot_of result ≡ areas.put_part path.now (held_of held) (slot_of self) }
    {
        match self {
            Slot::Live(area) => Slot::Live(area.with_part(path, held)),
            Slot::Marked(area) => Slot::Marked(area.with_part(path, held)),
            Slot::Gone => Slot::Gone,
        }
    }

    fn marked(self) -> Slot
        ensures { slot_of result ≡ areas.marked (slot_of self) }
    {
        match self {
            Slot::Live(area) => Slot::Marked(area),
            Slot::Marked(area) => Slot::Marked(area),
            Slot::Gone => Slot::Gone,
        }
    }
}

impl HeldArea {
    fn with_part(self, path: &[u32], held: Held) -> HeldArea
        ensures { area_of result ≡ areas.with_part path.now (held_of held) (area_of self) }
    {
        let HeldArea {
            ty,
            constant,
            held: before,
        } = self;
        HeldArea {
            ty,
            constant,
            held: before.put(path, held),
        }
    }
}

impl State {
    fn area(&self, number: usize) -> Option<&HeldArea>
        ensures { option_map area_of (option_copied result) ≡ areas.area_at (state_of self.now).areas number }
    {
        match self.areas.get(number) {
            Some(slot) => match slot {
                Slot::Live(area) => Some(area),
                Slot::Marked(area) => Some(area),
                Slot::Gone => None,
            },
            None => None,
        }
    }

    /// The type of the part of an area to which a path leads.
    pub fn type_at(&self, number: usize, path: &[u32]) -> Option<&Written>
        ensures { option_map written_of (option_copied result) ≡ areas.type_at (state_of self.now).areas number path.now }
    {
        match self.area(number) {
            Some(area) => area.ty.part(path),
            None => None,
        }
    }

    /// What that part holds.
    pub fn held_at(&self, number: usize, path: &[u32]) -> Option<&Held>
        ensures { option_map held_of (option_copied result) ≡ areas.held_at (state_of self.now).areas number path.now }
    {
        match self.area(number) {
            Some(area) => area.held.at(path),
            None => None,
        }
    }

    /// The value of the name of that number, the latest that is in scope.
    pub fn value(&self, number: usize) -> Option<&Value>
        ensures { option_map value_of (option_copied result) ≡ meaning.value_of number (state_of self.now) }
    {
        let mut found = None;
        for name in self.own.names.as_slice() {
            if name.number == number {
                found = Some(&name.value);
            }
        }
        found
    }

    /// A name comes into scope.
    pub fn add_name(&mut self, number: usize, value: Value) -> Result<(), Memory>
        ensures state { OnOk result (state_of self.new ≡ meaning.with_name number (value_of value) (state_of self.old)) }
        ensures names { OnOk result (self.new ≡ record self.old { own = record self.old.own { names = self.old.own.names ++ record { number = number; value = value } ∷ [] } }) }
    {
        self.own.names.push(Name { number, value })
    }

    /// The part of an area to which a path leads now holds that.
    pub fn put_at(&mut self, number: usize, path: &[u32], held: Held)
        ensures state { state_of self.new ≡ meaning.holding number path.now (held_of held) (state_of self.old) }
        ensures own { self.new.own ≡ self.old.own }
        ensures callers { self.new.callers ≡ self.old.callers }
    {
        if number >= self.areas.len() {
            return;
        }
        let slot = mem::replace(&mut self.areas[number], Slot::Gone);
        self.areas[number] = slot.with_part(path, held);
    }

    /// Marks the areas from that number on.
    pub fn mark_from(&mut self, first: usize)
        ensures areas { map slot_of self.new.areas.items ≡ areas.mark_from first (map slot_of self.old.areas.items) }
        ensures own { self.new.own ≡ self.old.own }
        ensures callers { self.new.callers ≡ self.old.callers }
    {
        for number in first..self.areas.len() {
            let slot = mem::replace(&mut self.areas[number], Slot::Gone);
            self.areas[number] = slot.marked();
        }
    }

    /// Takes the areas from that number on out of the map.
    pub fn take_from(&mut self, first: usize)
        ensures areas { map slot_of self.new.areas.items ≡ areas.take_from first (map slot_of self.old.areas.items) }
        ensures own { self.new.own ≡ self.old.own }
        ensures callers { self.new.callers ≡ self.old.callers }
    {
        for number in first..self.areas.len() {
            self.areas[number] = Slot::Gone;
        }
    }
}
