//! How a state changes: areas and names come, blocks end, and calls begin and end.

ghost use Rattle.std.specs.Prelude.{◌≡◌, ◌++◌, ◌-◌, length, map, IfOk, OnOk};
ghost use Rattle.core_meaning.specs.State as meaning;
ghost use Rattle.core_state.specs.Types.{written_of, held_of};
ghost use Rattle.core_state.specs.State.{value_of, state_of};
ghost use Rattle.core_state.specs.Changes.{names_of, LeavesBlock};

use crate::held::Held;
use crate::state::{Frame, HeldArea, Name, Slot, State};
use crate::value::Value;
use crate::written::Written;
use iv_words::{Memory, Seq};
use std::alloc::Global;
use std::mem;

/// The last argument that is left becomes a name, with its number.
fn name_last(left: &mut Seq<Value>, names: &mut Seq<Name>) -> Result<(), Memory>
    ensures names { OnOk result (meaning.numbered 0 (map value_of left.new) ++ names_of names.new ≡ meaning.numbered 0 (map value_of left.old) ++ names_of names.old) }
    ensures length { OnOk result (length left.new ≡ length left.old - 1) }
{
    let Some(value) = left.pop() else {
        return Ok(());
    };
    let number = left.len();
    names.push(Name { number, value })?;
    Ok(())
}

/// The names of a call's parameters, from the last on, so that the first is found first.
fn parameters(alloc: Global, args: Seq<Value>) -> Result<Seq<Name>, Memory>
    ensures { IfOk result (λ names. names_of names ≡ meaning.numbered 0 (map value_of args)) }
{
    let mut left = args;
    let mut names = Seq::with_capacity(alloc, left.len())?;
    for _ in 0..left.len() {
        name_last(&mut left, &mut names)?;
    }
    Ok(names)
}

impl State {
    /// A new area of this type, which holds this, and the name for it.
    pub fn add_area(
        &mut self,
        alloc: Global,
        number: usize,
        ty: Written,
        held: Held,
    ) -> Result<(), Memory>
        ensures { OnOk result (state_of self.new ≡ meaning.with_area number (written_of ty) (held_of held) (state_of self.old)) }
    {
        let area = self.areas.len();
        let constant = false;
        self.areas
            .push(Slot::Live(HeldArea { ty, constant, held }))
            .map_err(|_| Memory)?;
        self.add_name(number, Value::Ref(area, Seq::new(alloc)))
    }

    /// A block ends, before which there were so many names and areas.
    pub fn leave(&mut self, names: usize, areas: usize)
        ensures { LeavesBlock names areas (state_of self.old) (state_of self.new) }
    {
        self.own.names.truncate(names);
        self.mark_from(areas);
    }

    /// A call begins, with its arguments alone in scope.
    pub fn enter(&mut self, alloc: Global, args: Seq<Value>) -> Result<(), Memory>
        ensures { OnOk result (state_of self.new ≡ meaning.enter (map value_of args) (state_of self.old)) }
    {
        let first = self.areas.len();
        let names = parameters(alloc, args)?;
        let caller = mem::replace(&mut self.own, Frame { names, first });
        self.callers.push(caller)
    }

    /// A call ends: its areas are gone, and its caller goes on.
    pub fn back(&mut self)
        ensures { state_of self.new ≡ meaning.back (state_of self.old) }
    {
        self.take_from(self.own.first);
        if let Some(caller) = self.callers.pop() {
            self.own = caller;
        }
    }
}
