//! The module's own areas, with their first values.

ghost use Rattle.std.specs.Prelude.{◌≡◌, map, IfOk};
ghost use Rattle.core_tree.specs.Cores.{core_of};
ghost use Rattle.core_tree.specs.View.{area_item_of};
ghost use Rattle.core_meaning.specs.State as meaning;
ghost use Rattle.core_state.specs.State.{slot_of, state_of};

use core_state::{Frame, HeldArea, Numbers, Program, Slot, State};
use core_tree::CoreArea;
use iv_words::{Memory, Seq};
use std::alloc::Global;

fn first_area(alloc: Global, program: &Program, area: &CoreArea) -> Result<Slot, Memory>
    ensures { IfOk result (λ slot. slot_of slot ≡ meaning.first_area (core_of program.now) (area_item_of area.now)) }
{
    let ty = program.written(alloc, &area.area)?;
    let constant = area.constant;
    let mut numbers = Numbers {
        rest: area.first.as_slice(),
    };
    let held = numbers.filled(alloc, &ty)?;
    Ok(Slot::Live(HeldArea { ty, constant, held }))
}

fn first_areas(alloc: Global, program: &Program) -> Result<Seq<Slot>, Memory>
    ensures { IfOk result (λ slots. map slot_of slots ≡ map (meaning.first_area (core_of program.now)) (core_of program.now).areas) }
{
    let mut slots = Seq::new(alloc);
    for area in program.areas() {
        slots.push(first_area(alloc, program, area)?)?;
    }
    Ok(slots)
}

/// The state before the first entry call.
pub fn first_state(alloc: Global, program: &Program) -> Result<State, Memory>
    ensures { IfOk result (λ s. state_of s ≡ meaning.first_state (core_of program.now)) }
{
    let areas = first_areas(alloc, program)?.into_vec();
    let own = Frame {
        names: Seq::new(alloc),
        first: program.areas().len(),
    };
    Ok(State {
        areas,
        own,
        callers: Seq::new(alloc),
    })
}
