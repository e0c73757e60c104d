//! What the outside sees of the areas of a module.

ghost use Rattle.std.specs.Prelude.{◌≡◌, ◌++◌, IfOk, OnOk};
ghost use Rattle.core_tree.specs.Cores.{core_of};
ghost use Rattle.core_tree.specs.View.{area_item_of};
ghost use Rattle.core_meaning.specs.State as meaning;
ghost use Rattle.core_state.specs.State.{slot_of, state_of};

use core_state::{Program, Slot, State};
use core_tree::CoreArea;
use iv_words::{Memory, Seq};
use run_records::AreaCells;
use std::alloc::Global;

/// An area as the outside sees it, with its cells in order.
fn seen_as(alloc: Global, area: &CoreArea, slot: &Slot) -> Result<AreaCells, Memory>
    ensures { IfOk result (λ seen. seen ≡ meaning.seen_as (area_item_of area.now, slot_of slot.now)) }
{
    let name = area.name.copy(alloc)?;
    let mut cells = Seq::new(alloc);
    match slot {
        Slot::Live(held) => held.held.add_cells(&mut cells)?,
        Slot::Marked(held) => held.held.add_cells(&mut cells)?,
        Slot::Gone => {}
    }
    Ok(AreaCells { name, cells })
}

/// All of them, in order.
pub fn areas_of(alloc: Global, program: &Program, state: &State) -> Result<Seq<AreaCells>, Memory>
    ensures { IfOk result (λ areas. areas ≡ meaning.seen (core_of program.now) (state_of state.now)) }
{
    let areas = program.areas();
    let slots = state.areas.as_slice();
    let mut seen = Seq::new(alloc);
    for k in 0..areas.len().min(slots.len()) {
        seen.push(seen_as(alloc, &areas[k], &slots[k])?)?;
    }
    Ok(seen)
}
