//! What the outside sees of the arguments of an import.

ghost use Rattle.std.specs.Prelude.{◌≡◌, map, IfOk};
ghost use Rattle.std.specs.Option.{option_map};
ghost use Rattle.run_records.specs.declared.Piece.TheVariants as piece;
ghost use Rattle.core_meaning.specs.Areas as areas;
ghost use Rattle.core_meaning.specs.Imports as meaning;
ghost use Rattle.core_state.specs.State.{value_of, state_of};

use core_state::{State, Value};
use iv_words::{Memory, Seq};
use run_records::Piece;
use std::alloc::Global;

/// The cells behind a reference, where it leads to a part.
fn cells_at(
    alloc: Global,
    state: &State,
    area: usize,
    path: &[u32],
) -> Result<Option<Piece>, Memory>
    ensures { IfOk result (λ p. p ≡ option_map piece.Cells (areas.cells_at (state_of state.now).areas area path.now)) }
{
    match state.held_at(area, path) {
        None => Ok(None),
        Some(held) => {
            let mut cells = Seq::new(alloc);
            held.add_cells(&mut cells)?;
            Ok(Some(Piece::Cells(cells)))
        }
    }
}

fn piece_of(alloc: Global, state: &State, v: &Value) -> Result<Option<Piece>, Memory>
    ensures { IfOk result (λ p. p ≡ meaning.piece_of (state_of state.now).areas (value_of v.now)) }
{
    match v {
        Value::Num(n) => Ok(Some(Piece::Value(*n))),
        Value::Ref(area, path) => cells_at(alloc, state, *area, path),
    }
}

/// All arguments as the outside sees them, or none where a reference leads to no part.
pub fn pieces_of(alloc: Global, state: &State, args: &[Value]) -> Result<Option<Seq<Piece>>, Memory>
    ensures { IfOk result (λ ps. ps ≡ meaning.pieces_of (state_of state.now).areas (map value_of args.now)) }
{
    let mut pieces = Seq::with_capacity(alloc, args.len())?;
    for v in args {
        match piece_of(alloc, state, v)? {
            Some(piece) => pieces.push(piece)?,
            None => return Ok(None),
        }
    }
    Ok(Some(pieces))
}
