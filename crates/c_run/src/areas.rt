//! What the outside sees of the objects of file scope.

ghost use Rattle.std.specs.Prelude.{◌≡◌, IfOk};
ghost use Rattle.c_ast.specs.View.{object_of};
ghost use Rattle.c_meaning.specs.State as meaning;
ghost use Rattle.c_expressions.specs.Programs.{program_of};
ghost use Rattle.c_expressions.specs.State.{state_of};
ghost use Rattle.c_run.specs.Areas.{area_at};

use c_ast::{CBase, CObject};
use c_expressions::{Program, State};
use c_operators::{Address, Trouble, base_ref};
use c_statements::{outer_name, values_behind};
use iv_words::{Memory, Seq, Word};
use run_records::AreaCells;
use std::alloc::Global;

/// The scalars of an object, in order.
fn cells_of<'a>(
    alloc: Global,
    program: &'a Program,
    state: &State<'a>,
    o: usize,
    base: &'a CBase,
) -> Result<Seq<i128>, Memory>
    ensures { IfOk result (λ cells. cells ≡ meaning.cells_of program.now.target program.now.unit.structs (state_of state.now) o base.now) }
{
    let from = Address {
        object: o,
        offset: 0,
    };
    match values_behind(alloc, program, &state.objects, base_ref(base), from) {
        Ok(values) => Ok(values),
        Err(Trouble::Memory) => Err(Memory),
        Err(Trouble::Undefined(_) | Trouble::Stuck) => Ok(Seq::new(alloc)),
    }
}

/// An object of file scope as the outside sees it.
fn area_of<'a>(
    alloc: Global,
    program: &'a Program,
    state: &State<'a>,
    o: usize,
    object: &'a CObject,
) -> Result<AreaCells, Memory>
    ensures { IfOk result (λ area. area ≡ area_at program.now (state_of state.now) o (object_of object.now)) }
{
    Ok(AreaCells {
        name: Word::from_slice(alloc, outer_name(&object.name))?,
        cells: cells_of(alloc, program, state, o, &object.base)?,
    })
}

/// All of them, in order.
pub fn areas_of<'a>(
    alloc: Global,
    program: &'a Program,
    state: &State<'a>,
) -> Result<Seq<AreaCells>, Memory>
    ensures { IfOk result (λ areas. areas ≡ meaning.seen (program_of program.now) (state_of state.now)) }
{
    let objects = program.unit().objects.as_slice();
    let mut areas = Seq::new(alloc);
    for o in 0..objects.len() {
        areas.push(area_of(alloc, program, state, o, &objects[o])?)?;
    }
    Ok(areas)
}
