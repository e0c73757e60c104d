//! The scalars behind the pointers through which the reply to a call writes.

ghost use Rattle.std.specs.Prelude.{◌≡◌, ◌++◌, map, IfOk, OnOk};
ghost use Rattle.std.specs.Option.{option_map};
ghost use Rattle.c_ast.specs.Exports.{plain_of};
ghost use Rattle.c_meaning.specs.Calls.{pointed};
ghost use Rattle.c_objects.specs.Faults.{fault_of, Writes};
ghost use Rattle.c_objects.specs.Shapes.{base_of};
ghost use Rattle.c_objects.specs.Store.{objects_of};
ghost use Rattle.c_operators.specs.Values.{address_of, value_of};
ghost use Rattle.c_expressions.specs.State.{state_of};
ghost use Rattle.c_statements.specs.Cells as behind;
ghost use Rattle.c_statements.specs.Parts.{Alters};
ghost use Rattle.c_meaning.specs.Memory as memory;

use crate::pieces::pointed;
use crate::trouble::{answered, reason_of};
use c_ast::{CScalar, Target};
use c_expressions::{Program, State};
use c_objects::{Base, Fault, Objects, Refusal};
use c_operators::{Address, Trouble, Value};
use iv_words::{Memory, Seq};
use run_records::Plain;
use std::alloc::Global;

/// A scalar of an object.
#[derive(Clone, Copy, Drop)]
pub struct Cell {
    pub object: usize,
    pub at: u64,
    pub scalar: CScalar,
}

/// Adds the scalars of a base, from where a pointer points to.
fn add_pointed(
    alloc: Global,
    program: &Program,
    base: Base,
    to: Address,
    out: &mut Seq<Cell>,
) -> Result<(), Memory>
    ensures { OnOk result (out.new ≡ out.old ++ map (behind.cell_of to.object) (pointed program.now.target program.now.unit.structs (base_of base.entry) (address_of to))) }
{
    let places = pointed(alloc, program, base, to)?;
    for place in places.as_slice() {
        out.push(Cell {
            object: to.object,
            at: place.0,
            scalar: place.1,
        })?;
    }
    Ok(())
}

fn add_behind(alloc: Global, program: &Program, v: Value, out: &mut Seq<Cell>) -> Result<(), Memory>
    ensures { OnOk result (out.new ≡ out.old ++ behind.behind program.now.target program.now.unit.structs (value_of v.entry)) }
{
    match v {
        Value::Num(_, _) => Ok(()),
        Value::Ptr(constant, base, to) => {
            if constant {
                Ok(())
            } else {
                add_pointed(alloc, program, base, to, out)
            }
        }
    }
}

/// The scalars behind all pointers that are not to a const base, in order.
pub fn cells_behind(alloc: Global, program: &Program, values: &[Value]) -> Result<Seq<Cell>, Memory>
    ensures { IfOk result (λ cs. cs ≡ behind.all_behind program.now.target program.now.unit.structs (map value_of values.now)) }
{
    let mut found = Seq::new(alloc);
    for v in values {
        add_behind(alloc, program, *v, &mut found)?;
    }
    Ok(found)
}

/// The type of the values of a scalar.
pub fn plain_of(s: CScalar) -> Plain
    ensures { result ≡ plain_of s }
{
    match s {
        CScalar::Truth => Plain::Truth,
        CScalar::Int(kind) => Plain::Int(kind),
    }
}

/// Adds the types of the values of these scalars.
pub fn add_plains(cells: &[Cell], shape: &mut Seq<Plain>) -> Result<(), Memory>
    ensures { OnOk result (shape.new ≡ shape.old ++ map (λ c. plain_of c.scalar) cells.now) }
{
    for cell in cells {
        shape.push(plain_of(cell.scalar))?;
    }
    Ok(())
}

/// Why these scalars may not be written, the first of them that may not.
fn first_refusal(
    t: Target,
    objects: &Objects,
    cells: &[Cell],
    values: &[i128],
) -> Result<Option<Fault>, Memory>
    ensures { IfOk result (λ f. option_map fault_of f ≡ behind.first_refusal t (objects_of objects.now) cells.now values.now) }
{
    for i in 0..cells.len().min(values.len()) {
        let cell = cells[i];
        match objects.refuses(t, cell.object, cell.at, cell.scalar) {
            Err(memory) => return Err(memory),
            Ok(Some(fault)) => return Ok(Some(fault)),
            Ok(None) => {}
        }
    }
    Ok(None)
}

/// Puts values into scalars, in order.
fn put_each(
    t: Target,
    objects: &mut Objects,
    cells: &[Cell],
    values: &[i128],
) -> Result<(), Refusal>
    ensures { Writes (behind.written t cells.now values.now (objects_of objects.old)) (objects_of objects.new) result }
{
    for i in 0..cells.len().min(values.len()) {
        let cell = cells[i];
        match objects.write(t, cell.object, cell.at, cell.scalar, values[i]) {
            Err(refusal) => return Err(refusal),
            Ok(()) => {}
        }
    }
    Ok(())
}

/// Puts values into scalars, in order, or none where one of them may not be written.
pub fn write_cells<'a>(
    t: Target,
    state: &mut State<'a>,
    cells: &[Cell],
    values: &[i128],
) -> Result<(), Trouble>
    ensures { Alters (memory.answered (behind.written t cells.now values.now (objects_of state.old.objects))) (state_of state.old) (state_of state.new) result }
{
    match first_refusal(t, &state.objects, cells, values) {
        Err(_) => return Err(Trouble::Memory),
        Ok(Some(fault)) => return Err(Trouble::Undefined(reason_of(fault))),
        Ok(None) => {}
    }
    answered(put_each(t, &mut state.objects, cells, values))
}
