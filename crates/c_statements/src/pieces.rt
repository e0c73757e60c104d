//! What the outside sees of the arguments of an extern.

ghost use Rattle.std.specs.Prelude.{◌≡◌, map, IfOk};
ghost use Rattle.c_memory.specs.Copies.{read_each};
ghost use Rattle.c_meaning.specs.Calls as meaning;
ghost use Rattle.c_meaning.specs.Memory as memory;
ghost use Rattle.c_meaning.specs.Memory.{memory_of};
ghost use Rattle.c_objects.specs.Shapes.{base_of};
ghost use Rattle.c_objects.specs.Store.{objects_of};
ghost use Rattle.c_operators.specs.Values.{address_of, value_of, itself, Gives};
ghost use Rattle.c_expressions.specs.Places.{Excused};
ghost use Rattle.c_statements.specs.Cells.{values_behind};

use crate::trouble::{answered, room};
use c_ast::CScalar;
use c_expressions::Program;
use c_objects::{Base, Objects, lay_type};
use c_operators::{Address, Trouble, Value};
use iv_words::{Memory, Seq};
use run_records::Piece;
use std::alloc::Global;

/// The scalars of a base, from where a pointer points to.
pub fn pointed(
    alloc: Global,
    program: &Program,
    base: Base,
    to: Address,
) -> Result<Seq<(u64, CScalar)>, Memory>
    ensures { IfOk result (λ places. places ≡ meaning.pointed program.now.target program.now.unit.structs (base_of base.entry) (address_of to)) }
{
    let mut places = Seq::new(alloc);
    lay_type(
        program.target(),
        program.type_of(base),
        to.offset,
        &mut places,
    )?;
    Ok(places)
}

/// The values of scalars of an object.
fn values_at(
    alloc: Global,
    program: &Program,
    objects: &Objects,
    object: usize,
    places: &[(u64, CScalar)],
) -> Result<Seq<i128>, Trouble>
    ensures { Gives Excused itself (memory.answered (read_each (memory_of program.now.target).read (objects_of objects.now) object places.now)) result }
{
    let mut values = Seq::new(alloc);
    answered(objects.read_each(program.target(), object, places, &mut values))?;
    Ok(values)
}

/// The values of the scalars behind a pointer.
pub fn values_behind(
    alloc: Global,
    program: &Program,
    objects: &Objects,
    base: Base,
    to: Address,
) -> Result<Seq<i128>, Trouble>
    ensures { Gives Excused itself (values_behind program.now (objects_of objects.now) (base_of base.entry) (address_of to)) result }
{
    let places = room(pointed(alloc, program, base, to))?;
    values_at(alloc, program, objects, to.object, places.as_slice())
}

fn piece_of(alloc: Global, program: &Program, objects: &Objects, v: Value) -> Result<Piece, Trouble>
    ensures { Gives Excused itself (meaning.piece_of program.now.target program.now.unit.structs (objects_of objects.now) (value_of v.entry)) result }
{
    match v {
        Value::Num(_, n) => Ok(Piece::Value(n)),
        Value::Ptr(_, base, to) => {
            let values = values_behind(alloc, program, objects, base, to)?;
            Ok(Piece::Cells(values))
        }
    }
}

/// A number is seen, and of a pointer what is behind it.
pub fn pieces_of(
    alloc: Global,
    program: &Program,
    objects: &Objects,
    values: &[Value],
) -> Result<Seq<Piece>, Trouble>
    ensures { Gives Excused itself (meaning.pieces_of program.now.target program.now.unit.structs (objects_of objects.now) (map value_of values.now)) result }
{
    let mut pieces = Seq::new(alloc);
    for v in values {
        let piece = piece_of(alloc, program, objects, *v)?;
        room(pieces.push(piece))?;
    }
    Ok(pieces)
}
