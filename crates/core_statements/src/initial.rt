//! The first value of a local area, from its initializer.

ghost use Rattle.std.specs.Prelude.{◌≡◌, ◌++◌, drop, length, map, slice_get, IfOk, OnOk};
ghost use Rattle.std.specs.Option.{option_map, option_copied};
ghost use Rattle.core_tree.specs.Cores.{core_of};
ghost use Rattle.core_tree.specs.View.{expr_of, init_of, inits_of};
ghost use Rattle.core_tree.specs.Syntax.{One};
ghost use Rattle.core_meaning.specs.Initializers as meaning;
ghost use Rattle.core_state.specs.Types.{written_of, held_of};
ghost use Rattle.core_expressions.specs.Reads.{Reads};
ghost use Rattle.core_statements.specs.Initial.{types_of, parts_of, zero_held, cell_part, TypesIn, ZeroAdded};

use crate::parts::formless;
use core_expressions::eval;
use core_state::{Held, Numbers, Program, State, Value, Written};
use core_tree::{CoreExpr, CoreInit};
use iv_words::{Memory, Seq};
use run_world::{Stopped, World};
use std::alloc::Global;

/// The types of the elements of an array, or of the fields of a struct.
#[derive(Clone, Copy, Drop)]
pub enum Types<'a> {
    Elements(u32, &'a Written),
    Fields(&'a Seq<Written>),
}

impl<'a> Types<'a> {
    fn len(self) -> usize
        ensures { result ≡ length (types_of self.entry) }
    {
        match self {
            Types::Elements(length, _) => length as usize,
            Types::Fields(fields) => fields.len(),
        }
    }

    /// The type of the part at a place.
    fn get(self, at: usize) -> Option<&'a Written>
        ensures { option_map written_of (option_copied result) ≡ slice_get (types_of self.entry) at }
    {
        match self {
            Types::Elements(length, element) => {
                if at < length as usize {
                    Some(element)
                } else {
                    None
                }
            }
            Types::Fields(fields) => fields.get(at),
        }
    }
}

/// The value of a type with zeros in its cells.
fn zeros(alloc: Global, ty: &Written) -> Result<Held, Memory>
    ensures { IfOk result (λ h. held_of h ≡ zero_held (written_of ty.now)) }
{
    let mut none = Numbers { rest: &[] };
    none.filled(alloc, ty)
}

/// Adds zeros for the part at a place.
fn add_zero<'a>(
    alloc: Global,
    types: Types<'a>,
    at: usize,
    parts: &mut Seq<Held>,
) -> Result<(), Memory>
    ensures { OnOk result (ZeroAdded (slice_get (types_of types.entry) at) (map held_of parts.old) (map held_of parts.new)) }
{
    let Some(ty) = types.get(at) else {
        return Ok(());
    };
    let part = zeros(alloc, ty)?;
    parts.push(part)?;
    Ok(())
}

/// Adds what the initializer does not name.
fn add_zeros<'a>(alloc: Global, types: Types<'a>, parts: &mut Seq<Held>) -> Result<(), Memory>
    ensures { OnOk result (map held_of parts.new ≡ map held_of parts.old ++ map zero_held (drop (length parts.old) (types_of types.entry))) }
{
    for i in parts.len()..types.len() {
        add_zero(alloc, types, i, parts)?;
    }
    Ok(())
}

/// The value of an expression in a cell.
fn cell_value(
    alloc: Global,
    program: &Program,
    state: &State,
    world: &mut World,
    e: &CoreExpr,
) -> Result<Held, Stopped>
    ensures { Reads program.now held_of (cell_part (core_of program.now) (expr_of e.now)) state.now world.old result world.new }
{
    match eval(alloc, program, state, world, &None, e)? {
        Value::Num(v) => Ok(Held::Cell(v)),
        Value::Ref(_, _) => Err(formless()),
    }
}

/// An initializer that is an expression, for a type.
fn one_value(
    alloc: Global,
    program: &Program,
    state: &State,
    world: &mut World,
    e: &CoreExpr,
    ty: &Written,
) -> Result<Held, Stopped>
    ensures { Reads program.now held_of (meaning.init_value (core_of program.now) (One (expr_of e.now)) (written_of ty.now)) state.now world.old result world.new }
{
    match ty {
        Written::Leaf(_) => cell_value(alloc, program, state, world, e),
        Written::Many(_, _) | Written::Struct(_, _) => Err(formless()),
    }
}

/// The types of the parts that braces give values to, where a type has parts.
fn types_in<'a>(ty: &'a Written) -> Option<Types<'a>>
    ensures { TypesIn (option_map types_of result) (written_of ty.now) }
{
    match ty {
        Written::Leaf(_) => None,
        Written::Many(length, element) => Some(Types::Elements(*length, element.get())),
        Written::Struct(_, fields) => Some(Types::Fields(fields)),
    }
}

/// The value that an initializer gives a type, from left to right.
#[cycle(initial)]
fn init_value(
    alloc: Global,
    program: &Program,
    state: &State,
    world: &mut World,
    init: &CoreInit,
    ty: &Written,
) -> Result<Held, Stopped>
    ensures { Reads program.now held_of (meaning.init_value (core_of program.now) (init_of init.now) (written_of ty.now)) state.now world.old result world.new }
{
    match init {
        CoreInit::One(e) => one_value(alloc, program, state, world, e, ty),
        CoreInit::Many(inits) => match types_in(ty) {
            None => Err(formless()),
            Some(types) => {
                let parts = init_values(alloc, program, state, world, inits, types)?;
                Ok(Held::Parts(parts))
            }
        },
    }
}

/// The values of the parts.
#[cycle(initial)]
fn init_values<'a>(
    alloc: Global,
    program: &Program,
    state: &State,
    world: &mut World,
    inits: &Seq<CoreInit>,
    types: Types<'a>,
) -> Result<Seq<Held>, Stopped>
    ensures { Reads program.now parts_of (meaning.init_values (core_of program.now) (inits_of inits.now) (types_of types.entry)) state.now world.old result world.new }
{
    let mut parts = Seq::new(alloc);
    for init in inits.iter() {
        let Some(ty) = types.get(parts.len()) else {
            return Err(formless());
        };
        let part = init_value(alloc, program, state, world, init, ty)?;
        parts.push(part)?;
    }
    add_zeros(alloc, types, &mut parts)?;
    Ok(parts)
}

/// The first value of an area of the type: what its initializer gives, or zeros.
pub fn first_value(
    alloc: Global,
    program: &Program,
    state: &State,
    world: &mut World,
    init: &Option<CoreInit>,
    ty: &Written,
) -> Result<Held, Stopped>
    ensures { Reads program.now held_of (meaning.first_value (core_of program.now) (option_map init_of init.now) (written_of ty.now)) state.now world.old result world.new }
{
    match init {
        None => Ok(zeros(alloc, ty)?),
        Some(init) => init_value(alloc, program, state, world, init, ty),
    }
}
