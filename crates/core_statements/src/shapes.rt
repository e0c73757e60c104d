//! What an import may write, and the shape of its replies.

ghost use Rattle.std.specs.Prelude.{◌≡◌, ◌++◌, if◌then◌else◌, map, Some, None, IfOk, OnOk};
ghost use Rattle.std.specs.Option.{option_map, option_to_list};
ghost use Rattle.type_trees.specs.Trees.{scalars, scalars_row, repeated};
ghost use Rattle.area_types.specs.View.{type_of};
ghost use Rattle.core_tree.specs.Cores.{core_of};
ghost use Rattle.core_tree.specs.Exports as exports;
ghost use Rattle.core_meaning.specs.Imports as meaning;
ghost use Rattle.core_state.specs.Types.{written_of, fields_from};
ghost use Rattle.core_statements.specs.Replies.{targets_of, all_some, plains_in, shape_of};

use area_types::{RefType, ValueType};
use core_state::{Program, Written};
use iv_words::{Memory, Seq};
use run_records::Plain;
use std::alloc::Global;

/// The area behind a reference that is not const.
fn behind(alloc: Global, program: &Program, reference: &RefType) -> Result<Option<Written>, Memory>
    ensures { IfOk result (λ t. option_map written_of t ≡ meaning.writable (core_of program.now) (type_of (ValueType.Ref reference.now))) }
{
    if reference.constant {
        Ok(None)
    } else {
        Ok(Some(program.written(alloc, &reference.area)?))
    }
}

/// The area that an import may write by a parameter of the type.
fn writable(alloc: Global, program: &Program, ty: &ValueType) -> Result<Option<Written>, Memory>
    ensures { IfOk result (λ t. option_map written_of t ≡ meaning.writable (core_of program.now) (type_of ty.now)) }
{
    match ty {
        ValueType::Ref(reference) => behind(alloc, program, reference),
        ValueType::Bool | ValueType::Int(_) | ValueType::Ix(_) | ValueType::Bits(_) => Ok(None),
    }
}

/// What an import may write by its parameters, in order.
pub fn targets_of(
    alloc: Global,
    program: &Program,
    params: &[ValueType],
) -> Result<Seq<Option<Written>>, Memory>
    ensures { IfOk result (λ ts. targets_of ts ≡ map (meaning.writable (core_of program.now)) (map type_of params.now)) }
{
    let mut targets = Seq::with_capacity(alloc, params.len())?;
    for ty in params {
        targets.push(writable(alloc, program, ty)?)?;
    }
    Ok(targets)
}

/// The type that a cell of this type has outside, if it has one.
fn plain_of(ty: &ValueType) -> Option<Plain>
    ensures { result ≡ exports.plain_of (type_of ty.now) }
{
    match ty {
        ValueType::Bool => Some(Plain::Truth),
        ValueType::Int(kind) => Some(Plain::Int(*kind)),
        ValueType::Ix(_) | ValueType::Bits(_) | ValueType::Ref(_) => None,
    }
}

/// Adds the types that the cells of an area have outside.
#[cycle(plains)]
fn add_plains(ty: &Written, plains: &mut Seq<Option<Plain>>) -> Result<(), Memory>
    ensures { OnOk result (plains.new ≡ plains.old ++ map exports.plain_of (scalars (written_of ty.now))) }
{
    match ty {
        Written::Leaf(held) => plains.push(plain_of(held)),
        Written::Many(length, element) => add_elements(element.get(), *length, plains),
        Written::Struct(_, fields) => add_fields(fields, plains),
    }
}

#[cycle(plains)]
fn add_elements(
    element: &Written,
    length: u32,
    plains: &mut Seq<Option<Plain>>,
) -> Result<(), Memory>
    ensures { OnOk result (plains.new ≡ plains.old ++ map exports.plain_of (repeated length (scalars (written_of element.now)))) }
{
    for _ in 0..length {
        add_plains(element, plains)?;
    }
    Ok(())
}

#[cycle(plains)]
fn add_fields(fields: &Seq<Written>, plains: &mut Seq<Option<Plain>>) -> Result<(), Memory>
    ensures { OnOk result (plains.new ≡ plains.old ++ map exports.plain_of (scalars_row (fields_from 0 (map written_of fields.now)))) }
{
    for field in fields.iter() {
        add_plains(field, plains)?;
    }
    Ok(())
}

/// The types of all cells that an import may write.
fn plains_in(alloc: Global, targets: &[Option<Written>]) -> Result<Seq<Option<Plain>>, Memory>
    ensures { IfOk result (λ ps. ps ≡ plains_in (targets_of targets.now)) }
{
    let mut plains = Seq::new(alloc);
    for target in targets {
        match target {
            Some(ty) => add_plains(ty, &mut plains)?,
            None => {}
        }
    }
    Ok(plains)
}

/// Adds these types, where none of them is missing.
fn add_all(plains: &[Option<Plain>], shape: &mut Seq<Plain>) -> Result<bool, Memory>
    ensures { IfOk result (λ whole. option_map (λ ps. shape.old ++ ps) (all_some plains.now) ≡ (if whole then Some shape.new else None)) }
{
    for plain in plains {
        match plain {
            Some(plain) => shape.push(*plain)?,
            None => return Ok(false),
        }
    }
    Ok(true)
}

fn result_shape(alloc: Global, plain: Option<Plain>) -> Result<Seq<Plain>, Memory>
    ensures { IfOk result (λ shape. shape ≡ option_to_list plain) }
{
    let mut shape = Seq::new(alloc);
    match plain {
        Some(plain) => shape.push(plain)?,
        None => {}
    }
    Ok(shape)
}

/// The types of the values of a reply, or none where a cell has no type outside.
pub fn shape_of(
    alloc: Global,
    result_type: Option<Plain>,
    targets: &[Option<Written>],
) -> Result<Option<Seq<Plain>>, Memory>
    ensures { IfOk result (λ shape. shape ≡ shape_of result_type (targets_of targets.now)) }
{
    let plains = plains_in(alloc, targets)?;
    let mut shape = result_shape(alloc, result_type)?;
    if add_all(plains.as_slice(), &mut shape)? {
        Ok(Some(shape))
    } else {
        Ok(None)
    }
}
