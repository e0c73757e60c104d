//! The numbers that an initializer gives the scalars of a type.

ghost use Rattle.std.specs.Prelude.{◌≡◌, ◌++◌, [], map, length, OnOk};
ghost use Rattle.std.specs.Option.{option_map, option_copied};
ghost use Rattle.type_trees.specs.Values.{cells, cells_row};
ghost use Rattle.c_memory.specs.Initializers.{zeros, zeros_row, copies_of};
ghost use Rattle.c_meaning.specs.Memory.{nought};
ghost use Rattle.c_objects.specs.Shapes.{tree_of, field_of, row_from, type_tree};
ghost use Rattle.type_trees.specs.Trees.{Leaf, End};
ghost use Rattle.c_operators.specs.Values.{itself, Gives};
ghost use Rattle.c_expressions.specs.Places.{Excused};
ghost use Rattle.c_statements.specs.Given.{given_of, givens_of};
ghost use Rattle.c_statements.specs.Numbers.{number_given, numbers_given, elements_given, member_given, members_given, Adds};

use crate::assignment::as_number;
use crate::initial::Given;
use crate::trouble::room;
use c_ast::{CScalar, Target};
use c_objects::{Field, ObjectType, Shape};
use c_operators::Trouble;
use iv_words::{Memory, Seq};
use std::alloc::Global;

// ---- zeros

/// Adds a zero for each scalar.
#[cycle(zeros)]
fn add_zeros(shape: &Shape, out: &mut Seq<i128>) -> Result<(), Memory>
    ensures { OnOk result (out.new ≡ out.old ++ cells (zeros nought (tree_of shape.now))) }
{
    match shape {
        Shape::Leaf(_) => out.push(0),
        Shape::Many(n, element) => add_zero_elements(element.get(), *n as usize, out),
        Shape::Struct(_, fields) => add_zero_members(fields, out),
    }
}

#[cycle(zeros)]
fn add_zero_elements(element: &Shape, many: usize, out: &mut Seq<i128>) -> Result<(), Memory>
    ensures { OnOk result (out.new ≡ out.old ++ cells_row (copies_of many (zeros nought (tree_of element.now)))) }
{
    for _ in 0..many {
        add_zeros(element, out)?;
    }
    Ok(())
}

#[cycle(zeros)]
fn add_zero_members(fields: &Seq<Field>, out: &mut Seq<i128>) -> Result<(), Memory>
    ensures { OnOk result (out.new ≡ out.old ++ cells_row (zeros_row nought (row_from (map field_of fields.now)))) }
{
    for field in fields.as_slice() {
        add_zero_member(field, out)?;
    }
    Ok(())
}

#[cycle(zeros)]
fn add_zero_member(field: &Field, out: &mut Seq<i128>) -> Result<(), Memory>
    ensures { OnOk result (out.new ≡ out.old ++ cells (zeros nought (field_of field.now).1)) }
{
    match field {
        Field::Named(_, shape) => add_zeros(shape, out),
    }
}

// ---- values

fn number_given(t: Target, s: CScalar, given: &Given) -> Result<i128, Trouble>
    ensures { Gives Excused itself (number_given t s (given_of given.now)) result }
{
    match given {
        Given::One(v) => as_number(t, s, *v),
        Given::Zero | Given::Braces(_) => Err(Trouble::Stuck),
    }
}

fn add_number(t: Target, s: CScalar, given: &Given, out: &mut Seq<i128>) -> Result<(), Trouble>
    ensures { Adds (numbers_given t (Leaf s) (given_of given.now)) out.old out.new result }
{
    let n = number_given(t, s, given)?;
    room(out.push(n))
}

/// Adds the numbers of a type's scalars.
#[cycle(numbers)]
fn add_numbers(t: Target, shape: &Shape, given: &Given, out: &mut Seq<i128>) -> Result<(), Trouble>
    ensures { Adds (numbers_given t (tree_of shape.now) (given_of given.now)) out.old out.new result }
{
    match shape {
        Shape::Leaf(s) => add_number(t, *s, given, out),
        Shape::Many(n, element) => match given {
            Given::One(_) => Err(Trouble::Stuck),
            Given::Zero => room(add_zero_elements(element.get(), *n as usize, out)),
            Given::Braces(givens) => add_elements(t, element.get(), *n as usize, givens, out),
        },
        Shape::Struct(_, fields) => match given {
            Given::One(_) => Err(Trouble::Stuck),
            Given::Zero => room(add_zero_members(fields, out)),
            Given::Braces(givens) => add_members(t, fields, givens, out),
        },
    }
}

/// Of an array, each element that is given, and zeros for those that are not.
#[cycle(numbers)]
fn add_elements(
    t: Target,
    element: &Shape,
    many: usize,
    givens: &Seq<Given>,
    out: &mut Seq<i128>,
) -> Result<(), Trouble>
    ensures { Adds (elements_given t many (tree_of element.now) (givens_of givens.now)) out.old out.new result }
{
    for (i, given) in givens.as_slice().iter().enumerate() {
        if i >= many {
            return Err(Trouble::Stuck);
        }
        add_numbers(t, element, given, out)?;
    }
    room(add_zero_elements(element, many.saturating_sub(givens.len()), out))
}

/// Of a struct, each member that is given, and zeros for those that are not.
#[cycle(numbers)]
fn add_members(
    t: Target,
    fields: &Seq<Field>,
    givens: &Seq<Given>,
    out: &mut Seq<i128>,
) -> Result<(), Trouble>
    ensures { Adds (members_given t (row_from (map field_of fields.now)) (givens_of givens.now)) out.old out.new result }
{
    for (i, field) in fields.as_slice().iter().enumerate() {
        add_member(t, field, givens.get(i), out)?;
    }
    if givens.len() > fields.len() {
        return Err(Trouble::Stuck);
    }
    Ok(())
}

#[cycle(numbers)]
fn add_member(
    t: Target,
    field: &Field,
    given: Option<&Given>,
    out: &mut Seq<i128>,
) -> Result<(), Trouble>
    ensures { Adds (member_given t (field_of field.now).1 (option_map given_of (option_copied given.entry))) out.old out.new result }
{
    match field {
        Field::Named(_, shape) => match given {
            Some(given) => add_numbers(t, shape, given, out),
            None => room(add_zeros(shape, out)),
        },
    }
}

/// Of a struct that no unit declares, which has no members.
fn no_members(t: Target, givens: &Seq<Given>, out: &mut Seq<i128>) -> Result<(), Trouble>
    ensures { Adds (members_given t End (givens_of givens.now)) out.old out.new result }
{
    if givens.len() == 0 {
        Ok(())
    } else {
        Err(Trouble::Stuck)
    }
}

/// Adds the numbers of all scalars of a type.
fn add_all(t: Target, ty: ObjectType, given: &Given, out: &mut Seq<i128>) -> Result<(), Trouble>
    ensures { Adds (numbers_given t (type_tree ty.entry) (given_of given.now)) out.old out.new result }
{
    match ty {
        ObjectType::Scalar(s) => add_number(t, s, given, out),
        ObjectType::Shaped(shape) => add_numbers(t, shape, given, out),
        ObjectType::Missing(_) => match given {
            Given::Zero => Ok(()),
            Given::One(_) => Err(Trouble::Stuck),
            Given::Braces(givens) => no_members(t, givens, out),
        },
    }
}

/// The numbers of all scalars of a type, converted as by assignment, in order; the missing ones are zero.
pub fn numbers_of(
    alloc: Global,
    t: Target,
    ty: ObjectType,
    given: &Given,
) -> Result<Seq<i128>, Trouble>
    ensures { Gives Excused itself (numbers_given t (type_tree ty.entry) (given_of given.now)) result }
{
    let mut numbers = Seq::new(alloc);
    add_all(t, ty, given, &mut numbers)?;
    Ok(numbers)
}
