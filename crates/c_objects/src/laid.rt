//! Which scalars a type has, and where.

ghost use Rattle.std.specs.Prelude.{◌≡◌, ◌+◌, ◌++◌, IfSome, IfOk, OnOk, map};
ghost use Rattle.type_trees.specs.Trees.{Field as Member};
ghost use Rattle.type_trees.specs.Multiples.{up};
ghost use Rattle.type_trees.specs.Layouts.{align, size, lay, lay_row, rows};
ghost use Rattle.c_memory.specs.Access.{laid_out};
ghost use Rattle.c_ast.specs.Scalars.{metric_of};
ghost use Rattle.c_ast.specs.StaticTypes.{same_scalar};
ghost use Rattle.c_objects.specs.Shapes.{tree_of, field_of, row_from, type_tree};
ghost use Rattle.c_objects.specs.Laid.{Settles};

use crate::layout::{field_align, field_size, size_of_shape, up};
use crate::shape::{Field, ObjectType, Shape};
use c_ast::{CScalar, Target};
use iv_words::{Memory, Seq};

pub fn same(a: CScalar, b: CScalar) -> bool
    ensures { result ≡ same_scalar a b }
{
    match (a, b) {
        (CScalar::Truth, CScalar::Truth) => true,
        (CScalar::Truth, CScalar::Int(_)) | (CScalar::Int(_), CScalar::Truth) => false,
        (CScalar::Int(k), CScalar::Int(l)) => k == l,
    }
}

/// What a member says of a scalar at an offset of a struct: whether it is there, or where the members behind may begin.
#[derive(Clone, Copy, Drop)]
pub enum Seen {
    Settled(bool),
    Behind(u64),
}

/// Whether a scalar begins at an offset of a type, none where an offset passes 64 bits.
#[cycle(laid)]
pub fn is_laid_in_shape(t: Target, shape: &Shape, at: u64, s: CScalar) -> Option<bool>
    ensures { IfSome result (λ b. b ≡ laid_out same_scalar (at, s) (lay (metric_of t) (tree_of shape.now) 0)) }
{
    match shape {
        Shape::Leaf(u) => Some(at == 0 && same(s, *u)),
        Shape::Many(n, element) => is_laid_in_elements(t, *n, element.get(), at, s),
        Shape::Struct(_, fields) => is_laid_in_fields(t, fields.as_slice(), at, s),
    }
}

#[cycle(laid)]
fn is_laid_in_elements(t: Target, n: u32, element: &Shape, at: u64, s: CScalar) -> Option<bool>
    ensures { IfSome result (λ b. b ≡ laid_out same_scalar (at, s) (rows n (lay (metric_of t) (tree_of element.now)) (size (metric_of t) (tree_of element.now)) 0)) }
{
    let wide = size_of_shape(t, element)?;
    if wide == 0 {
        return Some(false);
    }
    if u64::from(n) <= at / wide {
        return Some(false);
    }
    is_laid_in_shape(t, element, at % wide, s)
}

#[cycle(laid)]
fn is_laid_in_fields(t: Target, fields: &[Field], at: u64, s: CScalar) -> Option<bool>
    ensures { IfSome result (λ b. b ≡ laid_out same_scalar (at, s) (lay_row (metric_of t) (row_from (map field_of fields.now)) 0 0)) }
{
    let mut end = 0;
    for field in fields {
        match look_in_field(t, field, end, at, s) {
            None => return None,
            Some(seen) => match seen {
                Seen::Settled(holds) => return Some(holds),
                Seen::Behind(next) => end = next,
            },
        }
    }
    Some(false)
}

#[cycle(laid)]
fn look_in_field(t: Target, field: &Field, end: u64, at: u64, s: CScalar) -> Option<Seen>
    ensures { IfSome result (Settles t (field_of field.now).1 end (at, s)) }
{
    let begin = up(end, field_align(t, field))?;
    let wide = field_size(t, field)?;
    if at < begin {
        return Some(Seen::Settled(false));
    }
    if wide <= at - begin {
        return Some(Seen::Behind(begin + wide));
    }
    let holds = is_laid_in_field(t, field, at - begin, s)?;
    Some(Seen::Settled(holds))
}

#[cycle(laid)]
fn is_laid_in_field(t: Target, field: &Field, at: u64, s: CScalar) -> Option<bool>
    ensures { IfSome result (λ b. b ≡ laid_out same_scalar (at, s) (lay (metric_of t) (field_of field.now).1 0)) }
{
    match field {
        Field::Named(_, shape) => match is_laid_in_shape(t, shape, at, s) {
            Some(holds) => Some(holds),
            None => None,
        },
    }
}

/// Whether a scalar begins at an offset of an object's type.
pub fn is_laid(t: Target, ty: ObjectType, at: u64, s: CScalar) -> Option<bool>
    ensures { IfSome result (λ b. b ≡ laid_out same_scalar (at, s) (lay (metric_of t) (type_tree ty.entry) 0)) }
{
    match ty {
        ObjectType::Scalar(u) => Some(at == 0 && same(s, u)),
        ObjectType::Missing(_) => Some(false),
        ObjectType::Shaped(shape) => is_laid_in_shape(t, shape, at, s),
    }
}

// ---- the scalars themselves

/// Adds the scalars of a type that begins at an offset, each with its offset.
#[cycle(lays)]
pub fn lay_shape(
    t: Target,
    shape: &Shape,
    at: u64,
    out: &mut Seq<(u64, CScalar)>,
) -> Result<(), Memory>
    ensures { OnOk result (out.new ≡ out.old ++ lay (metric_of t) (tree_of shape.now) at) }
{
    match shape {
        Shape::Leaf(s) => out.push((at, *s)),
        Shape::Many(n, element) => lay_elements(t, *n, element.get(), at, out),
        Shape::Struct(_, fields) => lay_fields(t, fields.as_slice(), at, out),
    }
}

#[cycle(lays)]
fn lay_elements(
    t: Target,
    n: u32,
    element: &Shape,
    at: u64,
    out: &mut Seq<(u64, CScalar)>,
) -> Result<(), Memory>
    ensures { OnOk result (out.new ≡ out.old ++ rows n (lay (metric_of t) (tree_of element.now)) (size (metric_of t) (tree_of element.now)) at) }
{
    let Some(wide) = size_of_shape(t, element) else {
        return Err(Memory);
    };
    let mut next = at;
    for _ in 0..n {
        lay_shape(t, element, next, out)?;
        match next.checked_add(wide) {
            Some(after) => next = after,
            None => return Err(Memory),
        }
    }
    Ok(())
}

#[cycle(lays)]
fn lay_fields(
    t: Target,
    fields: &[Field],
    at: u64,
    out: &mut Seq<(u64, CScalar)>,
) -> Result<(), Memory>
    ensures { OnOk result (out.new ≡ out.old ++ lay_row (metric_of t) (row_from (map field_of fields.now)) at 0) }
{
    let mut end = 0;
    for field in fields {
        match lay_next(t, field, at, end, out) {
            Ok(next) => end = next,
            Err(memory) => return Err(memory),
        }
    }
    Ok(())
}

#[cycle(lays)]
fn lay_next(
    t: Target,
    field: &Field,
    at: u64,
    end: u64,
    out: &mut Seq<(u64, CScalar)>,
) -> Result<u64, Memory>
    ensures next { IfOk result (λ n. n ≡ up end (align (metric_of t) (field_of field.now).1) + size (metric_of t) (field_of field.now).1) }
    ensures laid { OnOk result (out.new ≡ out.old ++ lay (metric_of t) (field_of field.now).1 (at + up end (align (metric_of t) (field_of field.now).1))) }
{
    let (Some(begin), Some(wide)) = (up(end, field_align(t, field)), field_size(t, field)) else {
        return Err(Memory);
    };
    let (Some(place), Some(next)) = (at.checked_add(begin), begin.checked_add(wide)) else {
        return Err(Memory);
    };
    lay_field(t, field, place, out)?;
    Ok(next)
}

#[cycle(lays)]
fn lay_field(t: Target, field: &Field, at: u64, out: &mut Seq<(u64, CScalar)>) -> Result<(), Memory>
    ensures { OnOk result (out.new ≡ out.old ++ lay (metric_of t) (field_of field.now).1 at) }
{
    match field {
        Field::Named(_, shape) => match lay_shape(t, shape, at, out) {
            Ok(()) => Ok(()),
            Err(memory) => Err(memory),
        },
    }
}

/// Adds the scalars of an object's type that begins at an offset.
pub fn lay_type(
    t: Target,
    ty: ObjectType,
    at: u64,
    out: &mut Seq<(u64, CScalar)>,
) -> Result<(), Memory>
    ensures { OnOk result (out.new ≡ out.old ++ lay (metric_of t) (type_tree ty.entry) at) }
{
    match ty {
        ObjectType::Scalar(s) => out.push((at, s)),
        ObjectType::Missing(_) => Ok(()),
        ObjectType::Shaped(shape) => lay_shape(t, shape, at, out),
    }
}
