//! Sizes and alignments of types. A size that no number of 64 bits holds is none.

ghost use Rattle.std.specs.Prelude.{◌≡◌, ◌+◌, ◌≤◌, IfSome, map};
ghost use Rattle.type_trees.specs.Multiples.{up};
ghost use Rattle.type_trees.specs.Layouts.{align, align_row, size, end_row};
ghost use Rattle.c_ast.specs.Places.{row_size};
ghost use Rattle.c_ast.specs.Targets.{table_of};
ghost use Rattle.c_ast.specs.Scalars.{scalar_bytes, scalar_alignment, metric_of};
ghost use Rattle.c_objects.specs.Shapes.{tree_of, field_of, row_from, type_tree};

use crate::shape::{Field, ObjectType, Shape};
use c_ast::{CScalar, Target};
use iv_words::IntKind;

/// The bytes of a scalar.
pub fn width(s: CScalar) -> u64
    ensures value { result ≡ scalar_bytes s }
    ensures some { 1 ≤ result }
    ensures most { result ≤ 8 }
{
    match s {
        CScalar::Truth => 1,
        CScalar::Int(IntKind::U8 | IntKind::I8) => 1,
        CScalar::Int(IntKind::U16 | IntKind::I16) => 2,
        CScalar::Int(IntKind::U32 | IntKind::I32) => 4,
        CScalar::Int(IntKind::U64 | IntKind::I64) => 8,
    }
}

fn greatest_alignment(t: Target) -> u64
    ensures value { result ≡ (table_of t).greatest_alignment }
    ensures some { 1 ≤ result }
{
    match t {
        Target::T32 => 8,
    }
}

fn scalar_align(t: Target, s: CScalar) -> u64
    ensures value { result ≡ scalar_alignment (table_of t) s }
    ensures some { 1 ≤ result }
{
    width(s).min(greatest_alignment(t))
}

/// The alignment of a type: that of a scalar, or the greatest of a struct's members.
#[cycle(aligns)]
pub fn align_of_shape(t: Target, shape: &Shape) -> u64
    ensures value { result ≡ align (metric_of t) (tree_of shape.now) }
    ensures some { 1 ≤ result }
{
    match shape {
        Shape::Leaf(s) => scalar_align(t, *s),
        Shape::Many(_, element) => align_of_shape(t, element.get()),
        Shape::Struct(_, fields) => fields_align(t, fields.as_slice()),
    }
}

#[cycle(aligns)]
fn fields_align(t: Target, fields: &[Field]) -> u64
    ensures value { result ≡ align_row (metric_of t) (row_from (map field_of fields.now)) }
    ensures some { 1 ≤ result }
{
    let mut most = 1;
    for field in fields {
        most = most.max(field_align(t, field));
    }
    most
}

#[cycle(aligns)]
pub fn field_align(t: Target, field: &Field) -> u64
    ensures value { result ≡ align (metric_of t) (field_of field.now).1 }
    ensures some { 1 ≤ result }
{
    match field {
        Field::Named(_, shape) => align_of_shape(t, shape),
    }
}

/// The least multiple of an alignment that is not below an offset.
#[tactic(auto, unfolding(type_trees::specs::Multiples::up))]
pub fn up(o: u64, a: u64) -> Option<u64>
    requires { 1 ≤ a }
    ensures { IfSome result (λ n. n ≡ up o a) }
{
    o.checked_add((a - o % a) % a)
}

/// The bytes of a type (C99 6.5.3.4).
#[cycle(sizes)]
pub fn size_of_shape(t: Target, shape: &Shape) -> Option<u64>
    ensures { IfSome result (λ n. n ≡ size (metric_of t) (tree_of shape.now)) }
{
    match shape {
        Shape::Leaf(s) => Some(width(*s)),
        Shape::Many(n, element) => match size_of_shape(t, element.get()) {
            Some(each) => u64::from(*n).checked_mul(each),
            None => None,
        },
        Shape::Struct(_, fields) => fields_size(t, fields.as_slice()),
    }
}

#[cycle(sizes)]
fn fields_size(t: Target, fields: &[Field]) -> Option<u64>
    ensures { IfSome result (λ n. n ≡ row_size (metric_of t) (row_from (map field_of fields.now))) }
{
    let mut end = 0;
    for field in fields {
        match field_end(t, field, end) {
            Some(next) => end = next,
            None => return None,
        }
    }
    up(end, fields_align(t, fields))
}

/// Where a member ends that may begin at an offset.
#[cycle(sizes)]
fn field_end(t: Target, field: &Field, from: u64) -> Option<u64>
    ensures { IfSome result (λ n. n ≡ up from (align (metric_of t) (field_of field.now).1) + size (metric_of t) (field_of field.now).1) }
{
    match (up(from, field_align(t, field)), field_size(t, field)) {
        (Some(at), Some(wide)) => at.checked_add(wide),
        _ => None,
    }
}

#[cycle(sizes)]
pub fn field_size(t: Target, field: &Field) -> Option<u64>
    ensures { IfSome result (λ n. n ≡ size (metric_of t) (field_of field.now).1) }
{
    match field {
        Field::Named(_, shape) => match size_of_shape(t, shape) {
            Some(wide) => Some(wide),
            None => None,
        },
    }
}

/// The bytes of an object's type.
#[tactic(auto, unfolding(type_trees::specs::Multiples::up))]
pub fn size_of(t: Target, ty: ObjectType) -> Option<u64>
    ensures { IfSome result (λ n. n ≡ size (metric_of t) (type_tree ty.entry)) }
{
    match ty {
        ObjectType::Scalar(s) => Some(width(s)),
        ObjectType::Missing(_) => Some(0),
        ObjectType::Shaped(shape) => size_of_shape(t, shape),
    }
}
