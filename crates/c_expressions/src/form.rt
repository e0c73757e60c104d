//! What form a type of an object has, and what its members are.

ghost use Rattle.std.specs.Prelude.{◌≡◌, map};
ghost use Rattle.iv_words.specs.Words.{same_word};
ghost use Rattle.c_objects.specs.Shapes.{type_tree, field_of, row_from, tree_of};
ghost use Rattle.c_expressions.specs.Forms.{form_tree, Finds, Steps};

use c_ast::{CScalar, Target};
use c_objects::{Field, ObjectType, Shape, field_align, field_size, up};
use iv_words::Word;

/// A scalar, an array of so many elements, or a struct of a name with its members.
#[derive(Clone, Copy, Drop)]
pub(crate) enum Form<'a> {
    Scalar(CScalar),
    Array(u32, &'a Shape),
    Struct(&'a Word, &'a [Field]),
}

/// The first member of a name: there is none, or it begins there and has that type; or its offset passes 64 bits.
#[derive(Clone, Copy, Drop)]
pub(crate) enum Found<'a> {
    Missing,
    TooFar,
    At(u64, &'a Shape),
}

/// What one member says of a name, whatever members come behind it: those may begin there, or the member has the name.
#[derive(Clone, Copy, Drop)]
enum Step<'a> {
    TooFar,
    Here(u64, &'a Shape),
    Behind(u64),
}

pub(crate) fn form_of<'a>(ty: ObjectType<'a>) -> Form<'a>
    ensures { form_tree result ≡ type_tree ty.entry }
{
    match ty {
        ObjectType::Scalar(s) => Form::Scalar(s),
        ObjectType::Missing(name) => Form::Struct(name, &[]),
        ObjectType::Shaped(shape) => form_of_shape(shape),
    }
}

fn form_of_shape<'a>(shape: &'a Shape) -> Form<'a>
    ensures { form_tree result ≡ tree_of shape.now }
{
    match shape {
        Shape::Leaf(s) => Form::Scalar(*s),
        Shape::Many(n, element) => Form::Array(*n, element.get()),
        Shape::Struct(name, fields) => Form::Struct(name, fields.as_slice()),
    }
}

fn has_name(field: &Field, name: &Word) -> bool
    ensures { result ≡ same_word (field_of field.now).0 name.now }
{
    match field {
        Field::Named(own, _) => *own == *name,
    }
}

fn shape_of<'a>(field: &'a Field) -> &'a Shape
    ensures { tree_of result.now ≡ (field_of field.now).1 }
{
    match field {
        Field::Named(_, shape) => shape,
    }
}

fn look_at<'a>(t: Target, field: &'a Field, end: u64, name: &Word) -> Step<'a>
    ensures { Steps t (field_of field.now) name.now end result }
{
    let Some(begin) = up(end, field_align(t, field)) else {
        return Step::TooFar;
    };
    if has_name(field, name) {
        return Step::Here(begin, shape_of(field));
    }
    let Some(wide) = field_size(t, field) else {
        return Step::TooFar;
    };
    match begin.checked_add(wide) {
        Some(next) => Step::Behind(next),
        None => Step::TooFar,
    }
}

/// The first member of a name, and where it begins in its struct.
pub(crate) fn find_member<'a>(t: Target, fields: &'a [Field], name: &Word) -> Found<'a>
    ensures { Finds t (row_from (map field_of fields.now)) name.now result }
{
    let mut end = 0;
    for field in fields {
        match look_at(t, field, end, name) {
            Step::TooFar => return Found::TooFar,
            Step::Here(at, shape) => return Found::At(at, shape),
            Step::Behind(next) => end = next,
        }
    }
    Found::Missing
}
