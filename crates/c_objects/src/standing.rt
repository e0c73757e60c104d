//! Where a part of a wanted type begins in a type.

ghost use Rattle.std.specs.Prelude.{◌≡◌, ◌+◌, IfOk, IfSome, map};
ghost use Rattle.type_trees.specs.Trees.{Leaf, Struct, End};
ghost use Rattle.type_trees.specs.Multiples.{up};
ghost use Rattle.type_trees.specs.Layouts.{align, size};
ghost use Rattle.c_memory.specs.Standing.{any_of, stands, stands_row};
ghost use Rattle.c_ast.specs.Scalars.{metric_of};
ghost use Rattle.c_meaning.specs.Memory.{is_base};
ghost use Rattle.c_objects.specs.Shapes.{tree_of, field_of, row_from, type_tree, base_of};

use crate::laid::same;
use crate::layout::{field_align, field_size, size_of_shape, up};
use crate::shape::{Base, Field, ObjectType, Shape};
use c_ast::{CScalar, Target};
use iv_words::Word;

fn is_scalar(wanted: Base, s: CScalar) -> bool
    ensures { result ≡ is_base (base_of wanted.entry) (Leaf s) }
{
    match wanted {
        Base::Scalar(u) => same(u, s),
        Base::Struct(_) => false,
    }
}

fn is_struct(wanted: Base, name: &Word) -> bool
    ensures { result ≡ is_base (base_of wanted.entry) (Struct name.now End) }
{
    match wanted {
        Base::Scalar(_) => false,
        Base::Struct(w) => *w == *name,
    }
}

/// Whether a part of the wanted type begins at `o` in a type that begins at `at`; none where an offset passes 64 bits.
#[cycle(stands)]
fn stands_in(t: Target, wanted: Base, o: u64, shape: &Shape, at: u64) -> Option<bool>
    ensures { IfSome result (λ b. b ≡ stands (metric_of t) (is_base (base_of wanted.entry)) o (tree_of shape.now) at) }
{
    match shape {
        Shape::Leaf(s) => Some(is_scalar(wanted, *s) && at == o),
        Shape::Many(n, element) => stands_in_elements(t, wanted, o, *n, element.get(), at),
        Shape::Struct(name, fields) => {
            if is_struct(wanted, name) && at == o {
                return Some(true);
            }
            stands_in_fields(t, wanted, o, fields.as_slice(), at)
        }
    }
}

#[cycle(stands)]
fn stands_in_elements(
    t: Target,
    wanted: Base,
    o: u64,
    n: u32,
    element: &Shape,
    at: u64,
) -> Option<bool>
    ensures { IfSome result (λ b. b ≡ any_of n (stands (metric_of t) (is_base (base_of wanted.entry)) o (tree_of element.now)) (size (metric_of t) (tree_of element.now)) at) }
{
    let wide = size_of_shape(t, element)?;
    let mut next = at;
    for _ in 0..n {
        match stands_in(t, wanted, o, element, next) {
            None => return None,
            Some(true) => return Some(true),
            Some(false) => {}
        }
        match next.checked_add(wide) {
            None => return None,
            Some(after) => next = after,
        }
    }
    Some(false)
}

#[cycle(stands)]
fn stands_in_fields(t: Target, wanted: Base, o: u64, fields: &[Field], at: u64) -> Option<bool>
    ensures { IfSome result (λ b. b ≡ stands_row (metric_of t) (is_base (base_of wanted.entry)) o (row_from (map field_of fields.now)) at 0) }
{
    let mut end = 0;
    for field in fields {
        let begin = up(end, field_align(t, field))?;
        match stands_in_field(t, wanted, o, field, at.checked_add(begin)?) {
            None => return None,
            Some(true) => return Some(true),
            Some(false) => {}
        }
        end = begin.checked_add(field_size(t, field)?)?;
    }
    Some(false)
}

#[cycle(stands)]
fn stands_in_field(t: Target, wanted: Base, o: u64, field: &Field, at: u64) -> Option<bool>
    ensures { IfSome result (λ b. b ≡ stands (metric_of t) (is_base (base_of wanted.entry)) o (field_of field.now).1 at) }
{
    match field {
        Field::Named(_, shape) => match stands_in(t, wanted, o, shape, at) {
            Some(holds) => Some(holds),
            None => None,
        },
    }
}

/// Whether a part of the wanted type begins at an offset of an object's type.
pub fn is_base_at(t: Target, wanted: Base, ty: ObjectType, o: u64) -> Option<bool>
    ensures { IfSome result (λ b. b ≡ stands (metric_of t) (is_base (base_of wanted.entry)) o (type_tree ty.entry) 0) }
{
    match ty {
        ObjectType::Scalar(s) => Some(is_scalar(wanted, s) && 0 == o),
        ObjectType::Missing(name) => Some(is_struct(wanted, name) && 0 == o),
        ObjectType::Shaped(shape) => stands_in(t, wanted, o, shape, 0),
    }
}
