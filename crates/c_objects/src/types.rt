//! The types that a unit declares, each written out.

ghost use Rattle.std.specs.Prelude.{◌≡◌, [], ◌++◌, map, IfOk, MatchOption, None, Some, true, false};
ghost use Rattle.iv_words.specs.Words.{same_word};
ghost use Rattle.c_ast.specs.Structs.{base_tree, times, row_of, struct_of, table};
ghost use Rattle.c_ast.specs.Names.{named};
ghost use Rattle.c_objects.specs.Shapes.{tree_of, field_of, row_from, type_tree, base_of};

use crate::shape::{Base, Field, ObjectType, Shape};
use c_ast::{CBase, CMember, CStruct};
use iv_words::{Box, Memory, Seq, Word};
use std::alloc::Global;

/// The type of an entry, where it has this name.
fn named<'a>(field: &'a Field, w: &Word) -> Option<&'a Shape>
    ensures { MatchOption result (same_word (field_of field.now).0 w.now ≡ false) (λ a. (same_word (field_of field.now).0 w.now ≡ true) × ((field_of field.now).1 ≡ tree_of a.now)) }
{
    match field {
        Field::Named(name, shape) => { if *name == *w { Some(shape) } else { None } }
    }
}

/// The first type of a name.
pub fn find_type<'a>(types: &'a [Field], w: &Word) -> Option<&'a Shape>
    ensures { MatchOption result (named (map field_of types.now) w.now ≡ None) (λ a. named (map field_of types.now) w.now ≡ Some (tree_of a.now)) }
{
    for field in types {
        match named(field, w) {
            Some(shape) => return Some(shape),
            None => {}
        }
    }
    None
}

/// The type of a base where these types are declared.
pub fn type_of<'a>(types: &'a [Field], b: Base<'a>) -> ObjectType<'a>
    ensures { type_tree result ≡ base_tree (map field_of types.now) (base_of b.entry) }
{
    match b {
        Base::Scalar(s) => ObjectType::Scalar(s),
        Base::Struct(w) => match find_type(types, w) {
            Some(shape) => ObjectType::Shaped(shape),
            None => ObjectType::Missing(w),
        },
    }
}

fn base_shape(alloc: Global, types: &[Field], b: &CBase) -> Result<Shape, Memory>
    ensures { IfOk result (λ a. tree_of a ≡ base_tree (map field_of types.now) b.now) }
{
    match b {
        CBase::Scalar(s) => Ok(Shape::Leaf(*s)),
        CBase::Struct(w) => match find_type(types, w) {
            Some(shape) => shape.copy(alloc),
            None => Ok(Shape::Struct(w.copy(alloc)?, Seq::new(alloc))),
        },
    }
}

fn member_shape(alloc: Global, types: &[Field], m: &CMember) -> Result<Shape, Memory>
    ensures { IfOk result (λ a. tree_of a ≡ times m.now.length (base_tree (map field_of types.now) m.now.base)) }
{
    let shape = base_shape(alloc, types, &m.base)?;
    match m.length {
        None => Ok(shape),
        Some(n) => Ok(Shape::Many(n, Box::new(alloc, shape)?)),
    }
}

fn member_field(alloc: Global, types: &[Field], m: &CMember) -> Result<Field, Memory>
    ensures { IfOk result (λ f. field_of f ≡ (m.now.name, times m.now.length (base_tree (map field_of types.now) m.now.base))) }
{
    let shape = member_shape(alloc, types, m)?;
    Ok(Field::Named(m.name.copy(alloc)?, shape))
}

fn member_fields(alloc: Global, types: &[Field], members: &[CMember]) -> Result<Seq<Field>, Memory>
    ensures { IfOk result (λ fs. row_from (map field_of fs) ≡ row_of (map field_of types.now) members.now) }
{
    let mut fields = Seq::with_capacity(alloc, members.len())?;
    for m in members {
        fields.push(member_field(alloc, types, m)?)?;
    }
    Ok(fields)
}

fn struct_field(alloc: Global, types: &[Field], s: &CStruct) -> Result<Field, Memory>
    ensures { IfOk result (λ f. field_of f ≡ (s.now.name, struct_of (map field_of types.now) s.now)) }
{
    let fields = member_fields(alloc, types, s.members.as_slice())?;
    let shape = Shape::Struct(s.name.copy(alloc)?, fields);
    Ok(Field::Named(s.name.copy(alloc)?, shape))
}

/// The types of a unit's structs by name, each made of those before it.
pub fn make_types(alloc: Global, structs: &[CStruct]) -> Result<Seq<Field>, Memory>
    ensures { IfOk result (λ types. map field_of types ≡ table [] structs.now) }
{
    let mut types = Seq::with_capacity(alloc, structs.len())?;
    for s in structs {
        let field = struct_field(alloc, types.as_slice(), s)?;
        types.push(field)?;
    }
    Ok(types)
}
