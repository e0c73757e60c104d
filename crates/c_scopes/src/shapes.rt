//! Types of objects and their parts: what a tag stands for is looked up in the unit, and nothing is written out.

ghost use Rattle.std.specs.Prelude.{◌≡◌, [], is_some};
ghost use Rattle.std.specs.Option.{option_map, option_and_then};
ghost use Rattle.c_ast.specs.StaticTypes as static_types;
ghost use Rattle.c_ast.specs.Structs.{row_of, table, times, tree};
ghost use Rattle.c_text.specs.Rules.{where_typed};
ghost use Rattle.c_text.specs.ExpressionRules as rules;
ghost use Rattle.c_scopes.specs.Views.{base_view, value_view};
ghost use Rattle.c_scopes.specs.Shapes.{shape_view, place_view};
ghost use Rattle.c_scopes.specs.StructViews.{structs_view};
ghost use Rattle.c_scopes.specs.Tables.{members_view};

use crate::structs::Structs;
use crate::tables::MemberTable;
use crate::types::{Base, ValueType, base_of};
use c_ast::{CKind, CScalar};
use iv_words::Word;

/// The type of an object or a part: an array of so many elements of a base, or a struct of its name and its members, if it is there;
/// with both go the structs that their tags are looked up in.
#[derive(Clone, Copy, Drop)]
pub enum Shape<'u> {
    Scalar(CScalar),
    Array(u32, Base<'u>, Structs<'u>),
    Struct(&'u Word, Option<&'u MemberTable<'u>>, Structs<'u>),
}

/// The type of a place, or that it has none: of a name that holds a value, or of an object with its `const`.
#[derive(Clone, Copy, Drop)]
pub enum PlaceType<'u> {
    Unknown,
    HeldNumber(CKind),
    HeldPointer(bool, Base<'u>),
    Stored(bool, Shape<'u>),
}

/// The type that a base stands for behind these structs.
pub fn shape_of<'u>(structs: Structs<'u>, base: &Base<'u>) -> Shape<'u>
    ensures { shape_view result ≡ tree (structs_view structs.entry) (base_view base.now) }
{
    match base {
        Base::Scalar(scalar) => Shape::Scalar(*scalar),
        Base::Struct(tag) => match structs.find(tag) {
            Some(k) => Shape::Struct(
                structs.table.tag(k),
                Some(structs.table.members(k)),
                Structs {
                    table: structs.table,
                    count: k,
                },
            ),
            None => Shape::Struct(tag, None, structs),
        },
    }
}

/// An array of it, where there is a length.
pub fn times_shape<'u>(length: Option<u32>, structs: Structs<'u>, base: &Base<'u>) -> Shape<'u>
    ensures { shape_view result ≡ times length (tree (structs_view structs.entry) (base_view base.now)) }
{
    match length {
        None => shape_of(structs, base),
        Some(n) => Shape::Array(n, *base, structs),
    }
}

/// The type of the first member of a name.
fn found_member<'u>(
    structs: Structs<'u>,
    members: &'u MemberTable<'u>,
    name: &Word,
) -> Option<Shape<'u>>
    ensures { option_map shape_view result ≡ static_types.member_tree (row_of (table [] (structs_view structs.entry)) members.now) name.now }
{
    match members.find(name) {
        None => None,
        Some(m) => Some(times_shape(m.length, structs, &base_of(&m.base))),
    }
}

/// The same, where there are members.
fn member_shape<'u>(
    structs: Structs<'u>,
    members: Option<&'u MemberTable<'u>>,
    name: &Word,
) -> Option<Shape<'u>>
    ensures { option_map shape_view result ≡ static_types.member_tree (row_of (table [] (structs_view structs.entry)) (members_view members.entry)) name.now }
{
    match members {
        None => None,
        Some(members) => found_member(structs, members, name),
    }
}

// ---- places

/// `*` of a pointer.
pub fn of_pointee<'u>(structs: Structs<'u>, value: &ValueType<'u>) -> PlaceType<'u>
    ensures { place_view result ≡ option_and_then (static_types.of_pointee (structs_view structs.entry)) (value_view value.now) }
{
    match value {
        ValueType::Pointer(constant, base) => {
            PlaceType::Stored(*constant, shape_of(structs, base))
        }
        ValueType::Unknown | ValueType::Number(_) => PlaceType::Unknown,
    }
}

fn stored<'u>(constant: bool, shape: Option<Shape<'u>>) -> PlaceType<'u>
    ensures { place_view result ≡ option_map (static_types.Stored constant) (option_map shape_view shape.entry) }
{
    match shape {
        None => PlaceType::Unknown,
        Some(shape) => PlaceType::Stored(constant, shape),
    }
}

pub fn of_member<'u>(name: &Word, place: &PlaceType<'u>) -> PlaceType<'u>
    ensures { place_view result ≡ option_and_then (static_types.of_member name.now) (place_view place.now) }
{
    match place {
        PlaceType::Unknown | PlaceType::HeldNumber(_) | PlaceType::HeldPointer(_, _) => {
            PlaceType::Unknown
        },
        PlaceType::Stored(constant, shape) => match shape {
            Shape::Scalar(_) | Shape::Array(_, _, _) => PlaceType::Unknown,
            Shape::Struct(_, members, structs) => {
                stored(*constant, member_shape(*structs, *members, name))
            }
        },
    }
}

pub fn of_element<'u>(place: &PlaceType<'u>, index: &ValueType<'u>) -> PlaceType<'u>
    ensures { place_view result ≡ static_types.of_both static_types.of_element (place_view place.now) (value_view index.now) }
{
    match place {
        PlaceType::Unknown | PlaceType::HeldNumber(_) | PlaceType::HeldPointer(_, _) => {
            PlaceType::Unknown
        },
        PlaceType::Stored(constant, shape) => of_stored_element(*constant, shape, index),
    }
}

fn of_stored_element<'u>(constant: bool, shape: &Shape<'u>, index: &ValueType<'u>) -> PlaceType<'u>
    ensures { place_view result ≡ option_and_then (static_types.of_element (static_types.Stored constant (shape_view shape.now))) (value_view index.now) }
{
    match shape {
        Shape::Array(_, base, structs) => match index {
            ValueType::Number(_) => PlaceType::Stored(constant, shape_of(*structs, base)),
            ValueType::Unknown | ValueType::Pointer(_, _) => PlaceType::Unknown,
        },
        Shape::Scalar(_) => match index {
            ValueType::Unknown => PlaceType::Unknown,
            ValueType::Number(_) | ValueType::Pointer(_, _) => PlaceType::Unknown,
        },
        Shape::Struct(_, _, _) => match index {
            ValueType::Unknown => PlaceType::Unknown,
            ValueType::Number(_) | ValueType::Pointer(_, _) => PlaceType::Unknown,
        },
    }
}

/// The value of a place that is read.
pub fn of_read<'u>(place: &PlaceType<'u>) -> ValueType<'u>
    ensures { value_view result ≡ option_and_then static_types.of_read (place_view place.now) }
{
    match place {
        PlaceType::Unknown => ValueType::Unknown,
        PlaceType::HeldNumber(kind) => ValueType::Number(*kind),
        PlaceType::HeldPointer(constant, base) => ValueType::Pointer(*constant, *base),
        PlaceType::Stored(_, shape) => match shape {
            Shape::Scalar(scalar) => ValueType::Number(CKind::Scalar(*scalar)),
            Shape::Array(_, _, _) | Shape::Struct(_, _, _) => ValueType::Unknown,
        },
    }
}

pub fn of_address<'u>(place: &PlaceType<'u>) -> ValueType<'u>
    ensures { value_view result ≡ option_and_then static_types.of_address (place_view place.now) }
{
    match place {
        PlaceType::Unknown | PlaceType::HeldNumber(_) | PlaceType::HeldPointer(_, _) => {
            ValueType::Unknown
        }
        PlaceType::Stored(constant, shape) => match shape {
            Shape::Scalar(scalar) => ValueType::Pointer(*constant, Base::Scalar(*scalar)),
            Shape::Array(_, _, _) => ValueType::Unknown,
            Shape::Struct(tag, _, _) => ValueType::Pointer(*constant, Base::Struct(tag)),
        },
    }
}

// ---- what is asked of a place that has a type

pub fn is_struct(place: &PlaceType) -> bool
    ensures { result ≡ where_typed rules.is_struct (place_view place.now) }
{
    match place {
        PlaceType::Unknown => true,
        PlaceType::HeldNumber(_) | PlaceType::HeldPointer(_, _) => false,
        PlaceType::Stored(_, shape) => match shape {
            Shape::Scalar(_) | Shape::Array(_, _, _) => false,
            Shape::Struct(_, _, _) => true,
        },
    }
}

pub fn is_array(place: &PlaceType) -> bool
    ensures { result ≡ where_typed rules.is_array (place_view place.now) }
{
    match place {
        PlaceType::Unknown => true,
        PlaceType::HeldNumber(_) | PlaceType::HeldPointer(_, _) => false,
        PlaceType::Stored(_, shape) => match shape {
            Shape::Scalar(_) | Shape::Struct(_, _, _) => false,
            Shape::Array(_, _, _) => true,
        },
    }
}

pub fn has_member(name: &Word, place: &PlaceType) -> bool
    ensures { result ≡ where_typed (rules.has_member name.now) (place_view place.now) }
{
    match place {
        PlaceType::Unknown | PlaceType::HeldNumber(_) | PlaceType::HeldPointer(_, _) => true,
        PlaceType::Stored(_, shape) => match shape {
            Shape::Scalar(_) | Shape::Array(_, _, _) => true,
            Shape::Struct(_, members, structs) => member_shape(*structs, *members, name).is_some(),
        },
    }
}

/// Whether a place that has a type has a value that can be read.
pub fn can_be_read(place: &PlaceType) -> bool
    ensures { result ≡ where_typed (λ p. is_some (static_types.of_read p)) (place_view place.now) }
{
    match place {
        PlaceType::Unknown | PlaceType::HeldNumber(_) | PlaceType::HeldPointer(_, _) => true,
        PlaceType::Stored(_, shape) => match shape {
            Shape::Scalar(_) => true,
            Shape::Array(_, _, _) | Shape::Struct(_, _, _) => false,
        },
    }
}

/// Whether a place that has a type has an address.
pub fn has_address(place: &PlaceType) -> bool
    ensures { result ≡ where_typed (λ p. is_some (static_types.of_address p)) (place_view place.now) }
{
    match place {
        PlaceType::Unknown => true,
        PlaceType::HeldNumber(_) | PlaceType::HeldPointer(_, _) => false,
        PlaceType::Stored(_, shape) => match shape {
            Shape::Scalar(_) | Shape::Struct(_, _, _) => true,
            Shape::Array(_, _, _) => false,
        },
    }
}

/// The scalar to which a place may be assigned.
pub fn assigned_scalar(place: &PlaceType) -> Option<CScalar>
    ensures { result ≡ option_and_then static_types.assigned_scalar (place_view place.now) }
{
    match place {
        PlaceType::Unknown | PlaceType::HeldNumber(_) | PlaceType::HeldPointer(_, _) => None,
        PlaceType::Stored(constant, shape) => stored_scalar(*constant, shape),
    }
}

fn stored_scalar(constant: bool, shape: &Shape) -> Option<CScalar>
    ensures { result ≡ static_types.assigned_scalar (static_types.Stored constant (shape_view shape.now)) }
{
    if constant {
        return None;
    }
    match shape {
        Shape::Scalar(scalar) => Some(*scalar),
        Shape::Array(_, _, _) | Shape::Struct(_, _, _) => None,
    }
}

/// Whether a place that has a type may be assigned to.
pub fn can_be_assigned(place: &PlaceType) -> bool
    ensures { result ≡ where_typed (λ p. is_some (static_types.assigned_scalar p)) (place_view place.now) }
{
    match place {
        PlaceType::Unknown => true,
        PlaceType::HeldNumber(_) | PlaceType::HeldPointer(_, _) => false,
        PlaceType::Stored(constant, shape) => stored_scalar(*constant, shape).is_some(),
    }
}
