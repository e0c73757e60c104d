//! Types of values as the rules see them: the area behind a reference is one of a table, and is not copied.

ghost use Rattle.std.specs.Prelude.{◌≡◌, option_map};
ghost use Rattle.area_types.specs.Syntax as syntax;
ghost use Rattle.area_types.specs.View.{type_of, area_of};
ghost use Rattle.region_check.specs.Calls.{reference_of, may_stand_for};
ghost use Rattle.region_check.specs.Substitutions.{escapes};
ghost use Rattle.source_types.specs.Parts.{stored_type, struct_behind, length_behind, element_type};
ghost use Rattle.source_types.specs.Values.{is_truth, is_integer, is_unsigned_integer, is_signed_integer, is_index_type, is_bit_data, is_reference, is_plain, same_truth, same_kind, same_region, same_type, same_area};
ghost use Rattle.iv_words.specs.Kinds.{is_signed as kind_signed, width as kind_width};
ghost use Rattle.rule_checker.specs.View.{type_at, reference_at};

use area_types::{Area, Region, ValueType};
use iv_words::IntKind;

/// The type of a value, with the area behind a reference as it stands in a table.
#[derive(Clone, Copy)]
pub enum TypeRef<'a> {
    Bool,
    Int(IntKind),
    Ix(u32),
    Bits(u32),
    Ref(Reference<'a>),
}

/// The type of a reference.
#[derive(Clone, Copy)]
pub struct Reference<'a> {
    pub constant: bool,
    pub region: Region,
    pub area: &'a Area,
}

impl<'a> TypeRef<'a> {
    /// The type that a table has.
    pub fn of(t: &'a ValueType) -> TypeRef<'a>
        ensures { type_at result ≡ type_of t.now }
    {
        match t {
            ValueType::Bool => TypeRef::Bool,
            ValueType::Int(kind) => TypeRef::Int(*kind),
            ValueType::Ix(length) => TypeRef::Ix(*length),
            ValueType::Bits(word) => TypeRef::Bits(*word),
            ValueType::Ref(reference) => TypeRef::Ref(Reference {
                constant: reference.constant,
                region: reference.region,
                area: &reference.area,
            }),
        }
    }
}

fn is_signed(kind: IntKind) -> bool
    ensures { result ≡ kind_signed kind }
{
    match kind {
        IntKind::U8 | IntKind::U16 | IntKind::U32 | IntKind::U64 => false,
        IntKind::I8 | IntKind::I16 | IntKind::I32 | IntKind::I64 => true,
    }
}

/// The number of bits of a kind.
pub(crate) fn width(kind: IntKind) -> u64
    ensures { result ≡ kind_width kind }
{
    match kind {
        IntKind::U8 | IntKind::I8 => 8,
        IntKind::U16 | IntKind::I16 => 16,
        IntKind::U32 | IntKind::I32 => 32,
        IntKind::U64 | IntKind::I64 => 64,
    }
}

pub(crate) fn is_truth(t: TypeRef) -> bool
    ensures { result ≡ is_truth (type_at t.entry) }
{
    match t {
        TypeRef::Bool => true,
        TypeRef::Int(_) | TypeRef::Ix(_) | TypeRef::Bits(_) | TypeRef::Ref(_) => false,
    }
}

pub(crate) fn is_integer(t: TypeRef) -> bool
    ensures { result ≡ is_integer (type_at t.entry) }
{
    match t {
        TypeRef::Int(_) => true,
        TypeRef::Bool | TypeRef::Ix(_) | TypeRef::Bits(_) | TypeRef::Ref(_) => false,
    }
}

pub(crate) fn is_unsigned_integer(t: TypeRef) -> bool
    ensures { result ≡ is_unsigned_integer (type_at t.entry) }
{
    match t {
        TypeRef::Int(kind) => !is_signed(kind),
        TypeRef::Bool | TypeRef::Ix(_) | TypeRef::Bits(_) | TypeRef::Ref(_) => false,
    }
}

pub(crate) fn is_signed_integer(t: TypeRef) -> bool
    ensures { result ≡ is_signed_integer (type_at t.entry) }
{
    match t {
        TypeRef::Int(kind) => is_signed(kind),
        TypeRef::Bool | TypeRef::Ix(_) | TypeRef::Bits(_) | TypeRef::Ref(_) => false,
    }
}

pub(crate) fn is_index_type(t: TypeRef) -> bool
    ensures { result ≡ is_index_type (type_at t.entry) }
{
    match t {
        TypeRef::Ix(_) => true,
        TypeRef::Bool | TypeRef::Int(_) | TypeRef::Bits(_) | TypeRef::Ref(_) => false,
    }
}

pub(crate) fn is_bit_data(t: TypeRef) -> bool
    ensures { result ≡ is_bit_data (type_at t.entry) }
{
    match t {
        TypeRef::Bits(_) => true,
        TypeRef::Bool | TypeRef::Int(_) | TypeRef::Ix(_) | TypeRef::Ref(_) => false,
    }
}

pub(crate) fn is_reference(t: TypeRef) -> bool
    ensures { result ≡ is_reference (type_at t.entry) }
{
    match t {
        TypeRef::Ref(_) => true,
        TypeRef::Bool | TypeRef::Int(_) | TypeRef::Ix(_) | TypeRef::Bits(_) => false,
    }
}

pub fn is_plain(t: TypeRef) -> bool
    ensures { result ≡ is_plain (type_at t.entry) }
{
    is_truth(t) || is_integer(t)
}

/// What a type says of a reference, where it is the type of one.
pub fn reference_of<'a>(t: TypeRef<'a>) -> Option<Reference<'a>>
    ensures { option_map reference_at result ≡ reference_of (type_at t.entry) }
{
    match t {
        TypeRef::Ref(reference) => Some(reference),
        TypeRef::Bool | TypeRef::Int(_) | TypeRef::Ix(_) | TypeRef::Bits(_) => None,
    }
}

/// What is stored in the area behind a reference.
pub fn stored_type<'a>(t: TypeRef<'a>) -> Option<TypeRef<'a>>
    ensures { option_map type_at result ≡ stored_type (type_at t.entry) }
{
    match t {
        TypeRef::Ref(reference) => match reference.area {
            Area::Stored(held) => Some(TypeRef::of(held)),
            Area::Array(_, _) | Area::Struct(_) => None,
        },
        TypeRef::Bool | TypeRef::Int(_) | TypeRef::Ix(_) | TypeRef::Bits(_) => None,
    }
}

/// The number of the struct behind a reference.
pub(crate) fn struct_behind(t: TypeRef) -> Option<u32>
    ensures { result ≡ struct_behind (type_at t.entry) }
{
    match t {
        TypeRef::Ref(reference) => match reference.area {
            Area::Struct(number) => Some(*number),
            Area::Stored(_) | Area::Array(_, _) => None,
        },
        TypeRef::Bool | TypeRef::Int(_) | TypeRef::Ix(_) | TypeRef::Bits(_) => None,
    }
}

/// The length of the array behind a reference.
pub(crate) fn length_behind(t: TypeRef) -> Option<u32>
    ensures { result ≡ length_behind (type_at t.entry) }
{
    match t {
        TypeRef::Ref(reference) => match reference.area {
            Area::Array(length, _) => Some(*length),
            Area::Stored(_) | Area::Struct(_) => None,
        },
        TypeRef::Bool | TypeRef::Int(_) | TypeRef::Ix(_) | TypeRef::Bits(_) => None,
    }
}

/// A reference to an element of the array behind a reference.
pub(crate) fn element_type<'a>(t: TypeRef<'a>) -> Option<TypeRef<'a>>
    ensures { option_map type_at result ≡ element_type (type_at t.entry) }
{
    match t {
        TypeRef::Ref(reference) => match reference.area {
            Area::Array(_, element) => Some(TypeRef::Ref(Reference {
                constant: reference.constant,
                region: reference.region,
                area: element,
            })),
            Area::Stored(_) | Area::Struct(_) => None,
        },
        TypeRef::Bool | TypeRef::Int(_) | TypeRef::Ix(_) | TypeRef::Bits(_) => None,
    }
}

/// Whether the type is that of a reference to what the procedure itself allocates.
pub(crate) fn escapes(t: TypeRef) -> bool
    ensures { result ≡ escapes (type_at t.entry) }
{
    match t {
        TypeRef::Ref(reference) => match reference.region {
            Region::Own => true,
            Region::Global | Region::Param(_) => false,
        },
        TypeRef::Bool | TypeRef::Int(_) | TypeRef::Ix(_) | TypeRef::Bits(_) => false,
    }
}

fn same_truth(a: bool, b: bool) -> bool
    ensures { result ≡ same_truth a b }
{
    if a { b } else { !b }
}

fn same_kind(a: IntKind, b: IntKind) -> bool
    ensures { result ≡ same_kind a b }
{
    width(a) == width(b) && same_truth(is_signed(a), is_signed(b))
}

pub(crate) fn same_region(a: Region, b: Region) -> bool
    ensures { result ≡ same_region a b }
{
    match a {
        Region::Global => match b {
            Region::Global => true,
            Region::Param(_) | Region::Own => false,
        },
        Region::Param(number) => match b {
            Region::Param(other) => number == other,
            Region::Global | Region::Own => false,
        },
        Region::Own => match b {
            Region::Own => true,
            Region::Global | Region::Param(_) => false,
        },
    }
}

/// Whether the two are one area type.
#[cycle(same)]
pub fn same_area(a: &Area, b: &Area) -> bool
    ensures { result ≡ same_area (area_of a.now) (area_of b.now) }
{
    match (a, b) {
        (Area::Stored(held), Area::Stored(other)) => same_value(held, other),
        (Area::Array(length, element), Area::Array(other_length, other)) => {
            *length == *other_length && same_area(element, other)
        }
        (Area::Struct(number), Area::Struct(other)) => *number == *other,
        _ => false,
    }
}

#[cycle(same)]
fn same_value(a: &ValueType, b: &ValueType) -> bool
    ensures { result ≡ same_type (type_of a.now) (type_of b.now) }
{
    match a {
        ValueType::Bool => is_bool(b),
        ValueType::Int(kind) => is_kind(b, *kind),
        ValueType::Ix(length) => is_index_of(b, *length),
        ValueType::Bits(word) => is_bits_of(b, *word),
        ValueType::Ref(reference) => match b {
            ValueType::Ref(other) => {
                same_truth(reference.constant, other.constant)
                    && same_region(reference.region, other.region)
                    && same_area(&reference.area, &other.area)
            }
            ValueType::Bool | ValueType::Int(_) | ValueType::Ix(_) | ValueType::Bits(_) => false,
        },
    }
}

fn is_bool(t: &ValueType) -> bool
    ensures { result ≡ same_type syntax.Truth (type_of t.now) }
{
    match t {
        ValueType::Bool => true,
        ValueType::Int(_) | ValueType::Ix(_) | ValueType::Bits(_) | ValueType::Ref(_) => false,
    }
}

fn is_kind(t: &ValueType, kind: IntKind) -> bool
    ensures { result ≡ same_type (syntax.Int kind) (type_of t.now) }
{
    match t {
        ValueType::Int(other) => same_kind(kind, *other),
        ValueType::Bool | ValueType::Ix(_) | ValueType::Bits(_) | ValueType::Ref(_) => false,
    }
}

fn is_index_of(t: &ValueType, length: u32) -> bool
    ensures { result ≡ same_type (syntax.Ix length) (type_of t.now) }
{
    match t {
        ValueType::Ix(other) => length == *other,
        ValueType::Bool | ValueType::Int(_) | ValueType::Bits(_) | ValueType::Ref(_) => false,
    }
}

fn is_bits_of(t: &ValueType, word: u32) -> bool
    ensures { result ≡ same_type (syntax.Bits word) (type_of t.now) }
{
    match t {
        ValueType::Bits(other) => word == *other,
        ValueType::Bool | ValueType::Int(_) | ValueType::Ix(_) | ValueType::Ref(_) => false,
    }
}

/// Whether the two are one type.
pub(crate) fn same_type(a: TypeRef, b: TypeRef) -> bool
    ensures { result ≡ same_type (type_at a.entry) (type_at b.entry) }
{
    match (a, b) {
        (TypeRef::Bool, TypeRef::Bool) => true,
        (TypeRef::Int(kind), TypeRef::Int(other)) => same_kind(kind, other),
        (TypeRef::Ix(length), TypeRef::Ix(other)) => length == other,
        (TypeRef::Bits(word), TypeRef::Bits(other)) => word == other,
        (TypeRef::Ref(reference), TypeRef::Ref(other)) => {
            same_truth(reference.constant, other.constant)
                && same_region(reference.region, other.region)
                && same_area(reference.area, other.area)
        }
        _ => false,
    }
}
