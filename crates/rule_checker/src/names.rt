//! Types of names, of parts and of what a text says, where they exist.

ghost use Rattle.std.specs.Prelude.{◌≡◌, option_map};
ghost use Rattle.area_types.specs.View.{type_of};
ghost use Rattle.iv_words.specs.Kinds.{in_range as kind_holds};
ghost use Rattle.source_types.specs.Written as written;
ghost use Rattle.source_types.specs.Parts as parts;
ghost use Rattle.source_types.specs.Values as values;
ghost use Rattle.area_types.specs.Tables as tables;
ghost use Rattle.rule_faults.specs.Contexts as contexts;
ghost use Rattle.rule_checker.specs.Contexts.{earlier_of, context_of};
ghost use Rattle.rule_checker.specs.Lookups.{area_type, field_reference};
ghost use Rattle.rule_checker.specs.View.{type_at, type_seen};

use crate::items::Items;
use crate::lookups::{
    area_named, bit_field_in, bits_at, field_in, in_scope, is_area, local_named, number_of_bits,
    struct_at,
};
use crate::scope::Context;
use crate::types::{Reference, TypeRef};
use area_types::{Area, Region, ValueType};
use iv_words::{IntKind, Word};
use ivory_tree::BitField;

/// The type that an entry has, where it has one.
pub fn type_if_any(ty: &Option<ValueType>) -> Option<TypeRef>
    ensures { type_seen result ≡ option_map type_of ty.now }
{
    match ty {
        Some(ty) => Some(TypeRef::of(ty)),
        None => None,
    }
}

/// Whether a local name may not be of this form: it is one of the module's, or in scope.
pub fn is_taken(context: &Context, name: &Word) -> bool
    ensures { result ≡ contexts.is_taken (context_of context.now) name.now }
{
    context.names.contains(name) || in_scope(context, name)
}

pub(crate) fn is_known(context: &Context, name: &Word) -> bool
    ensures { result ≡ contexts.is_known (context_of context.now) name.now }
{
    in_scope(context, name) || is_area(&context.items, name)
}

/// The type of a reference to an area of the module.
fn area_type<'a>(items: &'a Items, name: &Word) -> Option<TypeRef<'a>>
    ensures { type_seen result ≡ area_type (earlier_of items.now) name.now }
{
    match area_named(items, name) {
        Some(entry) => match &entry.area {
            Some(area) => Some(TypeRef::Ref(Reference {
                constant: entry.constant,
                region: Region::Global,
                area,
            })),
            None => None,
        },
        None => None,
    }
}

/// The type of a local of the procedure, else of an area, whose name is a reference to it.
pub(crate) fn name_type<'a>(context: &'a Context, name: &Word) -> Option<TypeRef<'a>>
    ensures { type_seen result ≡ contexts.name_type (context_of context.now) name.now }
{
    if !in_scope(context, name) {
        return area_type(&context.items, name);
    }
    match local_named(context, name) {
        Some(local) => type_if_any(&local.ty),
        None => None,
    }
}

/// Whether `result` may be named.
pub(crate) fn has_outcome(context: &Context) -> bool
    ensures { result ≡ contexts.has_outcome (context_of context.now) }
{
    context.in_ensures && context.gives
}

pub(crate) fn outcome_type(context: &Context) -> Option<TypeRef>
    ensures { type_seen result ≡ contexts.outcome_type (context_of context.now) }
{
    if has_outcome(context) {
        type_if_any(&context.result)
    } else {
        None
    }
}

/// Whether it may be the length of an array, an index or a loop.
pub fn is_length(length: u64) -> bool
    ensures { result ≡ tables.is_length length }
{
    1 <= length && length <= 65_535
}

pub fn index_type<'a>(length: u64) -> Option<TypeRef<'a>>
    ensures { type_seen result ≡ written.index_type length }
{
    if 1 <= length && length <= 65_535 {
        Some(TypeRef::Ix(length as u32))
    } else {
        None
    }
}

pub(crate) fn bits_type<'a>(items: &'a Items, name: &Word) -> Option<TypeRef<'a>>
    ensures { type_seen result ≡ written.bits_type (earlier_of items.now) name.now }
{
    match number_of_bits(items, name) {
        Some(number) => Some(TypeRef::Bits(number)),
        None => None,
    }
}

/// The least unsigned kind of at least so many bits.
fn least_unsigned(bits: u64) -> IntKind
    ensures { result ≡ values.least_unsigned bits }
{
    if bits <= 8 {
        IntKind::U8
    } else if bits <= 16 {
        IntKind::U16
    } else if bits <= 32 {
        IntKind::U32
    } else {
        IntKind::U64
    }
}

fn bit_field_type<'a>(field: &'a BitField) -> TypeRef<'a>
    ensures { type_at result ≡ parts.bit_field_type field.now }
{
    if field.truth {
        TypeRef::Bool
    } else {
        TypeRef::Int(least_unsigned(field.width))
    }
}

fn type_of_bit_field<'a>(items: &'a Items, number: u32, name: &Word) -> Option<TypeRef<'a>>
    ensures { type_seen result ≡ option_map parts.bit_field_type (parts.bit_field_named (earlier_of items.now) number name.now) }
{
    match bits_at(items, number) {
        Some(item) => match bit_field_in(item.fields.as_slice(), name) {
            Some(field) => Some(bit_field_type(field)),
            None => None,
        },
        None => None,
    }
}

/// A reference to the field of the name of a struct.
fn type_of_field<'a>(
    items: &'a Items,
    constant: bool,
    region: Region,
    number: u32,
    name: &Word,
) -> Option<TypeRef<'a>>
    ensures { type_seen result ≡ field_reference (earlier_of items.now) constant region number name.now }
{
    match struct_at(items, number) {
        Some(found) => match field_in(found.fields.as_slice(), name) {
            Some(field) => Some(TypeRef::Ref(Reference {
                constant,
                region,
                area: &field.area,
            })),
            None => None,
        },
        None => None,
    }
}

/// A field of bit data, or a reference to a field of the struct behind one.
pub(crate) fn field_type<'a>(items: &'a Items, t: TypeRef<'a>, name: &Word) -> Option<TypeRef<'a>>
    ensures { type_seen result ≡ parts.field_type (earlier_of items.now) (type_at t.entry) name.now }
{
    match t {
        TypeRef::Bits(number) => type_of_bit_field(items, number, name),
        TypeRef::Ref(reference) => match reference.area {
            Area::Struct(number) => {
                type_of_field(items, reference.constant, reference.region, *number, name)
            }
            Area::Stored(_) | Area::Array(_, _) => None,
        },
        TypeRef::Bool | TypeRef::Int(_) | TypeRef::Ix(_) => None,
    }
}

/// The word of bit data.
pub(crate) fn word_type<'a>(items: &'a Items, t: TypeRef<'a>) -> Option<TypeRef<'a>>
    ensures { type_seen result ≡ parts.word_type (earlier_of items.now) (type_at t.entry) }
{
    match t {
        TypeRef::Bits(number) => match bits_at(items, number) {
            Some(item) => Some(TypeRef::Int(item.word)),
            None => None,
        },
        TypeRef::Bool | TypeRef::Int(_) | TypeRef::Ix(_) | TypeRef::Ref(_) => None,
    }
}

/// Whether a literal lies within the type: a whole number within its kind, an index below its length.
pub(crate) fn holds(t: TypeRef, value: i128) -> bool
    ensures { result ≡ values.holds (type_at t.entry) value }
{
    match t {
        TypeRef::Int(kind) => in_range(kind, value),
        TypeRef::Ix(length) => 0 <= value && value < length as i128,
        TypeRef::Bool | TypeRef::Bits(_) | TypeRef::Ref(_) => false,
    }
}

fn in_range(kind: IntKind, value: i128) -> bool
    ensures { result ≡ kind_holds kind value }
{
    match kind {
        IntKind::U8 => 0 <= value && value <= 255,
        IntKind::U16 => 0 <= value && value <= 65_535,
        IntKind::U32 => 0 <= value && value <= 4_294_967_295,
        IntKind::U64 => 0 <= value && value <= 18_446_744_073_709_551_615,
        IntKind::I8 => -128 <= value && value <= 127,
        IntKind::I16 => -32_768 <= value && value <= 32_767,
        IntKind::I32 => -2_147_483_648 <= value && value <= 2_147_483_647,
        IntKind::I64 => -9_223_372_036_854_775_808 <= value && value <= 9_223_372_036_854_775_807,
    }
}
