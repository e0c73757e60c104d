//! Types of parts, and numbers of fields. Where something is missing, for a rule is broken, a bool and the number 0 stand in its place.

ghost use Rattle.std.specs.Prelude.{◌≡◌, map, option_map, option_and_then, slice_get, IfOk};
ghost use Rattle.std.specs.List.{find, position_from};
ghost use Rattle.std.specs.Option.{option_copied};
ghost use Rattle.iv_words.specs.Words.{same_word};
ghost use Rattle.area_types.specs.Syntax as types;
ghost use Rattle.area_types.specs.View as seen;
ghost use Rattle.ivory_tree.specs.declared.BitField as bit;
ghost use Rattle.source_types.specs.Parts as parts;
ghost use Rattle.source_types.specs.Values as values;
ghost use Rattle.rule_checker.specs.Contexts.{earlier_of};
ghost use Rattle.rule_checker.specs.View.{type_at};
ghost use Rattle.typing_rules.specs.Environments as typing;
ghost use Rattle.typing_rules.specs.ExpressionCores as cores;

use area_types::{Area, FieldDef, RefType, Region, ValueType};
use iv_words::{IntKind, Memory, Seq, Word};
use ivory_tree::BitField;
use rule_checker::{Items, Reference, TypeRef};
use std::alloc::Global;

#[tactic(auto, using(region_check::proofs::Apart::ref_is))]
fn reference(constant: bool, region: Region, area: Area) -> ValueType
    ensures { seen.type_of result ≡ types.Ref constant region (seen.area_of area) }
{
    ValueType::Ref(RefType {
        constant,
        region,
        area,
    })
}

/// The type as a value of its own.
pub fn owned(alloc: Global, t: TypeRef) -> Result<ValueType, Memory>
    ensures { IfOk result (λ v. seen.type_of v ≡ type_at t.entry) }
{
    match t {
        TypeRef::Bool => Ok(ValueType::Bool),
        TypeRef::Int(kind) => Ok(ValueType::Int(kind)),
        TypeRef::Ix(length) => Ok(ValueType::Ix(length)),
        TypeRef::Bits(word) => Ok(ValueType::Bits(word)),
        TypeRef::Ref(to) => {
            let area = to.area.copy(alloc)?;
            Ok(reference(to.constant, to.region, area))
        }
    }
}

/// A number that is kept in 32 bits; where it has more, that is want of memory too.
pub fn number(at: Option<usize>) -> Result<u32, Memory>
    ensures { IfOk result (λ n. n ≡ cores.number_or at) }
{
    match at {
        Some(at) => {
            if at > 4_294_967_295 {
                return Err(Memory);
            }
            Ok(at as u32)
        }
        None => Ok(0),
    }
}

pub(crate) fn is_signed_integer(t: TypeRef) -> bool
    ensures { result ≡ values.is_signed_integer (type_at t.entry) }
{
    match t {
        TypeRef::Int(kind) => match kind {
            IntKind::U8 | IntKind::U16 | IntKind::U32 | IntKind::U64 => false,
            IntKind::I8 | IntKind::I16 | IntKind::I32 | IntKind::I64 => true,
        },
        TypeRef::Bool | TypeRef::Ix(_) | TypeRef::Bits(_) | TypeRef::Ref(_) => false,
    }
}

/// The number of the bit data.
pub fn bits_number(t: TypeRef) -> u32
    ensures { result ≡ cores.bits_number (type_at t.entry) }
{
    match t {
        TypeRef::Bits(number) => number,
        TypeRef::Bool | TypeRef::Int(_) | TypeRef::Ix(_) | TypeRef::Ref(_) => 0,
    }
}

/// The word of bit data.
pub fn word_type<'a>(items: &'a Items, t: TypeRef<'a>) -> TypeRef<'a>
    ensures { type_at result ≡ cores.type_or (parts.word_type (earlier_of items.now) (type_at t.entry)) }
{
    match t {
        TypeRef::Bits(number) => match items.bits.get(number as usize) {
            Some(item) => TypeRef::Int(item.word),
            None => TypeRef::Bool,
        },
        TypeRef::Bool | TypeRef::Int(_) | TypeRef::Ix(_) | TypeRef::Ref(_) => TypeRef::Bool,
    }
}

/// What is stored behind a reference.
pub fn stored_type<'a>(t: TypeRef<'a>) -> TypeRef<'a>
    ensures { type_at result ≡ cores.type_or (parts.stored_type (type_at t.entry)) }
{
    match t {
        TypeRef::Ref(reference) => match reference.area {
            Area::Stored(held) => TypeRef::of(held),
            Area::Array(_, _) | Area::Struct(_) => TypeRef::Bool,
        },
        TypeRef::Bool | TypeRef::Int(_) | TypeRef::Ix(_) | TypeRef::Bits(_) => TypeRef::Bool,
    }
}

/// The length of the array behind a reference.
pub fn length_behind(t: TypeRef) -> u32
    ensures { result ≡ cores.number_or (parts.length_behind (type_at t.entry)) }
{
    match t {
        TypeRef::Ref(reference) => match reference.area {
            Area::Array(length, _) => *length,
            Area::Stored(_) | Area::Struct(_) => 0,
        },
        TypeRef::Bool | TypeRef::Int(_) | TypeRef::Ix(_) | TypeRef::Bits(_) => 0,
    }
}

/// A reference to an element of the array behind one.
pub fn element_type<'a>(t: TypeRef<'a>) -> TypeRef<'a>
    ensures { type_at result ≡ cores.type_or (parts.element_type (type_at t.entry)) }
{
    match t {
        TypeRef::Ref(reference) => match reference.area {
            Area::Array(_, element) => TypeRef::Ref(Reference {
                constant: reference.constant,
                region: reference.region,
                area: element,
            }),
            Area::Stored(_) | Area::Struct(_) => TypeRef::Bool,
        },
        TypeRef::Bool | TypeRef::Int(_) | TypeRef::Ix(_) | TypeRef::Bits(_) => TypeRef::Bool,
    }
}

// ---- fields

fn bit_field_at(fields: &[BitField], name: &Word) -> Option<usize>
    ensures { result ≡ position_from (λ (f : bit.BitField). same_word f.name.text name.now) 0 fields.now }
{
    for (at, field) in fields.iter().enumerate() {
        if field.name.text == *name {
            return Some(at);
        }
    }
    None
}

fn bit_field_in<'a>(fields: &'a [BitField], name: &Word) -> Option<&'a BitField>
    ensures { option_copied result ≡ find (λ (f : bit.BitField). same_word f.name.text name.now) fields.now }
{
    for field in fields {
        if field.name.text == *name {
            return Some(field);
        }
    }
    None
}

fn field_at(fields: &Seq<FieldDef>, name: &Word) -> Option<usize>
    ensures { result ≡ position_from (λ (f : types.Field). same_word f.name name.now) 0 (map seen.field_of fields.now) }
{
    for (at, field) in fields.iter().enumerate() {
        if field.name == *name {
            return Some(at);
        }
    }
    None
}

fn field_in<'a>(fields: &'a Seq<FieldDef>, name: &Word) -> Option<&'a FieldDef>
    ensures { option_map seen.field_of (option_copied result) ≡ find (λ (f : types.Field). same_word f.name name.now) (map seen.field_of fields.now) }
{
    for field in fields.iter() {
        if field.name == *name {
            return Some(field);
        }
    }
    None
}

/// The field of the name of bit data.
pub fn bit_field_named<'a>(items: &'a Items, number: u32, name: &Word) -> Option<&'a BitField>
    ensures { option_copied result ≡ parts.bit_field_named (earlier_of items.now) number name.now }
{
    match items.bits.get(number as usize) {
        Some(item) => bit_field_in(item.fields.as_slice(), name),
        None => None,
    }
}

/// Its place among the fields.
pub fn bit_field_number(items: &Items, number: u32, name: &Word) -> Option<usize>
    ensures { result ≡ parts.bit_field_number (earlier_of items.now) number name.now }
{
    match items.bits.get(number as usize) {
        Some(item) => bit_field_at(item.fields.as_slice(), name),
        None => None,
    }
}

/// The place of the field among those of the struct.
pub fn struct_field_number(items: &Items, number: u32, name: &Word) -> Option<usize>
    ensures { result ≡ parts.field_number (earlier_of items.now) number name.now }
{
    match items.structs.get(number as usize) {
        Some(found) => field_at(&found.fields, name),
        None => None,
    }
}

/// The least unsigned kind of at least so many bits.
pub(crate) fn least_unsigned(bits: u64) -> IntKind
    ensures { result ≡ values.least_unsigned bits }
{
    if bits <= 8 {
        IntKind::U8
    } else if bits <= 16 {
        IntKind::U16
    } else if bits <= 32 {
        IntKind::U32
    } else {
        IntKind::U64
    }
}

/// The type of the new value of a field of bit data.
pub fn new_type<'a>(field: Option<&'a BitField>) -> TypeRef<'a>
    ensures { type_at result ≡ cores.new_type (option_copied field.entry) }
{
    match field {
        Some(field) => {
            if field.truth {
                TypeRef::Bool
            } else {
                TypeRef::Int(least_unsigned(field.width))
            }
        }
        None => TypeRef::Bool,
    }
}

fn type_of_bit_field<'a>(items: &'a Items, number: u32, name: &Word) -> TypeRef<'a>
    ensures { type_at result ≡ cores.type_or (option_map parts.bit_field_type (parts.bit_field_named (earlier_of items.now) number name.now)) }
{
    new_type(bit_field_named(items, number, name))
}

fn struct_field_named<'a>(items: &'a Items, number: u32, name: &Word) -> Option<&'a FieldDef>
    ensures { option_map seen.field_of (option_copied result) ≡ parts.field_named (earlier_of items.now) number name.now }
{
    match items.structs.get(number as usize) {
        Some(found) => field_in(&found.fields, name),
        None => None,
    }
}

/// A field of bit data, or a reference to a field of the struct behind one.
pub fn field_type<'a>(items: &'a Items, t: TypeRef<'a>, name: &Word) -> TypeRef<'a>
    ensures { type_at result ≡ cores.type_or (parts.field_type (earlier_of items.now) (type_at t.entry) name.now) }
{
    match t {
        TypeRef::Bits(number) => type_of_bit_field(items, number, name),
        TypeRef::Ref(reference) => match reference.area {
            Area::Struct(number) => match struct_field_named(items, *number, name) {
                Some(field) => TypeRef::Ref(Reference {
                    constant: reference.constant,
                    region: reference.region,
                    area: &field.area,
                }),
                None => TypeRef::Bool,
            },
            Area::Stored(_) | Area::Array(_, _) => TypeRef::Bool,
        },
        TypeRef::Bool | TypeRef::Int(_) | TypeRef::Ix(_) => TypeRef::Bool,
    }
}

/// The number of the area of the name.
pub fn area_position(items: &Items, name: &Word) -> Option<usize>
    ensures { result ≡ typing.area_number (earlier_of items.now) name.now }
{
    items.area_names.position(name)
}
