//! The static types of values and places, from those of their parts.

ghost use Rattle.std.specs.Prelude.{◌≡◌, map, Some};
ghost use Rattle.std.specs.Option.{option_map, option_and_then};
ghost use Rattle.c_ast.specs.Conversions.{constant_type};
ghost use Rattle.c_ast.specs.StaticTypes as static_types;
ghost use Rattle.c_ast.specs.StaticTypes.{member_tree};
ghost use Rattle.c_ast.specs.Targets as targets;
ghost use Rattle.c_ast.specs.Targets.{table_of};
ghost use Rattle.c_ast.specs.declared.Target.TheVariants.{T32};
ghost use Rattle.c_objects.specs.Shapes.{field_of, row_from};
ghost use Rattle.c_operators.specs.Values.{value_of};
ghost use Rattle.c_meaning.specs.Values.{held_type};
ghost use Rattle.c_ast.specs.declared.CKind.TheVariants.{Arith as Computed};
ghost use Rattle.c_expressions.specs.Forms.{form_tree};
ghost use Rattle.c_expressions.specs.Names.{entity_of, meant_of};
ghost use Rattle.c_expressions.specs.Types.{value_type, place_type, chosen, shape_seen};

use crate::form::{Form, form_of};
use crate::names::Meant;
use crate::program::Program;
use c_ast::{Arith, CBinary, CKind, CType, CUnary, Suffix, Target, common, promote};
use c_objects::{Base, Field, ObjectType, Shape, find_type};
use c_operators::{Value, base_ref};
use iv_words::Word;

/// The type of an expression, or that it has none.
#[derive(Clone, Copy, Drop)]
pub(crate) enum ValueType<'a> {
    Unknown,
    Number(CKind),
    Pointer(bool, Base<'a>),
}

/// The type of a place, or that it has none: of a name that holds a value, or of a part of an object.
#[derive(Clone, Copy, Drop)]
pub(crate) enum PlaceType<'a> {
    Unknown,
    HeldNumber(CKind),
    HeldPointer(bool, Base<'a>),
    Stored(bool, ObjectType<'a>),
}

// ---- numbers

fn promoted(t: Target, k: CKind) -> Arith
    ensures { result ≡ targets.promoted (table_of t) k }
{
    match k {
        CKind::Scalar(s) => promote(t, s),
        CKind::Arith(a) => a,
    }
}

fn common_type(t: Target, k: CKind, l: CKind) -> Arith
    ensures { result ≡ targets.common_type (table_of t) k l }
{
    common(t, promoted(t, k), promoted(t, l))
}

fn unary_kind(t: Target, op: CUnary, k: CKind) -> CKind
    ensures { result ≡ static_types.unary_type (table_of t) op k }
{
    match op {
        CUnary::Neg | CUnary::Flip => CKind::Arith(promoted(t, k)),
        CUnary::Not => CKind::Arith(Arith::Int),
    }
}

fn binary_kind(t: Target, op: CBinary, k: CKind, l: CKind) -> CKind
    ensures { result ≡ static_types.binary_type (table_of t) op k l }
{
    match op {
        CBinary::Add | CBinary::Sub | CBinary::Mul | CBinary::Div | CBinary::Rem => {
            CKind::Arith(common_type(t, k, l))
        }
        CBinary::And | CBinary::Or | CBinary::Xor => CKind::Arith(common_type(t, k, l)),
        CBinary::Shl | CBinary::Shr => CKind::Arith(promoted(t, k)),
        CBinary::Eq | CBinary::Ne | CBinary::Lt | CBinary::Le | CBinary::Gt | CBinary::Ge => {
            CKind::Arith(Arith::Int)
        }
        CBinary::AndAlso | CBinary::OrElse => CKind::Arith(Arith::Int),
    }
}

/// The type of a decimal constant, where it has one.
fn constant_kind(t: Target, suffix: Suffix, v: u64) -> Option<Arith>
    ensures { result ≡ constant_type t suffix v }
{
    match t {
        Target::T32 => constant_with_wide_int(suffix, v),
    }
}

/// The same where `int` and `long` have 32 bits.
fn constant_with_wide_int(suffix: Suffix, v: u64) -> Option<Arith>
    ensures { result ≡ constant_type T32 suffix v }
{
    match suffix {
        Suffix::Plain if v <= 2_147_483_647 => Some(Arith::Int),
        Suffix::Plain | Suffix::Ll if v <= 9_223_372_036_854_775_807 => Some(Arith::LongLong),
        Suffix::Plain | Suffix::Ll => None,
        Suffix::U if v <= 4_294_967_295 => Some(Arith::UInt),
        Suffix::U | Suffix::Ull => Some(Arith::ULongLong),
    }
}

/// The type of a constant.
pub(crate) fn of_constant<'a>(t: Target, suffix: Suffix, v: u64) -> ValueType<'a>
    ensures { value_type result ≡ option_map (λ a. static_types.Arithmetic (Computed a)) (constant_type t suffix v) }
{
    match constant_kind(t, suffix, v) {
        None => ValueType::Unknown,
        Some(a) => ValueType::Number(CKind::Arith(a)),
    }
}

// ---- operators

pub(crate) fn of_unary<'a>(t: Target, op: CUnary, v: ValueType<'a>) -> ValueType<'a>
    ensures { value_type result ≡ option_and_then (static_types.of_unary (table_of t) op) (value_type v.entry) }
{
    match v {
        ValueType::Number(k) => ValueType::Number(unary_kind(t, op, k)),
        ValueType::Unknown | ValueType::Pointer(_, _) => ValueType::Unknown,
    }
}

pub(crate) fn of_binary<'a>(
    t: Target,
    op: CBinary,
    a: ValueType<'a>,
    b: ValueType<'a>,
) -> ValueType<'a>
    ensures { value_type result ≡ static_types.of_both (static_types.of_binary (table_of t) op) (value_type a.entry) (value_type b.entry) }
{
    match a {
        ValueType::Number(k) => match b {
            ValueType::Number(l) => ValueType::Number(binary_kind(t, op, k, l)),
            ValueType::Unknown | ValueType::Pointer(_, _) => ValueType::Unknown,
        },
        ValueType::Unknown => ValueType::Unknown,
        ValueType::Pointer(_, _) => match b {
            ValueType::Number(_) => ValueType::Unknown,
            ValueType::Unknown | ValueType::Pointer(_, _) => ValueType::Unknown,
        },
    }
}

fn of_arms<'a>(t: Target, a: ValueType<'a>, b: ValueType<'a>) -> ValueType<'a>
    ensures { value_type result ≡ static_types.of_both (static_types.of_arms (table_of t)) (value_type a.entry) (value_type b.entry) }
{
    match a {
        ValueType::Number(k) => match b {
            ValueType::Number(l) => ValueType::Number(CKind::Arith(common_type(t, k, l))),
            ValueType::Unknown | ValueType::Pointer(_, _) => ValueType::Unknown,
        },
        ValueType::Unknown => ValueType::Unknown,
        ValueType::Pointer(_, _) => match b {
            ValueType::Number(_) => ValueType::Unknown,
            ValueType::Unknown | ValueType::Pointer(_, _) => ValueType::Unknown,
        },
    }
}

/// The common type of both arms of `?:`.
pub(crate) fn of_choice<'a>(
    t: Target,
    test: ValueType<'a>,
    a: ValueType<'a>,
    b: ValueType<'a>,
) -> ValueType<'a>
    ensures { value_type result ≡ chosen (table_of t) (value_type test.entry) (value_type a.entry) (value_type b.entry) }
{
    match test {
        ValueType::Number(_) => of_arms(t, a, b),
        ValueType::Unknown | ValueType::Pointer(_, _) => ValueType::Unknown,
    }
}

pub(crate) fn of_cast<'a>(to: &'a CType, v: ValueType<'a>) -> ValueType<'a>
    ensures { value_type result ≡ option_and_then (static_types.of_cast to.now) (value_type v.entry) }
{
    match to {
        CType::Void => ValueType::Unknown,
        CType::Value(s) => match v {
            ValueType::Number(_) => ValueType::Number(CKind::Scalar(*s)),
            ValueType::Unknown | ValueType::Pointer(_, _) => ValueType::Unknown,
        },
        CType::Pointer(constant, base) => match v {
            ValueType::Pointer(_, _) => ValueType::Pointer(*constant, base_ref(base)),
            ValueType::Unknown | ValueType::Number(_) => ValueType::Unknown,
        },
    }
}

// ---- places

fn held<'a>(v: Value<'a>) -> PlaceType<'a>
    ensures { place_type result ≡ Some (static_types.Held (held_type (value_of v.entry))) }
{
    match v {
        Value::Num(k, _) => PlaceType::HeldNumber(k),
        Value::Ptr(constant, base, _) => PlaceType::HeldPointer(constant, base),
    }
}

/// The type of a name, from what it stands for.
pub(crate) fn of_name<'a>(program: &'a Program, meant: Meant<'a>) -> PlaceType<'a>
    ensures { place_type result ≡ option_map (static_types.of_entity program.now.unit.structs) (entity_of (meant_of meant.entry)) }
{
    match meant {
        Meant::Nothing => PlaceType::Unknown,
        Meant::Value(v) => held(v),
        Meant::Object(constant, _, base) => PlaceType::Stored(constant, program.type_of(base)),
    }
}

/// `*` of a pointer.
pub(crate) fn of_pointee<'a>(program: &'a Program, v: ValueType<'a>) -> PlaceType<'a>
    ensures { place_type result ≡ option_and_then (static_types.of_pointee program.now.unit.structs) (value_type v.entry) }
{
    match v {
        ValueType::Pointer(constant, base) => PlaceType::Stored(constant, program.type_of(base)),
        ValueType::Unknown | ValueType::Number(_) => PlaceType::Unknown,
    }
}

/// The type of the first member of a name.
#[tactic(auto, using(crate::proofs::Members::member_is_looked_up))]
fn member_shape<'a>(fields: &'a [Field], name: &Word) -> Option<&'a Shape>
    ensures { shape_seen result ≡ member_tree (row_from (map field_of fields.now)) name.now }
{
    match find_type(fields, name) {
        Some(shape) => Some(shape),
        None => None,
    }
}

fn stored<'a>(constant: bool, shape: Option<&'a Shape>) -> PlaceType<'a>
    ensures { place_type result ≡ option_map (static_types.Stored constant) (shape_seen shape.entry) }
{
    match shape {
        None => PlaceType::Unknown,
        Some(shape) => PlaceType::Stored(constant, ObjectType::Shaped(shape)),
    }
}

pub(crate) fn of_member<'a>(name: &Word, place: PlaceType<'a>) -> PlaceType<'a>
    ensures { place_type result ≡ option_and_then (static_types.of_member name.now) (place_type place.entry) }
{
    match place {
        PlaceType::Unknown | PlaceType::HeldNumber(_) | PlaceType::HeldPointer(_, _) => {
            PlaceType::Unknown
        }
        PlaceType::Stored(constant, ty) => member_in(name, constant, form_of(ty)),
    }
}

fn member_in<'a>(name: &Word, constant: bool, form: Form<'a>) -> PlaceType<'a>
    ensures { place_type result ≡ static_types.of_member name.now (static_types.Stored constant (form_tree form.entry)) }
{
    match form {
        Form::Scalar(_) | Form::Array(_, _) => PlaceType::Unknown,
        Form::Struct(_, fields) => stored(constant, member_shape(fields, name)),
    }
}

pub(crate) fn of_element<'a>(place: PlaceType<'a>, index: ValueType<'a>) -> PlaceType<'a>
    ensures { place_type result ≡ static_types.of_both static_types.of_element (place_type place.entry) (value_type index.entry) }
{
    match place {
        PlaceType::Unknown | PlaceType::HeldNumber(_) | PlaceType::HeldPointer(_, _) => {
            PlaceType::Unknown
        }
        PlaceType::Stored(constant, ty) => element_in(constant, form_of(ty), index),
    }
}

fn element_in<'a>(constant: bool, form: Form<'a>, index: ValueType<'a>) -> PlaceType<'a>
    ensures { place_type result ≡ static_types.of_both static_types.of_element (Some (static_types.Stored constant (form_tree form.entry))) (value_type index.entry) }
{
    match form {
        Form::Scalar(_) | Form::Struct(_, _) => PlaceType::Unknown,
        Form::Array(_, element) => match index {
            ValueType::Number(_) => PlaceType::Stored(constant, ObjectType::Shaped(element)),
            ValueType::Unknown | ValueType::Pointer(_, _) => PlaceType::Unknown,
        },
    }
}

/// The value of a place.
pub(crate) fn of_read<'a>(place: PlaceType<'a>) -> ValueType<'a>
    ensures { value_type result ≡ option_and_then static_types.of_read (place_type place.entry) }
{
    match place {
        PlaceType::Unknown => ValueType::Unknown,
        PlaceType::HeldNumber(k) => ValueType::Number(k),
        PlaceType::HeldPointer(constant, base) => ValueType::Pointer(constant, base),
        PlaceType::Stored(_, ty) => match form_of(ty) {
            Form::Scalar(s) => ValueType::Number(CKind::Scalar(s)),
            Form::Array(_, _) | Form::Struct(_, _) => ValueType::Unknown,
        },
    }
}

/// `&` of a part of an object.
pub(crate) fn of_address<'a>(place: PlaceType<'a>) -> ValueType<'a>
    ensures { value_type result ≡ option_and_then static_types.of_address (place_type place.entry) }
{
    match place {
        PlaceType::Unknown | PlaceType::HeldNumber(_) | PlaceType::HeldPointer(_, _) => {
            ValueType::Unknown
        }
        PlaceType::Stored(constant, ty) => match form_of(ty) {
            Form::Scalar(s) => ValueType::Pointer(constant, Base::Scalar(s)),
            Form::Struct(name, _) => ValueType::Pointer(constant, Base::Struct(name)),
            Form::Array(_, _) => ValueType::Unknown,
        },
    }
}
