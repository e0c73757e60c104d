//! What places come to: the value of a const name, or a part of an object; what is read there, and where pointers lead.

ghost use Rattle.std.specs.Prelude.{◌≡◌, Ok};
ghost use Rattle.c_ast.specs.Conversions.{can_hold};
ghost use Rattle.c_ast.specs.Targets.{table_of};
ghost use Rattle.c_ast.specs.declared.CKind.TheVariants.{Scalar};
ghost use Rattle.c_meaning.specs.Memory as memory;
ghost use Rattle.c_meaning.specs.Memory.{answered, memory_of};
ghost use Rattle.c_meaning.specs.Places as meaning;
ghost use Rattle.c_meaning.specs.Values as values;
ghost use Rattle.c_objects.specs.Faults.{fault_of};
ghost use Rattle.c_objects.specs.Shapes.{base_of, tree_of};
ghost use Rattle.c_objects.specs.Store.{objects_of};
ghost use Rattle.c_operators.specs.Values.{address_of, value_of, Gives};
ghost use Rattle.c_expressions.specs.Names.{meant_of, place_of};
ghost use Rattle.c_expressions.specs.Places.{lvalue_of, Excused, trouble_of};
ghost use Rattle.c_expressions.specs.State.{state_of};

use crate::form::{Form, Found, find_member, form_of};
use crate::names::Meant;
use crate::program::Program;
use crate::state::State;
use c_ast::{CKind, CScalar, CType, Target};
use c_objects::{Base, Fault, ObjectType, Objects, Refusal, Shape, size_of_shape};
use c_operators::{Address, Trouble, Value, as_kind, base_ref};
use int_ops::fits;
use iv_words::Word;
use run_records::Reason;

/// A value that a name holds for good, or a part of an object, named as const here or not, with where it begins and its type.
#[derive(Clone, Copy, Drop)]
pub enum Lvalue<'a> {
    Known(Value<'a>),
    Located(bool, Address, ObjectType<'a>),
}

// ---- refusals

fn reason_of(fault: Fault) -> Reason
    ensures { result ≡ memory.reason_of (fault_of fault) }
{
    match fault {
        Fault::Dead => Reason::Dead,
        Fault::BadAccess => Reason::BadAccess,
        Fault::Indeterminate => Reason::Indeterminate,
        Fault::ConstWrite => Reason::ConstWrite,
    }
}

/// Why an access to memory has no meaning.
pub fn trouble_of(refusal: Refusal) -> Trouble
    ensures { result ≡ trouble_of refusal }
{
    match refusal {
        Refusal::Fault(fault) => Trouble::Undefined(reason_of(fault)),
        Refusal::Memory => Trouble::Memory,
    }
}

// ---- names

/// The place of a name, from what it stands for.
pub(crate) fn place_of_name<'a>(
    program: &'a Program,
    meant: Meant<'a>,
) -> Result<Lvalue<'a>, Trouble>
    ensures { Gives Excused lvalue_of (place_of program.now.unit.structs (meant_of meant.entry)) result }
{
    match meant {
        Meant::Nothing => Err(Trouble::Stuck),
        Meant::Value(v) => Ok(Lvalue::Known(v)),
        Meant::Object(constant, object, base) => {
            let to = Address { object, offset: 0 };
            Ok(Lvalue::Located(constant, to, program.type_of(base)))
        }
    }
}

// ---- parts

/// `*` of a pointer.
pub(crate) fn pointee<'a>(program: &'a Program, v: Value<'a>) -> Result<Lvalue<'a>, Trouble>
    ensures { Gives Excused lvalue_of (meaning.pointee program.now.unit.structs (value_of v.entry)) result }
{
    match v {
        Value::Num(_, _) => Err(Trouble::Stuck),
        Value::Ptr(constant, base, to) => {
            Ok(Lvalue::Located(constant, to, program.type_of(base)))
        }
    }
}

/// A part with its type, so many bytes behind an address.
fn part_behind<'a>(
    constant: bool,
    to: Address,
    bytes: u64,
    shape: &'a Shape,
) -> Result<Lvalue<'a>, Trouble>
    ensures { Gives Excused lvalue_of (Ok (meaning.Located constant (meaning.behind (address_of to) bytes) (tree_of shape.now))) result }
{
    let Some(offset) = to.offset.checked_add(bytes) else {
        return Err(Trouble::Memory);
    };
    let to = Address {
        object: to.object,
        offset,
    };
    Ok(Lvalue::Located(constant, to, ObjectType::Shaped(shape)))
}

/// A member of a struct.
pub(crate) fn member_of<'a>(t: Target, name: &Word, l: Lvalue<'a>) -> Result<Lvalue<'a>, Trouble>
    ensures { Gives Excused lvalue_of (meaning.member_of t name.now (lvalue_of l.entry)) result }
{
    match l {
        Lvalue::Known(_) => Err(Trouble::Stuck),
        Lvalue::Located(constant, to, ty) => match form_of(ty) {
            Form::Scalar(_) | Form::Array(_, _) => Err(Trouble::Stuck),
            Form::Struct(_, fields) => match find_member(t, fields, name) {
                Found::Missing => Err(Trouble::Stuck),
                Found::TooFar => Err(Trouble::Memory),
                Found::At(bytes, shape) => part_behind(constant, to, bytes, shape),
            },
        },
    }
}

/// An element of an array of so many, where the index is in range.
fn element_at<'a>(
    t: Target,
    constant: bool,
    to: Address,
    n: u32,
    element: &'a Shape,
    index: i128,
) -> Result<Lvalue<'a>, Trouble>
    ensures { Gives Excused lvalue_of (meaning.element_at t constant (address_of to) n (tree_of element.now) index) result }
{
    if index < 0 || i128::from(n) <= index {
        return Err(Trouble::Undefined(Reason::Bounds));
    }
    let Some(wide) = size_of_shape(t, element) else {
        return Err(Trouble::Memory);
    };
    match (index as u64).checked_mul(wide) {
        Some(bytes) => part_behind(constant, to, bytes, element),
        None => Err(Trouble::Memory),
    }
}

/// An element of an array.
pub(crate) fn element_of<'a>(
    t: Target,
    l: Lvalue<'a>,
    index: Value<'a>,
) -> Result<Lvalue<'a>, Trouble>
    ensures { Gives Excused lvalue_of (meaning.element_of t (lvalue_of l.entry) (value_of index.entry)) result }
{
    match l {
        Lvalue::Known(_) => Err(Trouble::Stuck),
        Lvalue::Located(constant, to, ty) => match form_of(ty) {
            Form::Scalar(_) | Form::Struct(_, _) => Err(Trouble::Stuck),
            Form::Array(n, element) => match index {
                Value::Num(_, i) => element_at(t, constant, to, n, element, i),
                Value::Ptr(_, _, _) => Err(Trouble::Stuck),
            },
        },
    }
}

// ---- what is read, and pointers

fn alive<'a>(state: &State<'a>, v: Value<'a>) -> Result<Value<'a>, Trouble>
    ensures { Gives Excused value_of (meaning.alive (state_of state.now) (value_of v.entry)) result }
{
    match v {
        Value::Num(_, _) => Ok(v),
        Value::Ptr(_, _, to) => {
            if state.objects.is_live(to.object) {
                Ok(v)
            } else {
                Err(Trouble::Undefined(Reason::Dead))
            }
        }
    }
}

fn can_hold(s: CScalar, v: i128) -> bool
    ensures { (t : Target) → result ≡ can_hold (table_of t) (Scalar s) v }
{
    match s {
        CScalar::Truth => 0 <= v && v <= 1,
        CScalar::Int(kind) => fits(kind, v),
    }
}

fn of_scalar<'a>(t: Target, s: CScalar, v: i128) -> Result<Value<'a>, Trouble>
    ensures { Gives Excused value_of (meaning.of_scalar t s v) result }
{
    if can_hold(s, v) {
        Ok(Value::Num(CKind::Scalar(s), v))
    } else {
        Err(Trouble::Stuck)
    }
}

fn read_scalar<'a>(
    t: Target,
    objects: &Objects<'a>,
    to: Address,
    s: CScalar,
) -> Result<Value<'a>, Trouble>
    ensures { Gives Excused value_of (values.on_ok (answered ((memory_of t).read (objects_of objects.now) to.object (to.offset, s))) (meaning.of_scalar t s)) result }
{
    match objects.read(t, to.object, to.offset, s) {
        Ok(v) => of_scalar(t, s, v),
        Err(refusal) => Err(trouble_of(refusal)),
    }
}

/// The value of a place.
pub(crate) fn read<'a>(t: Target, state: &State<'a>, l: Lvalue<'a>) -> Result<Value<'a>, Trouble>
    ensures { Gives Excused value_of (meaning.read t (state_of state.now) (lvalue_of l.entry)) result }
{
    match l {
        Lvalue::Known(v) => alive(state, v),
        Lvalue::Located(_, to, ty) => match form_of(ty) {
            Form::Scalar(s) => read_scalar(t, &state.objects, to, s),
            Form::Array(_, _) | Form::Struct(_, _) => Err(Trouble::Stuck),
        },
    }
}

/// `&` of an object or its part.
pub(crate) fn address_of<'a>(l: Lvalue<'a>) -> Result<Value<'a>, Trouble>
    ensures { Gives Excused value_of (meaning.address_of (lvalue_of l.entry)) result }
{
    match l {
        Lvalue::Known(_) => Err(Trouble::Stuck),
        Lvalue::Located(constant, to, ty) => match form_of(ty) {
            Form::Scalar(s) => Ok(Value::Ptr(constant, Base::Scalar(s), to)),
            Form::Struct(name, _) => Ok(Value::Ptr(constant, Base::Struct(name), to)),
            Form::Array(_, _) => Err(Trouble::Stuck),
        },
    }
}

/// A pointer to a base, where an object or a part of that type begins where it leads to.
fn pointer_cast<'a>(
    t: Target,
    state: &State<'a>,
    constant: bool,
    base: Base<'a>,
    v: Value<'a>,
) -> Result<Value<'a>, Trouble>
    ensures { Gives Excused value_of (meaning.pointer_cast t (state_of state.now) constant (base_of base.entry) (value_of v.entry)) result }
{
    let Value::Ptr(_, _, to) = v else {
        return Err(Trouble::Stuck);
    };
    match state.objects.refuses_cast(t, base, to.object, to.offset) {
        Ok(None) => Ok(Value::Ptr(constant, base, to)),
        Ok(Some(fault)) => Err(Trouble::Undefined(reason_of(fault))),
        Err(_) => Err(Trouble::Memory),
    }
}

pub(crate) fn cast<'a>(
    t: Target,
    state: &State<'a>,
    to: &'a CType,
    v: Value<'a>,
) -> Result<Value<'a>, Trouble>
    ensures { Gives Excused value_of (meaning.cast t (state_of state.now) to.now (value_of v.entry)) result }
{
    match to {
        CType::Void => Err(Trouble::Stuck),
        CType::Value(s) => as_kind(t, CKind::Scalar(*s), v),
        CType::Pointer(constant, base) => pointer_cast(t, state, *constant, base_ref(base), v),
    }
}
