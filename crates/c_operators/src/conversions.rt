//! Conversions of values (C99 6.3.1, 6.5.16.1).

ghost use Rattle.std.specs.Prelude.{◌≡◌};
ghost use Rattle.c_ast.specs.StaticTypes.{same_base};
ghost use Rattle.c_ast.specs.Targets.{table_of};
ghost use Rattle.c_meaning.specs.Values as meaning;
ghost use Rattle.c_objects.specs.Shapes.{base_of};
ghost use Rattle.c_operators.specs.Values.{value_of, Gives, Never};

use crate::values::{Trouble, Value};
use c_ast::{CBase, CKind, CType, Target, convert};
use c_objects::Base;
use run_records::Reason;

/// A number converted to a type.
pub fn as_kind<'a>(t: Target, to: CKind, v: Value<'a>) -> Result<Value<'a>, Trouble>
    ensures { Gives Never value_of (meaning.as_kind (table_of t) to (value_of v.entry)) result }
{
    match v {
        Value::Ptr(_, _, _) => Err(Trouble::Stuck),
        Value::Num(_, n) => match convert(t, to, n) {
            Some(w) => Ok(Value::Num(to, w)),
            None => Err(Trouble::Undefined(Reason::Implementation)),
        },
    }
}

/// The base that a declaration names.
pub fn base_ref<'a>(b: &'a CBase) -> Base<'a>
    ensures { base_of result ≡ b.now }
{
    match b {
        CBase::Scalar(s) => Base::Scalar(*s),
        CBase::Struct(w) => Base::Struct(w),
    }
}

fn is_same_base(a: Base, b: Base) -> bool
    ensures { result ≡ same_base (base_of a.entry) (base_of b.entry) }
{
    match a {
        Base::Scalar(s) => match b {
            Base::Scalar(u) => s == u,
            Base::Struct(_) => false,
        },
        Base::Struct(k) => match b {
            Base::Scalar(_) => false,
            Base::Struct(l) => *k == *l,
        },
    }
}

/// A pointer given where one to this base is wanted.
pub fn as_pointer<'a>(constant: bool, base: Base<'a>, v: Value<'a>) -> Result<Value<'a>, Trouble>
    ensures { Gives Never value_of (meaning.as_pointer constant (base_of base.entry) (value_of v.entry)) result }
{
    match v {
        Value::Num(_, _) => Err(Trouble::Stuck),
        Value::Ptr(from_constant, from, to) => {
            if is_same_base(from, base) && (!from_constant || constant) {
                Ok(Value::Ptr(constant, base, to))
            } else {
                Err(Trouble::Stuck)
            }
        }
    }
}

/// A value converted to a type as by assignment.
pub fn as_assigned<'a>(t: Target, ty: &'a CType, v: Value<'a>) -> Result<Value<'a>, Trouble>
    ensures { Gives Never value_of (meaning.as_assigned t ty.now (value_of v.entry)) result }
{
    match ty {
        CType::Void => Err(Trouble::Stuck),
        CType::Value(s) => as_kind(t, CKind::Scalar(*s), v),
        CType::Pointer(constant, base) => as_pointer(*constant, base_ref(base), v),
    }
}
