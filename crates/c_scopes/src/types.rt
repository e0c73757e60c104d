//! Types of values, as far as the rules ask for them. A base borrows its tag from the unit.

ghost use Rattle.std.specs.Prelude.{◌≡◌, is_some};
ghost use Rattle.std.specs.Option.{option_and_then};
ghost use Rattle.c_ast.specs.StaticTypes as static_types;
ghost use Rattle.c_ast.specs.Conversions.{constant_type};
ghost use Rattle.c_ast.specs.declared.Target.TheVariants.{T32};
ghost use Rattle.c_ast.specs.Targets as targets;
ghost use Rattle.c_ast.specs.Targets.{table_of};
ghost use Rattle.c_text.specs.Rules.{where_typed};
ghost use Rattle.c_text.specs.ExpressionRules as rules;
ghost use Rattle.c_scopes.specs.Views.{base_view, value_view, type_view, chosen};

use c_ast::{
    Arith, CBase, CBinary, CKind, CScalar, CType, CUnary, Suffix, Target, common, promote,
};
use iv_words::Word;

/// The type of an object that is no array: a scalar, or the struct of a tag.
#[derive(Clone, Copy, Drop)]
pub enum Base<'u> {
    Scalar(CScalar),
    Struct(&'u Word),
}

/// The type of an expression, or that it has none.
#[derive(Clone, Copy, Drop)]
pub enum ValueType<'u> {
    Unknown,
    Number(CKind),
    Pointer(bool, Base<'u>),
}

/// A type that is wanted of a value: that of a parameter, a result, a name or a cast.
#[derive(Clone, Copy, Drop)]
pub enum Wanted<'u> {
    Void,
    Scalar(CScalar),
    Pointer(bool, Base<'u>),
}

pub fn base_of<'u>(base: &'u CBase) -> Base<'u>
    ensures { base_view result ≡ base.now }
{
    match base {
        CBase::Scalar(scalar) => Base::Scalar(*scalar),
        CBase::Struct(tag) => Base::Struct(tag),
    }
}

pub fn wanted_of<'u>(ty: &'u CType) -> Wanted<'u>
    ensures { type_view result ≡ ty.now }
{
    match ty {
        CType::Void => Wanted::Void,
        CType::Value(scalar) => Wanted::Scalar(*scalar),
        CType::Pointer(constant, base) => Wanted::Pointer(*constant, base_of(base)),
    }
}

// ---- numbers

fn promoted(target: Target, kind: CKind) -> Arith
    ensures { result ≡ targets.promoted (table_of target) kind }
{
    match kind {
        CKind::Scalar(scalar) => promote(target, scalar),
        CKind::Arith(arith) => arith,
    }
}

fn common_type(target: Target, first: CKind, second: CKind) -> Arith
    ensures { result ≡ targets.common_type (table_of target) first second }
{
    common(target, promoted(target, first), promoted(target, second))
}

fn unary_kind(target: Target, op: CUnary, kind: CKind) -> CKind
    ensures { result ≡ static_types.unary_type (table_of target) op kind }
{
    match op {
        CUnary::Neg | CUnary::Flip => CKind::Arith(promoted(target, kind)),
        CUnary::Not => CKind::Arith(Arith::Int),
    }
}

fn binary_kind(target: Target, op: CBinary, first: CKind, second: CKind) -> CKind
    ensures { result ≡ static_types.binary_type (table_of target) op first second }
{
    match op {
        CBinary::Add | CBinary::Sub | CBinary::Mul | CBinary::Div | CBinary::Rem => {
            CKind::Arith(common_type(target, first, second))
        }
        CBinary::And | CBinary::Or | CBinary::Xor => {
            CKind::Arith(common_type(target, first, second))
        }
        CBinary::Shl | CBinary::Shr => CKind::Arith(promoted(target, first)),
        CBinary::Eq | CBinary::Ne | CBinary::Lt | CBinary::Le | CBinary::Gt | CBinary::Ge => {
            CKind::Arith(Arith::Int)
        }
        CBinary::AndAlso | CBinary::OrElse => CKind::Arith(Arith::Int),
    }
}

/// The type of a decimal constant, where it has one.
pub fn constant(target: Target, value: u64, suffix: Suffix) -> Option<Arith>
    ensures { result ≡ constant_type target suffix value }
{
    match target {
        Target::T32 => constant_with_wide_int(value, suffix),
    }
}

/// The same where `int` and `long` have 32 bits.
fn constant_with_wide_int(value: u64, suffix: Suffix) -> Option<Arith>
    ensures { result ≡ constant_type T32 suffix value }
{
    match suffix {
        Suffix::Plain if value <= 2_147_483_647 => Some(Arith::Int),
        Suffix::Plain | Suffix::Ll if value <= 9_223_372_036_854_775_807 => Some(Arith::LongLong),
        Suffix::Plain | Suffix::Ll => None,
        Suffix::U if value <= 4_294_967_295 => Some(Arith::UInt),
        Suffix::U | Suffix::Ull => Some(Arith::ULongLong),
    }
}

// ---- operators

pub fn is_number(value: &ValueType) -> bool
    ensures { result ≡ where_typed rules.is_number (value_view value.now) }
{
    match value {
        ValueType::Unknown | ValueType::Number(_) => true,
        ValueType::Pointer(_, _) => false,
    }
}

pub fn is_pointer(value: &ValueType) -> bool
    ensures { result ≡ where_typed rules.is_pointer (value_view value.now) }
{
    match value {
        ValueType::Unknown | ValueType::Pointer(_, _) => true,
        ValueType::Number(_) => false,
    }
}

pub fn of_unary<'u>(target: Target, op: CUnary, value: &ValueType<'u>) -> ValueType<'u>
    ensures { value_view result ≡ option_and_then (static_types.of_unary (table_of target) op) (value_view value.now) }
{
    match value {
        ValueType::Number(kind) => ValueType::Number(unary_kind(target, op, *kind)),
        ValueType::Unknown | ValueType::Pointer(_, _) => ValueType::Unknown,
    }
}

pub fn of_binary<'u>(
    target: Target,
    op: CBinary,
    first: &ValueType<'u>,
    second: &ValueType<'u>,
) -> ValueType<'u>
    ensures { value_view result ≡ static_types.of_both (static_types.of_binary (table_of target) op) (value_view first.now) (value_view second.now) }
{
    match first {
        ValueType::Number(kind) => match second {
            ValueType::Number(other) => ValueType::Number(binary_kind(target, op, *kind, *other)),
            ValueType::Unknown | ValueType::Pointer(_, _) => ValueType::Unknown,
        },
        ValueType::Unknown => ValueType::Unknown,
        ValueType::Pointer(_, _) => match second {
            ValueType::Number(_) => ValueType::Unknown,
            ValueType::Unknown | ValueType::Pointer(_, _) => ValueType::Unknown,
        },
    }
}

fn of_arms<'u>(target: Target, first: &ValueType<'u>, second: &ValueType<'u>) -> ValueType<'u>
    ensures { value_view result ≡ static_types.of_both (static_types.of_arms (table_of target)) (value_view first.now) (value_view second.now) }
{
    match first {
        ValueType::Number(kind) => match second {
            ValueType::Number(other) => {
                ValueType::Number(CKind::Arith(common_type(target, *kind, *other)))
            }
            ValueType::Unknown | ValueType::Pointer(_, _) => ValueType::Unknown,
        },
        ValueType::Unknown => ValueType::Unknown,
        ValueType::Pointer(_, _) => match second {
            ValueType::Number(_) => ValueType::Unknown,
            ValueType::Unknown | ValueType::Pointer(_, _) => ValueType::Unknown,
        },
    }
}

pub fn of_choice<'u>(
    target: Target,
    test: &ValueType<'u>,
    first: &ValueType<'u>,
    second: &ValueType<'u>,
) -> ValueType<'u>
    ensures { value_view result ≡ chosen (table_of target) (value_view test.now) (value_view first.now) (value_view second.now) }
{
    match test {
        ValueType::Number(_) => of_arms(target, first, second),
        ValueType::Unknown | ValueType::Pointer(_, _) => ValueType::Unknown,
    }
}

/// The type of a cast, where it is allowed.
pub fn of_cast<'u>(to: &Wanted<'u>, value: &ValueType<'u>) -> ValueType<'u>
    ensures { value_view result ≡ option_and_then (static_types.of_cast (type_view to.now)) (value_view value.now) }
{
    match to {
        Wanted::Void => ValueType::Unknown,
        Wanted::Scalar(scalar) => match value {
            ValueType::Number(_) => ValueType::Number(CKind::Scalar(*scalar)),
            ValueType::Unknown | ValueType::Pointer(_, _) => ValueType::Unknown,
        },
        Wanted::Pointer(constant, base) => match value {
            ValueType::Pointer(_, _) => ValueType::Pointer(*constant, *base),
            ValueType::Unknown | ValueType::Number(_) => ValueType::Unknown,
        },
    }
}

/// Whether a cast of what has a type is one that there is.
pub fn cast_is_allowed(to: &Wanted, value: &ValueType) -> bool
    ensures { result ≡ where_typed (λ v. is_some (static_types.of_cast (type_view to.now) v)) (value_view value.now) }
{
    match to {
        Wanted::Void => matches!(value, ValueType::Unknown),
        Wanted::Scalar(_) => is_number(value),
        Wanted::Pointer(_, _) => is_pointer(value),
    }
}

// ---- what is given

fn same_scalar(first: CScalar, second: CScalar) -> bool
    ensures { result ≡ static_types.same_scalar first second }
{
    match first {
        CScalar::Truth => match second {
            CScalar::Truth => true,
            CScalar::Int(_) => false,
        },
        CScalar::Int(kind) => match second {
            CScalar::Truth => false,
            CScalar::Int(other) => kind == other,
        },
    }
}

fn same_base(first: &Base, second: &Base) -> bool
    ensures { result ≡ static_types.same_base (base_view first.now) (base_view second.now) }
{
    match first {
        Base::Scalar(scalar) => match second {
            Base::Scalar(other) => same_scalar(*scalar, *other),
            Base::Struct(_) => false,
        },
        Base::Struct(tag) => match second {
            Base::Scalar(_) => false,
            Base::Struct(other) => **tag == **other,
        },
    }
}

/// Whether what has a type may be given where one is wanted.
pub fn may_be_given(value: &ValueType, wanted: &Wanted) -> bool
    ensures { result ≡ where_typed (λ v. static_types.may_be_given v (type_view wanted.now)) (value_view value.now) }
{
    match value {
        ValueType::Unknown => true,
        ValueType::Number(_) => match wanted {
            Wanted::Scalar(_) => true,
            Wanted::Void | Wanted::Pointer(_, _) => false,
        },
        ValueType::Pointer(constant, base) => match wanted {
            Wanted::Pointer(to_constant, to) => same_base(base, to) && (!*constant || *to_constant),
            Wanted::Void | Wanted::Scalar(_) => false,
        },
    }
}
