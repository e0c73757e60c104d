//! The words of the text that a form is spelled with, as far as they vary.

ghost use Rattle.std.specs.Prelude.{◌≡◌};
ghost use Rattle.c_text.specs.TypeText.{kind_text, scalar_text, star_text, gap_text};
ghost use Rattle.c_text.specs.ExpressionText.{suffix_text, unary_text, binary_text};

use c_ast::{CBinary, CScalar, CType, CUnary, Suffix};
use iv_words::IntKind;

fn kind_name(kind: IntKind) -> &'static [u8]
    ensures { result.now ≡ kind_text kind }
{
    match kind {
        IntKind::U8 => b"uint8_t",
        IntKind::U16 => b"uint16_t",
        IntKind::U32 => b"uint32_t",
        IntKind::U64 => b"uint64_t",
        IntKind::I8 => b"int8_t",
        IntKind::I16 => b"int16_t",
        IntKind::I32 => b"int32_t",
        IntKind::I64 => b"int64_t",
    }
}

pub fn scalar_name(scalar: CScalar) -> &'static [u8]
    ensures { result.now ≡ scalar_text scalar }
{
    match scalar {
        CScalar::Truth => b"bool",
        CScalar::Int(kind) => kind_name(kind),
    }
}

pub fn star_name(constant: bool) -> &'static [u8]
    ensures { result.now ≡ star_text constant }
{
    if constant { b" const *" } else { b" *" }
}

/// What stands between a type and a name.
pub fn gap_name(ty: &CType) -> &'static [u8]
    ensures { result.now ≡ gap_text ty.now }
{
    match ty {
        CType::Void | CType::Value(_) => b" ",
        CType::Pointer(_, _) => b"",
    }
}

/// The letters after a constant that name its type.
pub fn suffix_name(suffix: Suffix) -> &'static [u8]
    ensures { result.now ≡ suffix_text suffix }
{
    match suffix {
        Suffix::Plain => b"",
        Suffix::U => b"u",
        Suffix::Ll => b"ll",
        Suffix::Ull => b"ull",
    }
}

pub fn unary_name(op: CUnary) -> &'static [u8]
    ensures { result.now ≡ unary_text op }
{
    match op {
        CUnary::Neg => b"-",
        CUnary::Flip => b"~",
        CUnary::Not => b"!",
    }
}

pub fn binary_name(op: CBinary) -> &'static [u8]
    ensures { result.now ≡ binary_text op }
{
    match op {
        CBinary::Add => b"+",
        CBinary::Sub => b"-",
        CBinary::Mul => b"*",
        CBinary::Div => b"/",
        CBinary::Rem => b"%",
        CBinary::And => b"&",
        CBinary::Or => b"|",
        CBinary::Xor => b"^",
        CBinary::Shl => b"<<",
        CBinary::Shr => b">>",
        CBinary::Eq => b"==",
        CBinary::Ne => b"!=",
        CBinary::Lt => b"<",
        CBinary::Le => b"<=",
        CBinary::Gt => b">",
        CBinary::Ge => b">=",
        CBinary::AndAlso => b"&&",
        CBinary::OrElse => b"||",
    }
}
