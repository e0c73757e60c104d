//! Types, names with their types before them, and the words of declarations.

ghost use Rattle.std.specs.Prelude.{◌≡◌};
ghost use Rattle.c_text.specs.TypeText.{kind_text, scalar_text, base_text, star_text, type_text, gap_text, typed_text, const_text, object_text};
ghost use Rattle.c_text.specs.Spelling.{storage_text, base_const_text};
ghost use Rattle.c_writer.specs.Stages.{Puts};

use crate::pieces::Pieces;
use c_ast::{CBase, CScalar, CType};
use iv_words::{IntKind, Word};

/// The name of a kind in `<stdint.h>`.
pub fn kind_name(kind: IntKind) -> &'static [u8]
    ensures { result.now ≡ kind_text kind }
{
    match kind {
        IntKind::U8 => b"uint8_t",
        IntKind::U16 => b"uint16_t",
        IntKind::U32 => b"uint32_t",
        IntKind::U64 => b"uint64_t",
        IntKind::I8 => b"int8_t",
        IntKind::I16 => b"int16_t",
        IntKind::I32 => b"int32_t",
        IntKind::I64 => b"int64_t",
    }
}

/// The name of a scalar type, as `<stdint.h>` and `<stdbool.h>` define it.
pub fn scalar_name(scalar: CScalar) -> &'static [u8]
    ensures { result.now ≡ scalar_text scalar }
{
    match scalar {
        CScalar::Truth => b"bool",
        CScalar::Int(kind) => kind_name(kind),
    }
}

/// `static` and a blank before a function that only its unit sees.
pub fn storage_name(hidden: bool) -> &'static [u8]
    ensures { result.now ≡ storage_text hidden }
{
    if hidden { b"static " } else { b"" }
}

/// `const` and a blank before the name of a const object.
pub fn const_name(constant: bool) -> &'static [u8]
    ensures { result.now ≡ base_const_text constant }
{
    if constant { b"const " } else { b"" }
}

/// What follows the base of a pointer.
fn star_name(constant: bool) -> &'static [u8]
    ensures { result.now ≡ star_text constant }
{
    if constant { b" const *" } else { b" *" }
}

/// What stands between a type and a name.
fn gap_name(ty: &CType) -> &'static [u8]
    ensures { result.now ≡ gap_text ty.now }
{
    match ty {
        CType::Void => b" ",
        CType::Value(_) => b" ",
        CType::Pointer(_, _) => b"",
    }
}

/// The type of an object.
pub fn put_base<P: Pieces>(base: &CBase, out: &mut P)
    ensures { Puts (P.stage out.old) (P.stage out.new) (base_text base.now) }
{
    match base {
        CBase::Scalar(scalar) => out.put(scalar_name(*scalar)),
        CBase::Struct(tag) => {
            out.put(b"struct ");
            out.put(tag.as_slice());
        }
    }
}

/// A type without a name after it.
pub fn put_type<P: Pieces>(ty: &CType, out: &mut P)
    ensures { Puts (P.stage out.old) (P.stage out.new) (type_text ty.now) }
{
    match ty {
        CType::Void => out.put(b"void"),
        CType::Value(scalar) => out.put(scalar_name(*scalar)),
        CType::Pointer(constant, base) => {
            put_base(base, out);
            out.put(star_name(*constant));
        }
    }
}

/// A result and its function.
pub fn put_typed<P: Pieces>(ty: &CType, name: &Word, out: &mut P)
    ensures { Puts (P.stage out.old) (P.stage out.new) (typed_text ty.now name.now) }
{
    put_type(ty, out);
    out.put(gap_name(ty));
    out.put(name.as_slice());
}

/// A name that holds a value.
pub fn put_const<P: Pieces>(ty: &CType, name: &Word, out: &mut P)
    ensures { Puts (P.stage out.old) (P.stage out.new) (const_text ty.now name.now) }
{
    put_type(ty, out);
    out.put(gap_name(ty));
    out.put(b"const ");
    out.put(name.as_slice());
}

/// An object or a member.
pub fn put_object<P: Pieces>(base: &CBase, name: &Word, out: &mut P)
    ensures { Puts (P.stage out.old) (P.stage out.new) (object_text base.now name.now) }
{
    put_base(base, out);
    out.put(b" ");
    out.put(name.as_slice());
}
