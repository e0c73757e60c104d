//! Types, and names with what stands before them behind a type.

ghost use Rattle.std.specs.Prelude.{◌≡◌};
ghost use Rattle.grammars.specs.Grammar.{after, choice, map, optional};
ghost use Rattle.c_grammar.specs.Pieces as piece;
ghost use Rattle.c_grammar.specs.Pieces.{pieces};
ghost use Rattle.c_grammar.specs.Symbols as symbols;
ghost use Rattle.c_grammar.specs.TypeRules as rules;
ghost use Rattle.c_lexemes.specs.Gives.{Gives, Passes, itself};
ghost use Rattle.c_lexemes.specs.Levels.{reads_at};

use c_ast::{CBase, CScalar, CType};
use c_lexemes::{
    Fault, Fixed, ONE_BLANK, SCALAR, STAR, blank, fixed, is_next, is_star_or_const, kind, mark,
    name, scalar,
};
use iv_words::Word;
use std::alloc::Global;

/// A `struct` and its name.
pub fn tag(alloc: Global, depth: u16, bytes: &[u8]) -> Result<(Word, &[u8]), Fault<'_>>
    ensures { Gives itself result (reads_at depth rules.tag (pieces bytes.now)) }
{
    let rest = fixed(depth, Fixed::Struct, bytes)?;
    let rest = blank(depth, rest)?;
    name(alloc, depth, rest)
}

/// The type of an object.
pub fn base(alloc: Global, depth: u16, bytes: &[u8]) -> Result<(CBase, &[u8]), Fault<'_>>
    ensures { Gives itself result (reads_at depth rules.base (pieces bytes.now)) }
{
    if is_next(depth, SCALAR, bytes) {
        let (scalar, rest) = scalar(depth, bytes)?;
        return Ok((CBase::Scalar(scalar), rest));
    }
    let (name, rest) = tag(alloc, depth, bytes)?;
    Ok((CBase::Struct(name), rest))
}

/// `const *`.
fn const_star(depth: u16, bytes: &[u8]) -> Result<&[u8], Fault<'_>>
    ensures { Passes (piece.Byte 42) result (reads_at depth (after symbols.word_const (after symbols.blank symbols.star)) (pieces bytes.now)) }
{
    let rest = fixed(depth, Fixed::Const, bytes)?;
    let rest = blank(depth, rest)?;
    mark(depth, b'*', rest)
}

/// ` *` or ` const *`, and whether it is to `const`.
fn pointer(depth: u16, bytes: &[u8]) -> Result<(bool, &[u8]), Fault<'_>>
    ensures { Gives itself result (reads_at depth rules.pointer (pieces bytes.now)) }
{
    let rest = blank(depth, bytes)?;
    if is_next(depth, STAR, rest) {
        let rest = mark(depth, b'*', rest)?;
        return Ok((false, rest));
    }
    let rest = const_star(depth, rest)?;
    Ok((true, rest))
}

fn optional_pointer(depth: u16, bytes: &[u8]) -> Result<(Option<bool>, &[u8]), Fault<'_>>
    ensures { Gives itself result (reads_at depth (optional rules.pointer) (pieces bytes.now)) }
{
    if !is_next(depth, ONE_BLANK, bytes) {
        return Ok((None, bytes));
    }
    let (constant, rest) = pointer(depth, bytes)?;
    Ok((Some(constant), rest))
}

/// A scalar, or a pointer to it.
pub fn scalar_type(scalar: CScalar, pointer: Option<bool>) -> CType
    ensures { result ≡ rules.scalar_type scalar pointer }
{
    match pointer {
        None => CType::Value(scalar),
        Some(constant) => CType::Pointer(constant, CBase::Scalar(scalar)),
    }
}

/// The type of a value: a scalar or a pointer.
pub fn value_type(alloc: Global, depth: u16, bytes: &[u8]) -> Result<(CType, &[u8]), Fault<'_>>
    ensures { Gives itself result (reads_at depth rules.value_type (pieces bytes.now)) }
{
    if is_next(depth, SCALAR, bytes) {
        let (scalar, rest) = scalar(depth, bytes)?;
        let (pointer, rest) = optional_pointer(depth, rest)?;
        return Ok((scalar_type(scalar, pointer), rest));
    }
    let (name, rest) = tag(alloc, depth, bytes)?;
    let (constant, rest) = pointer(depth, rest)?;
    Ok((CType::Pointer(constant, CBase::Struct(name)), rest))
}

/// `*const` and a name.
fn star_const_name(alloc: Global, depth: u16, bytes: &[u8]) -> Result<(Word, &[u8]), Fault<'_>>
    ensures { Gives itself result (reads_at depth (after symbols.star rules.const_name) (pieces bytes.now)) }
{
    let rest = mark(depth, b'*', bytes)?;
    let rest = fixed(depth, Fixed::Const, rest)?;
    let rest = blank(depth, rest)?;
    name(alloc, depth, rest)
}

/// A name that holds a pointer, and whether that is to `const`.
pub fn held_pointer(
    alloc: Global,
    depth: u16,
    bytes: &[u8],
) -> Result<((bool, Word), &[u8]), Fault<'_>>
    ensures { Gives itself result (reads_at depth rules.held_pointer (pieces bytes.now)) }
{
    if is_next(depth, STAR, bytes) {
        let (name, rest) = star_const_name(alloc, depth, bytes)?;
        return Ok(((false, name), rest));
    }
    let rest = fixed(depth, Fixed::Const, bytes)?;
    let rest = blank(depth, rest)?;
    let (name, rest) = star_const_name(alloc, depth, rest)?;
    Ok(((true, name), rest))
}

/// Behind a `const`: a name that holds a pointer to `const`, or a value.
fn held_behind_const(
    alloc: Global,
    depth: u16,
    bytes: &[u8],
) -> Result<((Option<bool>, Word), &[u8]), Fault<'_>>
    ensures { Gives itself result (reads_at depth (choice (map (λ x. rules.some_pointer (rules.to_const x)) (after symbols.star rules.const_name)) (map rules.no_pointer rules.name)) (pieces bytes.now)) }
{
    if is_next(depth, STAR, bytes) {
        let (name, rest) = star_const_name(alloc, depth, bytes)?;
        return Ok(((Some(true), name), rest));
    }
    let (name, rest) = name(alloc, depth, bytes)?;
    Ok(((None, name), rest))
}

/// A name that holds a value, and whether that is a pointer, to `const` or not.
pub fn held(
    alloc: Global,
    depth: u16,
    bytes: &[u8],
) -> Result<((Option<bool>, Word), &[u8]), Fault<'_>>
    ensures { Gives itself result (reads_at depth rules.held (pieces bytes.now)) }
{
    if is_next(depth, STAR, bytes) {
        let (name, rest) = star_const_name(alloc, depth, bytes)?;
        return Ok(((Some(false), name), rest));
    }
    let rest = fixed(depth, Fixed::Const, bytes)?;
    let rest = blank(depth, rest)?;
    held_behind_const(alloc, depth, rest)
}

/// `*` and a name.
pub fn star_name(alloc: Global, depth: u16, bytes: &[u8]) -> Result<(Word, &[u8]), Fault<'_>>
    ensures { Gives itself result (reads_at depth (after symbols.star rules.name) (pieces bytes.now)) }
{
    let rest = mark(depth, b'*', bytes)?;
    name(alloc, depth, rest)
}

/// The name of a function that gives a pointer, and whether that is to `const`.
pub fn pointer_name(
    alloc: Global,
    depth: u16,
    bytes: &[u8],
) -> Result<((bool, Word), &[u8]), Fault<'_>>
    ensures { Gives itself result (reads_at depth rules.pointer_name (pieces bytes.now)) }
{
    if is_next(depth, STAR, bytes) {
        let (name, rest) = star_name(alloc, depth, bytes)?;
        return Ok(((false, name), rest));
    }
    let rest = fixed(depth, Fixed::Const, bytes)?;
    let rest = blank(depth, rest)?;
    let (name, rest) = star_name(alloc, depth, rest)?;
    Ok(((true, name), rest))
}

/// The name of a function that gives a scalar or a pointer to one.
pub fn typed_name(
    alloc: Global,
    depth: u16,
    bytes: &[u8],
) -> Result<((Option<bool>, Word), &[u8]), Fault<'_>>
    ensures { Gives itself result (reads_at depth rules.typed_name (pieces bytes.now)) }
{
    if is_star_or_const(kind(depth, bytes)) {
        let ((constant, name), rest) = pointer_name(alloc, depth, bytes)?;
        return Ok(((Some(constant), name), rest));
    }
    let (name, rest) = name(alloc, depth, bytes)?;
    Ok(((None, name), rest))
}
