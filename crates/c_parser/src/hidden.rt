//! What begins with `static`: objects and hidden functions.

ghost use Rattle.std.specs.Prelude.{◌≡◌, true};
ghost use Rattle.c_ast.specs.View.{init_of};
ghost use Rattle.grammars.specs.Grammar.{after, before, choice, map, sequence};
ghost use Rattle.grammars.specs.Kinds.{first};
ghost use Rattle.c_grammar.specs.Pieces.{pieces};
ghost use Rattle.c_grammar.specs.Symbols as symbols;
ghost use Rattle.c_grammar.specs.TypeRules as types;
ghost use Rattle.c_grammar.specs.ExpressionRules.{initializer};
ghost use Rattle.c_grammar.specs.UnitRules as rules;
ghost use Rattle.c_lexemes.specs.Gives.{Gives};
ghost use Rattle.c_lexemes.specs.Levels.{begins_with, reads_at};
ghost use Rattle.c_parser.specs.Views.{defined_or_value_of, item_of, pointed_of, scalar_behind_of, struct_behind_of, typed_of, valued_of};

use crate::function::{defined, function, function_with, void_function};
use crate::item::line_end;
use crate::parts::{Defined, Item};
use c_ast::{CBase, CInit, CObject, CScalar, CType};
use c_expression_parser::{Side, initializer, scalar_type, star_name, tag};
use c_lexemes::{
    CONST, Fault, Fixed, OPEN_PAREN, SCALAR, STAR, VOID, blank, fixed, is_next, mark, name, scalar,
};
use iv_words::Word;
use std::alloc::Global;

/// The parts of a function that gives a scalar or a pointer to one, or of an object.
type ScalarBehind = Side<((Option<bool>, Word), Defined), ((bool, Word), CInit)>;

/// The parts of a function that gives a pointer to a struct, or of an object.
type StructBehind = Side<((bool, Word), Defined), ((bool, Word), CInit)>;

fn init_and_end(alloc: Global, depth: u16, bytes: &[u8]) -> Result<(CInit, &[u8]), Fault<'_>>
    ensures { Gives init_of result (reads_at depth (before initializer (after symbols.semicolon symbols.new_line)) (pieces bytes.now)) }
{
    let (init, rest) = initializer(alloc, depth, bytes)?;
    let rest = line_end(depth, rest)?;
    Ok((init, rest))
}

/// ` = I;` and the end of the line.
#[tactic(auto, unfolding(c_grammar::specs::UnitRules::first_value))]
fn first_value(alloc: Global, depth: u16, bytes: &[u8]) -> Result<(CInit, &[u8]), Fault<'_>>
    ensures { Gives init_of result (reads_at depth rules.first_value (pieces bytes.now)) }
{
    let rest = blank(depth, bytes)?;
    let rest = mark(depth, b'=', rest)?;
    let rest = blank(depth, rest)?;
    init_and_end(alloc, depth, rest)
}

fn constant_object(
    alloc: Global,
    depth: u16,
    bytes: &[u8],
) -> Result<(((bool, Word), CInit), &[u8]), Fault<'_>>
    ensures { Gives valued_of result (reads_at depth rules.constant_object (pieces bytes.now)) }
{
    let (name, rest) = name(alloc, depth, bytes)?;
    let (init, rest) = first_value(alloc, depth, rest)?;
    Ok((((true, name), init), rest))
}

// ---- behind a scalar

fn scalar_star(alloc: Global, depth: u16, bytes: &[u8]) -> Result<(ScalarBehind, &[u8]), Fault<'_>>
    ensures { Gives scalar_behind_of result (reads_at depth (rules.behind_star rules.some_pointer) (pieces bytes.now)) }
{
    let (name, rest) = star_name(alloc, depth, bytes)?;
    let (defined, rest) = defined(alloc, depth, rest)?;
    Ok((Side::Left(((Some(false), name), defined)), rest))
}

fn scalar_const_star(
    alloc: Global,
    depth: u16,
    bytes: &[u8],
) -> Result<(((Option<bool>, Word), Defined), &[u8]), Fault<'_>>
    ensures { Gives typed_of result (reads_at depth (sequence (λ x d. (rules.some_pointer (types.to_const x), d)) (after symbols.star types.name) rules.defined) (pieces bytes.now)) }
{
    let (name, rest) = star_name(alloc, depth, bytes)?;
    let (defined, rest) = defined(alloc, depth, rest)?;
    Ok((((Some(true), name), defined), rest))
}

fn scalar_const(alloc: Global, depth: u16, bytes: &[u8]) -> Result<(ScalarBehind, &[u8]), Fault<'_>>
    ensures { Gives scalar_behind_of result (reads_at depth (rules.behind_const rules.some_pointer) (pieces bytes.now)) }
{
    let rest = fixed(depth, Fixed::Const, bytes)?;
    let rest = blank(depth, rest)?;
    if is_next(depth, STAR, rest) {
        let (function, rest) = scalar_const_star(alloc, depth, rest)?;
        return Ok((Side::Left(function), rest));
    }
    let (object, rest) = constant_object(alloc, depth, rest)?;
    Ok((Side::Right(object), rest))
}

/// Whether the parameters of a function begin here.
#[tactic(auto, unfolding(c_grammar::specs::UnitRules::defined))]
fn starts_defined(depth: u16, bytes: &[u8]) -> bool
    ensures { result ≡ begins_with depth (first rules.defined) (pieces bytes.now) }
{
    is_next(depth, OPEN_PAREN, bytes)
}

fn defined_or_value(
    alloc: Global,
    depth: u16,
    bytes: &[u8],
) -> Result<(Side<Defined, CInit>, &[u8]), Fault<'_>>
    ensures { Gives defined_or_value_of result (reads_at depth (choice (map symbols.left rules.defined) (map symbols.right rules.first_value)) (pieces bytes.now)) }
{
    if starts_defined(depth, bytes) {
        let (defined, rest) = defined(alloc, depth, bytes)?;
        return Ok((Side::Left(defined), rest));
    }
    let (init, rest) = first_value(alloc, depth, bytes)?;
    Ok((Side::Right(init), rest))
}

fn named(name: Word, behind: Side<Defined, CInit>) -> ScalarBehind
    ensures { scalar_behind_of result ≡ rules.named name (defined_or_value_of behind) }
{
    match behind {
        Side::Left(defined) => Side::Left(((None, name), defined)),
        Side::Right(init) => Side::Right(((false, name), init)),
    }
}

fn scalar_name(alloc: Global, depth: u16, bytes: &[u8]) -> Result<(ScalarBehind, &[u8]), Fault<'_>>
    ensures { Gives scalar_behind_of result (reads_at depth rules.behind_name (pieces bytes.now)) }
{
    let (name, rest) = name(alloc, depth, bytes)?;
    let (behind, rest) = defined_or_value(alloc, depth, rest)?;
    Ok((named(name, behind), rest))
}

fn behind_scalar(
    alloc: Global,
    depth: u16,
    bytes: &[u8],
) -> Result<(ScalarBehind, &[u8]), Fault<'_>>
    ensures { Gives scalar_behind_of result (reads_at depth rules.behind_scalar (pieces bytes.now)) }
{
    if is_next(depth, STAR, bytes) {
        scalar_star(alloc, depth, bytes)
    } else if is_next(depth, CONST, bytes) {
        scalar_const(alloc, depth, bytes)
    } else {
        scalar_name(alloc, depth, bytes)
    }
}

fn scalar_item(scalar: CScalar, behind: ScalarBehind) -> Item
    ensures { item_of result ≡ rules.scalar_item scalar (scalar_behind_of behind) }
{
    match behind {
        Side::Left(found) => {
            let ((pointer, name), defined) = found;
            let ty = scalar_type(scalar, pointer);
            Item::Function(function_with(true, ty, name, defined))
        }
        Side::Right(found) => {
            let ((constant, name), init) = found;
            let base = CBase::Scalar(scalar);
            Item::Object(CObject {
                name,
                constant,
                base,
                init,
            })
        }
    }
}

fn scalar_static(alloc: Global, depth: u16, bytes: &[u8]) -> Result<(Item, &[u8]), Fault<'_>>
    ensures { Gives item_of result (reads_at depth (sequence rules.scalar_item types.scalar (after symbols.blank rules.behind_scalar)) (pieces bytes.now)) }
{
    let (scalar, rest) = scalar(depth, bytes)?;
    let rest = blank(depth, rest)?;
    let (behind, rest) = behind_scalar(alloc, depth, rest)?;
    Ok((scalar_item(scalar, behind), rest))
}

// ---- behind a struct

fn struct_star(alloc: Global, depth: u16, bytes: &[u8]) -> Result<(StructBehind, &[u8]), Fault<'_>>
    ensures { Gives struct_behind_of result (reads_at depth (rules.behind_star rules.same_pointer) (pieces bytes.now)) }
{
    let (name, rest) = star_name(alloc, depth, bytes)?;
    let (defined, rest) = defined(alloc, depth, rest)?;
    Ok((Side::Left(((false, name), defined)), rest))
}

fn struct_const_star(
    alloc: Global,
    depth: u16,
    bytes: &[u8],
) -> Result<(((bool, Word), Defined), &[u8]), Fault<'_>>
    ensures { Gives pointed_of result (reads_at depth (sequence (λ x d. (rules.same_pointer (types.to_const x), d)) (after symbols.star types.name) rules.defined) (pieces bytes.now)) }
{
    let (name, rest) = star_name(alloc, depth, bytes)?;
    let (defined, rest) = defined(alloc, depth, rest)?;
    Ok((((true, name), defined), rest))
}

fn struct_const(alloc: Global, depth: u16, bytes: &[u8]) -> Result<(StructBehind, &[u8]), Fault<'_>>
    ensures { Gives struct_behind_of result (reads_at depth (rules.behind_const rules.same_pointer) (pieces bytes.now)) }
{
    let rest = fixed(depth, Fixed::Const, bytes)?;
    let rest = blank(depth, rest)?;
    if is_next(depth, STAR, rest) {
        let (function, rest) = struct_const_star(alloc, depth, rest)?;
        return Ok((Side::Left(function), rest));
    }
    let (object, rest) = constant_object(alloc, depth, rest)?;
    Ok((Side::Right(object), rest))
}

fn struct_object(
    alloc: Global,
    depth: u16,
    bytes: &[u8],
) -> Result<(((bool, Word), CInit), &[u8]), Fault<'_>>
    ensures { Gives valued_of result (reads_at depth (sequence (λ x i. (types.not_to_const x, i)) types.name rules.first_value) (pieces bytes.now)) }
{
    let (name, rest) = name(alloc, depth, bytes)?;
    let (init, rest) = first_value(alloc, depth, rest)?;
    Ok((((false, name), init), rest))
}

fn behind_struct(
    alloc: Global,
    depth: u16,
    bytes: &[u8],
) -> Result<(StructBehind, &[u8]), Fault<'_>>
    ensures { Gives struct_behind_of result (reads_at depth rules.behind_struct (pieces bytes.now)) }
{
    if is_next(depth, STAR, bytes) {
        return struct_star(alloc, depth, bytes);
    }
    if is_next(depth, CONST, bytes) {
        return struct_const(alloc, depth, bytes);
    }
    let (object, rest) = struct_object(alloc, depth, bytes)?;
    Ok((Side::Right(object), rest))
}

fn struct_item(tag: Word, behind: StructBehind) -> Item
    ensures { item_of result ≡ rules.struct_item tag (struct_behind_of behind) }
{
    match behind {
        Side::Left(found) => {
            let ((constant, name), defined) = found;
            let ty = CType::Pointer(constant, CBase::Struct(tag));
            Item::Function(function_with(true, ty, name, defined))
        }
        Side::Right(found) => {
            let ((constant, name), init) = found;
            let base = CBase::Struct(tag);
            Item::Object(CObject {
                name,
                constant,
                base,
                init,
            })
        }
    }
}

fn struct_static(alloc: Global, depth: u16, bytes: &[u8]) -> Result<(Item, &[u8]), Fault<'_>>
    ensures { Gives item_of result (reads_at depth (sequence rules.struct_item types.tag (after symbols.blank rules.behind_struct)) (pieces bytes.now)) }
{
    let (tag, rest) = tag(alloc, depth, bytes)?;
    let rest = blank(depth, rest)?;
    let (behind, rest) = behind_struct(alloc, depth, rest)?;
    Ok((struct_item(tag, behind), rest))
}

// ---- both

fn behind_static(alloc: Global, depth: u16, bytes: &[u8]) -> Result<(Item, &[u8]), Fault<'_>>
    ensures { Gives item_of result (reads_at depth (choice (map rules.a_function (rules.void_function true)) (choice (sequence rules.scalar_item types.scalar (after symbols.blank rules.behind_scalar)) (sequence rules.struct_item types.tag (after symbols.blank rules.behind_struct)))) (pieces bytes.now)) }
{
    if is_next(depth, VOID, bytes) {
        let (function, rest) = void_function(alloc, depth, true, bytes)?;
        return Ok((Item::Function(function), rest));
    }
    if is_next(depth, SCALAR, bytes) {
        return scalar_static(alloc, depth, bytes);
    }
    struct_static(alloc, depth, bytes)
}

/// An object or a hidden function.
#[tactic(auto, unfolding(c_grammar::specs::UnitRules::static_item))]
pub fn static_item(alloc: Global, depth: u16, bytes: &[u8]) -> Result<(Item, &[u8]), Fault<'_>>
    ensures { Gives item_of result (reads_at depth rules.static_item (pieces bytes.now)) }
{
    let rest = fixed(depth, Fixed::Static, bytes)?;
    let rest = blank(depth, rest)?;
    behind_static(alloc, depth, rest)
}

/// A hidden function.
pub fn hidden_function(alloc: Global, depth: u16, bytes: &[u8]) -> Result<(Item, &[u8]), Fault<'_>>
    ensures { Gives item_of result (reads_at depth rules.hidden_function (pieces bytes.now)) }
{
    let rest = fixed(depth, Fixed::Static, bytes)?;
    let rest = blank(depth, rest)?;
    let (function, rest) = function(alloc, depth, true, rest)?;
    Ok((Item::Function(function), rest))
}
