//! Structs, externs and objects, and which of the items comes next.

ghost use Rattle.std.specs.Prelude.{◌≡◌, ◌∷◌};
ghost use Rattle.reading.specs.Reader.{mapped};
ghost use Rattle.std.specs.Option.{option_map};
ghost use Rattle.c_ast.specs.View.{function_of, init_of, object_of};
ghost use Rattle.grammars.specs.Grammar as grammars;
ghost use Rattle.grammars.specs.Grammar.{after, before, choice, optional, repeat, separated, sequence};
ghost use Rattle.c_grammar.specs.Pieces as piece;
ghost use Rattle.c_grammar.specs.Pieces.{pieces};
ghost use Rattle.c_grammar.specs.Symbols as symbols;
ghost use Rattle.c_grammar.specs.TypeRules as types;
ghost use Rattle.c_grammar.specs.UnitRules as rules;
ghost use Rattle.c_lexemes.specs.Gives.{Gives, Passes, itself};
ghost use Rattle.c_lexemes.specs.Levels.{reads_at};
ghost use Rattle.c_parser.specs.Views.{item_of, members_or_function_of};

use crate::function::{function_with, pointer_defined};
use crate::parts::{Defined, Item};
use c_ast::{CBase, CExtern, CMember, CStruct, CType};
use c_expression_parser::{Side, base, tag, value_type};
use c_lexemes::{
    COMMA, Fault, Fixed, INDENTATION, OPEN_BRACE, OPEN_SQUARE, VOID, blank, close, comma, fixed,
    goes_on, indentation, is_next, length, mark, name, open, scalar,
};
use iv_words::{Seq, Word};
use std::alloc::Global;

/// The end of a declaration and of its line.
pub fn line_end(depth: u16, bytes: &[u8]) -> Result<&[u8], Fault<'_>>
    ensures { Passes (piece.Byte 10) result (reads_at depth (after symbols.semicolon symbols.new_line) (pieces bytes.now)) }
{
    let rest = mark(depth, b';', bytes)?;
    mark(depth, b'\n', rest)
}

// ---- structs

/// `[N]`.
#[tactic(auto, using(c_lexemes::proofs::Opening::openings))]
fn length_in_squares(depth: u16, bytes: &[u8]) -> Result<(u32, &[u8]), Fault<'_>>
    ensures { Gives itself result (reads_at depth (symbols.squares symbols.a_length) (pieces bytes.now)) }
{
    let (inside, rest) = open(depth, b'[', bytes)?;
    let (length, rest) = length(inside, rest)?;
    let rest = close(inside, b']', rest)?;
    Ok((length, rest))
}

fn optional_length(depth: u16, bytes: &[u8]) -> Result<(Option<u32>, &[u8]), Fault<'_>>
    ensures { Gives itself result (reads_at depth (optional (symbols.squares symbols.a_length)) (pieces bytes.now)) }
{
    if !is_next(depth, OPEN_SQUARE, bytes) {
        return Ok((None, bytes));
    }
    let (length, rest) = length_in_squares(depth, bytes)?;
    Ok((Some(length), rest))
}

fn name_and_length(
    alloc: Global,
    depth: u16,
    bytes: &[u8],
) -> Result<((Word, Option<u32>), &[u8]), Fault<'_>>
    ensures { Gives itself result (reads_at depth (sequence symbols.pair types.name (optional (symbols.squares symbols.a_length))) (pieces bytes.now)) }
{
    let (name, rest) = name(alloc, depth, bytes)?;
    let (length, rest) = optional_length(depth, rest)?;
    Ok(((name, length), rest))
}

fn typed_member(alloc: Global, depth: u16, bytes: &[u8]) -> Result<(CMember, &[u8]), Fault<'_>>
    ensures { Gives itself result (reads_at depth (sequence rules.member_of types.base (after symbols.blank (sequence symbols.pair types.name (optional (symbols.squares symbols.a_length))))) (pieces bytes.now)) }
{
    let (base, rest) = base(alloc, depth, bytes)?;
    let rest = blank(depth, rest)?;
    let ((name, length), rest) = name_and_length(alloc, depth, rest)?;
    Ok((CMember { name, base, length }, rest))
}

fn member_and_end(alloc: Global, depth: u16, bytes: &[u8]) -> Result<(CMember, &[u8]), Fault<'_>>
    ensures { Gives itself result (reads_at depth (before (sequence rules.member_of types.base (after symbols.blank (sequence symbols.pair types.name (optional (symbols.squares symbols.a_length))))) (after symbols.semicolon symbols.new_line)) (pieces bytes.now)) }
{
    let (member, rest) = typed_member(alloc, depth, bytes)?;
    let rest = line_end(depth, rest)?;
    Ok((member, rest))
}

/// A member on a line of its own.
fn member(alloc: Global, depth: u16, bytes: &[u8]) -> Result<(CMember, &[u8]), Fault<'_>>
    ensures { Gives itself result (reads_at depth rules.member (pieces bytes.now)) }
{
    let rest = indentation(depth, bytes)?;
    member_and_end(alloc, depth, rest)
}

fn more_members(
    alloc: Global,
    depth: u16,
    first: CMember,
    bytes: &[u8],
) -> Result<(Seq<CMember>, &[u8]), Fault<'_>>
    ensures { Gives itself result (mapped (λ more. first ∷ more) (reads_at depth (repeat rules.member) (pieces bytes.now))) }
{
    let mut members = Seq::new(alloc);
    members.push(first)?;
    let mut rest = bytes;
    // Each line takes a byte at least.
    for _turn in 0..bytes.len() {
        if !goes_on(depth, INDENTATION, rest) {
            break;
        }
        let (next, after) = member(alloc, depth, rest)?;
        members.push(next)?;
        rest = after;
    }
    Ok((members, rest))
}

fn some_members(alloc: Global, depth: u16, bytes: &[u8]) -> Result<(Seq<CMember>, &[u8]), Fault<'_>>
    ensures { Gives itself result (reads_at depth (sequence (λ m more. m ∷ more) rules.member (repeat rules.member)) (pieces bytes.now)) }
{
    let (first, rest) = member(alloc, depth, bytes)?;
    more_members(alloc, depth, first, rest)
}

fn members(alloc: Global, depth: u16, bytes: &[u8]) -> Result<(Seq<CMember>, &[u8]), Fault<'_>>
    ensures { Gives itself result (reads_at depth rules.members_rule (pieces bytes.now)) }
{
    let rest = mark(depth, b'\n', bytes)?;
    some_members(alloc, depth, rest)
}

#[tactic(auto, using(c_lexemes::proofs::Opening::openings))]
fn members_in_braces(
    alloc: Global,
    depth: u16,
    bytes: &[u8],
) -> Result<(Seq<CMember>, &[u8]), Fault<'_>>
    ensures { Gives itself result (reads_at depth (symbols.braces symbols.the_members) (pieces bytes.now)) }
{
    let (inside, rest) = open(depth, b'{', bytes)?;
    let (members, rest) = members(alloc, inside, rest)?;
    let rest = close(inside, b'}', rest)?;
    Ok((members, rest))
}

fn members_and_end(
    alloc: Global,
    depth: u16,
    bytes: &[u8],
) -> Result<(Seq<CMember>, &[u8]), Fault<'_>>
    ensures { Gives itself result (reads_at depth (before (symbols.braces symbols.the_members) (after symbols.semicolon symbols.new_line)) (pieces bytes.now)) }
{
    let (members, rest) = members_in_braces(alloc, depth, bytes)?;
    let rest = line_end(depth, rest)?;
    Ok((members, rest))
}

/// Behind a tag: the members of a struct, or a function that gives a pointer to one.
fn members_or_function(
    alloc: Global,
    depth: u16,
    bytes: &[u8],
) -> Result<(Side<Seq<CMember>, ((bool, Word), Defined)>, &[u8]), Fault<'_>>
    ensures { Gives members_or_function_of result (reads_at depth (choice (grammars.map symbols.left (before (symbols.braces symbols.the_members) (after symbols.semicolon symbols.new_line))) (grammars.map symbols.right (sequence symbols.pair types.pointer_name rules.defined))) (pieces bytes.now)) }
{
    if is_next(depth, OPEN_BRACE, bytes) {
        let (members, rest) = members_and_end(alloc, depth, bytes)?;
        return Ok((Side::Left(members), rest));
    }
    let (function, rest) = pointer_defined(alloc, depth, bytes)?;
    Ok((Side::Right(function), rest))
}

fn tagged(name: Word, behind: Side<Seq<CMember>, ((bool, Word), Defined)>) -> Item
    ensures { item_of result ≡ rules.tagged name (members_or_function_of behind) }
{
    match behind {
        Side::Left(members) => Item::Struct(CStruct { name, members }),
        Side::Right(found) => {
            let ((constant, function), defined) = found;
            let ty = CType::Pointer(constant, CBase::Struct(name));
            Item::Function(function_with(false, ty, function, defined))
        }
    }
}

/// A struct, or a function that gives a pointer to one.
pub fn struct_or_function(
    alloc: Global,
    depth: u16,
    bytes: &[u8],
) -> Result<(Item, &[u8]), Fault<'_>>
    ensures { Gives item_of result (reads_at depth rules.struct_or_function (pieces bytes.now)) }
{
    let (tag, rest) = tag(alloc, depth, bytes)?;
    let rest = blank(depth, rest)?;
    let (behind, rest) = members_or_function(alloc, depth, rest)?;
    Ok((tagged(tag, behind), rest))
}

// ---- externs

fn next_type(alloc: Global, depth: u16, bytes: &[u8]) -> Result<(CType, &[u8]), Fault<'_>>
    ensures { Gives itself result (reads_at depth (after symbols.comma types.value_type) (pieces bytes.now)) }
{
    let rest = comma(depth, bytes)?;
    value_type(alloc, depth, rest)
}

fn more_types(
    alloc: Global,
    depth: u16,
    first: CType,
    bytes: &[u8],
) -> Result<(Seq<CType>, &[u8]), Fault<'_>>
    ensures { Gives itself result (mapped (λ more. first ∷ more) (reads_at depth (repeat (after symbols.comma types.value_type)) (pieces bytes.now))) }
{
    let mut params = Seq::new(alloc);
    params.push(first)?;
    let mut rest = bytes;
    // Each further one takes a byte at least.
    for _turn in 0..bytes.len() {
        if !goes_on(depth, COMMA, rest) {
            break;
        }
        let (next, after) = next_type(alloc, depth, rest)?;
        params.push(next)?;
        rest = after;
    }
    Ok((params, rest))
}

fn some_types(alloc: Global, depth: u16, bytes: &[u8]) -> Result<(Seq<CType>, &[u8]), Fault<'_>>
    ensures { Gives itself result (reads_at depth (separated symbols.comma types.value_type) (pieces bytes.now)) }
{
    let (first, rest) = value_type(alloc, depth, bytes)?;
    more_types(alloc, depth, first, rest)
}

/// `void`, or one or more types.
fn param_types(alloc: Global, depth: u16, bytes: &[u8]) -> Result<(Seq<CType>, &[u8]), Fault<'_>>
    ensures { Gives itself result (reads_at depth rules.types_rule (pieces bytes.now)) }
{
    if is_next(depth, VOID, bytes) {
        let rest = fixed(depth, Fixed::Void, bytes)?;
        return Ok((Seq::new(alloc), rest));
    }
    some_types(alloc, depth, bytes)
}

#[tactic(auto, using(c_lexemes::proofs::Opening::openings))]
fn types_in_parens(
    alloc: Global,
    depth: u16,
    bytes: &[u8],
) -> Result<(Seq<CType>, &[u8]), Fault<'_>>
    ensures { Gives itself result (reads_at depth (symbols.parens symbols.the_types) (pieces bytes.now)) }
{
    let (inside, rest) = open(depth, b'(', bytes)?;
    let (params, rest) = param_types(alloc, inside, rest)?;
    let rest = close(inside, b')', rest)?;
    Ok((params, rest))
}

fn types_and_end(alloc: Global, depth: u16, bytes: &[u8]) -> Result<(Seq<CType>, &[u8]), Fault<'_>>
    ensures { Gives itself result (reads_at depth (before (symbols.parens symbols.the_types) (after symbols.semicolon symbols.new_line)) (pieces bytes.now)) }
{
    let (params, rest) = types_in_parens(alloc, depth, bytes)?;
    let rest = line_end(depth, rest)?;
    Ok((params, rest))
}

/// The name of an extern, and the types of its parameters.
fn named_types(
    alloc: Global,
    depth: u16,
    bytes: &[u8],
) -> Result<((Word, Seq<CType>), &[u8]), Fault<'_>>
    ensures { Gives itself result (reads_at depth (sequence symbols.pair types.name (before (symbols.parens symbols.the_types) (after symbols.semicolon symbols.new_line))) (pieces bytes.now)) }
{
    let (name, rest) = name(alloc, depth, bytes)?;
    let (params, rest) = types_and_end(alloc, depth, rest)?;
    Ok(((name, params), rest))
}

fn extern_result(depth: u16, bytes: &[u8]) -> Result<(CType, &[u8]), Fault<'_>>
    ensures { Gives itself result (reads_at depth rules.extern_result (pieces bytes.now)) }
{
    if is_next(depth, VOID, bytes) {
        let rest = fixed(depth, Fixed::Void, bytes)?;
        return Ok((CType::Void, rest));
    }
    let (scalar, rest) = scalar(depth, bytes)?;
    Ok((CType::Value(scalar), rest))
}

fn extern_parts(alloc: Global, depth: u16, bytes: &[u8]) -> Result<(CExtern, &[u8]), Fault<'_>>
    ensures { Gives itself result (reads_at depth (sequence rules.extern_of rules.extern_result (after symbols.blank (sequence symbols.pair types.name (before (symbols.parens symbols.the_types) (after symbols.semicolon symbols.new_line))))) (pieces bytes.now)) }
{
    let (result, rest) = extern_result(depth, bytes)?;
    let rest = blank(depth, rest)?;
    let ((name, params), rest) = named_types(alloc, depth, rest)?;
    let found = CExtern {
        name,
        params,
        result,
    };
    Ok((found, rest))
}

/// An extern.
pub fn extern_line(alloc: Global, depth: u16, bytes: &[u8]) -> Result<(CExtern, &[u8]), Fault<'_>>
    ensures { Gives itself result (reads_at depth rules.extern (pieces bytes.now)) }
{
    let rest = fixed(depth, Fixed::Extern, bytes)?;
    let rest = blank(depth, rest)?;
    extern_parts(alloc, depth, rest)
}
