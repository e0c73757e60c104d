//! Functions: parameters, names and bodies.

ghost use Rattle.std.specs.Prelude.{◌≡◌, ◌∷◌};
ghost use Rattle.reading.specs.Reader.{mapped};
ghost use Rattle.c_ast.specs.View.{function_of, stmts_of};
ghost use Rattle.c_ast.specs.declared.types.CType.TheVariants.{Void};
ghost use Rattle.grammars.specs.Grammar.{after, before, repeat, separated, sequence};
ghost use Rattle.c_grammar.specs.Pieces.{pieces};
ghost use Rattle.c_grammar.specs.Symbols as symbols;
ghost use Rattle.c_grammar.specs.TypeRules as types;
ghost use Rattle.c_grammar.specs.UnitRules as rules;
ghost use Rattle.c_lexemes.specs.Gives.{Gives, itself};
ghost use Rattle.c_lexemes.specs.Levels.{reads_at};
ghost use Rattle.c_parser.specs.Views.{defined_of, pointed_of, typed_of};

use crate::parts::Defined;
use c_ast::{CBase, CFunction, CParam, CStmt, CType};
use c_expression_parser::{held, held_pointer, pointer_name, scalar_type, tag, typed_name};
use c_lexemes::{
    COMMA, Fault, Fixed, SCALAR, VOID, blank, close, comma, fixed, goes_on, is_next,
    is_plain_function, kind, mark, name, open, scalar,
};
use c_statement_parser::lines;
use iv_words::{Seq, Word};
use std::alloc::Global;

fn scalar_param(alloc: Global, depth: u16, bytes: &[u8]) -> Result<(CParam, &[u8]), Fault<'_>>
    ensures { Gives itself result (reads_at depth (sequence rules.scalar_param types.scalar (after symbols.blank types.held)) (pieces bytes.now)) }
{
    let (scalar, rest) = scalar(depth, bytes)?;
    let rest = blank(depth, rest)?;
    let ((pointer, name), rest) = held(alloc, depth, rest)?;
    let ty = scalar_type(scalar, pointer);
    Ok((CParam { name, ty }, rest))
}

fn struct_param(alloc: Global, depth: u16, bytes: &[u8]) -> Result<(CParam, &[u8]), Fault<'_>>
    ensures { Gives itself result (reads_at depth (sequence rules.struct_param types.tag (after symbols.blank types.held_pointer)) (pieces bytes.now)) }
{
    let (tag, rest) = tag(alloc, depth, bytes)?;
    let rest = blank(depth, rest)?;
    let ((constant, name), rest) = held_pointer(alloc, depth, rest)?;
    let ty = CType::Pointer(constant, CBase::Struct(tag));
    Ok((CParam { name, ty }, rest))
}

fn param(alloc: Global, depth: u16, bytes: &[u8]) -> Result<(CParam, &[u8]), Fault<'_>>
    ensures { Gives itself result (reads_at depth rules.param (pieces bytes.now)) }
{
    if is_next(depth, SCALAR, bytes) {
        scalar_param(alloc, depth, bytes)
    } else {
        struct_param(alloc, depth, bytes)
    }
}

fn next_param(alloc: Global, depth: u16, bytes: &[u8]) -> Result<(CParam, &[u8]), Fault<'_>>
    ensures { Gives itself result (reads_at depth (after symbols.comma rules.param) (pieces bytes.now)) }
{
    let rest = comma(depth, bytes)?;
    param(alloc, depth, rest)
}

fn more_params(
    alloc: Global,
    depth: u16,
    first: CParam,
    bytes: &[u8],
) -> Result<(Seq<CParam>, &[u8]), Fault<'_>>
    ensures { Gives itself result (mapped (λ more. first ∷ more) (reads_at depth (repeat (after symbols.comma rules.param)) (pieces bytes.now))) }
{
    let mut params = Seq::new(alloc);
    params.push(first)?;
    let mut rest = bytes;
    // Each further one takes a byte at least.
    for _turn in 0..bytes.len() {
        if !goes_on(depth, COMMA, rest) {
            break;
        }
        let (next, after) = next_param(alloc, depth, rest)?;
        params.push(next)?;
        rest = after;
    }
    Ok((params, rest))
}

fn some_params(alloc: Global, depth: u16, bytes: &[u8]) -> Result<(Seq<CParam>, &[u8]), Fault<'_>>
    ensures { Gives itself result (reads_at depth (separated symbols.comma rules.param) (pieces bytes.now)) }
{
    let (first, rest) = param(alloc, depth, bytes)?;
    more_params(alloc, depth, first, rest)
}

/// `void`, or one or more parameters.
fn params(alloc: Global, depth: u16, bytes: &[u8]) -> Result<(Seq<CParam>, &[u8]), Fault<'_>>
    ensures { Gives itself result (reads_at depth rules.params_rule (pieces bytes.now)) }
{
    if is_next(depth, VOID, bytes) {
        let rest = fixed(depth, Fixed::Void, bytes)?;
        return Ok((Seq::new(alloc), rest));
    }
    some_params(alloc, depth, bytes)
}

#[tactic(auto, using(c_lexemes::proofs::Opening::openings))]
fn params_in_parens(
    alloc: Global,
    depth: u16,
    bytes: &[u8],
) -> Result<(Seq<CParam>, &[u8]), Fault<'_>>
    ensures { Gives itself result (reads_at depth (symbols.parens symbols.the_params) (pieces bytes.now)) }
{
    let (inside, rest) = open(depth, b'(', bytes)?;
    let (params, rest) = params(alloc, inside, rest)?;
    let rest = close(inside, b')', rest)?;
    Ok((params, rest))
}

#[tactic(auto, using(c_lexemes::proofs::Opening::openings))]
fn body_in_braces(alloc: Global, depth: u16, bytes: &[u8]) -> Result<(Seq<CStmt>, &[u8]), Fault<'_>>
    ensures { Gives stmts_of result (reads_at depth (symbols.braces symbols.a_body) (pieces bytes.now)) }
{
    let (inside, rest) = open(depth, b'{', bytes)?;
    let (body, rest) = lines(alloc, inside, rest)?;
    let rest = close(inside, b'}', rest)?;
    Ok((body, rest))
}

fn body(alloc: Global, depth: u16, bytes: &[u8]) -> Result<(Seq<CStmt>, &[u8]), Fault<'_>>
    ensures { Gives stmts_of result (reads_at depth (after symbols.blank (before (symbols.braces symbols.a_body) symbols.new_line)) (pieces bytes.now)) }
{
    let rest = blank(depth, bytes)?;
    let (body, rest) = body_in_braces(alloc, depth, rest)?;
    let rest = mark(depth, b'\n', rest)?;
    Ok((body, rest))
}

/// What stands behind the name of a function.
#[tactic(auto, unfolding(c_grammar::specs::UnitRules::defined))]
pub fn defined(alloc: Global, depth: u16, bytes: &[u8]) -> Result<(Defined, &[u8]), Fault<'_>>
    ensures { Gives defined_of result (reads_at depth rules.defined (pieces bytes.now)) }
{
    let (params, rest) = params_in_parens(alloc, depth, bytes)?;
    let (body, rest) = body(alloc, depth, rest)?;
    Ok(((params, body), rest))
}

/// A function of these parts.
pub fn function_with(hidden: bool, ty: CType, name: Word, defined: Defined) -> CFunction
    ensures { function_of result ≡ rules.function_of hidden ty name (defined_of defined) }
{
    let (params, body) = defined;
    CFunction {
        hidden,
        name,
        params,
        result: ty,
        body,
    }
}

fn named_void(
    alloc: Global,
    depth: u16,
    hidden: bool,
    bytes: &[u8],
) -> Result<(CFunction, &[u8]), Fault<'_>>
    ensures { Gives function_of result (reads_at depth (sequence (rules.function_of hidden Void) types.name rules.defined) (pieces bytes.now)) }
{
    let (name, rest) = name(alloc, depth, bytes)?;
    let (defined, rest) = defined(alloc, depth, rest)?;
    Ok((function_with(hidden, CType::Void, name, defined), rest))
}

/// A function without a result.
pub fn void_function(
    alloc: Global,
    depth: u16,
    hidden: bool,
    bytes: &[u8],
) -> Result<(CFunction, &[u8]), Fault<'_>>
    ensures { Gives function_of result (reads_at depth (rules.void_function hidden) (pieces bytes.now)) }
{
    let rest = fixed(depth, Fixed::Void, bytes)?;
    let rest = blank(depth, rest)?;
    named_void(alloc, depth, hidden, rest)
}

fn typed_defined(
    alloc: Global,
    depth: u16,
    bytes: &[u8],
) -> Result<(((Option<bool>, Word), Defined), &[u8]), Fault<'_>>
    ensures { Gives typed_of result (reads_at depth (sequence symbols.pair types.typed_name rules.defined) (pieces bytes.now)) }
{
    let (name, rest) = typed_name(alloc, depth, bytes)?;
    let (defined, rest) = defined(alloc, depth, rest)?;
    Ok(((name, defined), rest))
}

/// A function that gives a scalar or a pointer to one.
fn scalar_function(
    alloc: Global,
    depth: u16,
    hidden: bool,
    bytes: &[u8],
) -> Result<(CFunction, &[u8]), Fault<'_>>
    ensures { Gives function_of result (reads_at depth (sequence (rules.scalar_function hidden) types.scalar (after symbols.blank (sequence symbols.pair types.typed_name rules.defined))) (pieces bytes.now)) }
{
    let (scalar, rest) = scalar(depth, bytes)?;
    let rest = blank(depth, rest)?;
    let (((pointer, name), defined), rest) = typed_defined(alloc, depth, rest)?;
    let ty = scalar_type(scalar, pointer);
    Ok((function_with(hidden, ty, name, defined), rest))
}

/// A function that gives no pointer to a struct.
pub fn plain_function(
    alloc: Global,
    depth: u16,
    hidden: bool,
    bytes: &[u8],
) -> Result<(CFunction, &[u8]), Fault<'_>>
    ensures { Gives function_of result (reads_at depth (rules.plain_function hidden) (pieces bytes.now)) }
{
    if is_next(depth, VOID, bytes) {
        void_function(alloc, depth, hidden, bytes)
    } else {
        scalar_function(alloc, depth, hidden, bytes)
    }
}

pub fn pointer_defined(
    alloc: Global,
    depth: u16,
    bytes: &[u8],
) -> Result<(((bool, Word), Defined), &[u8]), Fault<'_>>
    ensures { Gives pointed_of result (reads_at depth (sequence symbols.pair types.pointer_name rules.defined) (pieces bytes.now)) }
{
    let (name, rest) = pointer_name(alloc, depth, bytes)?;
    let (defined, rest) = defined(alloc, depth, rest)?;
    Ok(((name, defined), rest))
}

/// A function that gives a pointer to a struct.
fn pointer_function(
    alloc: Global,
    depth: u16,
    hidden: bool,
    bytes: &[u8],
) -> Result<(CFunction, &[u8]), Fault<'_>>
    ensures { Gives function_of result (reads_at depth (rules.pointer_function hidden) (pieces bytes.now)) }
{
    let (tag, rest) = tag(alloc, depth, bytes)?;
    let rest = blank(depth, rest)?;
    let (((constant, name), defined), rest) = pointer_defined(alloc, depth, rest)?;
    let ty = CType::Pointer(constant, CBase::Struct(tag));
    Ok((function_with(hidden, ty, name, defined), rest))
}

/// A function.
pub fn function(
    alloc: Global,
    depth: u16,
    hidden: bool,
    bytes: &[u8],
) -> Result<(CFunction, &[u8]), Fault<'_>>
    ensures { Gives function_of result (reads_at depth (rules.function hidden) (pieces bytes.now)) }
{
    if is_plain_function(kind(depth, bytes)) {
        plain_function(alloc, depth, hidden, bytes)
    } else {
        pointer_function(alloc, depth, hidden, bytes)
    }
}
