//! Statements without blocks.

ghost use Rattle.std.specs.Prelude.{◌≡◌};
ghost use Rattle.std.specs.Option.{option_map};
ghost use Rattle.c_ast.specs.View.{expr_of, init_of, stmt_of};
ghost use Rattle.grammars.specs.Grammar.{after, choice, map, optional, repeat, sequence};
ghost use Rattle.c_grammar.specs.Pieces.{pieces};
ghost use Rattle.c_grammar.specs.Symbols as symbols;
ghost use Rattle.c_grammar.specs.TypeRules as types;
ghost use Rattle.c_grammar.specs.ExpressionRules as expressions;
ghost use Rattle.c_grammar.specs.StatementRules as rules;
ghost use Rattle.c_lexemes.specs.Gives.{Gives};
ghost use Rattle.c_lexemes.specs.Levels.{reads_at};
ghost use Rattle.c_statement_parser.specs.Views.{assigned_of, call_or_assigned_of, call_or_steps_of, declared_of, held_of, held_pointer_of, scalar_declared_of, struct_declared_of, value_or_call_of};

use crate::declared::{
    break_node, declared_scalar, declared_struct, named_statement, named_value, pointed_statement,
    return_node,
};
use crate::parts::{Declared, Held, HeldPointer, ValueOrCall};
use c_ast::{CExpr, CInit, CStmt};
use c_expression_parser::{
    Side, Step, arguments_in_parens, expression, held, held_pointer, in_parens, initializer,
    number_expression, pointer_in_parens, steps, tag,
};
use c_lexemes::{
    BREAK, Fault, Fixed, NAME, NUMBER, ONE_BLANK, OPEN_PAREN, RETURN, SCALAR, blank, fixed,
    is_next, is_star_or_const, is_type, kind, mark, name, scalar,
};
use iv_words::Seq;
use std::alloc::Global;

/// Behind a name: the arguments of a call, or the steps of a place.
fn call_or_steps(
    alloc: Global,
    depth: u16,
    bytes: &[u8],
) -> Result<(Side<Seq<CExpr>, Seq<Step>>, &[u8]), Fault<'_>>
    ensures { Gives call_or_steps_of result (reads_at depth rules.call_or_steps (pieces bytes.now)) }
{
    if is_next(depth, OPEN_PAREN, bytes) {
        let (args, rest) = arguments_in_parens(alloc, depth, bytes)?;
        return Ok((Side::Left(args), rest));
    }
    let (steps, rest) = steps(alloc, depth, bytes)?;
    Ok((Side::Right(steps), rest))
}

fn value_by_name(alloc: Global, depth: u16, bytes: &[u8]) -> Result<(ValueOrCall, &[u8]), Fault<'_>>
    ensures { Gives value_or_call_of result (reads_at depth (sequence rules.named_value types.name rules.call_or_steps) (pieces bytes.now)) }
{
    let (name, rest) = name(alloc, depth, bytes)?;
    let (behind, rest) = call_or_steps(alloc, depth, rest)?;
    Ok((named_value(alloc, name, behind)?, rest))
}

/// An expression or a call.
#[tactic(auto, unfolding(c_grammar::specs::StatementRules::value_or_call))]
fn value_or_call(alloc: Global, depth: u16, bytes: &[u8]) -> Result<(ValueOrCall, &[u8]), Fault<'_>>
    ensures { Gives value_or_call_of result (reads_at depth rules.value_or_call (pieces bytes.now)) }
{
    let kind = kind(depth, bytes);
    if kind == NUMBER {
        let (value, rest) = number_expression(depth, bytes)?;
        return Ok((Side::Left(value), rest));
    }
    if kind == NAME {
        return value_by_name(alloc, depth, bytes);
    }
    let (value, rest) = in_parens(alloc, depth, bytes)?;
    Ok((Side::Left(value), rest))
}

/// ` = ` and an expression or a call.
fn given_value(alloc: Global, depth: u16, bytes: &[u8]) -> Result<(ValueOrCall, &[u8]), Fault<'_>>
    ensures { Gives value_or_call_of result (reads_at depth (rules.equals rules.value_or_call) (pieces bytes.now)) }
{
    let rest = blank(depth, bytes)?;
    let rest = mark(depth, b'=', rest)?;
    let rest = blank(depth, rest)?;
    value_or_call(alloc, depth, rest)
}

/// ` = ` and an initializer.
fn given_initializer(alloc: Global, depth: u16, bytes: &[u8]) -> Result<(CInit, &[u8]), Fault<'_>>
    ensures { Gives init_of result (reads_at depth (rules.equals expressions.initializer) (pieces bytes.now)) }
{
    let rest = blank(depth, bytes)?;
    let rest = mark(depth, b'=', rest)?;
    let rest = blank(depth, rest)?;
    initializer(alloc, depth, rest)
}

/// ` = ` and an expression.
fn given_expression(alloc: Global, depth: u16, bytes: &[u8]) -> Result<(CExpr, &[u8]), Fault<'_>>
    ensures { Gives expr_of result (reads_at depth (rules.equals expressions.expression) (pieces bytes.now)) }
{
    let rest = blank(depth, bytes)?;
    let rest = mark(depth, b'=', rest)?;
    let rest = blank(depth, rest)?;
    expression(alloc, depth, rest)
}

/// A name that holds a value or a pointer to a scalar, and that value.
fn held_value(alloc: Global, depth: u16, bytes: &[u8]) -> Result<(Held, &[u8]), Fault<'_>>
    ensures { Gives held_of result (reads_at depth (sequence symbols.pair types.held (rules.equals rules.value_or_call)) (pieces bytes.now)) }
{
    let (name, rest) = held(alloc, depth, bytes)?;
    let (value, rest) = given_value(alloc, depth, rest)?;
    Ok(((name, value), rest))
}

/// A name that holds a pointer, and that pointer.
fn held_pointer_value(
    alloc: Global,
    depth: u16,
    bytes: &[u8],
) -> Result<(HeldPointer, &[u8]), Fault<'_>>
    ensures { Gives held_pointer_of result (reads_at depth (sequence symbols.pair types.held_pointer (rules.equals rules.value_or_call)) (pieces bytes.now)) }
{
    let (name, rest) = held_pointer(alloc, depth, bytes)?;
    let (value, rest) = given_value(alloc, depth, rest)?;
    Ok(((name, value), rest))
}

fn optional_initializer(
    alloc: Global,
    depth: u16,
    bytes: &[u8],
) -> Result<(Option<CInit>, &[u8]), Fault<'_>>
    ensures { Gives (option_map init_of) result (reads_at depth (optional (rules.equals expressions.initializer)) (pieces bytes.now)) }
{
    if !is_next(depth, ONE_BLANK, bytes) {
        return Ok((None, bytes));
    }
    let (init, rest) = given_initializer(alloc, depth, bytes)?;
    Ok((Some(init), rest))
}

/// The name of an object, and its initializer.
fn object(alloc: Global, depth: u16, bytes: &[u8]) -> Result<(Declared, &[u8]), Fault<'_>>
    ensures { Gives declared_of result (reads_at depth rules.object (pieces bytes.now)) }
{
    let (name, rest) = name(alloc, depth, bytes)?;
    let (init, rest) = optional_initializer(alloc, depth, rest)?;
    Ok(((name, init), rest))
}

/// What is declared behind a scalar type.
fn behind_scalar(
    alloc: Global,
    depth: u16,
    bytes: &[u8],
) -> Result<(Side<Held, Declared>, &[u8]), Fault<'_>>
    ensures { Gives scalar_declared_of result (reads_at depth rules.behind_scalar (pieces bytes.now)) }
{
    if is_star_or_const(kind(depth, bytes)) {
        let (held, rest) = held_value(alloc, depth, bytes)?;
        return Ok((Side::Left(held), rest));
    }
    let (object, rest) = object(alloc, depth, bytes)?;
    Ok((Side::Right(object), rest))
}

/// What is declared behind a struct.
fn behind_struct(
    alloc: Global,
    depth: u16,
    bytes: &[u8],
) -> Result<(Side<HeldPointer, Declared>, &[u8]), Fault<'_>>
    ensures { Gives struct_declared_of result (reads_at depth rules.behind_struct (pieces bytes.now)) }
{
    if is_star_or_const(kind(depth, bytes)) {
        let (held, rest) = held_pointer_value(alloc, depth, bytes)?;
        return Ok((Side::Left(held), rest));
    }
    let (object, rest) = object(alloc, depth, bytes)?;
    Ok((Side::Right(object), rest))
}

fn scalar_declaration(alloc: Global, depth: u16, bytes: &[u8]) -> Result<(CStmt, &[u8]), Fault<'_>>
    ensures { Gives stmt_of result (reads_at depth (sequence rules.declared_scalar types.scalar (after symbols.blank rules.behind_scalar)) (pieces bytes.now)) }
{
    let (scalar, rest) = scalar(depth, bytes)?;
    let rest = blank(depth, rest)?;
    let (declared, rest) = behind_scalar(alloc, depth, rest)?;
    Ok((declared_scalar(scalar, declared), rest))
}

fn struct_declaration(alloc: Global, depth: u16, bytes: &[u8]) -> Result<(CStmt, &[u8]), Fault<'_>>
    ensures { Gives stmt_of result (reads_at depth (sequence rules.declared_struct types.tag (after symbols.blank rules.behind_struct)) (pieces bytes.now)) }
{
    let (tag, rest) = tag(alloc, depth, bytes)?;
    let rest = blank(depth, rest)?;
    let (declared, rest) = behind_struct(alloc, depth, rest)?;
    Ok((declared_struct(tag, declared), rest))
}

fn declaration(alloc: Global, depth: u16, bytes: &[u8]) -> Result<(CStmt, &[u8]), Fault<'_>>
    ensures { Gives stmt_of result (reads_at depth rules.declaration (pieces bytes.now)) }
{
    if is_next(depth, SCALAR, bytes) {
        scalar_declaration(alloc, depth, bytes)
    } else {
        struct_declaration(alloc, depth, bytes)
    }
}

/// The steps of a place, and what is assigned to it.
fn assigned(
    alloc: Global,
    depth: u16,
    bytes: &[u8],
) -> Result<((Seq<Step>, CExpr), &[u8]), Fault<'_>>
    ensures { Gives assigned_of result (reads_at depth rules.assigned (pieces bytes.now)) }
{
    let (steps, rest) = steps(alloc, depth, bytes)?;
    let (value, rest) = given_expression(alloc, depth, rest)?;
    Ok(((steps, value), rest))
}

fn call_or_assigned(
    alloc: Global,
    depth: u16,
    bytes: &[u8],
) -> Result<(Side<Seq<CExpr>, (Seq<Step>, CExpr)>, &[u8]), Fault<'_>>
    ensures { Gives call_or_assigned_of result (reads_at depth (choice (map symbols.left (symbols.parens symbols.arguments)) (map symbols.right rules.assigned)) (pieces bytes.now)) }
{
    if is_next(depth, OPEN_PAREN, bytes) {
        let (args, rest) = arguments_in_parens(alloc, depth, bytes)?;
        return Ok((Side::Left(args), rest));
    }
    let (assigned, rest) = assigned(alloc, depth, bytes)?;
    Ok((Side::Right(assigned), rest))
}

/// A statement that begins with a name.
fn name_first(alloc: Global, depth: u16, bytes: &[u8]) -> Result<(CStmt, &[u8]), Fault<'_>>
    ensures { Gives stmt_of result (reads_at depth rules.name_first (pieces bytes.now)) }
{
    let (name, rest) = name(alloc, depth, bytes)?;
    let (behind, rest) = call_or_assigned(alloc, depth, rest)?;
    Ok((named_statement(alloc, name, behind)?, rest))
}

/// A statement that begins with `(*E)`.
fn pointer_first(alloc: Global, depth: u16, bytes: &[u8]) -> Result<(CStmt, &[u8]), Fault<'_>>
    ensures { Gives stmt_of result (reads_at depth rules.pointer_first (pieces bytes.now)) }
{
    let (target, rest) = pointer_in_parens(alloc, depth, bytes)?;
    let ((steps, value), rest) = assigned(alloc, depth, rest)?;
    Ok((pointed_statement(alloc, target, steps, value)?, rest))
}

fn break_statement(depth: u16, bytes: &[u8]) -> Result<(CStmt, &[u8]), Fault<'_>>
    ensures { Gives stmt_of result (reads_at depth rules.break_statement (pieces bytes.now)) }
{
    let rest = fixed(depth, Fixed::Break, bytes)?;
    Ok((break_node(), rest))
}

fn blank_expression(alloc: Global, depth: u16, bytes: &[u8]) -> Result<(CExpr, &[u8]), Fault<'_>>
    ensures { Gives expr_of result (reads_at depth (after symbols.blank expressions.expression) (pieces bytes.now)) }
{
    let rest = blank(depth, bytes)?;
    expression(alloc, depth, rest)
}

fn optional_value(
    alloc: Global,
    depth: u16,
    bytes: &[u8],
) -> Result<(Option<CExpr>, &[u8]), Fault<'_>>
    ensures { Gives (option_map expr_of) result (reads_at depth (optional (after symbols.blank expressions.expression)) (pieces bytes.now)) }
{
    if !is_next(depth, ONE_BLANK, bytes) {
        return Ok((None, bytes));
    }
    let (value, rest) = blank_expression(alloc, depth, bytes)?;
    Ok((Some(value), rest))
}

fn return_statement(alloc: Global, depth: u16, bytes: &[u8]) -> Result<(CStmt, &[u8]), Fault<'_>>
    ensures { Gives stmt_of result (reads_at depth rules.return_statement (pieces bytes.now)) }
{
    let rest = fixed(depth, Fixed::Return, bytes)?;
    let (value, rest) = optional_value(alloc, depth, rest)?;
    Ok((return_node(value), rest))
}

/// A statement that ends with a semicolon, up to that.
#[tactic(auto, unfolding(c_grammar::specs::StatementRules::simple))]
pub fn simple(alloc: Global, depth: u16, bytes: &[u8]) -> Result<(CStmt, &[u8]), Fault<'_>>
    ensures { Gives stmt_of result (reads_at depth rules.simple (pieces bytes.now)) }
{
    let kind = kind(depth, bytes);
    if kind == BREAK {
        break_statement(depth, bytes)
    } else if kind == RETURN {
        return_statement(alloc, depth, bytes)
    } else if is_type(kind) {
        declaration(alloc, depth, bytes)
    } else if kind == NAME {
        name_first(alloc, depth, bytes)
    } else {
        pointer_first(alloc, depth, bytes)
    }
}
