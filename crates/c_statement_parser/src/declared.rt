//! Builds statements of what was read.

ghost use Rattle.std.specs.Prelude.{◌≡◌, IfOk};
ghost use Rattle.std.specs.Option.{option_map};
ghost use Rattle.c_ast.specs.Syntax as syntax;
ghost use Rattle.c_ast.specs.View.{call_of, expr_of, init_of, place_of, stmt_of, stmts_of};
ghost use Rattle.c_grammar.specs.StatementRules as rules;
ghost use Rattle.c_statement_parser.specs.Views.{branches_of, call_or_assigned_of, call_or_steps_of, scalar_declared_of, struct_declared_of, value_or_call_of};
ghost use Rattle.c_expression_parser.specs.Views.{exprs_of, steps_of};

use crate::parts::{Declared, Held, HeldPointer, ValueOrCall};
use c_ast::{CBase, CCall, CExpr, CInit, CPlace, CScalar, CStmt, CType};
use c_expression_parser::{Side, Step, named_place, pointed_place, read_node, scalar_type};
use iv_words::{Memory, Seq, Word};
use std::alloc::Global;

fn call_node(name: Word, args: Seq<CExpr>) -> CCall
    ensures { call_of result ≡ rules.call_of name (exprs_of args) }
{
    CCall { name, args }
}

/// A call, or the value of a place.
pub fn named_value(
    alloc: Global,
    name: Word,
    behind: Side<Seq<CExpr>, Seq<Step>>,
) -> Result<ValueOrCall, Memory>
    ensures { IfOk result (λ v. value_or_call_of v ≡ rules.named_value name (call_or_steps_of behind)) }
{
    match behind {
        Side::Left(args) => Ok(Side::Right(call_node(name, args))),
        Side::Right(steps) => {
            let place = named_place(alloc, name, steps)?;
            Ok(Side::Left(read_node(place)))
        }
    }
}

#[tactic(auto, using(c_ast::proofs::View::const_is))]
fn const_node(name: Word, ty: CType, value: CExpr) -> CStmt
    ensures { stmt_of result ≡ syntax.Const name ty (expr_of value) }
{
    CStmt::Const(name, ty, value)
}

#[tactic(auto, using(c_ast::proofs::View::const_call_is))]
fn const_call_node(name: Word, ty: CType, call: CCall) -> CStmt
    ensures { stmt_of result ≡ syntax.ConstCall name ty (call_of call) }
{
    CStmt::ConstCall(name, ty, call)
}

/// The declaration of a name that holds a value.
fn held_as(ty: CType, name: Word, value: ValueOrCall) -> CStmt
    ensures { stmt_of result ≡ rules.held_as ty name (value_or_call_of value) }
{
    match value {
        Side::Left(value) => const_node(name, ty, value),
        Side::Right(call) => const_call_node(name, ty, call),
    }
}

#[tactic(auto, using(c_ast::proofs::View::object_is))]
fn object_node(name: Word, base: CBase, init: Option<CInit>) -> CStmt
    ensures { stmt_of result ≡ syntax.Object name base (option_map init_of init) }
{
    CStmt::Object(name, base, init)
}

/// A declaration that begins with a scalar type.
pub fn declared_scalar(scalar: CScalar, declared: Side<Held, Declared>) -> CStmt
    ensures { stmt_of result ≡ rules.declared_scalar scalar (scalar_declared_of declared) }
{
    match declared {
        Side::Left(held) => {
            let ((pointer, name), value) = held;
            held_as(scalar_type(scalar, pointer), name, value)
        }
        Side::Right(object) => {
            let (name, init) = object;
            object_node(name, CBase::Scalar(scalar), init)
        }
    }
}

/// A declaration that begins with a struct.
pub fn declared_struct(tag: Word, declared: Side<HeldPointer, Declared>) -> CStmt
    ensures { stmt_of result ≡ rules.declared_struct tag (struct_declared_of declared) }
{
    match declared {
        Side::Left(held) => {
            let ((constant, name), value) = held;
            held_as(CType::Pointer(constant, CBase::Struct(tag)), name, value)
        }
        Side::Right(object) => {
            let (name, init) = object;
            object_node(name, CBase::Struct(tag), init)
        }
    }
}

#[tactic(auto, using(c_ast::proofs::View::call_is))]
fn call_statement(name: Word, args: Seq<CExpr>) -> CStmt
    ensures { stmt_of result ≡ syntax.Call (rules.call_of name (exprs_of args)) }
{
    CStmt::Call(call_node(name, args))
}

#[tactic(auto, using(c_ast::proofs::View::assign_is))]
fn assign_node(place: CPlace, value: CExpr) -> CStmt
    ensures { stmt_of result ≡ syntax.Assign (place_of place) (expr_of value) }
{
    CStmt::Assign(place, value)
}

/// A call, or an assignment to a named place.
pub fn named_statement(
    alloc: Global,
    name: Word,
    behind: Side<Seq<CExpr>, (Seq<Step>, CExpr)>,
) -> Result<CStmt, Memory>
    ensures { IfOk result (λ s. stmt_of s ≡ rules.named_statement name (call_or_assigned_of behind)) }
{
    match behind {
        Side::Left(args) => Ok(call_statement(name, args)),
        Side::Right(assigned) => {
            let (steps, value) = assigned;
            let place = named_place(alloc, name, steps)?;
            Ok(assign_node(place, value))
        }
    }
}

/// An assignment to what a pointer points to.
pub fn pointed_statement(
    alloc: Global,
    target: CExpr,
    steps: Seq<Step>,
    value: CExpr,
) -> Result<CStmt, Memory>
    ensures { IfOk result (λ s. stmt_of s ≡ rules.pointed_statement (expr_of target) (steps_of steps, expr_of value)) }
{
    let place = pointed_place(alloc, target, steps)?;
    Ok(assign_node(place, value))
}

#[tactic(auto, using(c_ast::proofs::View::break_is))]
pub fn break_node() -> CStmt
    ensures { stmt_of result ≡ syntax.Break }
{
    CStmt::Break
}

#[tactic(auto, using(c_ast::proofs::View::return_is))]
pub fn return_node(value: Option<CExpr>) -> CStmt
    ensures { stmt_of result ≡ syntax.Return (option_map expr_of value) }
{
    CStmt::Return(value)
}

#[tactic(auto, using(c_ast::proofs::View::block_is))]
pub fn block_node(body: Seq<CStmt>) -> CStmt
    ensures { stmt_of result ≡ syntax.Block (stmts_of body) }
{
    CStmt::Block(body)
}

#[tactic(auto, using(c_ast::proofs::View::forever_is))]
pub fn forever_node(body: Seq<CStmt>) -> CStmt
    ensures { stmt_of result ≡ syntax.Forever (stmts_of body) }
{
    CStmt::Forever(body)
}

#[tactic(auto, using(c_ast::proofs::View::if_is, c_ast::proofs::View::if_else_is))]
pub fn if_node(test: CExpr, first: Seq<CStmt>, second: Option<Seq<CStmt>>) -> CStmt
    ensures { stmt_of result ≡ rules.if_with (expr_of test) (branches_of (first, second)) }
{
    match second {
        Some(second) => CStmt::If(test, first, Some(second)),
        None => CStmt::If(test, first, None),
    }
}
