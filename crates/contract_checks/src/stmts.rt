//! The checks of statements, added to those so far.

ghost use Rattle.std.specs.Prelude.{◌≡◌, ◌∷◌, ◌++◌, map, OnOk};
ghost use Rattle.std.specs.List.{flat_map};
ghost use Rattle.core_tree.specs.Checks.{expr_checks, init_checks, inits_checks, call_checks, stmt_checks, stmts_checks};
ghost use Rattle.core_tree.specs.View.{expr_of, init_of, inits_of, call_of, stmt_of, stmts_of};
ghost use Rattle.contract_checks.specs.Parts.{if_any};

use crate::exprs::add_expr;
use core_tree::{Check, CoreCall, CoreExpr, CoreInit, CoreStmt};
use iv_words::{Memory, Seq};

#[cycle(inits)]
fn add_init(init: &CoreInit, found: &mut Seq<Check>) -> Result<(), Memory>
    ensures { OnOk result (found.new ≡ found.old ++ init_checks (init_of init.now)) }
{
    match init {
        CoreInit::One(e) => add_expr(e, found),
        CoreInit::Many(inits) => add_inits(inits, found),
    }
}

#[cycle(inits)]
fn add_inits(inits: &Seq<CoreInit>, found: &mut Seq<Check>) -> Result<(), Memory>
    ensures { OnOk result (found.new ≡ found.old ++ inits_checks (inits_of inits.now)) }
{
    for init in inits.iter() {
        add_init(init, found)?;
    }
    Ok(())
}

fn add_first(init: &Option<CoreInit>, found: &mut Seq<Check>) -> Result<(), Memory>
    ensures { OnOk result (found.new ≡ found.old ++ if_any (λ i. init_checks (init_of i)) init.now) }
{
    match init {
        Some(init) => add_init(init, found),
        None => Ok(()),
    }
}

fn add_value(value: &Option<CoreExpr>, found: &mut Seq<Check>) -> Result<(), Memory>
    ensures { OnOk result (found.new ≡ found.old ++ if_any (λ e. expr_checks (expr_of e)) value.now) }
{
    match value {
        Some(value) => add_expr(value, found),
        None => Ok(()),
    }
}

fn add_args(args: &Seq<CoreExpr>, found: &mut Seq<Check>) -> Result<(), Memory>
    ensures { OnOk result (found.new ≡ found.old ++ flat_map expr_checks (map expr_of args.now)) }
{
    for arg in args.iter() {
        add_expr(arg, found)?;
    }
    Ok(())
}

fn add_call(call: &CoreCall, found: &mut Seq<Check>) -> Result<(), Memory>
    ensures { OnOk result (found.new ≡ found.old ++ call_checks (call_of call.now)) }
{
    add_args(&call.args, found)
}

fn add_two(first: &CoreExpr, second: &CoreExpr, found: &mut Seq<Check>) -> Result<(), Memory>
    ensures { OnOk result (found.new ≡ found.old ++ (expr_checks (expr_of first.now) ++ expr_checks (expr_of second.now))) }
{
    add_expr(first, found)?;
    add_expr(second, found)
}

fn add_assert(cond: &CoreExpr, check: Check, found: &mut Seq<Check>) -> Result<(), Memory>
    ensures { OnOk result (found.new ≡ found.old ++ check ∷ expr_checks (expr_of cond.now)) }
{
    found.push(check)?;
    add_expr(cond, found)
}

#[cycle(stmts)]
fn add_stmt(stmt: &CoreStmt, found: &mut Seq<Check>) -> Result<(), Memory>
    ensures { OnOk result (found.new ≡ found.old ++ stmt_checks (stmt_of stmt.now)) }
{
    match stmt {
        CoreStmt::Let(_, value) => add_expr(value, found),
        CoreStmt::LetCall(_, call) => add_call(call, found),
        CoreStmt::Alloc(_, _, init) => add_first(init, found),
        CoreStmt::Store(target, value) => add_two(target, value, found),
        CoreStmt::Copy(target, source) => add_two(target, source, found),
        CoreStmt::Call(call) => add_call(call, found),
        CoreStmt::If(test, first, second) => {
            add_expr(test, found)?;
            add_stmts(first, found)?;
            match second {
                Some(stmts) => add_stmts(stmts, found),
                None => Ok(()),
            }
        }
        CoreStmt::Map(_, _, body) => add_stmts(body, found),
        CoreStmt::Upto(_, _, last, body) => {
            add_expr(last, found)?;
            add_stmts(body, found)
        }
        CoreStmt::Downto(_, _, first, body) => {
            add_expr(first, found)?;
            add_stmts(body, found)
        }
        CoreStmt::Forever(body) => add_stmts(body, found),
        CoreStmt::Break => Ok(()),
        CoreStmt::Return(value) => add_value(value, found),
        CoreStmt::Assert(cond, check) => add_assert(cond, *check, found),
        CoreStmt::NoAlloc(body) => add_stmts(body, found),
        CoreStmt::NoBreak(body) => add_stmts(body, found),
        CoreStmt::NoReturn(body) => add_stmts(body, found),
    }
}

#[cycle(stmts)]
pub(crate) fn add_stmts(stmts: &Seq<CoreStmt>, found: &mut Seq<Check>) -> Result<(), Memory>
    ensures { OnOk result (found.new ≡ found.old ++ stmts_checks (stmts_of stmts.now)) }
{
    for stmt in stmts.iter() {
        add_stmt(stmt, found)?;
    }
    Ok(())
}
