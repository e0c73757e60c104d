//! The first fault of a statement and of a block. The fault of a node counts before those of its parts.

ghost use Rattle.std.specs.Prelude.{◌≡◌, IfOk, OnOk, true, false, option_map};
ghost use Rattle.ivory_tree.specs.View.{stmt_of, stmts_of, block_of};
ghost use Rattle.rule_faults.specs.FirstFault.{first_of};
ghost use Rattle.rule_faults.specs.StatementRows as statements;
ghost use Rattle.rule_checker.specs.Contexts.{context_of};
ghost use Rattle.rule_checker.specs.Faults.{found};
ghost use Rattle.statement_rules.specs.Kept.{Kept};
ghost use Rattle.statement_rules.specs.Within as within;

use crate::falling::is_next_reached;
use crate::parts::{
    alloc_fault, bound_fault, copy_fault, let_fault, store_fault, test_fault, value_fault,
};
use crate::rules::stmt_rule;
use crate::scope::{add_local, declare, index_of, leave};
use alloc_effects::{Allowed, Narrowing, in_loop, narrow};
use control_effects::falls_through;
use iv_words::{Memory, Name};
use ivory_tree::{Block, Stmt, StmtKind};
use rule_checker::{Context, RuleFault, at_place, call_fault, either, when};
use std::alloc::Global;

/// The first fault of statements, the first of which is reached.
#[cycle(stmts)]
fn stmts_fault(
    alloc: Global,
    context: &mut Context,
    stmts: &[Stmt],
) -> Result<Option<RuleFault>, Memory>
    ensures fault { IfOk result (λ fault. found fault ≡ first_of (statements.stmts_row (context_of context.old) true (stmts_of stmts.now))) }
    ensures kept { OnOk result (Kept context.old context.new) }
{
    let mut reached = true;
    for stmt in stmts {
        if let Some(fault) = stmt_fault(alloc, context, reached, stmt)? {
            return Ok(Some(fault));
        }
        declare(alloc, context, stmt)?;
        reached = is_next_reached(reached, stmt);
    }
    Ok(None)
}

/// The first fault of a statement, where those before it fall through or not.
#[cycle(stmts)]
#[tactic(auto, using(crate::proofs::Told::stmt_at))]
fn stmt_fault(
    alloc: Global,
    context: &mut Context,
    reached: bool,
    stmt: &Stmt,
) -> Result<Option<RuleFault>, Memory>
    ensures fault { IfOk result (λ fault. found fault ≡ first_of (statements.stmt_row (context_of context.old) reached (stmt_of stmt.now))) }
    ensures same { OnOk result (context.new ≡ context.old) }
{
    let rule = stmt_rule(&*context, reached, stmt);
    let within = fault_within(alloc, context, stmt)?;
    Ok(at_place(rule, stmt.span, within))
}

/// The first fault of the parts of a statement.
#[cycle(stmts)]
fn fault_within(
    alloc: Global,
    context: &mut Context,
    stmt: &Stmt,
) -> Result<Option<RuleFault>, Memory>
    ensures fault { IfOk result (λ fault. found fault ≡ within.within_stmt (context_of context.old) (stmt_of stmt.now)) }
    ensures same { OnOk result (context.new ≡ context.old) }
{
    let allowed = context.allowed;
    match &stmt.kind {
        StmtKind::Let(_, value) => Ok(let_fault(&*context, value)),
        StmtKind::LetCall(_, call) => call_fault(alloc, &*context, call),
        StmtKind::Alloc(_, area, init) => alloc_fault(alloc, &*context, area, init),
        StmtKind::Store(target, value) => Ok(store_fault(&*context, target, value)),
        StmtKind::Copy(target, source) => Ok(copy_fault(&*context, target, source)),
        StmtKind::Call(call) => call_fault(alloc, &*context, call),
        StmtKind::If(test, first, second) => {
            let of_test = test_fault(&*context, test);
            let of_first = inner_fault(alloc, context, allowed, first)?;
            let of_second = second_fault(alloc, context, second)?;
            Ok(either(of_test, either(of_first, of_second)))
        }
        StmtKind::Map(name, length, body) => loop_fault(alloc, context, name, *length, body),
        StmtKind::Upto(name, length, last, body) => {
            let of_bound = bound_fault(&*context, *length, last);
            let of_body = loop_fault(alloc, context, name, *length, body)?;
            Ok(either(of_bound, of_body))
        }
        StmtKind::Downto(name, length, first, body) => {
            let of_bound = bound_fault(&*context, *length, first);
            let of_body = loop_fault(alloc, context, name, *length, body)?;
            Ok(either(of_bound, of_body))
        }
        StmtKind::Forever(body) => inner_fault(alloc, context, in_loop(allowed), body),
        StmtKind::Break => Ok(None),
        StmtKind::Return(value) => Ok(value_fault(&*context, value)),
        StmtKind::Assert(cond) => Ok(test_fault(&*context, cond)),
        StmtKind::NoAlloc(body) => {
            inner_fault(alloc, context, narrow(allowed, Narrowing::NoAlloc), body)
        }
        StmtKind::NoBreak(body) => {
            inner_fault(alloc, context, narrow(allowed, Narrowing::NoBreak), body)
        }
        StmtKind::NoReturn(body) => {
            inner_fault(alloc, context, narrow(allowed, Narrowing::NoReturn), body)
        }
    }
}

/// The first fault of the block after an `else`, where there is one.
#[cycle(stmts)]
fn second_fault(
    alloc: Global,
    context: &mut Context,
    second: &Option<Block>,
) -> Result<Option<RuleFault>, Memory>
    ensures fault { IfOk result (λ fault. found fault ≡ within.second_fault (context_of context.old) (option_map block_of second.now)) }
    ensures same { OnOk result (context.new ≡ context.old) }
{
    let allowed = context.allowed;
    match second {
        Some(block) => inner_fault(alloc, context, allowed, block),
        None => Ok(None),
    }
}

/// The first fault of the body of a loop, in which the name is an index below the length.
#[cycle(stmts)]
fn loop_fault(
    alloc: Global,
    context: &mut Context,
    name: &Name,
    length: u64,
    body: &Block,
) -> Result<Option<RuleFault>, Memory>
    ensures fault { IfOk result (λ fault. found fault ≡ within.inner_fault (statements.in_counted (context_of context.old) name.now length) (block_of body.now)) }
    ensures same { OnOk result (context.new ≡ context.old) }
{
    let around = context.scope.len();
    add_local(alloc, context, &name.text, index_of(length))?;
    let allowed = in_loop(context.allowed);
    let within = inner_fault(alloc, context, allowed, body)?;
    leave(context, around);
    Ok(within)
}

/// The first fault of a block in which this is allowed; what it names is not in scope behind it.
#[cycle(stmts)]
fn inner_fault(
    alloc: Global,
    context: &mut Context,
    allowed: Allowed,
    block: &Block,
) -> Result<Option<RuleFault>, Memory>
    ensures fault { IfOk result (λ fault. found fault ≡ within.inner_fault (record (context_of context.old) { allowed = allowed }) (block_of block.now)) }
    ensures same { OnOk result (context.new ≡ context.old) }
{
    let outside = context.scope.len();
    let before = context.allowed;
    context.allowed = allowed;
    let within = stmts_fault(alloc, context, block.stmts.as_slice())?;
    context.allowed = before;
    leave(context, outside);
    Ok(within)
}

/// The first fault of the body of a procedure, which has a result or none, and in which this is allowed.
#[tactic(auto, using(crate::proofs::Told::block_at))]
pub fn block_fault(
    alloc: Global,
    context: &mut Context,
    with_result: bool,
    allowed: Allowed,
    block: &Block,
) -> Result<Option<RuleFault>, Memory>
    ensures fault { IfOk result (λ fault. found fault ≡ first_of (statements.block_row (record (context_of context.old) { allowed = allowed }) with_result (block_of block.now))) }
    ensures same { OnOk result (context.new ≡ context.old) }
{
    let within = inner_fault(alloc, context, allowed, block)?;
    let rule = when(with_result && falls_through(block), 44);
    Ok(at_place(rule, block.span, within))
}
