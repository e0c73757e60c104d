//! The rules that may be broken at a statement, and the least of them at each form.

ghost use Rattle.std.specs.Prelude.{◌≡◌, not, option_map};
ghost use Rattle.std.specs.Option.{option_copied};
ghost use Rattle.ivory_tree.specs.View.{stmt_of};
ghost use Rattle.region_check.specs.Calls.{reference_of};
ghost use Rattle.rule_faults.specs.Contexts.{is_taken};
ghost use Rattle.rule_faults.specs.ExpressionRules.{stores};
ghost use Rattle.rule_faults.specs.StatementRules as tests;
ghost use Rattle.rule_faults.specs.Tests.{where_there, where_both};
ghost use Rattle.rule_checker.specs.Contexts.{context_of, callee_entry_of};
ghost use Rattle.rule_checker.specs.Rows.{least};
ghost use Rattle.rule_checker.specs.View.{type_at, type_seen, reference_seen};
ghost use Rattle.source_types.specs.Environments.{callee_named};
ghost use Rattle.statement_rules.specs.Rules as rows;

use alloc_effects::Allowed;
use ivory_tree::{Expr, Stmt, StmtKind};
use rule_checker::{
    CalleeEntry, Context, Reference, TypeRef, callee_named, given_reference, is_length, is_taken,
    own_type, reference_of, same_area, stored_type, when,
};

fn lacks_a_result(callee: Option<&CalleeEntry>) -> bool
    ensures { result ≡ where_there (option_map callee_entry_of (option_copied callee.entry)) (λ c. not c.gives) }
{
    match callee {
        Some(callee) => !callee.gives,
        None => false,
    }
}

/// Of a name for the result of a call.
fn result_rule(taken: bool, callee: Option<&CalleeEntry>) -> Option<u8>
    ensures { result ≡ least (rows.result_rows taken (option_map callee_entry_of (option_copied callee.entry))) }
{
    if taken {
        return Some(1);
    }
    when(lacks_a_result(callee), 33)
}

fn alloc_rule(taken: bool, allowed: Allowed) -> Option<u8>
    ensures { result ≡ least (rows.alloc_rows taken allowed.may_alloc) }
{
    if taken {
        return Some(1);
    }
    when(!allowed.may_alloc, 43)
}

fn stores(t: TypeRef) -> bool
    ensures { result ≡ stores (type_at t.entry) }
{
    match stored_type(t) {
        Some(_) => true,
        None => false,
    }
}

fn only_reads(given: Option<Reference>) -> bool
    ensures { result ≡ tests.only_reads (reference_seen given.entry) }
{
    match given {
        Some(reference) => reference.constant,
        None => false,
    }
}

fn is_only_read(target: Option<TypeRef>) -> bool
    ensures { result ≡ where_there (type_seen target.entry) (λ t. tests.only_reads (reference_of t)) }
{
    match target {
        Some(t) => only_reads(reference_of(t)),
        None => false,
    }
}

/// Whether what is stored into is not one stored value behind a reference.
fn is_misplaced(target: Option<TypeRef>) -> bool
    ensures { result ≡ where_there (type_seen target.entry) (λ t. not (stores t)) }
{
    match target {
        Some(t) => !stores(t),
        None => false,
    }
}

fn store_rule(target: Option<TypeRef>) -> Option<u8>
    ensures { result ≡ least (rows.store_rows (type_seen target.entry)) }
{
    if is_misplaced(target) {
        return Some(23);
    }
    when(is_only_read(target), 31)
}

fn alike(target: Option<Reference>, source: Option<Reference>) -> bool
    ensures { result ≡ tests.alike (reference_seen target.entry) (reference_seen source.entry) }
{
    match target {
        Some(target) => match source {
            Some(source) => same_area(target.area, source.area),
            None => false,
        },
        None => false,
    }
}

fn differ(target: Option<TypeRef>, source: Option<TypeRef>) -> bool
    ensures { result ≡ where_both (type_seen target.entry) (type_seen source.entry) (λ t u. not (tests.alike (reference_of t) (reference_of u))) }
{
    match target {
        Some(t) => match source {
            Some(u) => !alike(reference_of(t), reference_of(u)),
            None => false,
        },
        None => false,
    }
}

fn copy_rule(target: Option<TypeRef>, source: Option<TypeRef>) -> Option<u8>
    ensures { result ≡ least (rows.copy_rows (type_seen target.entry) (type_seen source.entry)) }
{
    if is_only_read(target) {
        return Some(31);
    }
    when(differ(target, source), 32)
}

/// Of the name and the length of a loop.
fn loop_rule(taken: bool, length: u64) -> Option<u8>
    ensures { result ≡ least (rows.loop_rows taken length) }
{
    if taken {
        return Some(1);
    }
    when(!is_length(length), 8)
}

fn return_rule(gives: bool, allowed: Allowed, value: &Option<Expr>) -> Option<u8>
    ensures { result ≡ least (rows.return_rows gives allowed.may_return value.now) }
{
    match value {
        None => {
            if gives {
                return Some(40);
            }
        }
        Some(_) => {
            if !gives {
                return Some(40);
            }
        }
    }
    when(!allowed.may_return, 41)
}

/// The least rule that is broken at a statement of this form, wherever it stands.
fn form_rule(context: &Context, stmt: &Stmt) -> Option<u8>
    ensures { result ≡ least (rows.form_rows (context_of context.now) (stmt_of stmt.now)) }
{
    match &stmt.kind {
        StmtKind::Let(name, _) => when(is_taken(context, &name.text), 1),
        StmtKind::LetCall(name, call) => result_rule(
            is_taken(context, &name.text),
            callee_named(&context.items, &call.name.text),
        ),
        StmtKind::Alloc(name, _, _) => alloc_rule(is_taken(context, &name.text), context.allowed),
        StmtKind::Store(target, _) => store_rule(own_type(context, target)),
        StmtKind::Copy(target, source) => {
            copy_rule(own_type(context, target), own_type(context, source))
        }
        StmtKind::Map(name, length, _) => loop_rule(is_taken(context, &name.text), *length),
        StmtKind::Upto(name, length, _, _) => loop_rule(is_taken(context, &name.text), *length),
        StmtKind::Downto(name, length, _, _) => loop_rule(is_taken(context, &name.text), *length),
        StmtKind::Break => when(!context.allowed.may_break, 42),
        StmtKind::Return(value) => return_rule(context.gives, context.allowed, value),
        StmtKind::Call(_) | StmtKind::If(_, _, _) | StmtKind::Forever(_) => None,
        StmtKind::Assert(_) | StmtKind::NoAlloc(_) => None,
        StmtKind::NoBreak(_) | StmtKind::NoReturn(_) => None,
    }
}

/// The least rule that is broken at a statement, where those before it fall through or not.
#[tactic(auto, using(crate::proofs::Told::form_then))]
pub(crate) fn stmt_rule(context: &Context, reached: bool, stmt: &Stmt) -> Option<u8>
    ensures { result ≡ least (rows.stmt_rows (context_of context.now) reached (stmt_of stmt.now)) }
{
    match form_rule(context, stmt) {
        Some(rule) => Some(rule),
        None => when(!reached, 44),
    }
}
