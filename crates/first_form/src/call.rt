//! What statements stand for: each must be a call of an import with literals from 0 to 255.

ghost use Rattle.std.specs.Prelude.{◌≡◌, ◌<◌, ◌^◌, ℕ, List, length, map, IfOk, IfSome, IfNone};
ghost use Rattle.std.specs.List.{AllZip};
ghost use Rattle.ivory_tree.specs.View.{expr_of, call_of, stmt_of};
ghost use Rattle.first_form.specs.Answers.{IfRefused};
ghost use Rattle.first_form.specs.Stands.{ByteStands, CallStands, StmtStands};
ghost use Rattle.first_form.specs.Tables.{ImportsFirst};
ghost use Rattle.first_form.specs.Valid.{AllDifferent};
ghost use Rattle.first_form.specs.declared.first.FirstCall.{FirstCall};

use crate::first::{FirstCall, FirstImport};
use crate::names::Names;
use crate::stop::Stop;
use iv_words::Seq;
use ivory_tree::{CallText, Expr, ExprKind, Stmt, StmtKind};
use std::alloc::Global;

/// The value of a literal from 0 to 255.
fn byte_of(arg: &Expr) -> Option<u8>
    ensures some { IfSome result (λ v. ByteStands (expr_of arg.now) v) }
    ensures none { IfNone result ((v : ℕ) → ByteStands (expr_of arg.now) v → ⊥) }
{
    match arg.kind {
        ExprKind::Lit(value) => u8::try_from(value).ok(),
        _ => None,
    }
}

fn bytes_of(alloc: Global, args: &[Expr]) -> Result<Seq<u8>, Stop>
    ensures ok { IfOk result (λ vs. AllZip ByteStands (map expr_of args.now) vs) }
    ensures refused { IfRefused result ((vs : List ℕ) → AllZip ByteStands (map expr_of args.now) vs → ⊥) }
{
    let mut values = Seq::with_capacity(alloc, args.len())?;
    for arg in args {
        let Some(value) = byte_of(arg) else {
            return Err(Stop::Refused);
        };
        values.push(value)?;
    }
    Ok(values)
}

fn first_call(
    alloc: Global,
    items: &Names,
    imports: &[FirstImport],
    call: &CallText,
) -> Result<FirstCall, Stop>
    requires first { ImportsFirst imports.now items.now }
    requires different { AllDifferent items.now }
    requires few { length imports.now < 2 ^ 32 }
    ensures ok { IfOk result (λ d. CallStands imports.now (call_of call.now) d) }
    ensures refused { IfRefused result ((d : FirstCall) → CallStands imports.now (call_of call.now) d → ⊥) }
{
    let Some(place) = items.find(&call.name.text) else {
        return Err(Stop::Refused);
    };
    // A name at a later place is a procedure's.
    let Some(import) = imports.get(place) else {
        return Err(Stop::Refused);
    };
    if call.args.len() != import.params as usize {
        return Err(Stop::Refused);
    }
    let values = bytes_of(alloc, &call.args)?;
    Ok(FirstCall {
        import: place as u32,
        values,
    })
}

fn first_stmt(
    alloc: Global,
    items: &Names,
    imports: &[FirstImport],
    stmt: &Stmt,
) -> Result<FirstCall, Stop>
    requires first { ImportsFirst imports.now items.now }
    requires different { AllDifferent items.now }
    requires few { length imports.now < 2 ^ 32 }
    ensures ok { IfOk result (λ d. StmtStands imports.now (stmt_of stmt.now) d) }
    ensures refused { IfRefused result ((d : FirstCall) → StmtStands imports.now (stmt_of stmt.now) d → ⊥) }
{
    match &stmt.kind {
        StmtKind::Call(call) => first_call(alloc, items, imports, call),
        _ => Err(Stop::Refused),
    }
}

/// What statements stand for as calls of these imports.
pub fn first_calls(
    alloc: Global,
    items: &Names,
    imports: &[FirstImport],
    stmts: &[Stmt],
) -> Result<Seq<FirstCall>, Stop>
    requires first { ImportsFirst imports.now items.now }
    requires different { AllDifferent items.now }
    requires few { length imports.now < 2 ^ 32 }
    ensures ok { IfOk result (λ ds. AllZip (StmtStands imports.now) (map stmt_of stmts.now) ds) }
    ensures refused { IfRefused result ((ds : List FirstCall) → AllZip (StmtStands imports.now) (map stmt_of stmts.now) ds → ⊥) }
{
    let mut firsts = Seq::with_capacity(alloc, stmts.len())?;
    for stmt in stmts {
        firsts.push(first_stmt(alloc, items, imports, stmt)?)?;
    }
    Ok(firsts)
}
