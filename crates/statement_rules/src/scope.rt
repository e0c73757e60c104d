//! What a statement names is in scope behind it.

ghost use Rattle.std.specs.Prelude.{◌≡◌, IfOk, OnOk, option_map, take};
ghost use Rattle.area_types.specs.Syntax as types;
ghost use Rattle.area_types.specs.View.{type_of, area_of as area_seen};
ghost use Rattle.ivory_tree.specs.View.{area_of, expr_of, stmt_of};
ghost use Rattle.rule_faults.specs.Contexts as contexts;
ghost use Rattle.rule_faults.specs.StatementRows.{after_stmt};
ghost use Rattle.rule_faults.specs.Types.{own_type};
ghost use Rattle.rule_checker.specs.Contexts.{context_of, earlier_of};
ghost use Rattle.rule_checker.specs.View.{type_at, type_seen};
ghost use Rattle.source_types.specs.Written as written;
ghost use Rattle.statement_rules.specs.Kept.{Kept};

use crate::call_types::call_type;
use area_types::{Area, RefType, Region, ValueType};
use iv_words::{Memory, Word};
use ivory_tree::{AreaText, Expr, Stmt, StmtKind};
use rule_checker::{Context, Items, Local, TypeRef, area_in, own_type};
use std::alloc::Global;

/// The type of a reference.
#[tactic(auto, using(region_check::proofs::Apart::ref_is))]
pub fn reference_to(constant: bool, region: Region, area: Area) -> ValueType
    ensures { type_of result ≡ types.Ref constant region (area_seen area) }
{
    ValueType::Ref(RefType {
        constant,
        region,
        area,
    })
}

/// A type that says the same, with an area of its own.
fn owned(alloc: Global, t: TypeRef) -> Result<ValueType, Memory>
    ensures { IfOk result (λ u. type_of u ≡ type_at t.entry) }
{
    match t {
        TypeRef::Bool => Ok(ValueType::Bool),
        TypeRef::Int(kind) => Ok(ValueType::Int(kind)),
        TypeRef::Ix(length) => Ok(ValueType::Ix(length)),
        TypeRef::Bits(word) => Ok(ValueType::Bits(word)),
        TypeRef::Ref(reference) => {
            let area = reference.area.copy(alloc)?;
            Ok(reference_to(reference.constant, reference.region, area))
        }
    }
}

fn owned_if_any(alloc: Global, t: Option<TypeRef>) -> Result<Option<ValueType>, Memory>
    ensures { IfOk result (λ u. option_map type_of u ≡ type_seen t.entry) }
{
    match t {
        Some(t) => Ok(Some(owned(alloc, t)?)),
        None => Ok(None),
    }
}

/// The type of a value that is named.
fn value_type(alloc: Global, context: &Context, value: &Expr) -> Result<Option<ValueType>, Memory>
    ensures { IfOk result (λ t. option_map type_of t ≡ own_type (context_of context.now) (expr_of value.now)) }
{
    owned_if_any(alloc, own_type(context, value))
}

/// The type of the name of an `alloc`.
fn own_area(alloc: Global, items: &Items, area: &AreaText) -> Result<Option<ValueType>, Memory>
    ensures { IfOk result (λ t. option_map type_of t ≡ contexts.own_area (written.area_in (earlier_of items.now) (area_of area.now))) }
{
    match area_in(alloc, items, area)? {
        Some(area) => Ok(Some(reference_to(false, Region::Own, area))),
        None => Ok(None),
    }
}

/// The type of the index of a loop.
pub(crate) fn index_of(length: u64) -> Option<ValueType>
    ensures { option_map type_of result ≡ written.index_type length }
{
    if 1 <= length && length <= 65_535 {
        Some(ValueType::Ix(length as u32))
    } else {
        None
    }
}

/// Puts a name into scope.
#[tactic(auto, using(crate::proofs::Scopes::pushed_view, crate::proofs::Scopes::pushed_keeps))]
pub fn add_local(
    alloc: Global,
    context: &mut Context,
    name: &Word,
    ty: Option<ValueType>,
) -> Result<(), Memory>
    ensures view { OnOk result (context_of context.new ≡ contexts.with_local (context_of context.old) name.now (option_map type_of ty)) }
    ensures kept { OnOk result (Kept context.old context.new) }
{
    let name = name.copy(alloc)?;
    context.scope.push(Local { name, ty })
}

/// Takes out of scope all but the first names.
pub fn leave(context: &mut Context, count: usize)
    ensures { context.new ≡ record context.old { scope = take count context.old.scope } }
{
    context.scope.truncate(count);
}

/// Puts what a statement names into scope.
#[tactic(auto, using(crate::proofs::Scopes::stays))]
pub(crate) fn declare(alloc: Global, context: &mut Context, stmt: &Stmt) -> Result<(), Memory>
    ensures view { OnOk result (context_of context.new ≡ after_stmt (context_of context.old) (stmt_of stmt.now)) }
    ensures kept { OnOk result (Kept context.old context.new) }
{
    match &stmt.kind {
        StmtKind::Let(name, value) => {
            let ty = value_type(alloc, &*context, value)?;
            add_local(alloc, context, &name.text, ty)
        }
        StmtKind::LetCall(name, call) => {
            let ty = call_type(alloc, &*context, call)?;
            add_local(alloc, context, &name.text, ty)
        }
        StmtKind::Alloc(name, area, _) => {
            let ty = own_area(alloc, &context.items, area)?;
            add_local(alloc, context, &name.text, ty)
        }
        StmtKind::Store(_, _) | StmtKind::Copy(_, _) | StmtKind::Call(_) => Ok(()),
        StmtKind::If(_, _, _) => Ok(()),
        StmtKind::Map(_, _, _) | StmtKind::Upto(_, _, _, _) => Ok(()),
        StmtKind::Downto(_, _, _, _) | StmtKind::Forever(_) => Ok(()),
        StmtKind::Break | StmtKind::Return(_) | StmtKind::Assert(_) => Ok(()),
        StmtKind::NoAlloc(_) | StmtKind::NoBreak(_) | StmtKind::NoReturn(_) => Ok(()),
    }
}
