//! Statements from their parts.

ghost use Rattle.std.specs.Prelude.{◌≡◌, option_map};
ghost use Rattle.area_types.specs.View.{area_of};
ghost use Rattle.core_tree.specs.Syntax as core_syntax;
ghost use Rattle.core_tree.specs.View as tree;

use area_types::Area;
use core_tree::{Check, CoreCall, CoreExpr, CoreInit, CoreStmt};
use iv_words::Seq;

#[tactic(auto, using(core_tree::proofs::View::let_is))]
pub(crate) fn let_value(number: u32, value: CoreExpr) -> CoreStmt
    ensures { tree.stmt_of result ≡ core_syntax.Let number (tree.expr_of value) }
{
    CoreStmt::Let(number, value)
}

#[tactic(auto, using(core_tree::proofs::View::let_call_is))]
pub(crate) fn let_call(number: u32, call: CoreCall) -> CoreStmt
    ensures { tree.stmt_of result ≡ core_syntax.LetCall number (tree.call_of call) }
{
    CoreStmt::LetCall(number, call)
}

#[tactic(auto, using(core_tree::proofs::View::alloc_is))]
pub(crate) fn alloc(number: u32, area: Area, first: Option<CoreInit>) -> CoreStmt
    ensures { tree.stmt_of result ≡ core_syntax.Alloc number (area_of area) (option_map tree.init_of first) }
{
    CoreStmt::Alloc(number, area, first)
}

#[tactic(auto, using(core_tree::proofs::View::store_is))]
pub(crate) fn store(target: CoreExpr, value: CoreExpr) -> CoreStmt
    ensures { tree.stmt_of result ≡ core_syntax.Store (tree.expr_of target) (tree.expr_of value) }
{
    CoreStmt::Store(target, value)
}

#[tactic(auto, using(core_tree::proofs::View::copy_is))]
pub(crate) fn copy(target: CoreExpr, source: CoreExpr) -> CoreStmt
    ensures { tree.stmt_of result ≡ core_syntax.Copy (tree.expr_of target) (tree.expr_of source) }
{
    CoreStmt::Copy(target, source)
}

#[tactic(auto, using(core_tree::proofs::View::call_is))]
pub(crate) fn call(call: CoreCall) -> CoreStmt
    ensures { tree.stmt_of result ≡ core_syntax.Call (tree.call_of call) }
{
    CoreStmt::Call(call)
}

#[tactic(auto, using(core_tree::proofs::View::if_is))]
pub(crate) fn if_only(test: CoreExpr, first: Seq<CoreStmt>) -> CoreStmt
    ensures { tree.stmt_of result ≡ core_syntax.If (tree.expr_of test) (tree.stmts_of first) }
{
    CoreStmt::If(test, first, None)
}

#[tactic(auto, using(core_tree::proofs::View::if_else_is))]
pub(crate) fn if_else(test: CoreExpr, first: Seq<CoreStmt>, second: Seq<CoreStmt>) -> CoreStmt
    ensures { tree.stmt_of result ≡ core_syntax.IfElse (tree.expr_of test) (tree.stmts_of first) (tree.stmts_of second) }
{
    CoreStmt::If(test, first, Some(second))
}

#[tactic(auto, using(core_tree::proofs::View::map_is))]
pub(crate) fn map(number: u32, length: u32, body: Seq<CoreStmt>) -> CoreStmt
    ensures { tree.stmt_of result ≡ core_syntax.Map number length (tree.stmts_of body) }
{
    CoreStmt::Map(number, length, body)
}

#[tactic(auto, using(core_tree::proofs::View::upto_is))]
pub(crate) fn upto(number: u32, length: u32, last: CoreExpr, body: Seq<CoreStmt>) -> CoreStmt
    ensures { tree.stmt_of result ≡ core_syntax.Upto number length (tree.expr_of last) (tree.stmts_of body) }
{
    CoreStmt::Upto(number, length, last, body)
}

#[tactic(auto, using(core_tree::proofs::View::downto_is))]
pub(crate) fn downto(number: u32, length: u32, first: CoreExpr, body: Seq<CoreStmt>) -> CoreStmt
    ensures { tree.stmt_of result ≡ core_syntax.Downto number length (tree.expr_of first) (tree.stmts_of body) }
{
    CoreStmt::Downto(number, length, first, body)
}

#[tactic(auto, using(core_tree::proofs::View::forever_is))]
pub(crate) fn forever(body: Seq<CoreStmt>) -> CoreStmt
    ensures { tree.stmt_of result ≡ core_syntax.Forever (tree.stmts_of body) }
{
    CoreStmt::Forever(body)
}

#[tactic(auto, using(core_tree::proofs::View::break_is))]
pub(crate) fn break_out() -> CoreStmt
    ensures { tree.stmt_of result ≡ core_syntax.Break }
{
    CoreStmt::Break
}

#[tactic(auto, using(core_tree::proofs::View::return_is))]
pub(crate) fn give_back(value: Option<CoreExpr>) -> CoreStmt
    ensures { tree.stmt_of result ≡ core_syntax.Return (option_map tree.expr_of value) }
{
    CoreStmt::Return(value)
}

#[tactic(auto, using(core_tree::proofs::View::assert_is))]
pub(crate) fn assertion(cond: CoreExpr, check: Check) -> CoreStmt
    ensures { tree.stmt_of result ≡ core_syntax.Assert (tree.expr_of cond) check }
{
    CoreStmt::Assert(cond, check)
}

#[tactic(auto, using(core_tree::proofs::View::no_alloc_is))]
pub(crate) fn no_alloc(body: Seq<CoreStmt>) -> CoreStmt
    ensures { tree.stmt_of result ≡ core_syntax.NoAlloc (tree.stmts_of body) }
{
    CoreStmt::NoAlloc(body)
}

#[tactic(auto, using(core_tree::proofs::View::no_break_is))]
pub(crate) fn no_break(body: Seq<CoreStmt>) -> CoreStmt
    ensures { tree.stmt_of result ≡ core_syntax.NoBreak (tree.stmts_of body) }
{
    CoreStmt::NoBreak(body)
}

#[tactic(auto, using(core_tree::proofs::View::no_return_is))]
pub(crate) fn no_return(body: Seq<CoreStmt>) -> CoreStmt
    ensures { tree.stmt_of result ≡ core_syntax.NoReturn (tree.stmts_of body) }
{
    CoreStmt::NoReturn(body)
}
