ghost use Rattle.std.specs.Prelude.{◌≡◌, IfOk};

use crate::check::Check;
use crate::expr::CoreExpr;
use crate::init::CoreInit;
use area_types::Area;
use iv_words::{Copied, Memory, Seq};
use std::alloc::Global;

/// A call of the import or the procedure of that number, with its arguments.
#[derive(PartialEq, Eq)]
pub struct CoreCall {
    pub import: bool,
    pub callee: u32,
    pub args: Seq<CoreExpr>,
}

/// The forms of a statement. A local is its number.
///
/// `Store` has the reference to the cell, then the value; `Copy` has two references, the target first. A loop has the number of its name,
/// the number N of its `ix(N)` and, where it has one, its bound. `NoAlloc`, `NoBreak` and `NoReturn` are the blocks that take a permission away.
#[cycle(stmt)]
#[derive(PartialEq, Eq)]
pub enum CoreStmt {
    Let(u32, CoreExpr),
    LetCall(u32, CoreCall),
    Alloc(u32, Area, Option<CoreInit>),
    Store(CoreExpr, CoreExpr),
    Copy(CoreExpr, CoreExpr),
    Call(CoreCall),
    If(CoreExpr, Seq<CoreStmt>, Option<Seq<CoreStmt>>),
    Map(u32, u32, Seq<CoreStmt>),
    Upto(u32, u32, CoreExpr, Seq<CoreStmt>),
    Downto(u32, u32, CoreExpr, Seq<CoreStmt>),
    Forever(Seq<CoreStmt>),
    Break,
    Return(Option<CoreExpr>),
    Assert(CoreExpr, Check),
    NoAlloc(Seq<CoreStmt>),
    NoBreak(Seq<CoreStmt>),
    NoReturn(Seq<CoreStmt>),
}

impl CoreCall {
    /// A call that equals this one.
    pub fn copy(&self, alloc: Global) -> Result<CoreCall, Memory>
        ensures { IfOk result (λ t. t ≡ self.now) }
    {
        Ok(CoreCall {
            import: self.import,
            callee: self.callee,
            args: self.args.copy(alloc)?,
        })
    }
}

impl CoreStmt {
    /// A statement that equals this one.
    #[cycle(copies)]
    pub fn copy(&self, alloc: Global) -> Result<CoreStmt, Memory>
        ensures { IfOk result (λ t. t ≡ self.now) }
    {
        match self {
            CoreStmt::Let(name, value) => Ok(CoreStmt::Let(*name, value.copy(alloc)?)),
            CoreStmt::LetCall(name, call) => Ok(CoreStmt::LetCall(*name, call.copy(alloc)?)),
            CoreStmt::Alloc(name, area, init) => copied_alloc(*name, area, init, alloc),
            CoreStmt::Store(target, value) => copied_store(target, value, alloc),
            CoreStmt::Copy(target, source) => copied_copy(target, source, alloc),
            CoreStmt::Call(call) => Ok(CoreStmt::Call(call.copy(alloc)?)),
            CoreStmt::If(test, first, second) => {
                let first = copied_stmts(first, alloc)?;
                let second = match second {
                    Some(stmts) => Some(copied_stmts(stmts, alloc)?),
                    None => None,
                };
                if_with(test, first, second, alloc)
            }
            CoreStmt::Map(name, length, body) => {
                Ok(CoreStmt::Map(*name, *length, copied_stmts(body, alloc)?))
            }
            CoreStmt::Upto(name, length, last, body) => {
                upto_with(*name, *length, last, copied_stmts(body, alloc)?, alloc)
            }
            CoreStmt::Downto(name, length, first, body) => {
                downto_with(*name, *length, first, copied_stmts(body, alloc)?, alloc)
            }
            CoreStmt::Forever(body) => Ok(CoreStmt::Forever(copied_stmts(body, alloc)?)),
            CoreStmt::Break => Ok(CoreStmt::Break),
            CoreStmt::Return(value) => Ok(CoreStmt::Return(Copied::copied(value, alloc)?)),
            CoreStmt::Assert(cond, check) => Ok(CoreStmt::Assert(cond.copy(alloc)?, *check)),
            CoreStmt::NoAlloc(body) => Ok(CoreStmt::NoAlloc(copied_stmts(body, alloc)?)),
            CoreStmt::NoBreak(body) => Ok(CoreStmt::NoBreak(copied_stmts(body, alloc)?)),
            CoreStmt::NoReturn(body) => Ok(CoreStmt::NoReturn(copied_stmts(body, alloc)?)),
        }
    }
}

fn copied_alloc(
    name: u32,
    area: &Area,
    init: &Option<CoreInit>,
    alloc: Global,
) -> Result<CoreStmt, Memory>
    ensures { IfOk result (λ s. s ≡ CoreStmt.Alloc name area.now init.now) }
{
    let area = area.copy(alloc)?;
    Ok(CoreStmt::Alloc(name, area, Copied::copied(init, alloc)?))
}

fn copied_store(target: &CoreExpr, value: &CoreExpr, alloc: Global) -> Result<CoreStmt, Memory>
    ensures { IfOk result (λ s. s ≡ CoreStmt.Store target.now value.now) }
{
    Ok(CoreStmt::Store(target.copy(alloc)?, value.copy(alloc)?))
}

fn copied_copy(target: &CoreExpr, source: &CoreExpr, alloc: Global) -> Result<CoreStmt, Memory>
    ensures { IfOk result (λ s. s ≡ CoreStmt.Copy target.now source.now) }
{
    Ok(CoreStmt::Copy(target.copy(alloc)?, source.copy(alloc)?))
}

/// An `if` with these statements and a copy of this test.
fn if_with(
    test: &CoreExpr,
    first: Seq<CoreStmt>,
    second: Option<Seq<CoreStmt>>,
    alloc: Global,
) -> Result<CoreStmt, Memory>
    ensures { IfOk result (λ s. s ≡ CoreStmt.If test.now first second) }
{
    Ok(CoreStmt::If(test.copy(alloc)?, first, second))
}

/// A loop with this body and a copy of this bound.
fn upto_with(
    name: u32,
    length: u32,
    last: &CoreExpr,
    body: Seq<CoreStmt>,
    alloc: Global,
) -> Result<CoreStmt, Memory>
    ensures { IfOk result (λ s. s ≡ CoreStmt.Upto name length last.now body) }
{
    Ok(CoreStmt::Upto(name, length, last.copy(alloc)?, body))
}

/// A loop with this body and a copy of this bound.
fn downto_with(
    name: u32,
    length: u32,
    first: &CoreExpr,
    body: Seq<CoreStmt>,
    alloc: Global,
) -> Result<CoreStmt, Memory>
    ensures { IfOk result (λ s. s ≡ CoreStmt.Downto name length first.now body) }
{
    Ok(CoreStmt::Downto(name, length, first.copy(alloc)?, body))
}

#[cycle(copies)]
fn copied_stmts(stmts: &Seq<CoreStmt>, alloc: Global) -> Result<Seq<CoreStmt>, Memory>
    ensures { IfOk result (λ c. c ≡ stmts.now) }
{
    let mut items = Seq::with_capacity(alloc, stmts.len())?;
    for stmt in stmts.iter() {
        items.push(stmt.copy(alloc)?)?;
    }
    Ok(items)
}

impl Copied for CoreStmt {
    fn copied(&self, alloc: Global) -> Result<CoreStmt, Memory> {
        self.copy(alloc)
    }
}

// Each tree is dropped by a function of this crate: one that is derived would be proved again in each crate that drops a tree.

impl Drop for CoreCall {
    fn drop(self) {
        let CoreCall {
            import: _,
            callee: _,
            args: _,
        } = self;
    }
}

impl Drop for CoreStmt {
    fn drop(self) {
        match self {
            CoreStmt::Let(_, _) | CoreStmt::LetCall(_, _) | CoreStmt::Alloc(_, _, _) => {}
            CoreStmt::Store(_, _) | CoreStmt::Copy(_, _) | CoreStmt::Call(_) => {}
            CoreStmt::If(_, _, _) | CoreStmt::Map(_, _, _) | CoreStmt::Forever(_) => {}
            CoreStmt::Upto(_, _, _, _) | CoreStmt::Downto(_, _, _, _) => {}
            CoreStmt::Break | CoreStmt::Return(_) | CoreStmt::Assert(_, _) => {}
            CoreStmt::NoAlloc(_) | CoreStmt::NoBreak(_) | CoreStmt::NoReturn(_) => {}
        }
    }
}
