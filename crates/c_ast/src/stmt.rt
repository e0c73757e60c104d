ghost use Rattle.std.specs.Prelude.{◌≡◌, IfOk};

use crate::expr::{CExpr, CInit, CPlace};
use crate::types::{CBase, CType};
use iv_words::{Copied, Memory, Seq, Word};
use std::alloc::Global;

/// A call of a function of the unit or of an `extern`, with its arguments (C99 6.5.2.2).
#[derive(PartialEq, Eq)]
pub struct CCall {
    pub name: Word,
    pub args: Seq<CExpr>,
}

/// A statement (C99 6.8) or a declaration in a block.
///
/// `Const` and `ConstCall` declare a name that holds a value for good, `Object` one that names an object, with or without
/// an initializer; then an assignment, `if` with or without `else`, `for (;;)`, `break`, `return` with or without a
/// value, a block, and a call whose result is dropped.
#[cycle(stmt)]
#[derive(PartialEq, Eq)]
pub enum CStmt {
    Const(Word, CType, CExpr),
    ConstCall(Word, CType, CCall),
    Object(Word, CBase, Option<CInit>),
    Assign(CPlace, CExpr),
    If(CExpr, Seq<CStmt>, Option<Seq<CStmt>>),
    Forever(Seq<CStmt>),
    Break,
    Return(Option<CExpr>),
    Block(Seq<CStmt>),
    Call(CCall),
}

impl CCall {
    /// A call that equals this one.
    pub fn copy(&self, alloc: Global) -> Result<CCall, Memory>
        ensures { IfOk result (λ c. c ≡ self.now) }
    {
        Ok(CCall {
            name: self.name.copy(alloc)?,
            args: self.args.copy(alloc)?,
        })
    }
}

impl CStmt {
    /// A statement that equals this one.
    #[cycle(copies)]
    pub fn copy(&self, alloc: Global) -> Result<CStmt, Memory>
        ensures { IfOk result (λ s. s ≡ self.now) }
    {
        match self {
            CStmt::Const(name, ty, value) => copied_const(name, ty, value, alloc),
            CStmt::ConstCall(name, ty, call) => copied_const_call(name, ty, call, alloc),
            CStmt::Object(name, base, init) => copied_object(name, base, init, alloc),
            CStmt::Assign(place, value) => copied_assign(place, value, alloc),
            CStmt::If(test, first, second) => {
                let first = copied_stmts(first, alloc)?;
                let second = match second {
                    Some(stmts) => Some(copied_stmts(stmts, alloc)?),
                    None => None,
                };
                if_with(test, first, second, alloc)
            }
            CStmt::Forever(body) => Ok(CStmt::Forever(copied_stmts(body, alloc)?)),
            CStmt::Break => Ok(CStmt::Break),
            CStmt::Return(value) => Ok(CStmt::Return(Copied::copied(value, alloc)?)),
            CStmt::Block(body) => Ok(CStmt::Block(copied_stmts(body, alloc)?)),
            CStmt::Call(call) => Ok(CStmt::Call(call.copy(alloc)?)),
        }
    }
}

fn copied_const(name: &Word, ty: &CType, value: &CExpr, alloc: Global) -> Result<CStmt, Memory>
    ensures { IfOk result (λ s. s ≡ CStmt.Const name.now ty.now value.now) }
{
    let name = name.copy(alloc)?;
    let ty = ty.copy(alloc)?;
    Ok(CStmt::Const(name, ty, value.copy(alloc)?))
}

fn copied_const_call(name: &Word, ty: &CType, call: &CCall, alloc: Global) -> Result<CStmt, Memory>
    ensures { IfOk result (λ s. s ≡ CStmt.ConstCall name.now ty.now call.now) }
{
    let name = name.copy(alloc)?;
    let ty = ty.copy(alloc)?;
    Ok(CStmt::ConstCall(name, ty, call.copy(alloc)?))
}

fn copied_object(
    name: &Word,
    base: &CBase,
    init: &Option<CInit>,
    alloc: Global,
) -> Result<CStmt, Memory>
    ensures { IfOk result (λ s. s ≡ CStmt.Object name.now base.now init.now) }
{
    let name = name.copy(alloc)?;
    let base = base.copy(alloc)?;
    Ok(CStmt::Object(name, base, Copied::copied(init, alloc)?))
}

fn copied_assign(place: &CPlace, value: &CExpr, alloc: Global) -> Result<CStmt, Memory>
    ensures { IfOk result (λ s. s ≡ CStmt.Assign place.now value.now) }
{
    Ok(CStmt::Assign(place.copy(alloc)?, value.copy(alloc)?))
}

/// An `if` with these statements and a copy of this test.
fn if_with(
    test: &CExpr,
    first: Seq<CStmt>,
    second: Option<Seq<CStmt>>,
    alloc: Global,
) -> Result<CStmt, Memory>
    ensures { IfOk result (λ s. s ≡ CStmt.If test.now first second) }
{
    Ok(CStmt::If(test.copy(alloc)?, first, second))
}

#[cycle(copies)]
fn copied_stmts(stmts: &Seq<CStmt>, alloc: Global) -> Result<Seq<CStmt>, Memory>
    ensures { IfOk result (λ c. c ≡ stmts.now) }
{
    let mut items = Seq::with_capacity(alloc, stmts.len())?;
    for stmt in stmts.iter() {
        items.push(stmt.copy(alloc)?)?;
    }
    Ok(items)
}

impl Copied for CStmt {
    fn copied(&self, alloc: Global) -> Result<CStmt, Memory> {
        self.copy(alloc)
    }
}

impl Drop for CCall {
    fn drop(self) {
        let CCall { name: _, args: _ } = self;
    }
}

impl Drop for CStmt {
    fn drop(self) {
        match self {
            CStmt::Const(_, _, _) | CStmt::ConstCall(_, _, _) | CStmt::Object(_, _, _) => {}
            CStmt::Assign(_, _) | CStmt::If(_, _, _) | CStmt::Forever(_) | CStmt::Break => {}
            CStmt::Return(_) | CStmt::Block(_) | CStmt::Call(_) => {}
        }
    }
}
