ghost use Rattle.std.specs.Prelude.{◌≡◌, IfOk};

use crate::expr::Expr;
use crate::inits::InitText;
use crate::types::AreaText;
use iv_words::{Copied, Memory, Name, Seq, Span};
use std::alloc::Global;

/// A call of an import or of an earlier procedure, with its arguments, from the name to the `)`.
#[derive(PartialEq, Eq)]
pub struct CallText {
    pub name: Name,
    pub args: Seq<Expr>,
    pub span: Span,
}

impl CallText {
    /// A call that equals this one.
    pub fn copy(&self, alloc: Global) -> Result<CallText, Memory>
        ensures { IfOk result (λ t. t ≡ self.now) }
    {
        Ok(CallText {
            name: self.name.copy(alloc)?,
            args: self.args.copy(alloc)?,
            span: self.span,
        })
    }
}

/// Statements in braces, with the place of these. The block of an `else if` has that one statement and its place.
#[cycle(stmt)]
#[derive(PartialEq, Eq)]
pub struct Block {
    pub stmts: Seq<Stmt>,
    pub span: Span,
}

/// A statement and where it stands.
#[cycle(stmt)]
#[derive(PartialEq, Eq)]
pub struct Stmt {
    pub kind: StmtKind,
    pub span: Span,
}

/// The forms of a statement.
///
/// `Let` and `LetCall` name the value of an expression or of a call, `Alloc` names a new area. `Store` is
/// `*target = value;`, with what stands after the `*` as its target. `Copy` is `copy target, source;`. A loop has the
/// name of its index, the number N of its `ix(N)` and, where it has one, its bound. `NoAlloc`, `NoBreak` and `NoReturn` are
/// the blocks that take a permission away.
#[cycle(stmt)]
#[derive(PartialEq, Eq)]
pub enum StmtKind {
    Let(Name, Expr),
    LetCall(Name, CallText),
    Alloc(Name, AreaText, Option<InitText>),
    Store(Expr, Expr),
    Copy(Expr, Expr),
    Call(CallText),
    If(Expr, Block, Option<Block>),
    Map(Name, u64, Block),
    Upto(Name, u64, Expr, Block),
    Downto(Name, u64, Expr, Block),
    Forever(Block),
    Break,
    Return(Option<Expr>),
    Assert(Expr),
    NoAlloc(Block),
    NoBreak(Block),
    NoReturn(Block),
}

impl Block {
    /// A block that equals this one.
    #[cycle(copies)]
    pub fn copy(&self, alloc: Global) -> Result<Block, Memory>
        ensures { IfOk result (λ t. t ≡ self.now) }
    {
        Ok(Block {
            stmts: copied_stmts(&self.stmts, alloc)?,
            span: self.span,
        })
    }
}

impl Stmt {
    /// A statement that equals this one.
    #[cycle(copies)]
    pub fn copy(&self, alloc: Global) -> Result<Stmt, Memory>
        ensures { IfOk result (λ t. t ≡ self.now) }
    {
        Ok(Stmt {
            kind: self.kind.copy(alloc)?,
            span: self.span,
        })
    }
}

impl StmtKind {
    /// A form that equals this one.
    #[cycle(copies)]
    pub fn copy(&self, alloc: Global) -> Result<StmtKind, Memory>
        ensures { IfOk result (λ t. t ≡ self.now) }
    {
        match self {
            StmtKind::Let(name, value) => copied_let(name, value, alloc),
            StmtKind::LetCall(name, call) => copied_let_call(name, call, alloc),
            StmtKind::Alloc(name, area, init) => copied_alloc(name, area, init, alloc),
            StmtKind::Store(target, value) => copied_store(target, value, alloc),
            StmtKind::Copy(target, source) => copied_copy(target, source, alloc),
            StmtKind::Call(call) => Ok(StmtKind::Call(call.copy(alloc)?)),
            StmtKind::If(test, first, second) => {
                let first = first.copy(alloc)?;
                if_with(test, first, copied_second(second, alloc)?, alloc)
            }
            StmtKind::Map(name, length, body) => map_with(name, *length, body.copy(alloc)?, alloc),
            StmtKind::Upto(name, length, last, body) => {
                upto_with(name, *length, last, body.copy(alloc)?, alloc)
            }
            StmtKind::Downto(name, length, first, body) => {
                downto_with(name, *length, first, body.copy(alloc)?, alloc)
            }
            StmtKind::Forever(body) => Ok(StmtKind::Forever(body.copy(alloc)?)),
            StmtKind::Break => Ok(StmtKind::Break),
            StmtKind::Return(value) => Ok(StmtKind::Return(Copied::copied(value, alloc)?)),
            StmtKind::Assert(cond) => Ok(StmtKind::Assert(cond.copy(alloc)?)),
            StmtKind::NoAlloc(body) => Ok(StmtKind::NoAlloc(body.copy(alloc)?)),
            StmtKind::NoBreak(body) => Ok(StmtKind::NoBreak(body.copy(alloc)?)),
            StmtKind::NoReturn(body) => Ok(StmtKind::NoReturn(body.copy(alloc)?)),
        }
    }
}

fn copied_let(name: &Name, value: &Expr, alloc: Global) -> Result<StmtKind, Memory>
    ensures { IfOk result (λ k. k ≡ StmtKind.Let name.now value.now) }
{
    Ok(StmtKind::Let(name.copy(alloc)?, value.copy(alloc)?))
}

fn copied_let_call(name: &Name, call: &CallText, alloc: Global) -> Result<StmtKind, Memory>
    ensures { IfOk result (λ k. k ≡ StmtKind.LetCall name.now call.now) }
{
    Ok(StmtKind::LetCall(name.copy(alloc)?, call.copy(alloc)?))
}

fn copied_alloc(
    name: &Name,
    area: &AreaText,
    init: &Option<InitText>,
    alloc: Global,
) -> Result<StmtKind, Memory>
    ensures { IfOk result (λ k. k ≡ StmtKind.Alloc name.now area.now init.now) }
{
    let name = name.copy(alloc)?;
    let area = area.copy(alloc)?;
    Ok(StmtKind::Alloc(name, area, Copied::copied(init, alloc)?))
}

fn copied_store(target: &Expr, value: &Expr, alloc: Global) -> Result<StmtKind, Memory>
    ensures { IfOk result (λ k. k ≡ StmtKind.Store target.now value.now) }
{
    Ok(StmtKind::Store(target.copy(alloc)?, value.copy(alloc)?))
}

fn copied_copy(target: &Expr, source: &Expr, alloc: Global) -> Result<StmtKind, Memory>
    ensures { IfOk result (λ k. k ≡ StmtKind.Copy target.now source.now) }
{
    Ok(StmtKind::Copy(target.copy(alloc)?, source.copy(alloc)?))
}

/// An `if` with these blocks and a copy of this test.
fn if_with(
    test: &Expr,
    first: Block,
    second: Option<Block>,
    alloc: Global,
) -> Result<StmtKind, Memory>
    ensures { IfOk result (λ k. k ≡ StmtKind.If test.now first second) }
{
    Ok(StmtKind::If(test.copy(alloc)?, first, second))
}

/// A loop with this body and a copy of this name.
fn map_with(name: &Name, length: u64, body: Block, alloc: Global) -> Result<StmtKind, Memory>
    ensures { IfOk result (λ k. k ≡ StmtKind.Map name.now length body) }
{
    Ok(StmtKind::Map(name.copy(alloc)?, length, body))
}

/// A loop with this body and copies of this name and bound.
fn upto_with(
    name: &Name,
    length: u64,
    last: &Expr,
    body: Block,
    alloc: Global,
) -> Result<StmtKind, Memory>
    ensures { IfOk result (λ k. k ≡ StmtKind.Upto name.now length last.now body) }
{
    Ok(StmtKind::Upto(name.copy(alloc)?, length, last.copy(alloc)?, body))
}

/// A loop with this body and copies of this name and bound.
fn downto_with(
    name: &Name,
    length: u64,
    first: &Expr,
    body: Block,
    alloc: Global,
) -> Result<StmtKind, Memory>
    ensures { IfOk result (λ k. k ≡ StmtKind.Downto name.now length first.now body) }
{
    Ok(StmtKind::Downto(name.copy(alloc)?, length, first.copy(alloc)?, body))
}

#[cycle(copies)]
fn copied_stmts(stmts: &Seq<Stmt>, alloc: Global) -> Result<Seq<Stmt>, Memory>
    ensures { IfOk result (λ c. c ≡ stmts.now) }
{
    let mut items = Seq::with_capacity(alloc, stmts.len())?;
    for stmt in stmts.iter() {
        items.push(stmt.copy(alloc)?)?;
    }
    Ok(items)
}

/// The block after an `else`, where there is one.
#[cycle(copies)]
fn copied_second(second: &Option<Block>, alloc: Global) -> Result<Option<Block>, Memory>
    ensures { IfOk result (λ c. c ≡ second.now) }
{
    match second {
        Some(block) => Ok(Some(block.copy(alloc)?)),
        None => Ok(None),
    }
}

impl Copied for Stmt {
    fn copied(&self, alloc: Global) -> Result<Stmt, Memory> {
        self.copy(alloc)
    }
}

// Each tree is dropped by a function of this crate: one that is derived would be proved again in each crate that drops a tree.

impl Drop for CallText {
    fn drop(self) {
        let CallText {
            name: _,
            args: _,
            span: _,
        } = self;
    }
}

impl Drop for Block {
    #[cycle(drops)]
    fn drop(self) {
        let Block { stmts: _, span: _ } = self;
    }
}

impl Drop for Stmt {
    #[cycle(drops)]
    fn drop(self) {
        let Stmt { kind: _, span: _ } = self;
    }
}

impl Drop for StmtKind {
    #[cycle(drops)]
    fn drop(self) {
        match self {
            StmtKind::Let(_, _) | StmtKind::LetCall(_, _) | StmtKind::Alloc(_, _, _) => {}
            StmtKind::Store(_, _) | StmtKind::Copy(_, _) | StmtKind::Call(_) => {}
            StmtKind::If(_, _, _) | StmtKind::Map(_, _, _) | StmtKind::Forever(_) => {}
            StmtKind::Upto(_, _, _, _) | StmtKind::Downto(_, _, _, _) => {}
            StmtKind::Break | StmtKind::Return(_) | StmtKind::Assert(_) => {}
            StmtKind::NoAlloc(_) | StmtKind::NoBreak(_) | StmtKind::NoReturn(_) => {}
        }
    }
}
