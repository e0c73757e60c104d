ghost use Rattle.std.specs.Prelude.{◌≡◌, IfOk};

use crate::check::Check;
use area_types::ValueType;
use iv_words::{Box, Copied, Memory, Seq};
use ivory_tree::{BinOp, PrefixOp};
use std::alloc::Global;

/// An expression with its type and the checks of its own operator or form, in order.
#[cycle(expr)]
#[derive(PartialEq, Eq)]
pub struct CoreExpr {
    pub kind: CoreKind,
    pub ty: ValueType,
    pub checks: Seq<Check>,
}

/// The forms of an expression.
///
/// A truth is the number 1 or 0, `Outcome` is `result`, and names are numbers. `Cast` goes to the number type of the
/// expression, `ToIx` and `WrapIx` to its index type. A `Chain` is an operand with the operators of one level that follow
/// it, and a `Postfix` an operand with the fields and indices that follow it: both have no check of their own, and the type of
/// their last part.
#[cycle(expr)]
#[derive(PartialEq, Eq)]
pub enum CoreKind {
    Number(i128),
    Outcome,
    Local(u32),
    AreaName(u32),
    Cast(Box<CoreExpr>),
    ToIx(Box<CoreExpr>),
    WrapIx(Box<CoreExpr>),
    MakeBits(Box<CoreExpr>),
    Raw(Box<CoreExpr>),
    Set(Box<CoreExpr>, u32, Box<CoreExpr>),
    Prefix(PrefixOp, Box<CoreExpr>),
    Chain(Box<CoreExpr>, Seq<CoreLink>),
    Postfix(Box<CoreExpr>, Seq<CoreStep>),
    Cond(Box<CoreExpr>, Box<CoreExpr>, Box<CoreExpr>),
}

/// An operator of a chain and its right operand, with the type of the chain up to here and the operator's own checks.
#[cycle(expr)]
#[derive(PartialEq, Eq)]
pub struct CoreLink {
    pub op: BinOp,
    pub right: CoreExpr,
    pub ty: ValueType,
    pub checks: Seq<Check>,
}

/// A field or an element of what stands before it, with the type of the postfix up to here.
#[cycle(expr)]
#[derive(PartialEq, Eq)]
pub enum CoreStep {
    Field(u32, ValueType),
    Index(CoreExpr, ValueType),
}

impl CoreExpr {
    /// An expression that equals this one.
    #[cycle(copies)]
    pub fn copy(&self, alloc: Global) -> Result<CoreExpr, Memory>
        ensures { IfOk result (λ t. t ≡ self.now) }
    {
        let ty = self.ty.copy(alloc)?;
        let checks = self.checks.copy(alloc)?;
        let kind = self.kind.copy(alloc)?;
        Ok(CoreExpr { kind, ty, checks })
    }
}

impl CoreKind {
    /// A form that equals this one.
    #[cycle(copies)]
    pub fn copy(&self, alloc: Global) -> Result<CoreKind, Memory>
        ensures { IfOk result (λ t. t ≡ self.now) }
    {
        Ok(match self {
            CoreKind::Number(value) => CoreKind::Number(*value),
            CoreKind::Outcome => CoreKind::Outcome,
            CoreKind::Local(number) => CoreKind::Local(*number),
            CoreKind::AreaName(number) => CoreKind::AreaName(*number),
            CoreKind::Cast(e) => CoreKind::Cast(copied_box(e, alloc)?),
            CoreKind::ToIx(e) => CoreKind::ToIx(copied_box(e, alloc)?),
            CoreKind::WrapIx(e) => CoreKind::WrapIx(copied_box(e, alloc)?),
            CoreKind::MakeBits(e) => CoreKind::MakeBits(copied_box(e, alloc)?),
            CoreKind::Raw(e) => CoreKind::Raw(copied_box(e, alloc)?),
            CoreKind::Set(e, field, value) => {
                CoreKind::Set(copied_box(e, alloc)?, *field, copied_box(value, alloc)?)
            }
            CoreKind::Prefix(op, e) => CoreKind::Prefix(*op, copied_box(e, alloc)?),
            CoreKind::Chain(first, links) => {
                CoreKind::Chain(copied_box(first, alloc)?, copied_links(links, alloc)?)
            }
            CoreKind::Postfix(base, steps) => {
                CoreKind::Postfix(copied_box(base, alloc)?, copied_steps(steps, alloc)?)
            }
            CoreKind::Cond(test, first, second) => CoreKind::Cond(
                copied_box(test, alloc)?,
                copied_box(first, alloc)?,
                copied_box(second, alloc)?,
            ),
        })
    }
}

impl CoreLink {
    /// A link that equals this one.
    #[cycle(copies)]
    pub fn copy(&self, alloc: Global) -> Result<CoreLink, Memory>
        ensures { IfOk result (λ t. t ≡ self.now) }
    {
        let ty = self.ty.copy(alloc)?;
        let checks = self.checks.copy(alloc)?;
        let right = self.right.copy(alloc)?;
        let op = self.op;
        Ok(CoreLink {
            op,
            right,
            ty,
            checks,
        })
    }
}

impl CoreStep {
    /// A step that equals this one.
    #[cycle(copies)]
    pub fn copy(&self, alloc: Global) -> Result<CoreStep, Memory>
        ensures { IfOk result (λ t. t ≡ self.now) }
    {
        match self {
            CoreStep::Field(field, ty) => Ok(CoreStep::Field(*field, ty.copy(alloc)?)),
            CoreStep::Index(index, ty) => {
                let ty = ty.copy(alloc)?;
                Ok(CoreStep::Index(index.copy(alloc)?, ty))
            }
        }
    }
}

#[cycle(copies)]
fn copied_box(e: &Box<CoreExpr>, alloc: Global) -> Result<Box<CoreExpr>, Memory>
    ensures { IfOk result (λ c. c ≡ e.now) }
{
    Box::new(alloc, e.get().copy(alloc)?)
}

#[cycle(copies)]
fn copied_links(links: &Seq<CoreLink>, alloc: Global) -> Result<Seq<CoreLink>, Memory>
    ensures { IfOk result (λ c. c ≡ links.now) }
{
    let mut items = Seq::with_capacity(alloc, links.len())?;
    for link in links.iter() {
        items.push(link.copy(alloc)?)?;
    }
    Ok(items)
}

#[cycle(copies)]
fn copied_steps(steps: &Seq<CoreStep>, alloc: Global) -> Result<Seq<CoreStep>, Memory>
    ensures { IfOk result (λ c. c ≡ steps.now) }
{
    let mut items = Seq::with_capacity(alloc, steps.len())?;
    for step in steps.iter() {
        items.push(step.copy(alloc)?)?;
    }
    Ok(items)
}

impl Copied for CoreExpr {
    fn copied(&self, alloc: Global) -> Result<CoreExpr, Memory> {
        self.copy(alloc)
    }
}

impl Copied for CoreLink {
    fn copied(&self, alloc: Global) -> Result<CoreLink, Memory> {
        self.copy(alloc)
    }
}

impl Copied for CoreStep {
    fn copied(&self, alloc: Global) -> Result<CoreStep, Memory> {
        self.copy(alloc)
    }
}

// Each tree is dropped by a function of this crate: one that is derived would be proved again in each crate that drops a tree.

impl Drop for CoreExpr {
    #[cycle(drops)]
    fn drop(self) {
        let CoreExpr {
            kind: _,
            ty: _,
            checks: _,
        } = self;
    }
}

impl Drop for CoreKind {
    #[cycle(drops)]
    fn drop(self) {
        match self {
            CoreKind::Number(_) | CoreKind::Outcome => {}
            CoreKind::Local(_) | CoreKind::AreaName(_) | CoreKind::Cast(_) => {}
            CoreKind::ToIx(_) | CoreKind::WrapIx(_) | CoreKind::MakeBits(_) => {}
            CoreKind::Raw(_) | CoreKind::Set(_, _, _) | CoreKind::Prefix(_, _) => {}
            CoreKind::Chain(_, _) | CoreKind::Postfix(_, _) | CoreKind::Cond(_, _, _) => {}
        }
    }
}

impl Drop for CoreLink {
    #[cycle(drops)]
    fn drop(self) {
        let CoreLink {
            op: _,
            right: _,
            ty: _,
            checks: _,
        } = self;
    }
}

impl Drop for CoreStep {
    #[cycle(drops)]
    fn drop(self) {
        match self {
            CoreStep::Field(_, _) | CoreStep::Index(_, _) => {}
        }
    }
}
