ghost use Rattle.std.specs.Prelude.{◌≡◌, IfOk};

use crate::types::CType;
use iv_words::{Box, Copied, Memory, Seq, Word};
use std::alloc::Global;

/// The suffix of an integer constant: none, `u`, `ll` or `ull` (C99 6.4.4.1).
#[derive(Clone, Copy, Drop, PartialEq, Eq)]
pub enum Suffix {
    Plain,
    U,
    Ll,
    Ull,
}

/// A unary operator: `-`, `~` or `!` (C99 6.5.3.3).
#[derive(Clone, Copy, Drop, PartialEq, Eq)]
pub enum CUnary {
    Neg,
    Flip,
    Not,
}

/// A binary operator (C99 6.5.5 to 6.5.14): `+ - * / % & | ^ << >> == != < <= > >= && ||`, in this order.
#[derive(Clone, Copy, Drop, PartialEq, Eq)]
pub enum CBinary {
    Add,
    Sub,
    Mul,
    Div,
    Rem,
    And,
    Or,
    Xor,
    Shl,
    Shr,
    Eq,
    Ne,
    Lt,
    Le,
    Gt,
    Ge,
    AndAlso,
    OrElse,
}

/// An expression (C99 6.5): a decimal constant below 2^64, the value or the address of a place, an operator, a cast, or
/// `a ? b : c`.
#[cycle(tree)]
#[derive(PartialEq, Eq)]
pub enum CExpr {
    Number(u64, Suffix),
    Read(CPlace),
    Address(CPlace),
    Unary(CUnary, Box<CExpr>),
    Binary(CBinary, Box<CExpr>, Box<CExpr>),
    Cast(CType, Box<CExpr>),
    Cond(Box<CExpr>, Box<CExpr>, Box<CExpr>),
}

/// A place (an lvalue, C99 6.3.2.1): a name, what a pointer points to, a member of a struct, or an element of an array
/// that is a member.
#[cycle(tree)]
#[derive(PartialEq, Eq)]
pub enum CPlace {
    Var(Word),
    At(Box<CExpr>),
    Member(Box<CPlace>, Word),
    Element(Box<CPlace>, Box<CExpr>),
}

/// An initializer (C99 6.7.8): of a scalar, `{0}` of anything, or one for each element or member from the first on.
#[cycle(init)]
#[derive(PartialEq, Eq)]
pub enum CInit {
    One(CExpr),
    Zero,
    Many(Seq<CInit>),
}

impl CExpr {
    /// An expression that equals this one.
    #[cycle(copies)]
    pub fn copy(&self, alloc: Global) -> Result<CExpr, Memory>
        ensures { IfOk result (λ e. e ≡ self.now) }
    {
        match self {
            CExpr::Number(value, suffix) => Ok(CExpr::Number(*value, *suffix)),
            CExpr::Read(place) => Ok(CExpr::Read(place.copy(alloc)?)),
            CExpr::Address(place) => Ok(CExpr::Address(place.copy(alloc)?)),
            CExpr::Unary(op, e) => Ok(CExpr::Unary(*op, copied_expr(e, alloc)?)),
            CExpr::Binary(op, left, right) => {
                let left = copied_expr(left, alloc)?;
                Ok(CExpr::Binary(*op, left, copied_expr(right, alloc)?))
            }
            CExpr::Cast(ty, e) => Ok(CExpr::Cast(ty.copy(alloc)?, copied_expr(e, alloc)?)),
            CExpr::Cond(test, first, second) => {
                let test = copied_expr(test, alloc)?;
                let first = copied_expr(first, alloc)?;
                Ok(CExpr::Cond(test, first, copied_expr(second, alloc)?))
            }
        }
    }
}

impl CPlace {
    /// A place that equals this one.
    #[cycle(copies)]
    pub fn copy(&self, alloc: Global) -> Result<CPlace, Memory>
        ensures { IfOk result (λ p. p ≡ self.now) }
    {
        match self {
            CPlace::Var(name) => Ok(CPlace::Var(name.copy(alloc)?)),
            CPlace::At(pointer) => Ok(CPlace::At(copied_expr(pointer, alloc)?)),
            CPlace::Member(place, name) => {
                Ok(CPlace::Member(copied_place(place, alloc)?, name.copy(alloc)?))
            }
            CPlace::Element(place, index) => {
                Ok(CPlace::Element(copied_place(place, alloc)?, copied_expr(index, alloc)?))
            }
        }
    }
}

#[cycle(copies)]
fn copied_expr(e: &Box<CExpr>, alloc: Global) -> Result<Box<CExpr>, Memory>
    ensures { IfOk result (λ c. c ≡ e.now) }
{
    Box::new(alloc, e.get().copy(alloc)?)
}

#[cycle(copies)]
fn copied_place(place: &Box<CPlace>, alloc: Global) -> Result<Box<CPlace>, Memory>
    ensures { IfOk result (λ c. c ≡ place.now) }
{
    Box::new(alloc, place.get().copy(alloc)?)
}

impl CInit {
    /// An initializer that equals this one.
    #[cycle(init_copies)]
    pub fn copy(&self, alloc: Global) -> Result<CInit, Memory>
        ensures { IfOk result (λ i. i ≡ self.now) }
    {
        match self {
            CInit::One(e) => Ok(CInit::One(e.copy(alloc)?)),
            CInit::Zero => Ok(CInit::Zero),
            CInit::Many(inits) => Ok(CInit::Many(copied_inits(inits, alloc)?)),
        }
    }
}

#[cycle(init_copies)]
fn copied_inits(inits: &Seq<CInit>, alloc: Global) -> Result<Seq<CInit>, Memory>
    ensures { IfOk result (λ c. c ≡ inits.now) }
{
    let mut items = Seq::with_capacity(alloc, inits.len())?;
    for init in inits.iter() {
        items.push(init.copy(alloc)?)?;
    }
    Ok(items)
}

impl Copied for CExpr {
    fn copied(&self, alloc: Global) -> Result<CExpr, Memory> {
        self.copy(alloc)
    }
}

impl Copied for CInit {
    fn copied(&self, alloc: Global) -> Result<CInit, Memory> {
        self.copy(alloc)
    }
}

// Each tree is dropped by a function of this crate: one that is derived would be proved again in each crate that drops a tree.

impl Drop for CExpr {
    #[cycle(drops)]
    fn drop(self) {
        match self {
            CExpr::Number(_, _) | CExpr::Read(_) | CExpr::Address(_) => {}
            CExpr::Unary(_, _) | CExpr::Binary(_, _, _) | CExpr::Cast(_, _) => {}
            CExpr::Cond(_, _, _) => {}
        }
    }
}

impl Drop for CPlace {
    #[cycle(drops)]
    fn drop(self) {
        match self {
            CPlace::Var(_) | CPlace::At(_) => {}
            CPlace::Member(_, _) | CPlace::Element(_, _) => {}
        }
    }
}

impl Drop for CInit {
    fn drop(self) {
        match self {
            CInit::One(_) | CInit::Zero | CInit::Many(_) => {}
        }
    }
}
