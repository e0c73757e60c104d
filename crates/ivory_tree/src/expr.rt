ghost use Rattle.std.specs.Prelude.{◌≡◌, IfOk};

use iv_words::{Box, Copied, IntKind, Memory, Name, Seq, Span, Word};
use std::alloc::Global;

/// An operator before its operand: `-`, `!`, `~` or `*`, in this order.
#[derive(Clone, Copy, Drop, PartialEq, Eq)]
pub enum PrefixOp {
    Neg,
    Not,
    Flip,
    Deref,
}

/// An operator between two operands, from the loosest level to the tightest:
/// `||`; `&&`; `|`; `^`; `&`; `== !=`; `< <= > >=`; `<< >>`; `+ - +% -%`; `* / % *%`.
#[derive(Clone, Copy, Drop, PartialEq, Eq)]
pub enum BinOp {
    OrElse,
    AndAlso,
    Or,
    Xor,
    And,
    Eq,
    Ne,
    Lt,
    Le,
    Gt,
    Ge,
    Shl,
    Shr,
    Add,
    Sub,
    WrapAdd,
    WrapSub,
    Mul,
    Div,
    Rem,
    WrapMul,
}

/// An expression and where it stands, from its first token to its last, parentheses around it aside.
#[cycle(expr)]
#[derive(PartialEq, Eq)]
pub struct Expr {
    pub kind: ExprKind,
    pub span: Span,
}

/// The forms of an expression.
///
/// `Lit` is a number with its sign, `Outcome` is `result`, `Cast` is `T(e)`, `MakeBits` is `bits(N, e)`. A `Chain` is an
/// operand with the operators of one level that follow it, each with its right operand, and stands for the left-nested
/// tree; a `Postfix` is an operand with the fields and indices that follow it. `Cond` is `a ? b : c`.
#[cycle(expr)]
#[derive(PartialEq, Eq)]
pub enum ExprKind {
    Lit(i128),
    Truth(bool),
    Outcome,
    Var(Word),
    Cast(IntKind, Box<Expr>),
    ToIx(u64, Box<Expr>),
    WrapIx(u64, Box<Expr>),
    MakeBits(Word, Box<Expr>),
    Raw(Box<Expr>),
    Set(Box<Expr>, Name, Box<Expr>),
    Prefix(PrefixOp, Box<Expr>),
    Chain(Box<Expr>, Seq<Link>),
    Postfix(Box<Expr>, Seq<Step>),
    Cond(Box<Expr>, Box<Expr>, Box<Expr>),
}

/// An operator of a chain, where it stands, and its right operand.
#[cycle(expr)]
#[derive(PartialEq, Eq)]
pub struct Link {
    pub op: BinOp,
    pub at: Span,
    pub right: Expr,
}

/// A part of what stands before it: a field, or an element by its index, with the place from `[` to `]`.
#[cycle(expr)]
#[derive(PartialEq, Eq)]
pub enum Step {
    Field(Name),
    Index(Box<Expr>, Span),
}

impl Expr {
    /// An expression that equals this one.
    #[cycle(copies)]
    pub fn copy(&self, alloc: Global) -> Result<Expr, Memory>
        ensures { IfOk result (λ t. t ≡ self.now) }
    {
        Ok(Expr {
            kind: self.kind.copy(alloc)?,
            span: self.span,
        })
    }
}

impl ExprKind {
    /// A form that equals this one.
    #[cycle(copies)]
    pub fn copy(&self, alloc: Global) -> Result<ExprKind, Memory>
        ensures { IfOk result (λ t. t ≡ self.now) }
    {
        Ok(match self {
            ExprKind::Lit(value) => ExprKind::Lit(*value),
            ExprKind::Truth(value) => ExprKind::Truth(*value),
            ExprKind::Outcome => ExprKind::Outcome,
            ExprKind::Var(name) => ExprKind::Var(name.copy(alloc)?),
            ExprKind::Cast(kind, e) => ExprKind::Cast(*kind, copied_box(e, alloc)?),
            ExprKind::ToIx(length, e) => ExprKind::ToIx(*length, copied_box(e, alloc)?),
            ExprKind::WrapIx(length, e) => ExprKind::WrapIx(*length, copied_box(e, alloc)?),
            ExprKind::MakeBits(name, e) => {
                ExprKind::MakeBits(name.copy(alloc)?, copied_box(e, alloc)?)
            }
            ExprKind::Raw(e) => ExprKind::Raw(copied_box(e, alloc)?),
            ExprKind::Set(e, field, value) => ExprKind::Set(
                copied_box(e, alloc)?,
                field.copy(alloc)?,
                copied_box(value, alloc)?,
            ),
            ExprKind::Prefix(op, e) => ExprKind::Prefix(*op, copied_box(e, alloc)?),
            ExprKind::Chain(first, links) => {
                ExprKind::Chain(copied_box(first, alloc)?, copied_links(links, alloc)?)
            }
            ExprKind::Postfix(base, steps) => {
                ExprKind::Postfix(copied_box(base, alloc)?, copied_steps(steps, alloc)?)
            }
            ExprKind::Cond(test, first, second) => ExprKind::Cond(
                copied_box(test, alloc)?,
                copied_box(first, alloc)?,
                copied_box(second, alloc)?,
            ),
        })
    }
}

impl Link {
    /// A link that equals this one.
    #[cycle(copies)]
    pub fn copy(&self, alloc: Global) -> Result<Link, Memory>
        ensures { IfOk result (λ t. t ≡ self.now) }
    {
        Ok(Link {
            op: self.op,
            at: self.at,
            right: self.right.copy(alloc)?,
        })
    }
}

impl Step {
    /// A step that equals this one.
    #[cycle(copies)]
    pub fn copy(&self, alloc: Global) -> Result<Step, Memory>
        ensures { IfOk result (λ t. t ≡ self.now) }
    {
        Ok(match self {
            Step::Field(name) => Step::Field(name.copy(alloc)?),
            Step::Index(index, span) => Step::Index(copied_box(index, alloc)?, *span),
        })
    }
}

#[cycle(copies)]
fn copied_box(e: &Box<Expr>, alloc: Global) -> Result<Box<Expr>, Memory>
    ensures { IfOk result (λ c. c ≡ e.now) }
{
    Box::new(alloc, e.get().copy(alloc)?)
}

#[cycle(copies)]
fn copied_links(links: &Seq<Link>, alloc: Global) -> Result<Seq<Link>, Memory>
    ensures { IfOk result (λ c. c ≡ links.now) }
{
    let mut items = Seq::with_capacity(alloc, links.len())?;
    for link in links.iter() {
        items.push(link.copy(alloc)?)?;
    }
    Ok(items)
}

#[cycle(copies)]
fn copied_steps(steps: &Seq<Step>, alloc: Global) -> Result<Seq<Step>, Memory>
    ensures { IfOk result (λ c. c ≡ steps.now) }
{
    let mut items = Seq::with_capacity(alloc, steps.len())?;
    for step in steps.iter() {
        items.push(step.copy(alloc)?)?;
    }
    Ok(items)
}

impl Copied for Expr {
    fn copied(&self, alloc: Global) -> Result<Expr, Memory> {
        self.copy(alloc)
    }
}

impl Copied for Link {
    fn copied(&self, alloc: Global) -> Result<Link, Memory> {
        self.copy(alloc)
    }
}

impl Copied for Step {
    fn copied(&self, alloc: Global) -> Result<Step, Memory> {
        self.copy(alloc)
    }
}

// Each tree is dropped by a function of this crate: one that is derived would be proved again in each crate that drops a tree.

impl Drop for Expr {
    #[cycle(drops)]
    fn drop(self) {
        let Expr { kind: _, span: _ } = self;
    }
}

impl Drop for ExprKind {
    #[cycle(drops)]
    fn drop(self) {
        match self {
            ExprKind::Lit(_) | ExprKind::Truth(_) | ExprKind::Outcome | ExprKind::Var(_) => {}
            ExprKind::Cast(_, _) | ExprKind::ToIx(_, _) | ExprKind::WrapIx(_, _) => {}
            ExprKind::MakeBits(_, _) | ExprKind::Raw(_) | ExprKind::Set(_, _, _) => {}
            ExprKind::Prefix(_, _) | ExprKind::Chain(_, _) | ExprKind::Postfix(_, _) => {}
            ExprKind::Cond(_, _, _) => {}
        }
    }
}

impl Drop for Link {
    #[cycle(drops)]
    fn drop(self) {
        let Link {
            op: _,
            at: _,
            right: _,
        } = self;
    }
}

impl Drop for Step {
    #[cycle(drops)]
    fn drop(self) {
        match self {
            Step::Field(_) | Step::Index(_, _) => {}
        }
    }
}
