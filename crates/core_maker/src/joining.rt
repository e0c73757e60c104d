//! Chains and postfixes that are not whole yet: a further link or step joins them.

ghost use Rattle.std.specs.Prelude.{◌≡◌, ◌++◌, [], ◌∷◌, map, IfOk, OnOk};
ghost use Rattle.area_types.specs.View.{type_of};
ghost use Rattle.core_tree.specs.Syntax as core_syntax;
ghost use Rattle.core_tree.specs.View as tree;
ghost use Rattle.core_maker.specs.Forms.{form_of};
ghost use Rattle.core_parts.specs.Nodes.{labelled};
ghost use Rattle.core_maker.specs.Opened as shape;

use area_types::ValueType;
use core_parts::level;
use core_parts::nodes::{chain, link, postfix};
use core_tree::{Check, CoreExpr, CoreLink, CoreStep};
use iv_words::{Memory, Seq};
use ivory_tree::BinOp;
use std::alloc::Global;

/// An operand with the links after it, its last operator and its type.
#[derive(Drop)]
pub(crate) struct ChainParts {
    pub first: CoreExpr,
    pub links: Seq<CoreLink>,
    pub op: BinOp,
    pub ty: ValueType,
}

/// An operand with the steps after it, and its type.
#[derive(Drop)]
pub(crate) struct PostfixParts {
    pub base: CoreExpr,
    pub steps: Seq<CoreStep>,
    pub ty: ValueType,
}

/// An expression, open where it is a chain or a postfix.
#[derive(Drop)]
pub(crate) enum Opened {
    Closed(CoreExpr),
    Chain(ChainParts),
    Postfix(PostfixParts),
}

/// The expression as a whole.
pub(crate) fn close(alloc: Global, opened: Opened) -> Result<CoreExpr, Memory>
    ensures { IfOk result (λ c. tree.expr_of c ≡ shape.closed (form_of opened)) }
{
    match opened {
        Opened::Closed(e) => Ok(e),
        Opened::Chain(parts) => chain(alloc, parts.ty, parts.first, parts.links),
        Opened::Postfix(parts) => postfix(alloc, parts.ty, parts.base, parts.steps),
    }
}

/// It stays open only where it begins with the whole.
pub(crate) fn keep(alloc: Global, begins: bool, opened: Opened) -> Result<Opened, Memory>
    ensures { IfOk result (λ f. form_of f ≡ shape.kept begins (form_of opened) (shape.closed (form_of opened))) }
{
    if begins {
        return Ok(opened);
    }
    Ok(Opened::Closed(close(alloc, opened)?))
}

fn join_chain(
    alloc: Global,
    op: BinOp,
    parts: ChainParts,
) -> Result<(CoreExpr, Seq<CoreLink>), Memory>
    ensures { IfOk result (λ p. tree.linked (tree.expr_of p.0) (map tree.link_of p.1) ≡ shape.joined_by op (tree.linked (tree.expr_of parts.first) (map tree.link_of parts.links)) (shape.AfterLink parts.op (type_of parts.ty))) }
{
    if level(op) == level(parts.op) {
        return Ok((parts.first, parts.links));
    }
    let whole = chain(alloc, parts.ty, parts.first, parts.links)?;
    Ok((whole, Seq::new(alloc)))
}

/// The operand and the links that the operator joins.
fn join(alloc: Global, op: BinOp, opened: Opened) -> Result<(CoreExpr, Seq<CoreLink>), Memory>
    ensures { IfOk result (λ p. tree.linked (tree.expr_of p.0) (map tree.link_of p.1) ≡ shape.joined op (form_of opened)) }
{
    match opened {
        Opened::Closed(e) => Ok((e, Seq::new(alloc))),
        Opened::Chain(parts) => join_chain(alloc, op, parts),
        Opened::Postfix(parts) => {
            let whole = postfix(alloc, parts.ty, parts.base, parts.steps)?;
            Ok((whole, Seq::new(alloc)))
        }
    }
}

/// The operand and the steps that a step joins.
pub(crate) fn base(alloc: Global, opened: Opened) -> Result<(CoreExpr, Seq<CoreStep>), Memory>
    ensures { IfOk result (λ p. tree.stepped (tree.expr_of p.0) (map tree.step_of p.1) ≡ shape.based (form_of opened)) }
{
    match opened {
        Opened::Closed(e) => Ok((e, Seq::new(alloc))),
        Opened::Postfix(parts) => Ok((parts.base, parts.steps)),
        Opened::Chain(parts) => {
            let whole = chain(alloc, parts.ty, parts.first, parts.links)?;
            Ok((whole, Seq::new(alloc)))
        }
    }
}

/// The chain with one more link.
#[tactic(auto, using(crate::proofs::Pushed::link_pushed))]
pub(crate) fn push_link(
    alloc: Global,
    opened: Opened,
    op: BinOp,
    ty: ValueType,
    checks: Seq<Check>,
    right: CoreExpr,
) -> Result<Opened, Memory>
    ensures { IfOk result (λ f. form_of f ≡ record { core = core_syntax.Binary (labelled ty checks) op (shape.joined op (form_of opened)) (tree.expr_of right); tail = shape.AfterLink op (type_of ty) }) }
{
    let (first, mut links) = join(alloc, op, opened)?;
    let last = ty.copy(alloc)?;
    links.push(link(ty, checks, op, right))?;
    Ok(Opened::Chain(ChainParts {
        first,
        links,
        op,
        ty: last,
    }))
}

/// One more step.
#[tactic(auto, using(crate::proofs::Pushed::step_pushed))]
pub(crate) fn push_step(steps: &mut Seq<CoreStep>, step: CoreStep) -> Result<(), Memory>
    ensures { (base : core_syntax.ExprCore) → OnOk result (tree.stepped base (map tree.step_of steps.new) ≡ tree.part_of (tree.stepped base (map tree.step_of steps.old)) (tree.step_of step)) }
{
    steps.push(step)
}
