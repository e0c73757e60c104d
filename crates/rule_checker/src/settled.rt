//! Which expressions get their type from their parts.

ghost use Rattle.std.specs.Prelude.{◌≡◌, map};
ghost use Rattle.ivory_tree.specs.View.{expr_of, link_of, step_of};
ghost use Rattle.source_types.specs.Settled.{settled};
ghost use Rattle.rule_checker.specs.Chains.{chain_settled, has_steps};

use crate::operators::{gives_truth, is_arithmetic};
use iv_words::Seq;
use ivory_tree::{Expr, ExprKind, Link, Step};

#[tactic(auto, using(crate::proofs::Linked::some_steps))]
pub(crate) fn has_steps(steps: &Seq<Step>) -> bool
    ensures { result ≡ has_steps (map step_of steps.now) }
{
    0 < steps.len()
}

/// Whether the expression gets its type from its parts; the others get it from what is wanted of them.
#[cycle(settled)]
pub fn is_settled(e: &Expr) -> bool
    ensures { result ≡ settled (expr_of e.now) }
{
    match &e.kind {
        ExprKind::Lit(_) => false,
        ExprKind::Truth(_) | ExprKind::Outcome | ExprKind::Var(_) => true,
        ExprKind::Cast(_, _) | ExprKind::ToIx(_, _) | ExprKind::WrapIx(_, _) => true,
        ExprKind::MakeBits(_, _) | ExprKind::Raw(_) | ExprKind::Set(_, _, _) => true,
        ExprKind::Prefix(op, operand) => !is_arithmetic(*op) || is_settled(operand),
        ExprKind::Chain(first, links) => is_chain_settled(is_settled(first), links),
        ExprKind::Postfix(base, steps) => {
            if has_steps(steps) {
                return true;
            }
            is_settled(base)
        }
        ExprKind::Cond(_, first, second) => is_settled(first) || is_settled(second),
    }
}

#[cycle(settled)]
fn is_chain_settled(first: bool, links: &Seq<Link>) -> bool
    ensures { result ≡ chain_settled first (map link_of links.now) }
{
    let mut so_far = first;
    for link in links.as_slice() {
        so_far = gives_truth(link.op) || so_far || is_settled(&link.right);
    }
    so_far
}
