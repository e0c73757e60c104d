//! The value of a cell.

ghost use Rattle.std.specs.Prelude.{◌≡◌};
ghost use Rattle.core_tree.specs.View.{expr_of};
ghost use Rattle.typing_rules.specs.Initializers.{constant_of};

use core_tree::{CoreExpr, CoreKind};

/// The number of a constant, with or without `bits` around it; of another expression 0.
pub(crate) fn constant(e: &CoreExpr) -> i128
    ensures { result ≡ constant_of (expr_of e.now) }
{
    match &e.kind {
        CoreKind::Number(value) => *value,
        CoreKind::MakeBits(operand) => constant(operand),
        CoreKind::Outcome | CoreKind::Local(_) | CoreKind::AreaName(_) => 0,
        CoreKind::Cast(_) | CoreKind::ToIx(_) | CoreKind::WrapIx(_) | CoreKind::Raw(_) => 0,
        CoreKind::Set(_, _, _) | CoreKind::Prefix(_, _) | CoreKind::Cond(_, _, _) => 0,
        CoreKind::Chain(_, _) => 0,
        CoreKind::Postfix(_, _) => 0,
    }
}
