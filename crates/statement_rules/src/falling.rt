//! Whether what follows a statement can be reached.

ghost use Rattle.std.specs.Prelude.{◌≡◌, ◌&&◌, true};
ghost use Rattle.std.specs.Option.{option_map_or};
ghost use Rattle.control_effects.specs.Breaks.{block_breaks};
ghost use Rattle.control_effects.specs.Falling.{stmt_falls, block_falls};
ghost use Rattle.ivory_tree.specs.View.{stmt_of, block_of};

use alloc_effects::effects_of;
use control_effects::falls_through;
use ivory_tree::{Block, Stmt, StmtKind};

/// Whether a break of the loop around the block stands in it.
#[tactic(auto, using(crate::proofs::Breaks::breaks_are))]
fn has_break(body: &Block) -> bool
    ensures { result ≡ block_breaks (block_of body.now) }
{
    effects_of(body).breaks
}

/// A `forever` is left by a break of its own alone.
fn stmt_falls(stmt: &Stmt) -> bool
    ensures { result ≡ stmt_falls (stmt_of stmt.now) }
{
    match &stmt.kind {
        StmtKind::Return(_) | StmtKind::Break => false,
        StmtKind::If(_, first, second) => falls_through(first) || second_falls(second),
        StmtKind::Forever(body) => has_break(body),
        StmtKind::NoAlloc(body) => falls_through(body),
        StmtKind::NoBreak(body) => falls_through(body),
        StmtKind::NoReturn(body) => falls_through(body),
        StmtKind::Map(_, _, _) | StmtKind::Upto(_, _, _, _) => true,
        StmtKind::Downto(_, _, _, _) | StmtKind::Assert(_) => true,
        StmtKind::Let(_, _) | StmtKind::LetCall(_, _) | StmtKind::Alloc(_, _, _) => true,
        StmtKind::Store(_, _) | StmtKind::Copy(_, _) | StmtKind::Call(_) => true,
    }
}

/// Whether the block after an `else` falls through; where there is none, what follows can be reached.
fn second_falls(second: &Option<Block>) -> bool
    ensures { result ≡ option_map_or (λ b. block_falls (block_of b)) second.now true }
{
    match second {
        Some(block) => falls_through(block),
        None => true,
    }
}

/// Whether what follows the statement is reached, where the statement is or is not.
pub(crate) fn is_next_reached(reached: bool, stmt: &Stmt) -> bool
    ensures { result ≡ (reached && stmt_falls (stmt_of stmt.now)) }
{
    reached && stmt_falls(stmt)
}
