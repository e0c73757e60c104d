//! Whether what follows a statement or a block can be reached.

ghost use Rattle.std.specs.Prelude.{◌≡◌, true};
ghost use Rattle.std.specs.Option.{option_map_or};
ghost use Rattle.control_effects.specs.Falling.{stmt_falls, block_falls, stmts_fall};
ghost use Rattle.ivory_tree.specs.View.{stmt_of, block_of, stmts_of};

use crate::breaks::has_break;
use ivory_tree::{Block, Stmt, StmtKind};

/// Whether each statement of the block falls through. These do not: a return, a break, an `if` with two blocks that do not,
/// a `forever` without a break of its own, and a narrowing block whose block does not.
#[cycle(falling)]
pub fn falls_through(b: &Block) -> bool
    ensures { result ≡ block_falls (block_of b.now) }
{
    all_fall(b.stmts.as_slice())
}

#[cycle(falling)]
fn all_fall(stmts: &[Stmt]) -> bool
    ensures { result ≡ stmts_fall (stmts_of stmts.now) }
{
    for stmt in stmts {
        if !stmt_falls(stmt) {
            return false;
        }
    }
    true
}

#[cycle(falling)]
pub(crate) fn stmt_falls(stmt: &Stmt) -> bool
    ensures { result ≡ stmt_falls (stmt_of stmt.now) }
{
    match &stmt.kind {
        StmtKind::Return(_) | StmtKind::Break => false,
        StmtKind::If(_, first, second) => falls_through(first) || second_falls(second),
        StmtKind::Forever(body) => has_break(body),
        StmtKind::NoAlloc(body) => falls_through(body),
        StmtKind::NoBreak(body) => falls_through(body),
        StmtKind::NoReturn(body) => falls_through(body),
        StmtKind::Map(_, _, _) | StmtKind::Upto(_, _, _, _) => true,
        StmtKind::Downto(_, _, _, _) | StmtKind::Assert(_) => true,
        StmtKind::Let(_, _) | StmtKind::LetCall(_, _) | StmtKind::Alloc(_, _, _) => true,
        StmtKind::Store(_, _) | StmtKind::Copy(_, _) | StmtKind::Call(_) => true,
    }
}

/// Whether the block after an `else` falls through; where there is none, what follows can be reached.
#[cycle(falling)]
fn second_falls(second: &Option<Block>) -> bool
    ensures { result ≡ option_map_or (λ b. block_falls (block_of b)) second.now true }
{
    match second {
        Some(block) => falls_through(block),
        None => true,
    }
}
