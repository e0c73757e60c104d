//! Breaks of the loop around a block, whether or not they are reached.

ghost use Rattle.std.specs.Prelude.{◌≡◌, false};
ghost use Rattle.std.specs.Option.{option_map_or};
ghost use Rattle.control_effects.specs.Breaks.{stmt_breaks, block_breaks, stmts_break};
ghost use Rattle.ivory_tree.specs.View.{stmt_of, block_of, stmts_of};

use ivory_tree::{Block, Stmt, StmtKind};

/// Whether a break of the loop around the block stands in it.
#[cycle(breaks)]
pub(crate) fn has_break(b: &Block) -> bool
    ensures { result ≡ block_breaks (block_of b.now) }
{
    any_breaks(b.stmts.as_slice())
}

#[cycle(breaks)]
fn any_breaks(stmts: &[Stmt]) -> bool
    ensures { result ≡ stmts_break (stmts_of stmts.now) }
{
    for stmt in stmts {
        if stmt_breaks(stmt) {
            return true;
        }
    }
    false
}

#[cycle(breaks)]
fn stmt_breaks(stmt: &Stmt) -> bool
    ensures { result ≡ stmt_breaks (stmt_of stmt.now) }
{
    match &stmt.kind {
        StmtKind::Break => true,
        StmtKind::If(_, first, second) => has_break(first) || second_breaks(second),
        StmtKind::NoAlloc(body) => has_break(body),
        StmtKind::NoBreak(body) => has_break(body),
        StmtKind::NoReturn(body) => has_break(body),
        StmtKind::Map(_, _, _) | StmtKind::Upto(_, _, _, _) => false,
        StmtKind::Downto(_, _, _, _) | StmtKind::Forever(_) => false,
        StmtKind::Let(_, _) | StmtKind::LetCall(_, _) | StmtKind::Alloc(_, _, _) => false,
        StmtKind::Store(_, _) | StmtKind::Copy(_, _) | StmtKind::Call(_) => false,
        StmtKind::Return(_) | StmtKind::Assert(_) => false,
    }
}

#[cycle(breaks)]
fn second_breaks(second: &Option<Block>) -> bool
    ensures { result ≡ option_map_or (λ b. block_breaks (block_of b)) second.now false }
{
    match second {
        Some(block) => has_break(block),
        None => false,
    }
}
