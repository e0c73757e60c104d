//! The first statement that no path reaches.

ghost use Rattle.std.specs.Prelude.{◌≡◌, true, []};
ghost use Rattle.std.specs.Option.{option_map_or};
ghost use Rattle.control_effects.specs.Unreached.{first, within_stmt, within_block, within_stmts};
ghost use Rattle.ivory_tree.specs.View.{stmt_of, block_of, stmts_of};

use crate::falling::stmt_falls;
use iv_words::Span;
use ivory_tree::{Block, Stmt, StmtKind};

/// The place of the first unreached statement of the block and of the blocks in it, in the order of the text: the first that
/// stands in its block after one that does not fall through. None exactly where each is reached.
#[cycle(unreached)]
pub fn first_unreached(b: &Block) -> Option<Span>
    ensures { result ≡ first (within_block (block_of b.now)) }
{
    first_in_row(b.stmts.as_slice())
}

#[cycle(unreached)]
fn first_in_row(stmts: &[Stmt]) -> Option<Span>
    ensures { result ≡ first (within_stmts true (stmts_of stmts.now)) }
{
    let mut reached = true;
    for stmt in stmts {
        if !reached {
            return Some(stmt.span);
        }
        if let Some(span) = first_within(stmt) {
            return Some(span);
        }
        reached = stmt_falls(stmt);
    }
    None
}

#[cycle(unreached)]
fn first_within(stmt: &Stmt) -> Option<Span>
    ensures { result ≡ first (within_stmt (stmt_of stmt.now)) }
{
    match &stmt.kind {
        StmtKind::If(_, first, second) => first_unreached(first).or(first_in_second(second)),
        StmtKind::Map(_, _, body) => first_unreached(body),
        StmtKind::Upto(_, _, _, body) => first_unreached(body),
        StmtKind::Downto(_, _, _, body) => first_unreached(body),
        StmtKind::Forever(body) => first_unreached(body),
        StmtKind::NoAlloc(body) => first_unreached(body),
        StmtKind::NoBreak(body) => first_unreached(body),
        StmtKind::NoReturn(body) => first_unreached(body),
        StmtKind::Let(_, _) | StmtKind::LetCall(_, _) | StmtKind::Alloc(_, _, _) => None,
        StmtKind::Store(_, _) | StmtKind::Copy(_, _) | StmtKind::Call(_) => None,
        StmtKind::Break | StmtKind::Return(_) | StmtKind::Assert(_) => None,
    }
}

#[cycle(unreached)]
fn first_in_second(second: &Option<Block>) -> Option<Span>
    ensures { result ≡ first (option_map_or (λ b. within_block (block_of b)) second.now []) }
{
    match second {
        Some(block) => first_unreached(block),
        None => None,
    }
}
