//! Which effects stand in a block, whether or not they are reached.

ghost use Rattle.std.specs.Prelude.{◌≡◌};
ghost use Rattle.std.specs.Option.{option_map_or};
ghost use Rattle.alloc_effects.specs.Effects.{none, an_alloc, a_break, a_return, either, of_loop, stmt_effects, block_effects, stmts_effects};
ghost use Rattle.ivory_tree.specs.View.{stmt_of, block_of, stmts_of};

use ivory_tree::{Block, Stmt, StmtKind};

/// What stands in a block: an alloc, a break that leaves the loop around the block, a return.
#[derive(Clone, Copy, Debug, PartialEq, Eq)]
pub struct Effects {
    pub allocs: bool,
    pub breaks: bool,
    pub returns: bool,
}

impl Effects {
    fn none() -> Effects
        ensures { result ≡ none }
    {
        Effects {
            allocs: false,
            breaks: false,
            returns: false,
        }
    }

    fn alloc() -> Effects
        ensures { result ≡ an_alloc }
    {
        Effects {
            allocs: true,
            ..Effects::none()
        }
    }

    fn leave() -> Effects
        ensures { result ≡ a_break }
    {
        Effects {
            breaks: true,
            ..Effects::none()
        }
    }

    fn answer() -> Effects
        ensures { result ≡ a_return }
    {
        Effects {
            returns: true,
            ..Effects::none()
        }
    }

    fn either(self, other: Effects) -> Effects
        ensures { result ≡ either self other }
    {
        Effects {
            allocs: self.allocs || other.allocs,
            breaks: self.breaks || other.breaks,
            returns: self.returns || other.returns,
        }
    }

    /// A loop of such a body: its breaks leave it alone.
    fn of_loop(self) -> Effects
        ensures { result ≡ of_loop self }
    {
        Effects {
            breaks: false,
            ..self
        }
    }
}

/// Whether an alloc, a return, or a break that leaves the loop around the block stands in it.
#[cycle(effects)]
pub fn effects_of(b: &Block) -> Effects
    ensures { result ≡ block_effects (block_of b.now) }
{
    stmts_effects(b.stmts.as_slice())
}

#[cycle(effects)]
fn stmts_effects(stmts: &[Stmt]) -> Effects
    ensures { result ≡ stmts_effects (stmts_of stmts.now) }
{
    let mut all = Effects::none();
    for stmt in stmts {
        all = all.either(stmt_effects(stmt));
    }
    all
}

#[cycle(effects)]
fn stmt_effects(stmt: &Stmt) -> Effects
    ensures { result ≡ stmt_effects (stmt_of stmt.now) }
{
    match &stmt.kind {
        StmtKind::Alloc(_, _, _) => Effects::alloc(),
        StmtKind::Break => Effects::leave(),
        StmtKind::Return(_) => Effects::answer(),
        StmtKind::If(_, first, second) => effects_of(first).either(second_effects(second)),
        StmtKind::Map(_, _, body) => effects_of(body).of_loop(),
        StmtKind::Upto(_, _, _, body) => effects_of(body).of_loop(),
        StmtKind::Downto(_, _, _, body) => effects_of(body).of_loop(),
        StmtKind::Forever(body) => effects_of(body).of_loop(),
        StmtKind::NoAlloc(body) => effects_of(body),
        StmtKind::NoBreak(body) => effects_of(body),
        StmtKind::NoReturn(body) => effects_of(body),
        StmtKind::Let(_, _) | StmtKind::LetCall(_, _) | StmtKind::Store(_, _) => Effects::none(),
        StmtKind::Copy(_, _) | StmtKind::Call(_) | StmtKind::Assert(_) => Effects::none(),
    }
}

/// The effects of the block after an `else`, where there is one.
#[cycle(effects)]
fn second_effects(second: &Option<Block>) -> Effects
    ensures { result ≡ option_map_or (λ b. block_effects (block_of b)) second.now none }
{
    match second {
        Some(block) => effects_of(block),
        None => Effects::none(),
    }
}
