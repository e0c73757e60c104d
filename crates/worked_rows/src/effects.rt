use alloc_effects::{Allowed, Effects, Narrowing, effects_of, in_loop, narrow};
use iv_words::{Memory, Seq, Span};
use ivory_tree::{Block, Stmt, StmtKind};
use std::alloc::Global;

const EVERYTHING: Allowed = Allowed {
    may_alloc: true,
    may_break: true,
    may_return: true,
};

/// `{ STATEMENT }`
fn block(alloc: Global, kind: StmtKind) -> Result<Block, Memory> {
    let span = Span { start: 0, end: 1 };
    let mut stmts = Seq::new(alloc);
    stmts.push(Stmt { kind, span })?;
    Ok(Block { stmts, span })
}

#[test]
fn one_permission_changes(rt: HostRuntime) {
    let narrowed = narrow(EVERYTHING, Narrowing::NoBreak);
    assert_eq!(rt;
        (narrowed.may_alloc, narrowed.may_break, narrowed.may_return),
        (true, false, true)
    );
    assert_eq!(rt; in_loop(narrowed), EVERYTHING);
    assert!(rt; !narrow(EVERYTHING, Narrowing::NoAlloc).may_alloc);
    assert!(rt; !narrow(EVERYTHING, Narrowing::NoReturn).may_return);
}

#[test]
fn a_loop_keeps_its_breaks(rt: HostRuntime) -> Result<(), Memory> {
    let alloc = rt.alloc();
    let leaving = block(alloc, StmtKind::Break)?;
    assert!(rt; effects_of(&leaving).breaks);
    let looping = block(alloc, StmtKind::Forever(leaving))?;
    assert!(rt; !effects_of(&looping).breaks);
    let returning = block(
        alloc,
        StmtKind::NoAlloc(block(alloc, StmtKind::Return(None))?),
    )?;
    let copy = returning.copy(alloc)?;
    assert!(rt; copy == returning);
    let found = effects_of(&returning);
    assert_eq!(rt;
        (found.allocs, found.breaks, found.returns),
        (false, false, true)
    );
    Ok(())
}
