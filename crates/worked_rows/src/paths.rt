use control_effects::{falls_through, first_unreached};
use iv_words::{Memory, Seq, Span};
use ivory_tree::{Block, Stmt, StmtKind};
use std::alloc::Global;

fn at(place: u32) -> Span {
    Span {
        start: place,
        end: place,
    }
}

/// `{ STATEMENT }`, with the statement at this place.
fn block(alloc: Global, kind: StmtKind, start: u32) -> Result<Block, Memory> {
    let mut stmts = Seq::new(alloc);
    stmts.push(Stmt {
        kind,
        span: at(start),
    })?;
    Ok(Block {
        stmts,
        span: at(start),
    })
}

#[test]
fn a_forever_is_left_by_its_break(rt: HostRuntime) -> Result<(), Memory> {
    let alloc = rt.alloc();
    let leaving = block(alloc, StmtKind::Break, 2)?;
    assert!(rt; !falls_through(&leaving));
    let left = block(alloc, StmtKind::Forever(leaving), 1)?;
    assert!(rt; falls_through(&left));
    let never_left = block(alloc, StmtKind::Forever(left), 0)?;
    assert!(rt; !falls_through(&never_left));
    assert_eq!(rt; first_unreached(&never_left), None);
    Ok(())
}

#[test]
fn the_first_unreached_stands_within(rt: HostRuntime) -> Result<(), Memory> {
    let alloc = rt.alloc();
    let mut inner = block(alloc, StmtKind::Return(None), 1)?;
    inner.stmts.push(Stmt {
        kind: StmtKind::Break,
        span: at(2),
    })?;
    let mut outer = block(alloc, StmtKind::NoAlloc(inner), 0)?;
    outer.stmts.push(Stmt {
        kind: StmtKind::Break,
        span: at(3),
    })?;
    assert_eq!(rt; first_unreached(&outer), Some(at(2)));
    Ok(())
}
