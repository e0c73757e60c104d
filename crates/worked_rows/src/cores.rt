use area_types::{StructTable, ValueType};
use core_tree::{Check, Core, CoreExpr, CoreKind, CoreProc, CoreStmt, SiteKind, exports_of};
use iv_words::{Memory, Seq, Span, Word};
use std::alloc::Global;

/// `export proc main() {}`
fn main_alone(alloc: Global) -> Result<Core, Memory> {
    let mut procs = Seq::new(alloc);
    procs.push(CoreProc {
        name: Word::from_slice(alloc, b"main")?,
        exported: true,
        params: Seq::new(alloc),
        result: None,
        contracts: Seq::new(alloc),
        locals: Seq::new(alloc),
        body: Seq::new(alloc),
    })?;
    let structs = StructTable::new(alloc);
    let areas = Seq::new(alloc);
    let imports = Seq::new(alloc);
    Ok(Core::new(structs, Seq::new(alloc), areas, imports, procs))
}

#[test]
fn an_exported_procedure_is_told(rt: HostRuntime) -> Result<(), Memory> {
    let alloc = rt.alloc();
    let core = main_alone(alloc)?.copy(alloc)?;
    let exports = exports_of(alloc, &core)?;
    assert_eq!(rt; exports.len(), 1);
    assert_eq!(rt; exports[0].name.as_slice(), b"main".as_slice());
    Ok(())
}

/// The local 0, a truth.
fn truth(alloc: Global) -> Result<CoreExpr, Memory> {
    let kind = CoreKind::Local(0);
    let ty = ValueType::Bool;
    let checks = Seq::new(alloc);
    Ok(CoreExpr { kind, ty, checks })
}

#[test]
fn trees_are_copied(rt: HostRuntime) -> Result<(), Memory> {
    let alloc = rt.alloc();
    let check = Check {
        site: 0,
        kind: SiteKind::Assert,
        span: Span { start: 7, end: 13 },
    };
    let stmt = CoreStmt::Assert(truth(alloc)?, check);
    assert!(rt; stmt.copy(alloc)? == stmt);
    assert!(rt; stmt != CoreStmt::Break);
    Ok(())
}
