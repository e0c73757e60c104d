use area_types::StructTable;
use contract_checks::site_table;
use core_tree::{Core, CoreProc};
use iv_words::{Memory, Seq, Word};
use std::alloc::Global;

/// `proc main() {}`
fn main_alone(alloc: Global) -> Result<Core, Memory> {
    let mut procs = Seq::new(alloc);
    procs.push(CoreProc {
        name: Word::from_slice(alloc, b"main")?,
        exported: false,
        params: Seq::new(alloc),
        result: None,
        contracts: Seq::new(alloc),
        locals: Seq::new(alloc),
        body: Seq::new(alloc),
    })?;
    let structs = StructTable::new(alloc);
    let areas = Seq::new(alloc);
    let imports = Seq::new(alloc);
    Ok(Core::new(structs, Seq::new(alloc), areas, imports, procs))
}

#[test]
fn a_module_without_checks_has_no_site(rt: HostRuntime) -> Result<(), Memory> {
    let alloc = rt.alloc();
    let sites = site_table(alloc, &main_alone(alloc)?)?;
    assert_eq!(rt; sites.len(), 0);
    Ok(())
}
