//! The checks of procedures, added to those so far.

ghost use Rattle.std.specs.Prelude.{◌≡◌, ◌∷◌, ◌++◌, map, OnOk};
ghost use Rattle.std.specs.List.{flat_map};
ghost use Rattle.core_tree.specs.Checks.{contract_checks, proc_checks};
ghost use Rattle.core_tree.specs.View.{contract_of, proc_of};

use crate::exprs::add_expr;
use crate::stmts::add_stmts;
use core_tree::{Check, CoreContract, CoreProc};
use iv_words::{Memory, Seq};

fn add_contract(c: &CoreContract, found: &mut Seq<Check>) -> Result<(), Memory>
    ensures { OnOk result (found.new ≡ found.old ++ contract_checks (contract_of c.now)) }
{
    found.push(c.check)?;
    add_expr(&c.cond, found)
}

fn add_contracts(contracts: &Seq<CoreContract>, found: &mut Seq<Check>) -> Result<(), Memory>
    ensures { OnOk result (found.new ≡ found.old ++ flat_map contract_checks (map contract_of contracts.now)) }
{
    for c in contracts.iter() {
        add_contract(c, found)?;
    }
    Ok(())
}

fn add_proc(p: &CoreProc, found: &mut Seq<Check>) -> Result<(), Memory>
    ensures { OnOk result (found.new ≡ found.old ++ proc_checks (proc_of p.now)) }
{
    add_contracts(&p.contracts, found)?;
    add_stmts(&p.body, found)
}

pub(crate) fn add_procs(procs: &Seq<CoreProc>, found: &mut Seq<Check>) -> Result<(), Memory>
    ensures { OnOk result (found.new ≡ found.old ++ flat_map proc_checks (map proc_of procs.now)) }
{
    for p in procs.iter() {
        add_proc(p, found)?;
    }
    Ok(())
}
