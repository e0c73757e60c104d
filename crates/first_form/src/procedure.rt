//! What procedures stand for: each must be exported, without parameters, result or contracts.

ghost use Rattle.std.specs.Prelude.{◌≡◌, ◌<◌, ◌^◌, List, length, map, IfOk};
ghost use Rattle.std.specs.List.{AllZip};
ghost use Rattle.ivory_tree.specs.View.{proc_of, item_of};
ghost use Rattle.first_form.specs.Answers.{IfRefused};
ghost use Rattle.first_form.specs.Parts as parts;
ghost use Rattle.first_form.specs.Stands.{BodyStands, ProcStands};
ghost use Rattle.first_form.specs.Tables.{ImportsFirst};
ghost use Rattle.first_form.specs.Valid.{AllDifferent};
ghost use Rattle.first_form.specs.declared.first.FirstProc.{FirstProc};

use crate::call::first_calls;
use crate::first::{FirstImport, FirstProc};
use crate::names::Names;
use crate::stop::Stop;
use iv_words::Seq;
use ivory_tree::{Item, ProcItem};
use std::alloc::Global;

/// Whether the procedure is exported and has no parameter, result or contract.
fn is_plain(proc: &ProcItem) -> bool
    ensures { result ≡ parts.is_plain (proc_of proc.now) }
{
    proc.exported
        && proc.header.params.len() == 0
        && proc.header.result.is_none()
        && proc.contracts.len() == 0
}

fn first_body(
    alloc: Global,
    items: &Names,
    imports: &[FirstImport],
    proc: &ProcItem,
) -> Result<FirstProc, Stop>
    requires first { ImportsFirst imports.now items.now }
    requires different { AllDifferent items.now }
    requires few { length imports.now < 2 ^ 32 }
    ensures ok { IfOk result (λ q. BodyStands imports.now (proc_of proc.now) q) }
    ensures refused { IfRefused result ((q : FirstProc) → BodyStands imports.now (proc_of proc.now) q → ⊥) }
{
    if !is_plain(proc) {
        return Err(Stop::Refused);
    }
    let calls = first_calls(alloc, items, imports, &proc.body.stmts)?;
    let name = proc.header.name.text.copy(alloc)?;
    Ok(FirstProc { name, calls })
}

fn first_proc(
    alloc: Global,
    items: &Names,
    imports: &[FirstImport],
    item: &Item,
) -> Result<FirstProc, Stop>
    requires first { ImportsFirst imports.now items.now }
    requires different { AllDifferent items.now }
    requires few { length imports.now < 2 ^ 32 }
    ensures ok { IfOk result (λ q. ProcStands imports.now (item_of item.now) q) }
    ensures refused { IfRefused result ((q : FirstProc) → ProcStands imports.now (item_of item.now) q → ⊥) }
{
    match item {
        Item::Proc(proc) => first_body(alloc, items, imports, proc),
        _ => Err(Stop::Refused),
    }
}

/// What these items stand for as procedures that call these imports.
pub fn first_procs(
    alloc: Global,
    items: &Names,
    imports: &[FirstImport],
    procs: &[Item],
) -> Result<Seq<FirstProc>, Stop>
    requires first { ImportsFirst imports.now items.now }
    requires different { AllDifferent items.now }
    requires few { length imports.now < 2 ^ 32 }
    ensures ok { IfOk result (λ qs. AllZip (ProcStands imports.now) (map item_of procs.now) qs) }
    ensures refused { IfRefused result ((qs : List FirstProc) → AllZip (ProcStands imports.now) (map item_of procs.now) qs → ⊥) }
{
    let mut firsts = Seq::with_capacity(alloc, procs.len())?;
    for proc in procs {
        firsts.push(first_proc(alloc, items, imports, proc)?)?;
    }
    Ok(firsts)
}
