//! The core of a module, or its first fault.

ghost use Rattle.std.specs.Prelude.{◌≡◌, ◌≤◌, None, IfOk, IfErr};
ghost use Rattle.core_tree.specs.Cores.{core_of};
ghost use Rattle.ivory_tree.specs.Formed.{Formed};
ghost use Rattle.ivory_tree.specs.Nodes.{module_nodes, nodes_count};
ghost use Rattle.ivory_tree.specs.View.{module_of};
ghost use Rattle.rule_faults.specs.FirstFault as faults;
ghost use Rattle.typing_rules.specs.WellTyped.{Stands};
ghost use Rattle.item_maker.specs.Making.{so_far};
ghost use Rattle.iv_checker.specs.Made.{all_made};
ghost use Rattle.iv_checker.specs.Answers.{IsCoreOf, IsRefused, StaysTextLike};

use crate::answer::CheckError;
use crate::table::struct_table;
use core_tree::Core;
use item_maker::{Making, item_cores};
use item_rules::{first_fault, names_in};
use iv_words::Memory;
use ivory_tree::Module;
use std::alloc::Global;

/// The cores of all items of a module, and what they declare.
fn made_of_module(alloc: Global, m: &Module) -> Result<Making, Memory>
    requires { Formed (module_of m.now) }
    ensures { IfOk result (λ making. so_far making ≡ all_made (module_of m.now)) }
{
    let names = names_in(alloc, m.items.as_slice())?;
    item_cores(alloc, names, m.items.as_slice())
}

/// The core of a module without a fault.
fn core_of_module(alloc: Global, m: &Module) -> Result<Core, Memory>
    requires formed { Formed (module_of m.now) }
    requires few { nodes_count (module_nodes (module_of m.now)) ≤ 2_147_483_648 }
    requires faultless { faults.first_fault (module_of m.now) ≡ None }
    ensures { IfOk result (λ core. Stands (module_of m.now) (core_of core)) }
{
    let making = made_of_module(alloc, m)?;
    let structs = struct_table(alloc, &making.place.context.items)?;
    Ok(Core::new(
        structs,
        making.layouts,
        making.areas,
        making.imports,
        making.procs,
    ))
}

/// The one core that a module stands for. It has the form of a text, and 2,147,483,648 nodes at most.
///
/// Errors: `Rule` with the first fault, exactly where the module is not well typed.
pub fn check(alloc: Global, m: &Module) -> Result<Core, CheckError>
    requires formed { Formed (module_of m.now) }
    requires few { nodes_count (module_nodes (module_of m.now)) ≤ 2_147_483_648 }
    ensures core { IfOk result (λ core. IsCoreOf (module_of m.now) (core_of core)) }
    ensures text_like { IfOk result (λ core. StaysTextLike (module_of m.now) (core_of core)) }
    ensures refused { IfErr result (IsRefused (module_of m.now)) }
{
    match first_fault(alloc, m)? {
        Some(fault) => Err(CheckError::Rule(fault)),
        None => Ok(core_of_module(alloc, m)?),
    }
}
