//! What a whole tree stands for, and the laws of that.

ghost use Rattle.std.specs.Prelude.{◌≡◌, ◌<◌, ◌^◌, IfOk, IfSome, IfNone};
ghost use Rattle.ivory_tree.specs.Nodes.{module_nodes, nodes_count};
ghost use Rattle.ivory_tree.specs.View.{module_of};
ghost use Rattle.first_form.specs.Answers.{IfRefused};
ghost use Rattle.first_form.specs.Laws.{FirstFormIsValid, FirstFormIsUnique};
ghost use Rattle.first_form.specs.Stands.{Stands};
ghost use Rattle.first_form.specs.declared.first.FirstModule.{FirstModule};

use crate::first::FirstModule;
use crate::import::first_imports;
use crate::items::{imports_first, names_of};
use crate::names::table_of;
use crate::procedure::first_procs;
use crate::stop::Stop;
use iv_words::Memory;
use ivory_tree::Module;
use std::alloc::Global;

fn first_module(alloc: Global, tree: &Module) -> Result<FirstModule, Stop>
    requires few { nodes_count (module_nodes (module_of tree.now)) < 2 ^ 32 }
    ensures ok { IfOk result (λ m. Stands (module_of tree.now) m) }
    ensures refused { IfRefused result ((m : FirstModule) → Stands (module_of tree.now) m → ⊥) }
{
    let all = tree.items.as_slice();
    let names = names_of(alloc, all)?;
    let items = table_of(alloc, &names)?;
    let (imports, procs) = all.split_at(imports_first(all));
    let imports = first_imports(alloc, &items, imports)?;
    let procs = first_procs(alloc, &items, &imports, procs)?;
    Ok(FirstModule { imports, procs })
}

/// What a tree of the first form stands for, and `None` where the tree is not of that form.
///
/// In the first form the items are imports, followed by exported procedures. An import has parameters of type `uint8_t`
/// alone and no result; a procedure has no parameter, result or contract, and each of its statements is a call of an import
/// with a literal from 0 to 255 for each parameter. All items have different names, and a parameter's name differs from
/// these and from the other parameters of its import. The module's own name may be used again.
///
/// # Errors
///
/// Want of memory alone.
pub fn first_form(alloc: Global, tree: &Module) -> Result<Option<FirstModule>, Memory>
    requires few { nodes_count (module_nodes (module_of tree.now)) < 2 ^ 32 }
    ensures found { IfOk result (λ o. IfSome o (λ m. Stands (module_of tree.now) m)) }
    ensures none { IfOk result (λ o. IfNone o ((m : FirstModule) → Stands (module_of tree.now) m → ⊥)) }
{
    match first_module(alloc, tree) {
        Ok(first) => Ok(Some(first)),
        Err(Stop::Refused) => Ok(None),
        Err(Stop::Memory) => Err(Memory),
    }
}

/// A law: what a tree of the first form stands for is valid, where the tree's names are names of the language.
pub fn first_form_is_valid()
    ensures { FirstFormIsValid }
{}

/// A law: a tree stands for one module at most.
pub fn first_form_is_unique()
    ensures { FirstFormIsUnique }
{}
