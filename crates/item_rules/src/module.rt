//! The first fault of a module.

ghost use Rattle.std.specs.Prelude.{◌≡◌, ◌++◌, IfOk, OnOk, map};
ghost use Rattle.ivory_tree.specs.View.{item_of, module_of};
ghost use Rattle.rule_checker.specs.Contexts.{context_of, earlier_of};
ghost use Rattle.rule_checker.specs.Faults.{found};
ghost use Rattle.rule_faults.specs.Contexts.{outside};
ghost use Rattle.rule_faults.specs.FirstFault.{first_of, first_fault};
ghost use Rattle.rule_faults.specs.ItemRows.{items_row};
ghost use Rattle.source_types.specs.Environments.{nothing_earlier};
ghost use Rattle.source_types.specs.Items.{after, item_names};
ghost use Rattle.item_rules.specs.Names.{names_of};

use crate::declaring::declare;
use crate::items::{item_fault, leave_item};
use alloc_effects::Allowed;
use iv_words::{Memory, Seq};
use ivory_tree::{Item, Module};
use name_lists::NameList;
use rule_checker::{Context, RuleFault, no_items};
use std::alloc::Global;

/// Adds the name of an area, an import or a procedure.
fn add_name(alloc: Global, names: &mut NameList, item: &Item) -> Result<(), Memory>
    ensures { OnOk result (names.new ≡ names.old ++ names_of (item_of item.now)) }
{
    match item {
        Item::Bits(_) | Item::Struct(_) => Ok(()),
        Item::Area(item) => names.push(alloc, item.name.text.copy(alloc)?),
        Item::Import(header) => names.push(alloc, header.name.text.copy(alloc)?),
        Item::Proc(item) => names.push(alloc, item.header.name.text.copy(alloc)?),
    }
}

/// The names of all areas, imports and procedures.
pub fn names_in(alloc: Global, items: &[Item]) -> Result<NameList, Memory>
    ensures { IfOk result (λ names. names ≡ item_names (map item_of items.now)) }
{
    let mut names = NameList::new(alloc);
    for item in items {
        add_name(alloc, &mut names, item)?;
    }
    Ok(names)
}

/// What is known before the first item of a module with these names.
fn before_items(alloc: Global, names: NameList) -> Context
    ensures view { context_of result ≡ outside names nothing_earlier }
    ensures names { result.names ≡ names }
{
    Context {
        items: no_items(alloc),
        names,
        regions: Seq::new(alloc),
        gives: false,
        result: None,
        in_ensures: false,
        allowed: Allowed {
            may_alloc: false,
            may_break: false,
            may_return: false,
        },
        scope: Seq::new(alloc),
    }
}

/// Goes on behind an item: what is known within it is forgotten, and what it declares is known.
fn pass_item(alloc: Global, context: &mut Context, item: &Item) -> Result<(), Memory>
    ensures view { OnOk result (context_of context.new ≡ outside context.new.names (earlier_of context.new.items)) }
    ensures names { OnOk result (context.new.names ≡ context.old.names) }
    ensures items { OnOk result (earlier_of context.new.items ≡ after (earlier_of context.old.items) (item_of item.now)) }
{
    leave_item(alloc, context);
    declare(alloc, &mut context.items, item)
}

/// The first fault of items, where this is known before the first.
fn items_fault(
    alloc: Global,
    context: &mut Context,
    items: &[Item],
) -> Result<Option<RuleFault>, Memory>
    requires { context_of context.now ≡ outside context.now.names (earlier_of context.now.items) }
    ensures { IfOk result (λ fault. found fault ≡ first_of (items_row context.old.names (earlier_of context.old.items) (map item_of items.now))) }
{
    for item in items {
        if let Some(fault) = item_fault(alloc, context, item)? {
            return Ok(Some(fault));
        }
        pass_item(alloc, context, item)?;
    }
    Ok(None)
}

/// The first fault of a module: the first place in the order of the text at which a rule is broken, with the least such rule, or none.
pub fn first_fault(alloc: Global, m: &Module) -> Result<Option<RuleFault>, Memory>
    ensures { IfOk result (λ fault. found fault ≡ first_fault (module_of m.now)) }
{
    let names = names_in(alloc, m.items.as_slice())?;
    let mut context = before_items(alloc, names);
    items_fault(alloc, &mut context, m.items.as_slice())
}
