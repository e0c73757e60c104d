//! Tables of items grow by one item after another.

ghost use Rattle.std.specs.Prelude.{◌≡◌, not, cond, [], ◌∷◌, ◌++◌, OnOk};
ghost use Rattle.area_types.specs.View.{struct_of};
ghost use Rattle.source_types.specs.Environments.{nothing_earlier};
ghost use Rattle.rule_checker.specs.Contexts.{earlier_of, area_entry_of, callee_entry_of};

use crate::items::{AreaEntry, CalleeEntry, CalleeNames, Items};
use area_types::StructDef;
use iv_words::{Memory, Seq, Word};
use ivory_tree::BitsItem;
use name_lists::NameList;
use std::alloc::Global;

/// So many bit data and so many structs have a number.
const MOST: usize = 4_294_967_295;

fn no_names(alloc: Global) -> CalleeNames
    ensures all { result.all ≡ [] }
    ensures imports { result.imports ≡ [] }
    ensures procedures { result.procedures ≡ [] }
{
    CalleeNames {
        all: NameList::new(alloc),
        imports: NameList::new(alloc),
        procedures: NameList::new(alloc),
    }
}

/// No items, with room that grows from `alloc`.
pub fn no_items(alloc: Global) -> Items
    ensures { earlier_of result ≡ nothing_earlier }
{
    Items {
        bits: Seq::new(alloc),
        structs: Seq::new(alloc),
        areas: Seq::new(alloc),
        callees: Seq::new(alloc),
        bit_names: NameList::new(alloc),
        struct_names: NameList::new(alloc),
        area_names: NameList::new(alloc),
        callee_names: no_names(alloc),
    }
}

/// Adds bit data. Where there is no number for them, that is want of memory too.
pub fn add_bits(alloc: Global, items: &mut Items, item: BitsItem) -> Result<(), Memory>
    ensures { OnOk result (earlier_of items.new ≡ record (earlier_of items.old) { bits = (earlier_of items.old).bits ++ item ∷ [] }) }
{
    if items.bits.len() >= MOST {
        return Err(Memory);
    }
    let count = items.bits.len();
    let name = item.name.text.copy(alloc)?;
    items.bits.push(item)?;
    match items.bit_names.push(alloc, name) {
        Ok(()) => Ok(()),
        Err(memory) => {
            items.bits.truncate(count);
            Err(memory)
        }
    }
}

/// Adds a struct. Where there is no number for it, that is want of memory too.
pub fn add_struct(alloc: Global, items: &mut Items, item: StructDef) -> Result<(), Memory>
    ensures { OnOk result (earlier_of items.new ≡ record (earlier_of items.old) { structs = (earlier_of items.old).structs ++ struct_of item ∷ [] }) }
{
    if items.structs.len() >= MOST {
        return Err(Memory);
    }
    let count = items.structs.len();
    let name = item.name.copy(alloc)?;
    items.structs.push(item)?;
    match items.struct_names.push(alloc, name) {
        Ok(()) => Ok(()),
        Err(memory) => {
            items.structs.truncate(count);
            Err(memory)
        }
    }
}

/// Adds an area.
pub fn add_area(alloc: Global, items: &mut Items, item: AreaEntry) -> Result<(), Memory>
    ensures { OnOk result (earlier_of items.new ≡ record (earlier_of items.old) { areas = (earlier_of items.old).areas ++ area_entry_of item ∷ [] }) }
{
    let count = items.areas.len();
    let name = item.name.copy(alloc)?;
    items.areas.push(item)?;
    match items.area_names.push(alloc, name) {
        Ok(()) => Ok(()),
        Err(memory) => {
            items.areas.truncate(count);
            Err(memory)
        }
    }
}

/// Adds a name to those of all and to those of its kind.
fn name_callee(
    alloc: Global,
    names: &mut CalleeNames,
    name: Word,
    import: bool,
) -> Result<(), Memory>
    ensures all { OnOk result (names.new.all ≡ names.old.all ++ name ∷ []) }
    ensures imports { OnOk result (names.new.imports ≡ names.old.imports ++ cond import (name ∷ []) []) }
    ensures procedures { OnOk result (names.new.procedures ≡ names.old.procedures ++ cond (not import) (name ∷ []) []) }
{
    names.all.push(alloc, name.copy(alloc)?)?;
    if import {
        names.imports.push(alloc, name)
    } else {
        names.procedures.push(alloc, name)
    }
}

/// Adds an import or a procedure. For want of memory none is left.
pub fn add_callee(alloc: Global, items: &mut Items, item: CalleeEntry) -> Result<(), Memory>
    ensures { OnOk result (earlier_of items.new ≡ record (earlier_of items.old) { callees = (earlier_of items.old).callees ++ callee_entry_of item ∷ [] }) }
{
    let name = item.name.copy(alloc)?;
    let import = item.import;
    items.callees.push(item)?;
    match name_callee(alloc, &mut items.callee_names, name, import) {
        Ok(()) => Ok(()),
        Err(memory) => {
            items.callees.truncate(0);
            items.callee_names = no_names(alloc);
            Err(memory)
        }
    }
}
