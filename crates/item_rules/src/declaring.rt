//! What an item declares for those after it.

ghost use Rattle.std.specs.Prelude.{◌≡◌, ◌≤◌, IfOk, OnOk, length, map, option_map};
ghost use Rattle.area_types.specs.View.{type_of as type_seen, struct_of as struct_seen};
ghost use Rattle.ivory_tree.specs.View.{param_of, header_of, struct_of, global_of, item_of};
ghost use Rattle.rule_checker.specs.Contexts.{earlier_of, area_entry_of, callee_entry_of};
ghost use Rattle.source_types.specs.Items.{after};
ghost use Rattle.source_types.specs.Written as written;
ghost use Rattle.item_rules.specs.Entries.{param_types, with_struct, with_global, with_callee};

use crate::headers::{has_result, result_type};
use crate::regions::regions_of;
use crate::sizes::found_fields;
use area_types::{StructDef, ValueType};
use iv_words::{Memory, Seq, Word};
use ivory_tree::{AreaItem, Header, Item, Param, StructItem};
use rule_checker::{
    AreaEntry, CalleeEntry, Items, add_area, add_bits, add_callee, add_struct, area_in, type_in,
};
use std::alloc::Global;

/// A struct; a field without an area is left out.
fn struct_in(alloc: Global, items: &Items, item: &StructItem) -> Result<StructDef, Memory>
    ensures { IfOk result (λ s. struct_seen s ≡ written.struct_in (earlier_of items.now) (struct_of item.now)) }
{
    let found = found_fields(alloc, items, item.fields.as_slice())?;
    Ok(StructDef {
        name: item.name.text.copy(alloc)?,
        fields: found.fields,
    })
}

fn area_entry(alloc: Global, items: &Items, item: &AreaItem) -> Result<AreaEntry, Memory>
    ensures { IfOk result (λ a. area_entry_of a ≡ written.global_in (earlier_of items.now) (global_of item.now)) }
{
    let area = area_in(alloc, items, &item.area)?;
    Ok(AreaEntry {
        name: item.name.text.copy(alloc)?,
        constant: item.constant,
        area,
    })
}

/// The types of parameters, where they have some.
fn param_types(
    alloc: Global,
    items: &Items,
    regions: &[Word],
    params: &[Param],
) -> Result<Seq<Option<ValueType>>, Memory>
    requires { length regions.now ≤ 4_294_967_296 }
    ensures { IfOk result (λ ts. map (option_map type_seen) ts ≡ param_types (earlier_of items.now) regions.now (map param_of params.now)) }
{
    let mut types = Seq::new(alloc);
    for param in params {
        types.push(type_in(alloc, items, regions, &param.ty)?)?;
    }
    Ok(types)
}

fn callee_entry(
    alloc: Global,
    items: &Items,
    import: bool,
    header: &Header,
) -> Result<CalleeEntry, Memory>
    ensures { IfOk result (λ c. callee_entry_of c ≡ written.callee_in (earlier_of items.now) import (header_of header.now)) }
{
    let regions = regions_of(alloc, header.params.as_slice())?;
    let params = param_types(alloc, items, regions.as_slice(), header.params.as_slice())?;
    let given = result_type(alloc, items, regions.as_slice(), &header.result)?;
    Ok(CalleeEntry {
        name: header.name.text.copy(alloc)?,
        import,
        params,
        gives: has_result(&header.result),
        result: given,
    })
}

fn declare_struct(alloc: Global, items: &mut Items, item: &StructItem) -> Result<(), Memory>
    ensures { OnOk result (earlier_of items.new ≡ with_struct (earlier_of items.old) (struct_of item.now)) }
{
    let found = struct_in(alloc, &*items, item)?;
    add_struct(alloc, items, found)
}

fn declare_area(alloc: Global, items: &mut Items, item: &AreaItem) -> Result<(), Memory>
    ensures { OnOk result (earlier_of items.new ≡ with_global (earlier_of items.old) (global_of item.now)) }
{
    let entry = area_entry(alloc, &*items, item)?;
    add_area(alloc, items, entry)
}

fn declare_callee(
    alloc: Global,
    items: &mut Items,
    import: bool,
    header: &Header,
) -> Result<(), Memory>
    ensures { OnOk result (earlier_of items.new ≡ with_callee (earlier_of items.old) import (header_of header.now)) }
{
    let entry = callee_entry(alloc, &*items, import, header)?;
    add_callee(alloc, items, entry)
}

/// Adds what an item declares.
pub fn declare(alloc: Global, items: &mut Items, item: &Item) -> Result<(), Memory>
    ensures { OnOk result (earlier_of items.new ≡ after (earlier_of items.old) (item_of item.now)) }
{
    match item {
        Item::Bits(item) => add_bits(alloc, items, item.copy(alloc)?),
        Item::Struct(item) => declare_struct(alloc, items, item),
        Item::Area(item) => declare_area(alloc, items, item),
        Item::Import(header) => declare_callee(alloc, items, true, header),
        Item::Proc(item) => declare_callee(alloc, items, false, &item.header),
    }
}
