//! Items one after another.

ghost use Rattle.std.specs.Prelude.{◌≡◌, IfOk, OnOk, All, map};
ghost use Rattle.ivory_tree.specs.Formed.{FormedItem, FormedBitField};
ghost use Rattle.ivory_tree.specs.View as text;
ghost use Rattle.item_maker.specs.Making as makings;
ghost use Rattle.item_maker.specs.Making.{so_far, with_items};

use crate::areas::area;
use crate::headers::{enter_header, import};
use crate::layouts::layout;
use crate::places::begin;
use crate::procedures::procedure;
use alloc_effects::Allowed;
use bit_data::BitLayout;
use core_maker::Place;
use core_tree::{CoreArea, CoreImport, CoreProc};
use item_rules::declare;
use iv_words::{Memory, Seq};
use ivory_tree::{AreaItem, BitsItem, Header, Item, ProcItem};
use name_lists::NameList;
use rule_checker::{Context, no_items};
use std::alloc::Global;

/// The cores of the items so far, what they declare, and the number of the next check.
#[derive(Drop)]
pub struct Making {
    pub place: Place,
    pub layouts: Seq<BitLayout>,
    pub areas: Seq<CoreArea>,
    pub imports: Seq<CoreImport>,
    pub procs: Seq<CoreProc>,
    pub next: u32,
}

fn add_layout(alloc: Global, making: &mut Making, item: &BitsItem) -> Result<(), Memory>
    requires { All FormedBitField item.now.fields }
    ensures { OnOk result (so_far making.new ≡ makings.with_layout (so_far making.old) item.now) }
{
    making.layouts.push(layout(alloc, item)?)
}

fn add_area(alloc: Global, making: &mut Making, item: &AreaItem) -> Result<(), Memory>
    ensures { OnOk result (so_far making.new ≡ makings.with_area (so_far making.old) (text.global_of item.now)) }
{
    begin(alloc, &mut making.place, Seq::new(alloc));
    let made = area(alloc, &making.place, item)?;
    making.areas.push(made)
}

fn add_import(alloc: Global, making: &mut Making, header: &Header) -> Result<(), Memory>
    ensures { OnOk result (so_far making.new ≡ makings.with_import (so_far making.old) (text.header_of header.now)) }
{
    enter_header(alloc, &mut making.place, header)?;
    let made = import(alloc, &making.place, header)?;
    making.imports.push(made)
}

fn add_procedure(alloc: Global, making: &mut Making, item: &ProcItem) -> Result<(), Memory>
    ensures { OnOk result (so_far making.new ≡ makings.with_proc (so_far making.old) (text.proc_of item.now)) }
{
    let made = procedure(alloc, &mut making.place, item, &mut making.next)?;
    making.procs.push(made)
}

/// The core of an item.
fn add_core(alloc: Global, making: &mut Making, item: &Item) -> Result<(), Memory>
    requires { FormedItem (text.item_of item.now) }
    ensures { OnOk result (so_far making.new ≡ makings.with_core (so_far making.old) (text.item_of item.now)) }
{
    match item {
        Item::Bits(item) => add_layout(alloc, making, item),
        Item::Struct(_) => Ok(()),
        Item::Area(item) => add_area(alloc, making, item),
        Item::Import(header) => add_import(alloc, making, header),
        Item::Proc(item) => add_procedure(alloc, making, item),
    }
}

/// The core of an item, and what it declares.
fn add_item(alloc: Global, making: &mut Making, item: &Item) -> Result<(), Memory>
    requires { FormedItem (text.item_of item.now) }
    ensures { OnOk result (so_far making.new ≡ makings.with_item (so_far making.old) (text.item_of item.now)) }
{
    add_core(alloc, making, item)?;
    declare(alloc, &mut making.place.context.items, item)
}

/// Before the first item of a module in which these are the names of areas, imports and procedures.
fn nothing_made(alloc: Global, names: NameList) -> Making
    ensures { so_far result ≡ makings.nothing_made names }
{
    let context = Context {
        items: no_items(alloc),
        names,
        regions: Seq::new(alloc),
        gives: false,
        result: None,
        in_ensures: false,
        allowed: Allowed {
            may_alloc: false,
            may_break: false,
            may_return: false,
        },
        scope: Seq::new(alloc),
    };
    Making {
        place: Place {
            context,
            numbers: Seq::new(alloc),
            locals: Seq::new(alloc),
        },
        layouts: Seq::new(alloc),
        areas: Seq::new(alloc),
        imports: Seq::new(alloc),
        procs: Seq::new(alloc),
        next: 0,
    }
}

fn add_items(alloc: Global, making: &mut Making, items: &[Item]) -> Result<(), Memory>
    requires { All FormedItem (map text.item_of items.now) }
    ensures { OnOk result (so_far making.new ≡ with_items (so_far making.old) (map text.item_of items.now)) }
{
    for item in items {
        add_item(alloc, making, item)?;
    }
    Ok(())
}

/// The cores of all items of a module in which these are the names of areas, imports and procedures.
pub fn item_cores(alloc: Global, names: NameList, items: &[Item]) -> Result<Making, Memory>
    requires { All FormedItem (map text.item_of items.now) }
    ensures { IfOk result (λ making. so_far making ≡ with_items (makings.nothing_made names) (map text.item_of items.now)) }
{
    let mut making = nothing_made(alloc, names);
    add_items(alloc, &mut making, items)?;
    Ok(making)
}
