//! The items of a module: their names, and how many imports stand first.

ghost use Rattle.std.specs.Prelude.{◌≡◌, ◌≤◌, length, map, IfOk};
ghost use Rattle.std.specs.List.{prefix_len};
ghost use Rattle.ivory_tree.specs.View.{item_of};
ghost use Rattle.first_form.specs.Parts as parts;
ghost use Rattle.first_form.specs.Stands as stands;

use iv_words::{Memory, Seq, Word};
use ivory_tree::Item;
use std::alloc::Global;

fn name_of(item: &Item) -> &Word
    ensures { result.now ≡ stands.name_of (item_of item.now) }
{
    match item {
        Item::Bits(item) => &item.name.text,
        Item::Struct(item) => &item.name.text,
        Item::Area(item) => &item.name.text,
        Item::Import(header) => &header.name.text,
        Item::Proc(item) => &item.header.name.text,
    }
}

/// The names of items, in order.
pub fn names_of(alloc: Global, items: &[Item]) -> Result<Seq<Word>, Memory>
    ensures { IfOk result (λ names. names ≡ stands.names_of (map item_of items.now)) }
{
    let mut names = Seq::with_capacity(alloc, items.len())?;
    for item in items {
        names.push(name_of(item).copy(alloc)?)?;
    }
    Ok(names)
}

fn is_import(item: &Item) -> bool
    ensures { result ≡ parts.is_import (item_of item.now) }
{
    matches!(item, Item::Import(_))
}

/// How many imports stand before any other item.
pub fn imports_first(items: &[Item]) -> usize
    ensures value { result ≡ prefix_len (λ item. parts.is_import (item_of item)) items.now }
    ensures within { result ≤ length items.now }
{
    let mut count = 0;
    for item in items {
        if !is_import(item) {
            return count;
        }
        count += 1;
    }
    count
}
