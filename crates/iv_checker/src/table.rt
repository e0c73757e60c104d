//! The table of the structs of a module.

ghost use Rattle.std.specs.Prelude.{◌≡◌, ◌++◌, IfOk, OnOk, IsTrue, map};
ghost use Rattle.area_types.specs.Tables.{structs_of, fit_after, is_table};
ghost use Rattle.area_types.specs.View.{struct_of};
ghost use Rattle.ivory_tree.specs.declared.BitsItem.{BitsItem as Bits};
ghost use Rattle.rule_checker.specs.Contexts.{earlier_of};
ghost use Rattle.source_types.specs.Environments.{words};

use area_types::{StructDef, StructTable};
use iv_words::Memory;
use ivory_tree::BitsItem;
use rule_checker::Items;
use std::alloc::Global;

/// Adds the words of bit data.
fn add_words(table: &mut StructTable, bits: &[BitsItem]) -> Result<(), Memory>
    ensures structs { OnOk result (table.new.structs ≡ table.old.structs) }
    ensures words { OnOk result (table.new.words ≡ table.old.words ++ map (λ (i : Bits). i.word) bits.now) }
{
    for item in bits {
        table.add_word(item.word)?;
    }
    Ok(())
}

/// Adds structs one after another.
fn add_structs(alloc: Global, table: &mut StructTable, structs: &[StructDef]) -> Result<(), Memory>
    requires { IsTrue (fit_after (structs_of table.old) table.old.words (map struct_of structs.now)) }
    ensures structs { OnOk result (table.new.structs ≡ table.old.structs ++ structs.now) }
    ensures words { OnOk result (table.new.words ≡ table.old.words) }
{
    for found in structs {
        let next = found.copy(alloc)?;
        table.add_struct(next)?;
    }
    Ok(())
}

/// The table of these structs and of the words of these bit data.
pub(crate) fn struct_table(alloc: Global, items: &Items) -> Result<StructTable, Memory>
    requires { IsTrue (is_table (earlier_of items.now).structs (words (earlier_of items.now))) }
    ensures structs { IfOk result (λ table. structs_of table ≡ (earlier_of items.now).structs) }
    ensures words { IfOk result (λ table. table.words ≡ words (earlier_of items.now)) }
{
    let mut table = StructTable::new(alloc);
    add_words(&mut table, items.bits.as_slice())?;
    add_structs(alloc, &mut table, items.structs.as_slice())?;
    Ok(table)
}
