ghost use Rattle.c_ast.specs.View.{unit_of};
ghost use Rattle.c_text.specs.Spelling.{unit_text};
ghost use Rattle.c_text.specs.Subset.{InSubset};
ghost use Rattle.module_text.specs.Verdicts.{Reads, Judged};
ghost use Rattle.ivoryc.specs.Calls.{change_of, store_seen, sink_seen};
ghost use Rattle.ivoryc.specs.Headline.{IsOfNoFirstForm};
ghost use Rattle.ivoryc.specs.ModuleAnswers.{Emits};
ghost use Rattle.ivoryc.specs.Steps.{LoadsFor, Made, NoUnit, Performed, Does, Written};
ghost use Rattle.ivoryc.specs.declared.command.Command.TheVariants.{Emit};

use crate::input_fault::InputFault;
use crate::load::load;
use crate::read::keep_rules;
use crate::refusal::Refusal;
use c_ast::{CUnit, Target};
use c_lower::lower;
use c_writer::write_unit;
use first_form::{FirstModule, first_form};
use iv_base::{Sink, Store};
use iv_words::Word;
use ivory_tree::Module;
use module_text::{SOURCE_LIMIT, read_module};
use std::alloc::Global;

/// Writes the C text of the module in a file.
pub fn emit<S: Store, K: Sink>(
    alloc: Global,
    file: &Word,
    store: &mut S,
    out: &mut K,
) -> Result<(), Refusal>
    ensures loads { LoadsFor (Emit file.now) (change_of (store_seen S.holds S.loads S.faults) store.old store.new) }
    ensures performed { Performed (Emit file.now) (change_of (store_seen S.holds S.loads S.faults) store.old store.new) (change_of (sink_seen K.held K.taken K.faults) out.old out.new) result }
{
    let text = load(alloc, file, SOURCE_LIMIT, store)?;
    emit_text(alloc, text.as_slice(), out)
}

/// Writes the C text of the module of a text.
fn emit_text<K: Sink>(alloc: Global, text: &[u8], out: &mut K) -> Result<(), Refusal>
    ensures { Does (Emits text.now) (change_of (sink_seen K.held K.taken K.faults) out.old out.new) result }
{
    let unit = compile(alloc, text)?;
    let written = write(&unit, out);
    give_up_unit(unit);
    written
}

/// The C unit of a module text.
fn compile(alloc: Global, text: &[u8]) -> Result<CUnit, Refusal>
    ensures { Made text.now result }
{
    let tree = read_module(alloc, text)?;
    match first_form(alloc, &tree)? {
        Some(module) => {
            give_up_tree(tree);
            let unit = lower(alloc, &module, Target::T32)?;
            give_up_module(module);
            Ok(unit)
        }
        None => Err(why_not(alloc, text, &tree)),
    }
}

/// Why a module that is not of the first form is not compiled: the first rule that it breaks, or that its form is not built yet.
fn why_not(alloc: Global, text: &[u8], tree: &Module) -> Refusal
    requires read { Judged text.now (Reads tree.now) }
    requires none { IsOfNoFirstForm text.now }
    ensures { NoUnit text.now result }
{
    match keep_rules(alloc, text, tree) {
        Ok(()) => Refusal::Input(InputFault::NotBuilt),
        Err(refusal) => refusal,
    }
}

// The call is the last that the program does: to free what is left of it, part by part, would take a seventh of a run.

fn give_up_tree(tree: Module) {
    let Module {
        name: _,
        items,
        span: _,
    } = tree;
    items.leak();
}

fn give_up_module(module: FirstModule) {
    let FirstModule { imports, procs } = module;
    imports.leak();
    procs.leak();
}

fn give_up_unit(unit: CUnit) {
    let CUnit {
        structs: _,
        externs,
        objects: _,
        functions,
    } = unit;
    externs.leak();
    functions.leak();
}

/// Writes the text of a unit.
fn write<K: Sink>(unit: &CUnit, out: &mut K) -> Result<(), Refusal>
    requires { InSubset (unit_of unit.now) }
    ensures { Written (unit_text (unit_of unit.now)) (change_of (sink_seen K.held K.taken K.faults) out.old out.new) result }
{
    Ok(write_unit(unit, out)?)
}
