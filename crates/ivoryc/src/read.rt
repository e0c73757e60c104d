//! Module texts, read as well typed modules or refused.

ghost use Rattle.std.specs.Prelude.{◌≡◌, ◌≤◌, length};
ghost use Rattle.ivory_lexer.specs.Limits.{source_limit};
ghost use Rattle.module_text.specs.Verdicts.{Reads, Judged};
ghost use Rattle.ivoryc.specs.Causes.{placed_rule};
ghost use Rattle.ivoryc.specs.Steps.{Checked, ReadCore};
ghost use Rattle.ivoryc.specs.declared.input_fault.InputFault.TheVariants.{Rule};
ghost use Rattle.ivoryc.specs.declared.refusal.Refusal.TheVariants.{Input};

use crate::broken_rule::BrokenRule;
use crate::input_fault::InputFault;
use crate::refusal::Refusal;
use core_tree::Core;
use item_rules::first_fault;
use iv_checker::{CheckError, check};
use ivory_tree::Module;
use module_text::read_module;
use rule_checker::RuleFault;
use std::alloc::Global;

/// Refuses a text that is none of a well typed module.
pub fn read_well_typed(alloc: Global, text: &[u8]) -> Result<(), Refusal>
    ensures { Checked text.now result }
{
    let tree = read_module(alloc, text)?;
    keep_rules(alloc, text, &tree)
}

/// Refuses a module that breaks a rule, with its first fault.
pub fn keep_rules(alloc: Global, text: &[u8], tree: &Module) -> Result<(), Refusal>
    requires { Judged text.now (Reads tree.now) }
    ensures { Checked text.now result }
{
    match first_fault(alloc, tree)? {
        None => Ok(()),
        Some(fault) => Err(broken(text, fault)),
    }
}

/// The core that a text stands for.
pub fn read_core(alloc: Global, text: &[u8]) -> Result<Core, Refusal>
    ensures { ReadCore text.now result }
{
    let tree = read_module(alloc, text)?;
    core_of_tree(alloc, text, &tree)
}

/// The core of a module.
fn core_of_tree(alloc: Global, text: &[u8], tree: &Module) -> Result<Core, Refusal>
    requires { Judged text.now (Reads tree.now) }
    ensures { ReadCore text.now result }
{
    match check(alloc, tree) {
        Ok(core) => Ok(core),
        Err(CheckError::Rule(fault)) => Err(broken(text, fault)),
        Err(CheckError::Memory) => Err(Refusal::Memory),
    }
}

/// What a broken rule is refused with.
fn broken(text: &[u8], fault: RuleFault) -> Refusal
    requires { length text.now ≤ source_limit }
    ensures { result ≡ Input (Rule (placed_rule text.now fault)) }
{
    Refusal::Input(InputFault::Rule(BrokenRule::at(text, fault)))
}
