ghost use Rattle.std.specs.Prelude.{◌≡◌, IfOk};
ghost use Rattle.first_form.specs.Valid.{Valid};
ghost use Rattle.c_ast.specs.View.{unit_of};
ghost use Rattle.c_lower.specs.Compiled.{Compiled, ExportsAgree};
ghost use Rattle.c_lower.specs.Lowered as spec;

use crate::import::externs_for;
use crate::procedure::functions_for;
use c_ast::{CUnit, Target};
use first_form::FirstModule;
use iv_words::{Memory, Seq};
use std::alloc::Global;

/// The unit with an `extern` for each import and a function for each procedure.
fn lowered(alloc: Global, core: &FirstModule) -> Result<CUnit, Memory>
    ensures { IfOk result (λ u. unit_of u ≡ spec.lowered core.now) }
{
    let imports = core.imports.as_slice();
    Ok(CUnit {
        structs: Seq::new(alloc),
        externs: externs_for(alloc, imports)?,
        objects: Seq::new(alloc),
        functions: functions_for(alloc, imports, core.procs.as_slice())?,
    })
}

/// Compiles a module for a target: the unit has the module's shape and does what the module does, for every script and every
/// number of steps, and some text reads back as it. Refuses for want of memory alone.
pub fn lower(alloc: Global, core: &FirstModule, target: Target) -> Result<CUnit, Memory>
    requires { Valid core.now }
    ensures { IfOk result (λ u. Compiled core.now (unit_of u) target) }
{
    let _no_choice_yet = target;
    lowered(alloc, core)
}

/// A unit with a module's shape exports what the module exports.
pub fn units_export_what_modules_export()
    ensures { ExportsAgree }
{}
