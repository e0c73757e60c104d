//! Whether the calls of a script fit what a module exports.

ghost use Rattle.std.specs.Prelude.{◌≡◌, ◌↔◌, length, IsOk};
ghost use Rattle.std.specs.Option.{option_copied};
ghost use Rattle.run_records.specs.Scripts.{plain_fits, values_fit, export_of, Fits};
ghost use Rattle.iv_script.specs.Fit.{why_unfit, fit_of};

use crate::fault::{ScriptFault, ScriptWhy};
use int_ops::fits;
use iv_words::{Seq, Word};
use run_records::{EntryCall, Export, Plain, Script};

/// Whether a number is a value of the type.
fn plain_fits(plain: Plain, value: &i128) -> bool
    ensures { result ≡ plain_fits plain value.now }
{
    match plain {
        Plain::Truth => 0 <= *value && *value <= 1,
        Plain::Int(kind) => fits(kind, *value),
    }
}

/// Whether each of as many values is of its type.
#[tactic(auto, using(crate::proofs::Fitting::values_more))]
fn values_fit(plains: &[Plain], values: &[i128]) -> bool
    requires { length values.now ≡ length plains.now }
    ensures { result ≡ values_fit plains.now values.now }
{
    for (at, plain) in plains.iter().enumerate() {
        if !plain_fits(*plain, &values[at]) {
            return false;
        }
    }
    true
}

/// The first export of the name.
#[tactic(auto, using(crate::proofs::Fitting::export_more))]
fn export_of<'a>(name: &Word, exports: &'a [Export]) -> Option<&'a Export>
    ensures { option_copied result ≡ export_of name.now exports.now }
{
    for export in exports {
        if export.name == *name {
            return Some(export);
        }
    }
    None
}

/// Why a call does not fit the exports, if it does not.
fn why_unfit(call: &EntryCall, exports: &[Export]) -> Option<ScriptWhy>
    ensures { result ≡ why_unfit (export_of call.now.name exports.now) call.now.values }
{
    match export_of(&call.name, exports) {
        None => Some(ScriptWhy::NoSuchName),
        Some(export) => {
            if call.values.len() != export.params.len() {
                Some(ScriptWhy::BadCount)
            } else if values_fit(export.params.as_slice(), call.values.as_slice()) {
                None
            } else {
                Some(ScriptWhy::OutOfRange)
            }
        }
    }
}

/// The first of the calls that does not fit, if there is one.
#[tactic(auto, using(crate::proofs::Fitting::fit_more))]
fn fit_calls(calls: &[EntryCall], exports: &[Export]) -> Result<(), ScriptFault>
    ensures { result ≡ fit_of calls.now exports.now }
{
    for call in calls {
        if let Some(why) = why_unfit(call, exports) {
            return Err(ScriptFault {
                line: call.line,
                why,
            });
        }
    }
    Ok(())
}

/// Whether each call of a script names an export, with as many values as it has parameters, each in its type.
///
/// Of two exports of one name the first counts. Replies are not looked at. It takes no memory.
///
/// # Errors
///
/// The first call that does not fit, with the first of these that holds of it: no export has the name, the number of values
/// differs, or a value is none of its type.
pub fn fit_script(script: &Script, exports: &Seq<Export>) -> Result<(), ScriptFault>
    ensures first { result ≡ fit_of script.now.calls exports.now }
    ensures fits { IsOk result ↔ Fits script.now exports.now }
{
    fit_calls(script.calls.as_slice(), exports.as_slice())
}
