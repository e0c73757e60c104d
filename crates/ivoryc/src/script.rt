//! Scripts that fit what is run.

ghost use Rattle.std.specs.Prelude.{◌≤◌, length};
ghost use Rattle.iv_script.specs.ScriptText.{script_limit};
ghost use Rattle.ivoryc.specs.Steps.{ScriptFor};

use crate::input_fault::InputFault;
use crate::refusal::Refusal;
use iv_script::{Script, fit_script, read_script};
use iv_words::Seq;
use run_records::Export;
use std::alloc::Global;

/// The script that a text says, where it fits what is exported.
pub fn script_for(alloc: Global, exports: &Seq<Export>, said: &[u8]) -> Result<Script, Refusal>
    requires { length said.now ≤ script_limit }
    ensures { ScriptFor exports.now said.now result }
{
    let script = read_script(alloc, said)?;
    match fit_script(&script, exports) {
        Ok(()) => Ok(script),
        Err(fault) => Err(Refusal::Input(InputFault::Script(fault))),
    }
}
