//! Whole scripts.

ghost use Rattle.std.specs.Prelude.{◌≡◌, ◌≤◌, length, OnOk};
ghost use Rattle.iv_script.specs.Answers.{Answers};
ghost use Rattle.iv_script.specs.ScriptText.{script_limit, script_of};
ghost use Rattle.iv_script.specs.Cuts.{said_behind};

use crate::cut::cut_line;
use crate::fault::ScriptError;
use crate::line::{Line, read_line};
use iv_words::{Memory, Seq};
use run_records::{EntryCall, Reply, Script};
use std::alloc::Global;

/// Adds what a line says at the end of a script.
fn add(script: &mut Script, number: u32, line: Line) -> Result<(), Memory>
    ensures { OnOk result (script.new ≡ said_behind number line script.old) }
{
    match line {
        Line::Nothing => Ok(()),
        Line::Call(name, values) => script.calls.push(EntryCall {
            name,
            values,
            line: number,
        }),
        Line::Reply(values) => script.replies.push(Reply {
            values,
            line: number,
        }),
    }
}

/// Reads the text of a script.
///
/// Its lines end at byte 10, and one byte 13 at a line's end is dropped. A line of words `call NAME V V ..` is an entry
/// call, and one of words `reply V V ..` a reply; blanks and lines that begin with `#` say nothing.
///
/// # Errors
///
/// The first bad line: another first word, `call` without a name, or a value that is no number. Else want of memory.
#[tactic(auto, using(crate::proofs::Reading::none_before, crate::proofs::Reading::none_left))]
pub fn read_script(alloc: Global, bytes: &[u8]) -> Result<Script, ScriptError>
    requires { length bytes.now ≤ script_limit }
    ensures { Answers (script_of bytes.now) result }
{
    let mut script = Script {
        calls: Seq::new(alloc),
        replies: Seq::new(alloc),
    };
    let mut number = 0;
    let mut rest = Some(bytes);
    while let Some(text) = rest {
        let (line, more) = cut_line(text);
        number += 1;
        add(&mut script, number, read_line(alloc, number, line)?)?;
        rest = more;
    }
    Ok(script)
}
