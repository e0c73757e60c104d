//! How a bad line of a script is told.

ghost use Rattle.std.specs.Prelude.{◌≡◌, ◌≤◌, length};
ghost use Rattle.ivoryc.specs.Texts.{script_word, script_line, line};

use arrayvec::ArrayString;
use itoa::Buffer;
use iv_script::{ScriptFault, ScriptWhy};

/// A line has a number of ten digits at most, 14 bytes before and behind it, and a word.
const LONGEST_LINE: usize = 40;

/// The line of a fault, `script line N: WHY` and a line end.
pub fn script_text(fault: ScriptFault) -> ArrayString<LONGEST_LINE>
    ensures { result.bytes ≡ script_line fault }
{
    let mut number = Buffer::new();
    let mut text = ArrayString::new();
    text.push_str("script line ");
    text.push_str(number.format(fault.line));
    text.push_str(": ");
    text.push_str(word(fault.why));
    text
}

/// What is wrong, in a word, and a line end.
fn word(why: ScriptWhy) -> &'static str
    ensures is { result.now ≡ line (script_word why) }
    ensures short { length result.now ≤ 7 }
{
    match why {
        ScriptWhy::BadWord => "word\n",
        ScriptWhy::BadNumber => "number\n",
        ScriptWhy::NoSuchName => "name\n",
        ScriptWhy::BadCount => "count\n",
        ScriptWhy::OutOfRange => "range\n",
    }
}
