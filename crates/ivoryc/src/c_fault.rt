//! A fault of a C text, by line and column.

ghost use Rattle.std.specs.Prelude.{◌≡◌, ◌≤◌, length};
ghost use Rattle.c_reader.specs.Answers.{text_limit};
ghost use Rattle.ivoryc.specs.Causes.{placed};
ghost use Rattle.ivoryc.specs.Texts.{c_words, c_line, line};

use arrayvec::ArrayString;
use c_reader::{CFault, CWhy};
use itoa::Buffer;
use iv_words::line_of;

/// A line has two numbers of ten digits at most, three bytes between, and the words.
const LONGEST_LINE: usize = 40;

/// A fault of a C text. Lines and columns count from 1.
#[derive(Clone, Copy, Debug, Drop, PartialEq, Eq)]
pub struct CTextFault {
    pub line: u32,
    pub column: u32,
    pub why: CWhy,
}

impl CTextFault {
    /// A fault at a place of a text.
    pub fn at(text: &[u8], fault: CFault) -> CTextFault
        requires within { fault.at ≤ length text.now }
        requires short { length text.now ≤ text_limit }
        ensures { result ≡ placed text.now fault }
    {
        let (line, column) = line_of(text, fault.at);
        CTextFault {
            line,
            column,
            why: fault.why,
        }
    }

    /// The line of the fault, `LINE:COLUMN: WHY` and a line end.
    pub fn text(&self) -> ArrayString<LONGEST_LINE>
        ensures { result.bytes ≡ c_line self.now.line self.now.column self.now.why }
    {
        let mut number = Buffer::new();
        let mut text = ArrayString::new();
        text.push_str(number.format(self.line));
        text.push_str(":");
        text.push_str(number.format(self.column));
        text.push_str(": ");
        text.push_str(words(self.why));
        text
    }
}

/// What is wrong, in words, and a line end.
fn words(why: CWhy) -> &'static str
    ensures is { result.now ≡ line (c_words why) }
    ensures short { length result.now ≤ 17 }
{
    match why {
        CWhy::Syntax => "c syntax\n",
        CWhy::TooDeep => "c too deep\n",
        CWhy::BadName => "c name\n",
        CWhy::BadType => "c type\n",
    }
}
