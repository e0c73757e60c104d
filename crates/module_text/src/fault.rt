//! A fault of a text: where it is, and what is wrong there.

ghost use Rattle.std.specs.Prelude.{◌≡◌, ◌≤◌, ◌+◌, ◌++◌, ◌∷◌, [], length, OnOk, OnErr};
ghost use Rattle.ivory_lexer.specs.Limits.{source_limit};
ghost use Rattle.iv_base.specs.Counts.{capped};
ghost use Rattle.iv_base.specs.Sinks.{grown, GrewByPrefix, HasCause};
ghost use Rattle.module_text.specs.Lines.{words_of, fault_line, fault_at};

use arrayvec::ArrayString;
use itoa::Buffer;
use iv_base::{Sink, SinkFault};
use iv_words::line_of;

/// A line has two numbers of ten digits at most, three bytes between, and the words.
const LONGEST_LINE: usize = 40;

/// What is wrong at a place of a text.
#[derive(Clone, Copy, Debug, Drop, PartialEq, Eq)]
pub enum Why {
    BadByte,
    LongName,
    BigLiteral,
    OpenComment,
    Unexpected,
    TooDeep,
}

/// A fault of a text. Lines and columns count from 1.
#[derive(Clone, Copy, Debug, Drop, PartialEq, Eq)]
pub struct Fault {
    pub line: u32,
    pub column: u32,
    pub why: Why,
}

/// Why a text has no tree.
#[derive(Clone, Copy, Debug, Drop, PartialEq, Eq)]
pub enum TextFault {
    /// It is longer than a module's text may be.
    TooLarge,
    /// Its first fault.
    At(Fault),
    /// Want of memory, which says nothing of the text.
    Memory,
}

impl Fault {
    /// The fault at a place of a text, in bytes from its start.
    pub fn at(text: &[u8], at: u32, why: Why) -> Fault
        requires within { at ≤ length text.now }
        requires small { length text.now ≤ source_limit }
        ensures { result ≡ fault_at text.now at why }
    {
        let (line, column) = line_of(text, at);
        Fault { line, column, why }
    }

    /// Puts the line of the fault, `LINE:COLUMN: WHY` and a line end, in one piece. It refuses as `put` does.
    pub fn put<E: Sink>(&self, err: &mut E) -> Result<(), SinkFault>
        ensures held { OnOk result (E.held err.new ≡ grown (E.held err.old) (fault_line self.now)) }
        ensures taken { OnOk result (E.taken err.new ≡ capped (E.taken err.old + length (fault_line self.now))) }
        ensures part { OnErr result (GrewByPrefix (E.held err.old) (E.held err.new) (fault_line self.now)) }
        ensures cause { HasCause (E.faults err.old) (E.faults err.new) result }
    {
        err.put(self.text().as_bytes())
    }

    /// The line of the fault.
    fn text(&self) -> ArrayString<LONGEST_LINE>
        ensures { result.bytes ≡ fault_line self.now }
    {
        let mut number = Buffer::new();
        let mut text = ArrayString::new();
        text.push_str(number.format(self.line));
        text.push_str(":");
        text.push_str(number.format(self.column));
        text.push_str(": ");
        text.push_str(words(self.why));
        text
    }
}

/// What is wrong, in words, and a line end.
fn words(why: Why) -> &'static str
    ensures is { result.now ≡ words_of why ++ 10 ∷ [] }
    ensures short { length result.now ≤ 17 }
{
    match why {
        Why::BadByte => "bad byte\n",
        Why::LongName => "long name\n",
        Why::BigLiteral => "big literal\n",
        Why::OpenComment => "open comment\n",
        Why::Unexpected => "unexpected token\n",
        Why::TooDeep => "too deep\n",
    }
}
