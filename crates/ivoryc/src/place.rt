//! Places of a text by line and column.

ghost use Rattle.std.specs.Prelude.{◌≡◌, ◌≤◌, ℕ, List, length};
ghost use Rattle.ivory_lexer.specs.Limits.{source_limit};
ghost use Rattle.ivoryc.specs.Texts.{place_in, Stands};

use iv_words::line_of;

/// A place of a text. Lines and columns count from 1.
#[derive(Clone, Copy, Debug, Drop, PartialEq, Eq)]
pub struct Place {
    pub line: u32,
    pub column: u32,
}

impl Place {
    /// The place of a byte; one past the text's end stands for the end.
    #[tactic(auto, using(std::proofs::lemmas::List::take_min))]
    pub fn of(text: &[u8], at: u32) -> Place
        requires { length text.now ≤ source_limit }
        ensures { result ≡ place_in text.now at }
    {
        let (line, column) = line_of(text, at.min(text.len() as u32));
        Place { line, column }
    }

    /// The place of a later byte.
    #[tactic(auto, using(iv_words::proofs::Columns::one_more))]
    fn later(self, text: &[u8], from: u32, to: u32) -> Place
        requires order { from ≤ to }
        requires within { to ≤ length text.now }
        requires limit { length text.now ≤ source_limit }
        requires stands { self ≡ place_in text.now from }
        ensures { result ≡ place_in text.now to }
    {
        let mut line = self.line;
        let mut column = self.column;
        for byte in &text[from as usize..to as usize] {
            if *byte == b'\n' {
                line += 1;
                column = 1;
            } else {
                column += 1;
            }
        }
        Place { line, column }
    }
}

/// A place of a text, with the number of bytes before it.
#[derive(Clone, Copy, Debug, Drop, PartialEq, Eq)]
pub struct Reached {
    before: u32,
    pub place: Place,
}

impl Reached {
    /// The start of any text.
    pub fn start() -> Reached
        ensures start { result.before ≡ 0 }
        ensures stands { (text : List ℕ) → Stands text result }
    {
        Reached {
            before: 0,
            place: Place { line: 1, column: 1 },
        }
    }

    /// The place of a byte; one past the text's end stands for the end.
    #[tactic(auto, using(std::proofs::lemmas::List::take_min))]
    pub fn moved(self, text: &[u8], at: u32) -> Reached
        requires limit { length text.now ≤ source_limit }
        requires stands { Stands text.now self }
        ensures stands { Stands text.now result }
        ensures place { result.place ≡ place_in text.now at }
    {
        let to = at.min(text.len() as u32);
        let from = self.not_behind(text, to);
        Reached {
            before: to,
            place: from.place.later(text, from.before, to),
        }
    }

    /// Itself, or else the text's start: a place from which a byte lies ahead.
    fn not_behind(self, text: &[u8], to: u32) -> Reached
        requires stands { Stands text.now self }
        ensures stands { Stands text.now result }
        ensures ahead { result.before ≤ to }
    {
        if self.before <= to {
            self
        } else {
            Reached::start()
        }
    }
}
