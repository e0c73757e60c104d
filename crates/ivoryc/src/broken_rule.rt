//! A broken rule of a module, by the lines and columns between which it is broken.

ghost use Rattle.std.specs.Prelude.{◌≡◌, ◌≤◌, length};
ghost use Rattle.ivory_lexer.specs.Limits.{source_limit};
ghost use Rattle.ivoryc.specs.Causes.{placed_rule};
ghost use Rattle.ivoryc.specs.Texts.{rule_line};

use crate::place::Place;
use arrayvec::ArrayString;
use itoa::Buffer;
use rule_checker::RuleFault;

/// A line has four numbers of ten digits at most, one of three, and eleven bytes besides.
const LONGEST_LINE: usize = 56;

/// A rule, by its number, and the places where what breaks it begins and ends.
#[derive(Clone, Copy, Debug, Drop, PartialEq, Eq)]
pub struct BrokenRule {
    pub start: Place,
    pub end: Place,
    pub rule: u8,
}

impl BrokenRule {
    /// A fault of the module of a text.
    pub fn at(text: &[u8], fault: RuleFault) -> BrokenRule
        requires { length text.now ≤ source_limit }
        ensures { result ≡ placed_rule text.now fault }
    {
        BrokenRule {
            start: Place::of(text, fault.span.start),
            end: Place::of(text, fault.span.end),
            rule: fault.rule,
        }
    }

    /// The line of the fault, `LINE:COLUMN-LINE:COLUMN: rule K` and a line end.
    pub fn text(&self) -> ArrayString<LONGEST_LINE>
        ensures { result.bytes ≡ rule_line self.now.start self.now.end self.now.rule }
    {
        let mut number = Buffer::new();
        let mut text = ArrayString::new();
        text.push_str(number.format(self.start.line));
        text.push_str(":");
        text.push_str(number.format(self.start.column));
        text.push_str("-");
        text.push_str(number.format(self.end.line));
        text.push_str(":");
        text.push_str(number.format(self.end.column));
        text.push_str(": rule ");
        text.push_str(number.format(self.rule));
        text.push_str("\n");
        text
    }
}
