//! Faults: the number of a rule, and the place where it is broken.

ghost use Rattle.std.specs.Prelude.{◌≡◌};
ghost use Rattle.rule_checker.specs.Faults.{found, at_place, either};

use iv_words::Span;

/// A rule, by its number, and the place of the node at which it is broken.
#[derive(Clone, Copy, Debug, Drop, PartialEq, Eq)]
pub struct RuleFault {
    pub rule: u8,
    pub span: Span,
}

/// The fault of a node: its own broken rule, else the fault within it.
pub fn at_place(rule: Option<u8>, span: Span, within: Option<RuleFault>) -> Option<RuleFault>
    ensures { found result ≡ at_place rule span (found within) }
{
    match rule {
        Some(rule) => Some(RuleFault { rule, span }),
        None => within,
    }
}

/// The first of two faults in the order of the text.
pub fn either(first: Option<RuleFault>, second: Option<RuleFault>) -> Option<RuleFault>
    ensures { found result ≡ either (found first) (found second) }
{
    match first {
        Some(fault) => Some(fault),
        None => second,
    }
}
