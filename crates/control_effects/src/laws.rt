//! Small blocks: which fall through, and what is unreached in them.

ghost use Rattle.control_effects.specs.Examples as example;

/// Which blocks fall through.
pub fn falling_examples()
    ensures stay { example.LoopsStay }
    ensures leave { example.BreaksLeave }
    ensures inner { example.InnerBreaksStay }
    ensures ways { example.OneWayIsEnough }
{}

/// Which statements are unreached.
pub fn reaching_examples()
    ensures { example.TwoUnreached }
{}
