//! Small blocks and their effects.

ghost use Rattle.alloc_effects.specs.Examples as example;

/// Which breaks, allocs and returns count.
pub fn effect_examples()
    ensures inner { example.InnerBreaksStay }
    ensures outer { example.BreaksLeave }
    ensures unreached { example.UnreachedCounts }
    ensures second { example.ElseCounts }
    ensures narrowed { example.NarrowedCounts }
{}
