//! The law of right units, for the layers above: a call of it brings its clause.

ghost use Rattle.c_soundness.specs.Laws.{NeverStuckLaws};
ghost use Rattle.c_soundness.specs.Examples.{NeededRules, RightUnit, SubsetIsNeeded};

/// No run of a right unit is ever stuck, whatever fitting script it is given.
pub fn never_stuck()
    ensures { NeverStuckLaws }
{}

/// Units that break one rule, and are stuck; one that breaks none; and one that breaks none, is not of the subset, and is stuck.
#[tactic(auto, unfolding(type_trees::specs::Multiples::up))]
pub fn rule_examples()
    ensures needed { NeededRules }
    ensures right { RightUnit }
    ensures subset { SubsetIsNeeded }
{}
