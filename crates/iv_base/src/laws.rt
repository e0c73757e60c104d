//! Laws of sinks, for the layers above: a call of one brings its clause.

ghost use Rattle.iv_base.specs.Sinks.{AddsBoth, CountsBoth, PartOfFirst, PartOfSecond};

/// Two texts put one after the other add their joined text.
#[tactic(auto, using(crate::proofs::Prefixes::grown_grown))]
pub fn adds_both()
    ensures { AddsBoth }
{}

/// Two texts put one after the other count as their joined text.
pub fn counts_both()
    ensures { CountsBoth }
{}

/// A front of the first of two texts is a front of their joined text.
#[tactic(auto, using(crate::proofs::Prefixes::part_of_first))]
pub fn part_of_first()
    ensures { PartOfFirst }
{}

/// The first of two texts with a front of the second is a front of their joined text.
#[tactic(auto, using(crate::proofs::Prefixes::part_of_second))]
pub fn part_of_second()
    ensures { PartOfSecond }
{}
