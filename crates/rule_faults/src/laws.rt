//! What the definition of the first fault says, and of small modules which fault it gives.

ghost use Rattle.rule_faults.specs.Laws.{Found, Complete, Unique, NoneIsFaultless, FaultlessIsNone};
ghost use Rattle.rule_faults.specs.Examples as example;

/// A module has at most one first fault, and a search finds it; where it finds none, no node breaks a rule.
#[tactic(auto, using(crate::proofs::Found::laws))]
pub fn first_fault_laws()
    ensures found { Found }
    ensures complete { Complete }
    ensures unique { Unique }
    ensures sound { NoneIsFaultless }
    ensures none { FaultlessIsNone }
{}

/// References stay in their regions.
#[tactic(auto, using(crate::proofs::Examples::examples))]
pub fn region_examples()
    ensures own { example.OwnIsNotReturned }
    ensures clash { example.TwoRegionsClash }
{}

/// What literals are.
#[tactic(auto, using(crate::proofs::Examples::examples))]
pub fn literal_examples()
    ensures nothing { example.NothingIsWanted }
    ensures great { example.LiteralIsTooGreat }
{}

/// Paths and permissions, scopes, and bit data.
#[tactic(auto, using(crate::proofs::Examples::examples))]
pub fn item_examples()
    ensures narrowed { example.NarrowedBreak }
    ensures falls { example.BodyFallsThrough }
    ensures scope { example.ElseBlockEnds }
    ensures later { example.LaterIsNotCalled }
    ensures widths { example.WidthsMissTheWord }
{}

/// Of two faults the outer counts, and at one node the lesser rule.
#[tactic(auto, using(crate::proofs::Examples::examples))]
pub fn order_examples()
    ensures least { example.LeastRuleCounts }
    ensures outer { example.OuterNodeCounts }
    ensures order { example.NodesAreInOrder }
{}
