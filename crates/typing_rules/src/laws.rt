//! A small module with its core, a module with calls, and what is not well typed.

ghost use Rattle.typing_rules.specs.Examples as example;
ghost use Rattle.typing_rules.specs.Picked.{PickedStands};

/// The module stands for its core, and the prefixes of a chain are told from chains of their own.
#[tactic(auto, using(crate::proofs::Examples::examples))]
pub fn module_example()
    ensures added { example.AddedStands }
    ensures prefixes { example.PrefixesAreTold }
{}

/// A module with calls, blocks and areas stands for its core.
#[tactic(auto, using(crate::proofs::Picked::picked_law))]
pub fn region_example()
    ensures { PickedStands }
{}

/// Literals need types that hold them.
#[tactic(auto, using(crate::proofs::Examples::examples))]
pub fn literal_examples()
    ensures wanted { example.LiteralsWantTypes }
    ensures fit { example.LiteralsFit }
{}

/// What statements may do.
#[tactic(auto, using(crate::proofs::Examples::examples))]
pub fn statement_examples()
    ensures own { example.OwnStays }
    ensures breaks { example.BreaksAreAllowed }
    ensures ends { example.ReturnsEnd }
    ensures back { example.CallsGoBack }
{}

/// What an import may write.
#[tactic(auto, using(crate::proofs::Examples::indices_are_not_written))]
pub fn import_example()
    ensures { example.IndicesAreNotWritten }
{}
