//! Laws of cores, and small cores, by which the definitions are held fast.

ghost use Rattle.core_tree.specs.Laws.{SitesAreOneRow, ExportsAreAll};
ghost use Rattle.core_tree.specs.Examples as example;
ghost use Rattle.core_tree.specs.PickExample.{PickIsValid};

/// The same checks are one row of sites at most.
pub fn sites_are_one_row()
    ensures { SitesAreOneRow }
{}

/// Each exported procedure of a core is an export, in order.
pub fn exports_are_all()
    ensures { ExportsAreAll }
{}

/// A chain is nested to the left, and so is a postfix.
pub fn nesting_examples()
    ensures chain { example.ChainsNestLeft }
    ensures postfix { example.PostfixesNestLeft }
{}

/// A core that is valid, and cores that are not.
#[tactic(auto, using(crate::proofs::Examples::cores))]
pub fn core_examples()
    ensures adder { example.AdderIsValid }
    ensures numbers { example.NumbersFollowTokens }
    ensures own { example.OwnStays }
    ensures calls { example.CallsGoBack }
    ensures division { example.DivisorsComeFirst }
{}

/// A core with references that is valid.
#[tactic(auto, using(crate::proofs::PickExample::pick_is_valid))]
pub fn pick_example()
    ensures { PickIsValid }
{}
