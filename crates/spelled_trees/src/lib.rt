//! What holds of every tree that tokens spell, whatever reads them: the form and the places of its nodes, how many they are, its
//! names, and how deep it is. The functions do nothing: each carries a theorem, which follows from the grammar by induction.
#![tactic(auto)]

ghost use Rattle.spelled_trees.specs.Laws.{ShallowTreesAreOfTokens, ShallowTreesAreTextLike, SpelledTreesAreFormed, SpelledTreesHaveFewNodes};

/// A tree that tokens in order spell has the form of one, and each node stands where its tokens stand, however deep it nests.
#[tactic(auto, using(crate::proofs::Modules::formed))]
pub fn spelled_trees_are_formed()
    ensures { SpelledTreesAreFormed }
{}

/// It has at most eight nodes for each token, the module aside, however deep it nests.
#[tactic(auto, using(crate::proofs::Modules::few_nodes))]
pub fn spelled_trees_have_few_nodes()
    ensures { SpelledTreesHaveFewNodes }
{}

/// Where no token nests deeper than a text may, the names in the tree are names, and at most 98 blocks, right operands of `&&`
/// and `||` and arms of `?:` are open at one place.
#[tactic(auto, using(crate::proofs::Modules::text_like))]
pub fn shallow_trees_are_text_like()
    ensures { ShallowTreesAreTextLike }
{}

/// All of this at once.
pub fn shallow_trees_are_of_tokens()
    ensures { ShallowTreesAreOfTokens }
{}
