ghost use Rattle.ivory_tree.specs.Laws.{TypesStay, AreasStay, ExprsStay, StmtsStay, BlocksStay};
ghost use Rattle.ivory_tree.specs.Examples as example;

/// A tree stands in the abstract syntax at its own place.
#[tactic(auto, using(crate::proofs::Places::places))]
pub fn place_laws()
    ensures types { TypesStay }
    ensures areas { AreasStay }
    ensures exprs { ExprsStay }
    ensures stmts { StmtsStay }
    ensures blocks { BlocksStay }
{}

/// Each prefix of a chain or postfix is a node of its own.
pub fn prefix_examples()
    ensures chain { example.SumNests }
    ensures chain_nodes { example.SumHasFiveNodes }
    ensures postfix { example.PartNests }
    ensures postfix_nodes { example.PartHasFourNodes }
{}

/// Which names are in a tree, and how deep it is.
pub fn text_examples()
    ensures names { example.PartHasTwoNames }
    ensures deep { example.LogicIsTwoDeep }
    ensures flat { example.LogicIsOneDeep }
{}

/// Which trees have the form of one that a text spells.
#[tactic(auto, using(crate::proofs::Examples::forms))]
pub fn form_examples()
    ensures chain { example.SumIsFormed }
    ensures links { example.ChainsHaveLinks }
    ensures steps { example.PostfixesHaveSteps }
    ensures between { example.OperatorsStandBetween }
    ensures stored { example.NoStoredReferences }
    ensures apart { example.NoOverlap }
    ensures within { example.WithinTheOuter }
    ensures some { example.NotEmpty }
{}
