ghost use Rattle.type_trees.specs.Laws.{LeastOffsets, ScalarsCounted, PartsInOrder, ScalarsAscend, PartsInRow, PartsWithin, PartsApart, PathsJoin, CellsCounted, PutsReplace};
ghost use Rattle.type_trees.specs.Examples.{MultipleExamples, TreeExamples, LayoutExamples, ValueExamples};

/// Members stand at the least offsets that their alignments allow.
pub fn members_stand_least()
    ensures { LeastOffsets }
{}

/// A type has as many scalars as its list of them, in which those of a part stand in a row.
pub fn part_laws<S, N>()
    ensures counted { ScalarsCounted S N }
    ensures order { PartsInOrder S N }
{}

/// Where the scalars of a type stand: in order of declaration, apart from one another and within the size, those of a part in
/// a row; two parts of one type are the same or apart, and a path behind another leads on from where that one ends.
pub fn layout_laws<S, N>()
    ensures order { ScalarsAscend S N }
    ensures row { PartsInRow S N }
    ensures within { PartsWithin S N }
    ensures apart { PartsApart S N }
    ensures paths { PathsJoin S N }
{}

/// A value of a type has a cell for each scalar, and to put another in the place of a part changes its cells alone.
pub fn value_laws<S, N, V>()
    ensures counted { CellsCounted S N V }
    ensures replaced { PutsReplace S N V }
{}

/// Some least multiples.
#[tactic(auto, unfolding(crate::specs::Multiples::up))]
pub fn multiple_examples()
    ensures { MultipleExamples }
{}

/// What some structs are made of.
pub fn tree_examples()
    ensures { TreeExamples }
{}

/// Where the scalars of some structs stand.
#[tactic(auto, unfolding(crate::specs::Multiples::up))]
pub fn layout_examples()
    ensures { LayoutExamples }
{}

/// A value of three cells, with others put into it.
pub fn value_examples()
    ensures { ValueExamples }
{}
