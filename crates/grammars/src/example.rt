ghost use Rattle.std.specs.Prelude.{◌≡◌, List, [], ◌∷◌};
ghost use Rattle.reading.specs.Exact.{DeepToken, Tree, UnexpectedToken};
ghost use Rattle.grammars.specs.Checks.{Either, clashes};
ghost use Rattle.grammars.specs.Example.{CloseBracket, Comma, Counted, Listed, Name, Named, Nothing, Number, OpenBracket, Pair, grammar, lexicon, parse, unclear};
ghost use Rattle.grammars.specs.Laws.{ATextHasOneTree, ListsAreParsedExactly};

/// What the parser of lists answers is exact at each limit: a tree just where the text is spelled within the limit, the first
/// token with which no text goes on, and the first token that nests deeper, whichever comes first.
pub fn nested_lists_are_parsed_exactly()
    ensures { ListsAreParsedExactly }
{}

/// No text has two trees, however deep it nests.
pub fn a_text_has_one_tree()
    ensures { ATextHasOneTree }
{}

/// A name, two numbers and a list; a name behind a number; two lists one in the other, where one level and where two may nest; a
/// comma that is missing, and a text that ends early.
pub fn small_texts_are_parsed_so()
    ensures stages { parse 1 (Name 7 ∷ Number 8 ∷ Number 6 ∷ OpenBracket ∷ Name 9 ∷ CloseBracket ∷ []) ≡ Tree (Named 7 ∷ Counted 8 ∷ Counted 6 ∷ Listed (Pair (Named 9) Nothing) ∷ []) }
    ensures name_behind_number { parse 1 (Name 7 ∷ Number 8 ∷ Name 9 ∷ []) ≡ UnexpectedToken 2 }
    ensures one_level { parse 1 (OpenBracket ∷ OpenBracket ∷ CloseBracket ∷ CloseBracket ∷ []) ≡ DeepToken 1 }
    ensures two_levels { parse 2 (OpenBracket ∷ OpenBracket ∷ CloseBracket ∷ CloseBracket ∷ []) ≡ Tree (Listed (Pair (Listed Nothing) Nothing) ∷ []) }
    ensures no_comma { parse 1 (OpenBracket ∷ Name 7 ∷ Name 8 ∷ []) ≡ UnexpectedToken 2 }
    ensures ends_early { parse 1 (OpenBracket ∷ Name 7 ∷ Comma ∷ []) ≡ UnexpectedToken 3 }
{}

/// A rule that cannot be read by its first token says with which kind.
pub fn clashes_are_named()
    ensures { clashes lexicon grammar 0 unclear ≡ Either 1 ∷ [] }
{}
