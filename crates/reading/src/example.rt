ghost use Rattle.std.specs.Prelude.{◌≡◌, ℕ, List, [], ◌∷◌, true};
ghost use Rattle.reading.specs.Exact.{DeepToken, Exact, Spelled, Tree, UnexpectedToken};
ghost use Rattle.reading.specs.Example.{CloseBracket, Comma, Letter, Minus, Name, Named, Negative, Nothing, Number, OpenBracket, Pair, Signed, Text, Value, parse, signs};

/// What the parser of nested lists answers is exact at each limit: a tree just where the text is spelled within the limit,
/// the first token with which no text goes on, and the first token that nests deeper, whichever comes first.
pub fn nested_lists_are_parsed_exactly()
    ensures { (limit : ℕ) → Exact signs limit Text (parse limit) }
{}

/// No text has two trees, however deep it nests.
pub fn a_text_has_one_tree()
    ensures { (x y : Value) (ts : List Letter) → Spelled Text x ts → Spelled Text y ts → x ≡ y }
{}

/// A pair of names; two lists one in the other, where one level and where two may nest; a comma that is missing, and a text
/// that ends early; a sign before a number, which nests nothing, and before a name and at the end, where it does.
pub fn small_texts_are_parsed_so()
    ensures names { parse 1 (OpenBracket ∷ Name 7 ∷ Comma ∷ Name 8 ∷ CloseBracket ∷ []) ≡ Tree (Pair (Named 7) (Pair (Named 8) Nothing)) }
    ensures one_level { parse 1 (OpenBracket ∷ OpenBracket ∷ CloseBracket ∷ CloseBracket ∷ []) ≡ DeepToken 1 }
    ensures two_levels { parse 2 (OpenBracket ∷ OpenBracket ∷ CloseBracket ∷ CloseBracket ∷ []) ≡ Tree (Pair Nothing Nothing) }
    ensures no_comma { parse 1 (OpenBracket ∷ Name 7 ∷ Name 8 ∷ []) ≡ UnexpectedToken 2 }
    ensures ends_early { parse 1 (OpenBracket ∷ Name 7 ∷ Comma ∷ []) ≡ UnexpectedToken 3 }
    ensures sign { parse 0 (Minus ∷ Number 5 ∷ []) ≡ Tree (Signed true 5) }
    ensures operator { parse 0 (Minus ∷ Name 7 ∷ []) ≡ DeepToken 0 }
    ensures operator_at_end { parse 0 (Minus ∷ []) ≡ DeepToken 0 }
    ensures both { parse 1 (Minus ∷ Minus ∷ Number 5 ∷ []) ≡ Tree (Negative (Signed true 5)) }
{}
