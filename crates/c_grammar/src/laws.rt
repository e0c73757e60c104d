ghost use Rattle.std.specs.Prelude.{◌≡◌};
ghost use Rattle.reading.specs.Exact.{DeepToken, Tree, UnexpectedToken};
ghost use Rattle.c_grammar.specs.Examples.{compares, comparing, ends_early, extern_too_late, for_without_blank, two_blanks};
ghost use Rattle.c_grammar.specs.Subset.{parse};
ghost use Rattle.c_grammar.specs.Laws.{PiecesAreTheText, PiecesSpellOneUnit, SpelledBytesAreTexts, TextsAreSpelled, TextsTellUnitsApart, UnitsAreReadExactly};

/// The pieces of a text, joined, are that text.
pub fn pieces_are_the_text()
    ensures { PiecesAreTheText }
{}

/// What is answered of the pieces of a text is exact at each limit.
pub fn units_are_read_exactly()
    ensures { UnitsAreReadExactly }
{}

/// No pieces spell two units, however deep they nest.
pub fn pieces_spell_one_unit()
    ensures { PiecesSpellOneUnit }
{}

/// The text of a unit, cut into pieces, spells that unit.
pub fn texts_are_spelled()
    ensures { TextsAreSpelled }
{}

/// The bytes that spell a unit spell no other.
pub fn texts_tell_units_apart()
    ensures { TextsTellUnitsApart }
{}

/// Where the pieces of some bytes spell a unit, these bytes are its text.
pub fn spelled_bytes_are_texts()
    ensures { SpelledBytesAreTexts }
{}

/// A function is read; where one bracket fewer may be open, the second `(` in another is the first that nests too deep. A blank is
/// missing behind `for`, one is too many behind `static`, an extern stands behind a function, and a text ends within a line.
pub fn small_texts_are_read_so()
    ensures read { parse 2 compares ≡ Tree comparing }
    ensures deep { parse 1 compares ≡ DeepToken 42 }
    ensures no_blank { parse 300 for_without_blank ≡ UnexpectedToken 39 }
    ensures blanks { parse 300 two_blanks ≡ UnexpectedToken 29 }
    ensures order { parse 300 extern_too_late ≡ UnexpectedToken 39 }
    ensures early { parse 300 ends_early ≡ UnexpectedToken 31 }
{}
