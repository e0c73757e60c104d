ghost use Rattle.c_reader.specs.Examples.{SmallTexts};
ghost use Rattle.c_reader.specs.Verdicts.{NotUnitAndFault, OneFault, OneUnit, PlacesAreWithin, UnitOrFault};

/// On each target bytes are the text of a right unit or have a fault, never both, and one of each at most.
pub fn texts_read_or_have_a_fault()
    ensures some { UnitOrFault }
    ensures other { NotUnitAndFault }
    ensures unit { OneUnit }
    ensures fault { OneFault }
    ensures place { PlacesAreWithin }
{}

/// What small texts are: the fixed lines alone are a unit; a blank too many, a `for` without one, and an end too early; the bracket
/// with which 301 are open; a call of nothing, a `break` outside of a loop, and the earlier of two such faults.
pub fn small_texts_are_answered_so()
    ensures { SmallTexts }
{}
