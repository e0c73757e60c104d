ghost use Rattle.body_refinement.specs.Laws.{AllocsFollow, BodiesFollow, CopiesFollow, DowntosFollow, KindsAreKnown, MapsFollow, ReturnsFollow, StatementsFollow};

/// Of the locals that a procedure's body declares, the objects are those of its `alloc`s, and no other.
pub fn kinds_are_known()
    ensures { KindsAreKnown }
{}

/// The C of an `alloc` follows it, whatever its initializer: its expressions come first, and then the object that holds the first value.
pub fn allocs_follow()
    ensures { AllocsFollow }
{}

/// The C of a `copy` follows it, part by part: the steps of each side allow those of the other, and the states are related again once all
/// cells are written.
pub fn copies_follow()
    ensures { CopiesFollow }
{}

/// The C of a return follows it: its value is kept while what is ensured is tested, and both give back the same.
pub fn returns_follow()
    ensures { ReturnsFollow }
{}

/// The C of a loop over all indices of a length follows it, where its body follows.
pub fn maps_follow()
    ensures { MapsFollow }
{}

/// So does that of a loop from a bound down to 0.
pub fn downtos_follow()
    ensures { DowntosFollow }
{}

/// Where calls and loops up to a bound follow, so does the C of all statements: the steps of each side allow those of the other, both stop at
/// the same check, and what they leave is related again.
pub fn statements_follow()
    ensures { StatementsFollow }
{}

/// So does the C of a whole body, with the tests of what its procedure requires and ensures.
pub fn bodies_follow()
    ensures { BodiesFollow }
{}
