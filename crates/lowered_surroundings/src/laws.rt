ghost use Rattle.lowered_surroundings.specs.Laws.{ProceduresAreSet, ScopedStatesAreStaged, EnsuresAreSet, PlainEnsuresAreSet, EnsuresAreStaged};

/// The body of each procedure of a valid module is set, whatever checks are left out.
pub fn procedures_are_set()
    ensures { ProceduresAreSet }
{}

/// A state that is scoped for an open call of a procedure is staged for its expressions.
pub fn scoped_states_are_staged()
    ensures { ScopedStatesAreStaged }
{}

/// What a procedure ensures is set too, and staged where its result fits.
pub fn ensures_are_set()
    ensures results { EnsuresAreSet }
    ensures plain { PlainEnsuresAreSet }
    ensures staged { EnsuresAreStaged }
{}
