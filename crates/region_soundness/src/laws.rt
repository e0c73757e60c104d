//! Region soundness: each name in scope has a value of its type, and so no run ends undefined.

ghost use Rattle.region_soundness.specs.Laws.{FirstStatesAreScoped, StatementsKeepScopes, BlocksKeepScopes, RunsAreDefined};

/// Before the first entry call each area holds values of its type.
pub fn first_states_are_scoped()
    ensures { FirstStatesAreScoped }
{}

/// A well typed statement is never undefined in a scoped state, and leaves a scoped one.
pub fn statements_keep_scopes()
    ensures { StatementsKeepScopes }
{}

/// A block leaves its state scoped as it found it, however control leaves it.
pub fn blocks_keep_scopes()
    ensures { BlocksKeepScopes }
{}

/// No run of a script that fits ends undefined, whatever its number of steps.
pub fn runs_are_defined()
    ensures { RunsAreDefined }
{}
