ghost use Rattle.first_meaning.specs.Laws.{CallsTakeSteps, RunsAreDefined, RunsObeyTheirLaws};

/// A run's events only grow with its steps, and its end stays.
pub fn runs_obey_their_laws()
    ensures { RunsObeyTheirLaws }
{}

/// No run of a valid module lacks a meaning, for any script that fits it.
pub fn runs_are_defined()
    ensures { RunsAreDefined }
{}

/// What an entry call of a procedure with two calls shows with each number of steps up to its end.
pub fn calls_take_steps_and_are_seen()
    ensures { CallsTakeSteps }
{}
