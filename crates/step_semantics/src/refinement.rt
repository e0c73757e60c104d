ghost use Rattle.std.specs.Prelude.{ℕ, List};
ghost use Rattle.run_records.specs.declared.AreaCells.{AreaCells};
ghost use Rattle.run_records.specs.declared.EntryCall.{EntryCall};
ghost use Rattle.run_records.specs.declared.Outcome.{Outcome};
ghost use Rattle.run_records.specs.declared.Script.{Script};
ghost use Rattle.step_semantics.specs.Runs.{Body, run};
ghost use Rattle.step_semantics.specs.Outcomes.{OutcomeLaws};
ghost use Rattle.step_semantics.specs.Safe.{AlwaysSafe, NeverUndefined};
ghost use Rattle.step_semantics.specs.Refines.{Meets, Refines};

/// A run that comes to each outcome of another, for no fewer steps and at most sixteen times as many and sixteen more,
/// refines it in both directions, where the other always has a meaning.
///
/// That a run does so where its procedures follow the other's is the lemma `run_refines` of `proofs/RunFollows.antt`: it
/// speaks of every relation of states, which no clause can.
pub fn sixteen_steps_suffice()
    ensures { (source target : ℕ → Outcome) → OutcomeLaws target → NeverUndefined source → ((n : ℕ) → Meets target n (source n)) → Refines source target }
{}

/// A run has a meaning for every number of steps, where each procedure has one from every state.
pub fn safe_procedures_make_safe_runs<S>()
    ensures { (see : S → List AreaCells) (body : Body S) (first : S) (script : Script) → ((call : EntryCall) → AlwaysSafe (body call)) → NeverUndefined (run see body first script) }
{}
