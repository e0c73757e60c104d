ghost use Rattle.std.specs.Prelude.{◌≡◌, List, []};
ghost use Rattle.run_records.specs.declared.AreaCells.{AreaCells};
ghost use Rattle.run_records.specs.declared.End.TheVariants.{Ended, Going, Undefined};
ghost use Rattle.run_records.specs.declared.Reason.{Reason};
ghost use Rattle.step_semantics.specs.OutsideLaws.{FinishedSeen};
ghost use Rattle.step_semantics.specs.Steps.{Exhausted, Halt, Progress, world_of};
ghost use Rattle.step_semantics.specs.Runs.{end_of, outcome};

/// An outcome says that the run goes on only where its steps were used up, and that it has ended only where it finished,
/// with what is seen of the last state.
pub fn ends_say_what_came<S, A>()
    ensures going { (see : S → List AreaCells) (r : Progress S A) → (outcome see r).end ≡ Going → r ≡ Exhausted (world_of r) }
    ensures ended { (see : S → List AreaCells) (r : Progress S A) → (outcome see r).end ≡ Ended → FinishedSeen see r }
{}

/// Two causes that halt a run are never told as one.
pub fn halts_are_told_apart()
    ensures { (first second : Halt) → end_of first ≡ end_of second → first ≡ second }
{}

/// No area is shown of a run that goes on, nor of one without a meaning.
pub fn areas_are_hidden<S, A>()
    ensures going { (see : S → List AreaCells) (r : Progress S A) → (outcome see r).end ≡ Going → (outcome see r).areas ≡ [] }
    ensures undefined { (see : S → List AreaCells) (r : Progress S A) (reason : Reason) → (outcome see r).end ≡ Undefined reason → (outcome see r).areas ≡ [] }
{}
