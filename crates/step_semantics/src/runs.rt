ghost use Rattle.std.specs.Prelude.{List};
ghost use Rattle.run_records.specs.declared.AreaCells.{AreaCells};
ghost use Rattle.run_records.specs.declared.EntryCall.{EntryCall};
ghost use Rattle.run_records.specs.declared.Script.{Script};
ghost use Rattle.step_semantics.specs.Runs.{Body, run};
ghost use Rattle.step_semantics.specs.Lawful.{Lawful};
ghost use Rattle.step_semantics.specs.Outcomes.{OutcomeLaws};
ghost use Rattle.step_semantics.specs.OutsideLaws.{CallsGoOn, CallsWaitForAStep, NoCallIsNoStep};

/// An entry call waits for a step, and takes it; when its procedure has come back, the outside sees so, and the next
/// call is made.
pub fn an_entry_call_is_a_step_and_is_seen<S>()
    ensures waits { CallsWaitForAStep S }
    ensures goes_on { CallsGoOn S }
{}

/// A script without calls has ended at once, with what is seen of the first state.
pub fn no_call_is_no_step<S>()
    ensures { NoCallIsNoStep S }
{}

/// Where each procedure keeps the laws of parts, the outcomes of a run keep theirs: with more steps the events go on, and
/// an end stays the end.
pub fn runs_keep_the_laws<S>()
    ensures { (see : S → List AreaCells) (body : Body S) (first : S) (script : Script) → ((call : EntryCall) → Lawful (body call)) → OutcomeLaws (run see body first script) }
{}
