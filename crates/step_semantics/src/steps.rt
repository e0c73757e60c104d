ghost use Rattle.std.specs.Prelude.{◌≡◌, ℕ, suc, ◌+◌, ◌<◌};
ghost use Rattle.step_semantics.specs.Steps.{Exhausted, Part, World, after, ticks};
ghost use Rattle.step_semantics.specs.Control.{Control, again, forever};
ghost use Rattle.step_semantics.specs.Lawful.{Lawful};

/// A part behind `d` ticks begins with exactly `d` steps fewer, and with fewer than `d` steps the run waits there.
pub fn ticks_are_steps<S, A>()
    ensures enough { (d n : ℕ) (w : World) (s : S) (part : Part S A) → ticks d part (d + n) w s ≡ part n w s }
    ensures short { (d n : ℕ) (w : World) (s : S) (part : Part S A) → n < d → ticks d part n w s ≡ Exhausted w }
{}

/// Each turn of a loop takes a step, then runs the body once, and then the loop goes on as the body left it.
pub fn turns_take_a_step<S, V>()
    ensures waits { (body : Part S (Control V)) (w : World) (s : S) → forever body 0 w s ≡ Exhausted w }
    ensures turn { (body : Part S (Control V)) (n : ℕ) (w : World) (s : S) → Lawful body → forever body (suc n) w s ≡ after (body n w s) (again (forever body)) }
{}
