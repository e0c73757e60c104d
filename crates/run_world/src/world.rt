ghost use Rattle.std.specs.Prelude.{◌≡◌, IfOk, OnOk, map};
ghost use Rattle.step_semantics.specs.Steps.{with_event};
ghost use Rattle.step_semantics.specs.Imports as imports;
ghost use Rattle.step_semantics.specs.Runs.{start};
ghost use Rattle.run_world.specs.Comes.{world_of, Comes, Ticked, TicksTaken, unseen, itself};

use crate::fitting::values_fit;
use crate::stopped::{Halt, Stopped};
use iv_words::{Memory, Seq, Word};
use run_records::{Event, Piece, Plain, Reply, Script};
use std::alloc::Global;

/// The outside of a run: the steps that are left, the events so far, and the replies, of which imports have taken so many.
#[derive(Debug, Drop)]
pub struct World {
    pub steps: u64,
    pub events: Seq<Event>,
    pub replies: Seq<Seq<i128>>,
    pub taken: usize,
}

fn values_of(alloc: Global, replies: &[Reply]) -> Result<Seq<Seq<i128>>, Memory>
    ensures { IfOk result (λ rs. rs ≡ map (λ reply. reply.values) replies.now) }
{
    let mut values = Seq::with_capacity(alloc, replies.len())?;
    for reply in replies {
        values.push(reply.values.copy(alloc)?)?;
    }
    Ok(values)
}

impl World {
    /// The world before the first call of the script, with so many steps in all.
    pub fn start(alloc: Global, script: &Script, steps: u64) -> Result<World, Memory>
        ensures world { IfOk result (λ w. world_of w ≡ start script.now) }
        ensures steps { IfOk result (λ w. w.steps ≡ steps) }
    {
        Ok(World {
            steps,
            events: Seq::new(alloc),
            replies: values_of(alloc, script.replies.as_slice())?,
            taken: 0,
        })
    }

    /// Takes a step.
    pub fn tick(&mut self) -> Result<(), Stopped>
        ensures { Ticked result self.old self.new }
    {
        if self.steps == 0 {
            return Err(Stopped::Exhausted);
        }
        self.steps -= 1;
        Ok(())
    }

    /// Takes so many steps. Where there are fewer, the run is at its end, and has taken none of them.
    pub fn ticks(&mut self, count: u64) -> Result<(), Stopped>
        ensures { TicksTaken count result self.old self.new }
    {
        if self.steps < count {
            return Err(Stopped::Exhausted);
        }
        self.steps -= count;
        Ok(())
    }

    /// One event more.
    pub fn add_event(&mut self, event: Event) -> Result<(), Memory>
        ensures world { OnOk result (world_of self.new ≡ with_event event (world_of self.old)) }
        ensures steps { self.new.steps ≡ self.old.steps }
    {
        self.events.push(event)
    }

    /// The next reply of those that are left, for an import with such a reply.
    fn next_reply(&mut self, alloc: Global, shape: &[Plain]) -> Result<Seq<i128>, Stopped>
        ensures { Comes unseen itself (imports.next_reply unseen shape.now (world_of self.old).replies self.old.steps (world_of self.old) tt) result self.new tt }
    {
        if self.taken >= self.replies.len() {
            return Err(Stopped::Halted(Halt::MissingReply));
        }
        let values = self.replies[self.taken].copy(alloc)?;
        self.taken += 1;
        if values_fit(shape, values.as_slice()) {
            Ok(values)
        } else {
            Err(Stopped::Halted(Halt::UnfitReply))
        }
    }

    /// The outside sees the call of an import with these arguments, and replies by values of these types.
    pub fn import_call(
        &mut self,
        alloc: Global,
        name: Word,
        pieces: Seq<Piece>,
        shape: &[Plain],
    ) -> Result<Seq<i128>, Stopped>
        ensures { Comes unseen itself (imports.import_call unseen name pieces shape.now self.old.steps (world_of self.old) tt) result self.new tt }
    {
        self.add_event(Event::Call(name, pieces))?;
        if shape.is_empty() {
            return Ok(Seq::new(alloc));
        }
        self.next_reply(alloc, shape)
    }
}
