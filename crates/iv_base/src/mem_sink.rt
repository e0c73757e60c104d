ghost use Rattle.std.specs.Prelude.{◌≡◌, ℕ, ◌+◌, ◌≤◌, [], length, is_err, Option, IfOk, OnOk, OnErr};
ghost use Rattle.iv_base.specs.Counts.{capped};
ghost use Rattle.iv_base.specs.MemSinks.{after, refused};
ghost use Rattle.iv_base.specs.Sinks.{HasCause, grown, GrewByPrefix};

use crate::sink::{Sink, SinkFault};
use iv_words::{Memory, Seq};
use std::alloc::Global;
use std::marker::Model;

/// Keeps what it takes in memory that it took at its start, and fails where it is told to.
#[derive(Debug, Drop)]
pub struct MemSink {
    bytes: Vec<u8>,
    room: usize,
    failing: Seq<u64>,
    calls: u64,
    faults: u64,
    taken: u64,
}

impl Model for MemSink {
    ghost use Rattle.std.specs.Prelude.{◌≤◌, vec_capacity, vec_len};
    ghost use Rattle.iv_base.specs.MemSinks.{MemSinkState};

    ghost Value = { MemSinkState };

    ghost view = { λ s. record {
      room = s.room;
      failing = s.failing;
      calls = s.calls;
      text = s.bytes.items;
      faults = s.faults;
      taken = s.taken;
    } };

    ghost invariant = { λ s. (s.room ≤ vec_capacity s.bytes) × (vec_len s.bytes ≤ s.room) };
}

impl MemSink {
    /// A sink that can hold `room` bytes. The calls of `put` are numbered from 0, and those in `failing` take nothing.
    pub fn new(alloc: Global, room: u64, failing: Seq<u64>) -> Result<MemSink, Memory>
        ensures { IfOk result (λ s. s ≡ record { room = room; failing = failing; calls = 0; text = []; faults = 0; taken = 0 }) }
    {
        let room = room as usize;
        match Vec::with_capacity(alloc, room) {
            Ok(bytes) => Ok(MemSink {
                bytes,
                room,
                failing,
                calls: 0,
                faults: 0,
                taken: 0,
            }),
            Err(_) => Err(Memory),
        }
    }

    /// All that it has taken.
    pub fn text(&self) -> &[u8]
        ensures { result.now ≡ self.now.text }
    {
        self.bytes.as_slice()
    }
}

impl Sink for MemSink {
    ghost use Rattle.std.specs.Prelude.{Some};

    ghost faults = { λ s. s.faults };

    ghost held = { λ s. Some s.text };

    ghost taken = { λ s. s.taken };

    /// A call that is to fail takes nothing; a piece that does not fit is taken as far as it fits.
    fn put(&mut self, piece: &[u8]) -> Result<(), SinkFault>
        ensures held { OnOk result (Some self.new.text ≡ grown (Some self.old.text) piece.now) }
        ensures taken { OnOk result (self.new.taken ≡ capped (self.old.taken + length piece.now)) }
        ensures part { OnErr result (GrewByPrefix (Some self.old.text) (Some self.new.text) piece.now) }
        ensures cause { HasCause self.old.faults self.new.faults result }
        ensures after { self.new ≡ after self.old piece.now }
        ensures refused { is_err result ≡ refused self.old piece.now }
    {
        let call = self.calls;
        self.calls = self.calls.saturating_add(1);
        if self.failing.as_slice().contains(&call) {
            self.faults = self.faults.saturating_add(1);
            return Err(SinkFault);
        }
        let free = self.room - self.bytes.len();
        if piece.len() <= free {
            match self.bytes.extend_from_slice(piece) {
                Ok(()) => {
                    self.taken = self.taken.saturating_add(piece.len() as u64);
                    Ok(())
                }
                Err(_) => unreachable!(),
            }
        } else {
            self.faults = self.faults.saturating_add(1);
            match self.bytes.extend_from_slice(&piece[..free]) {
                Ok(()) => Err(SinkFault),
                Err(_) => unreachable!(),
            }
        }
    }
}
