ghost use Rattle.std.specs.Prelude.{◌≡◌, ℕ, ◌+◌, length, Option, IsOk};
ghost use Rattle.iv_base.specs.Counts.{capped};

use crate::sink::{Sink, SinkFault};

/// Keeps the number of bytes alone, up to 2^64 - 1, and never fails.
#[derive(Debug, Drop)]
pub struct SureSink {
    total: u64,
}

impl SureSink {
    pub fn new() -> SureSink
        ensures { ⟦<SureSink as Sink>⟧.taken result ≡ 0 }
    {
        SureSink { total: 0 }
    }

    /// The number of bytes that it has taken.
    pub fn total(&self) -> u64
        ensures { result ≡ ⟦<SureSink as Sink>⟧.taken self.now }
    {
        self.total
    }
}

impl Sink for SureSink {
    ghost use Rattle.std.specs.Prelude.{None};

    ghost faults = { λ _. 0 };

    ghost held = { λ _. None };

    ghost taken = { λ s. s.total };

    fn put(&mut self, piece: &[u8]) -> Result<(), SinkFault>
        ensures taken { self.new.total ≡ capped (self.old.total + length piece.now) }
        ensures sure { IsOk result }
    {
        self.total = self.total.saturating_add(piece.len() as u64);
        Ok(())
    }
}
