ghost use Rattle.std.specs.Prelude.{◌≡◌, List, ℕ, ◌+◌, length, Option, OnOk, OnErr};
ghost use Rattle.iv_base.specs.Counts.{capped};
ghost use Rattle.iv_base.specs.Sinks.{grown, GrewByPrefix, HasCause};

use thiserror::Error;

/// A sink did not take a whole piece, as its count of faults shows.
#[derive(Clone, Copy, Debug, Drop, Error, PartialEq, Eq)]
#[error("sink fault")]
pub struct SinkFault;

/// What takes bytes, piece by piece.
pub trait Sink {
    /// How often it has failed.
    ghost faults: { Self → ℕ };

    /// All that it has taken, where it tells.
    ghost held: { Self → Option (List ℕ) };

    /// The number of bytes of the pieces that it has taken whole.
    ghost taken: { Self → ℕ };

    /// Takes a piece, which may be empty. Where it refuses, its count of faults rose and it took some front of the piece.
    fn put(&mut self, piece: &[u8]) -> Result<(), SinkFault>
        ensures held { OnOk result (held self.new ≡ grown (held self.old) piece.now) }
        ensures taken { OnOk result (taken self.new ≡ capped (taken self.old + length piece.now)) }
        ensures part { OnErr result (GrewByPrefix (held self.old) (held self.new) piece.now) }
        ensures cause { HasCause (faults self.old) (faults self.new) result };
}
