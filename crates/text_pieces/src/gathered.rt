ghost use Rattle.std.specs.Prelude.{◌≡◌, ◌+◌, ◌≤◌, ◌⊎◌, [], length, is_err, false};
ghost use Rattle.iv_base.specs.Counts.{last};
ghost use Rattle.text_pieces.specs.Stages.{Stage, Puts};

use crate::pending::{Pending, ROOM};
use crate::pieces::Pieces;
use iv_base::{Sink, SinkFault};

/// A sink that gets small pieces as few large ones, since each put on a stream is a call of the system.
///
/// A refusal is kept until `finish` answers it, and nothing is put after it.
#[derive(Drop)]
pub struct Gathered<'a, K: Sink> {
    sink: &'a mut K,
    pending: Pending,
    refused: bool,
}

impl<'a, K: Sink> Pieces for Gathered<'a, K> {
    ghost use Rattle.text_pieces.specs.Stages.{Stage};

    ghost stage = { λ s. record {
      sink = s.sink.ghost_name;
      held = K.held s.sink.now;
      taken = K.taken s.sink.now;
      faults = K.faults s.sink.now;
      waiting = s.pending;
      refused = s.refused;
    } };

    fn put(&mut self, piece: &[u8]) {
        self.make_room(piece.len());
        if piece.len() > ROOM {
            self.put_through(piece);
        } else {
            self.pending.keep(piece);
        }
    }
}

impl<'a, K: Sink> Gathered<'a, K> {
    /// A sink with nothing waiting for it.
    pub fn over(sink: &'a mut K) -> Gathered<'a, K>
        ensures { ⟦<Gathered<'a, K> as Pieces>⟧.stage result ≡ record {
          sink = sink.entry.ghost_name;
          held = K.held sink.old;
          taken = K.taken sink.old;
          faults = K.faults sink.old;
          waiting = [];
          refused = false;
        } }
    {
        Gathered {
            sink,
            pending: Pending::new(),
            refused: false,
        }
    }

    /// Puts what still waits. A `SinkFault` says that the sink refused this or an earlier piece.
    pub fn finish(&mut self) -> Result<(), SinkFault>
        ensures puts { Puts (⟦<Gathered<'a, K> as Pieces>⟧.stage self.old) (⟦<Gathered<'a, K> as Pieces>⟧.stage self.new) [] }
        ensures none { self.new.pending ≡ [] }
        ensures counted { self.new.refused ≡ false → K.taken self.new.sink.now ≤ last }
        ensures answer { is_err result ≡ self.new.refused }
    {
        self.flush();
        if self.refused { Err(SinkFault) } else { Ok(()) }
    }

    /// Makes room for so many bytes, or for as many as can wait.
    fn make_room(&mut self, bytes: usize)
        ensures puts { Puts (⟦<Gathered<'a, K> as Pieces>⟧.stage self.old) (⟦<Gathered<'a, K> as Pieces>⟧.stage self.new) [] }
        ensures room { (self.new.pending ≡ []) ⊎ (length self.new.pending + bytes ≤ ROOM) }
    {
        if bytes > ROOM - self.pending.waiting().len() {
            self.flush();
        }
    }

    /// Puts all that waits.
    fn flush(&mut self)
        ensures puts { Puts (⟦<Gathered<'a, K> as Pieces>⟧.stage self.old) (⟦<Gathered<'a, K> as Pieces>⟧.stage self.new) [] }
        ensures none { self.new.pending ≡ [] }
        ensures counted { self.new.refused ≡ false → K.taken self.new.sink.now ≤ last }
    {
        if !self.refused {
            self.refused = self.sink.put(self.pending.waiting()).is_err();
        }
        self.pending.clear();
    }

    /// Puts a piece that is longer than what can wait, where nothing waits.
    fn put_through(&mut self, piece: &[u8])
        requires { self.old.pending ≡ [] }
        ensures { Puts (⟦<Gathered<'a, K> as Pieces>⟧.stage self.old) (⟦<Gathered<'a, K> as Pieces>⟧.stage self.new) piece.now }
    {
        if !self.refused {
            self.refused = self.sink.put(piece).is_err();
        }
    }
}
