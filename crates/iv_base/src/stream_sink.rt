ghost use Rattle.std.specs.Prelude.{◌≡◌, ◌+◌, if◌then◌else◌, length, is_ok, Option};
ghost use Rattle.iv_base.specs.Counts.{capped};
ghost use Rattle.iv_base.specs.Sinks.{HasCause};

use crate::sink::{Sink, SinkFault};
use std::io::Write;
use std::rt::{Stderr, Stdout};

/// A stream of the system. It tells nothing of what it took. A put that answers Ok has written the whole piece.
#[derive(Drop)]
pub struct StreamSink<W: Write> {
    stream: W,
    faults: u64,
    taken: u64,
}

impl<W: Write> StreamSink<W> {
    fn over(stream: W) -> StreamSink<W>
        ensures faults { result.faults ≡ 0 }
        ensures taken { result.taken ≡ 0 }
    {
        StreamSink {
            stream,
            faults: 0,
            taken: 0,
        }
    }
}

impl StreamSink<Stdout> {
    /// Standard output.
    pub fn output(stream: Stdout) -> StreamSink<Stdout>
        ensures faults { ⟦<StreamSink<Stdout> as Sink>⟧.faults result ≡ 0 }
        ensures taken { ⟦<StreamSink<Stdout> as Sink>⟧.taken result ≡ 0 }
    {
        StreamSink::over(stream)
    }
}

impl StreamSink<Stderr> {
    /// Standard error.
    pub fn error(stream: Stderr) -> StreamSink<Stderr>
        ensures faults { ⟦<StreamSink<Stderr> as Sink>⟧.faults result ≡ 0 }
        ensures taken { ⟦<StreamSink<Stderr> as Sink>⟧.taken result ≡ 0 }
    {
        StreamSink::over(stream)
    }
}

/// Writes the whole piece through to the stream, or answers that it could not. A write that takes nothing is no
/// success, unless the piece is empty.
fn is_written<W: Write>(stream: &mut W, piece: &[u8]) -> bool {
    stream.write_all(piece).is_ok() && stream.flush().is_ok()
}

impl<W: Write> Sink for StreamSink<W> {
    ghost use Rattle.std.specs.Prelude.{None};

    ghost faults = { λ s. s.faults };

    ghost held = { λ _. None };

    ghost taken = { λ s. s.taken };

    fn put(&mut self, piece: &[u8]) -> Result<(), SinkFault>
        ensures taken { self.new.taken ≡ (if is_ok result then capped (self.old.taken + length piece.now) else self.old.taken) }
        ensures faults { self.new.faults ≡ (if is_ok result then self.old.faults else capped (self.old.faults + 1)) }
        ensures cause { HasCause self.old.faults self.new.faults result }
    {
        if is_written(&mut self.stream, piece) {
            self.taken = self.taken.saturating_add(piece.len() as u64);
            Ok(())
        } else {
            self.faults = self.faults.saturating_add(1);
            Err(SinkFault)
        }
    }
}
