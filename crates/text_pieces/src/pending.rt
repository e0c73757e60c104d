ghost use Rattle.std.specs.Prelude.{◌≡◌, ◌+◌, ◌≤◌, [], ◌++◌, length};

use std::marker::Model;

/// How many bytes can wait.
pub const ROOM: usize = 16_384;

/// Bytes that wait to be put into a sink as one piece. Contracts see the list of them.
#[derive(Drop)]
pub struct Pending {
    bytes: [u8; ROOM],
    used: usize,
}

impl Model for Pending {
    ghost use Rattle.std.specs.Prelude.{List, ℕ, take, length, ◌≤◌};

    ghost Value = { List ℕ };

    ghost view = { λ p. take p.used p.bytes };

    ghost invariant = { λ p. p.used ≤ length p.bytes };
}

impl Pending {
    pub fn new() -> Pending
        ensures { result ≡ [] }
    {
        Pending {
            bytes: [0; ROOM],
            used: 0,
        }
    }

    /// The bytes that wait.
    pub fn waiting(&self) -> &[u8]
        ensures value { result.now ≡ self.now }
        ensures few { length self.now ≤ ROOM }
    {
        &self.bytes[..self.used]
    }

    /// Adds a piece for which there is room.
    pub fn keep(&mut self, piece: &[u8])
        requires { length self.old + length piece.now ≤ ROOM }
        ensures { self.new ≡ self.old ++ piece.now }
    {
        let end = self.used + piece.len();
        self.bytes[self.used..end].copy_from_slice(piece);
        self.used = end;
    }

    /// Lets all that waited go.
    pub fn clear(&mut self)
        ensures { self.new ≡ [] }
    {
        self.used = 0;
    }
}
