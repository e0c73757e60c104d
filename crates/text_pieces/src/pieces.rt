ghost use Rattle.text_pieces.specs.Stages.{Stage, Puts};

/// What takes a text piece by piece on its way into a sink. After a refusal it lets all further pieces go.
pub trait Pieces {
    /// How far the text has come.
    ghost stage: { Self → Stage };

    /// Takes a piece, which may be empty.
    fn put(&mut self, piece: &[u8])
        ensures { Puts (stage self.old) (stage self.new) piece.now };
}
