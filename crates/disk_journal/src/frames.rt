//! A body with all that an append writes round it.
ghost use Rattle.std.specs.Prelude.{◌≡◌, ℕ, ◌<◌, ◌^◌, ◌++◌, [], ◌∷◌, List, length};
ghost use Rattle.disk_journal.specs.Records.{sized};
ghost use Rattle.disk_journal.specs.Frames.{framed, IsFrame};

/// A body ready to be appended: behind its length, and with a closed gate behind it.
pub trait Frame {
    // The body.
    ghost body: { Self → List ℕ };

    /// The body's length in four bytes with the greatest first, the body, and a zero byte.
    fn text(&self) -> &[u8]
        ensures text { result.now ≡ sized (body self.now) ++ 0 ∷ [] }
        ensures size { length (body self.now) < 2 ^ 32 };
}

/// The frame of any body.
#[derive(Drop)]
pub struct Framed {
    pub(crate) text: Vec<u8>,
    ghost framed: { IsFrame text.items },
}

impl Frame for Framed {
    ghost body = { λ f. framed f.text.items };

    fn text(&self) -> &[u8] {
        &self.text
    }
}

/// The frame of a body of nine bytes, which takes no memory.
#[derive(Clone, Copy)]
pub struct TickFrame {
    pub(crate) text: [u8; 14],
    ghost framed: { IsFrame text },
}

impl Frame for TickFrame {
    ghost body = { λ f. framed f.text };

    fn text(&self) -> &[u8] {
        &self.text
    }
}
