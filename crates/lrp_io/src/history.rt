// The starts of files at a shelf, which proofs alone know.
ghost use Rattle.std.specs.Prelude.{◌≡◌, [], List};
ghost use base.Fml.{ftrue};
ghost use Rattle.lrp_io.specs.Starts.{Start, starts_coded};

use std::marker::Model;

/// The starts of files at a shelf so far. They exist in proofs alone, and take no memory.
#[derive(Drop)]
pub struct History {
    pub ghost starts: { List Start } by { starts_coded },
}

impl Model for History {
    ghost also_owns = { λ _. ftrue };
}

/// What a shelf did: it was asked to start a file, gave so many bytes of it, or nothing.
#[derive(Clone, Copy, Drop)]
pub enum Note<'a> {
    Started(&'a str),
    Given(usize),
    Same,
}

impl History {
    ghost use Rattle.lrp_io.specs.History.{noted};

    /// The history of a shelf at which nothing was started.
    pub fn new() -> History
        ensures { result.starts ≡ [] }
    {
        History {}
    }

    /// The history after what the shelf did.
    pub fn then(&self, _note: &Note<'_>) -> History
        ensures { result.starts ≡ noted _note.now self.now.starts }
    {
        History {}
    }
}
