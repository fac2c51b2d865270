// A text that is written in memory.
ghost use Rattle.std.specs.Prelude.{◌≡◌, []};

use lrp_io::{Failed, Sink};
use std::alloc::Global;

/// A sink in memory, which fails where memory is refused.
#[derive(Drop)]
pub struct TextSink {
    bytes: Vec<u8>,
    faults: u64,
}

impl TextSink {
    pub fn new(alloc: Global) -> TextSink
        ensures empty { result.bytes.items ≡ [] }
    {
        TextSink {
            bytes: Vec::new(alloc),
            faults: 0,
        }
    }

    /// The bytes that it took.
    pub fn into_bytes(self) -> Vec<u8>
        ensures { result.items ≡ self.bytes.items }
    {
        let TextSink {
            bytes,
            faults: _faults,
        } = self;
        bytes
    }
}

impl Sink for TextSink {
    ghost use Rattle.std.specs.Prelude.{Some};

    ghost written = { λ s. Some s.bytes.items };

    ghost faults = { λ s. s.faults };

    fn write(&mut self, piece: &[u8]) -> Result<usize, Failed> {
        match self.bytes.extend_from_slice(piece) {
            Ok(()) => Ok(piece.len()),
            Err(_) => {
                self.faults = self.faults.saturating_add(1);
                Err(Failed)
            }
        }
    }
}
