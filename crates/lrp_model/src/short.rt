// Bytes that stand in a value of fixed size.
ghost use Rattle.std.specs.Prelude.{◌≡◌, ◌≤◌, take, IfSome};

/// At most `ROOM` bytes, in the value itself.
#[derive(Clone, Copy, Drop)]
pub(crate) struct Short<const ROOM: usize> {
    size: u8,
    bytes: [u8; ROOM],
    ghost held: { size ≤ ROOM },
}

impl<const ROOM: usize> Short<ROOM> {
    /// These bytes, if they are few.
    pub(crate) fn of(bytes: &[u8]) -> Option<Short<ROOM>>
        ensures { IfSome result (λ short. take short.size short.bytes ≡ bytes.now) }
    {
        if bytes.len() > ROOM || bytes.len() > 255 {
            return None;
        }
        let mut held = [0; ROOM];
        held[..bytes.len()].copy_from_slice(bytes);
        Some(Short {
            size: bytes.len() as u8,
            bytes: held,
        })
    }

    /// Its bytes.
    pub(crate) fn as_slice(&self) -> &[u8]
        ensures { result.now ≡ take self.now.size self.now.bytes }
    {
        &self.bytes[..usize::from(self.size)]
    }
}
