// The room of a caller for a text.
ghost use Rattle.std.specs.Prelude.{◌≡◌};
ghost use Rattle.lrp_c.specs.Calls.{filled_with};

/// Writes as much of the text as there is room for, from the front on.
pub fn put_front(room: &mut [u8], text: &[u8])
    ensures { room.new ≡ filled_with text.now room.old }
{
    let count = text.len().min(room.len());
    room[..count].copy_from_slice(&text[..count]);
}
