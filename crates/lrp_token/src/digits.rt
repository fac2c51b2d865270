// Bytes as lower-case hex digits, and back, in place: the room for digits takes no memory.
ghost use Rattle.std.specs.Prelude.{◌≡◌, ◌≢◌, ◌≤◌, ◌/◌, ℕ, List, length, MatchBool};
ghost use Rattle.lrp_model.specs.PrintedPages.{hex as hex_of};
ghost use Rattle.lrp_token.specs.Parts.{IsHex};

/// The most bytes of a data text.
pub(crate) const MOST_BYTES: usize = 255;

/// Their hex digits.
pub(crate) const MOST_DIGITS: usize = 2 * MOST_BYTES;

/// The lower-case hex digits of some bytes, in the room given.
pub(crate) fn digits_of<'a>(bytes: &[u8], room: &'a mut [u8; MOST_DIGITS]) -> &'a [u8]
    requires { length bytes.now ≤ 255 }
    ensures { result.now ≡ hex_of bytes.now }
{
    let digits = &mut room[..2 * bytes.len()];
    hex::encode_to_slice(bytes, digits).unwrap();
    digits
}

/// Whether the digits are lower-case hex digits of bytes, for which there is room; then they are in it.
pub(crate) fn decode(digits: &str, bytes: &mut [u8]) -> bool
    requires room { length bytes.old ≡ length digits.now / 2 }
    requires few { length bytes.old ≤ 255 }
    ensures { MatchBool result (IsHex digits.now bytes.new)
        ((other : List ℕ) → IsHex digits.now other → ⊥) }
{
    hex::decode_to_slice(digits, bytes).is_ok() && are_digits_of(digits, bytes)
}

// Whether the digits are those of these bytes.
fn are_digits_of(digits: &str, bytes: &[u8]) -> bool
    requires { length bytes.now ≤ 255 }
    ensures { MatchBool result (digits.now ≡ hex_of bytes.now) (digits.now ≢ hex_of bytes.now) }
{
    let mut room = [0; MOST_DIGITS];
    digits_of(bytes, &mut room) == digits.as_bytes()
}
