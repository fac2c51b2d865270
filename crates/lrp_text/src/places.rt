// Places after bytes.
ghost use Rattle.std.specs.Prelude.{◌≡◌, ◌≤◌, ◌<◌, ◌+◌, ◌^◌, length};
ghost use Rattle.lrp_model.specs.Lexing.{after, moved, start};
ghost use Rattle.lrp_model.specs.Limits.{most_bytes};

use lrp_model::Place;

// The place after one more byte.
pub fn after_byte(place: Place, b: u8) -> Place
    requires line { place.line + 1 < 2 ^ 32 }
    requires column { place.column + 1 < 2 ^ 32 }
    ensures { result ≡ moved place b }
{
    if b == b'\n' {
        Place {
            line: place.line + 1,
            column: 1,
        }
    } else {
        Place {
            line: place.line,
            column: place.column + 1,
        }
    }
}

/// The place after the bytes that a text begins with, at most 16,777,216 of them.
pub fn place_after(bytes: &[u8]) -> Place
    requires { length bytes.now ≤ most_bytes }
    ensures { result ≡ after start bytes.now }
{
    let mut place = Place { line: 1, column: 1 };
    for byte in bytes {
        place = after_byte(place, *byte);
    }
    place
}
