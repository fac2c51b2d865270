// The parts of a token: a number, a data text, a digest. Each is what it is exactly where writing it gives its text again.
ghost use Rattle.std.specs.Prelude.{◌≡◌, ◌↔◌, ℕ, ℤ, List, IsTrue, MatchOption};
ghost use Rattle.std.specs.Fmt.{signed_decimal};
ghost use Rattle.lrp_model.specs.PrintedPages.{IsDigest, hex, text_part, IsSmall};
ghost use Rattle.lrp_model.specs.DataTexts.{IsDataText};
ghost use Rattle.lrp_token.specs.Parts.{IsPartRead, IsSpelling};

use crate::TokenFault;
use crate::digits::{MOST_BYTES, decode};
use itoa::Buffer;
use lrp_model::{DataText, LIMIT};
use std::alloc::Global;
use std::str::from_utf8;

/// The integer that a text spells as integers are written, where its magnitude is at most 2^62.
pub(crate) fn time_of(text: &str) -> Option<i64>
    ensures { MatchOption result ((x : ℤ) → IsSpelling IsSmall signed_decimal text.now x → ⊥)
        (IsSpelling IsSmall signed_decimal text.now) }
{
    let Ok(time) = text.parse::<i64>() else {
        return None;
    };
    if time.unsigned_abs() <= LIMIT as u64 && is_written(time, text) {
        Some(time)
    } else {
        None
    }
}

// Whether the integer is written as the text.
fn is_written(value: i64, text: &str) -> bool
    ensures { IsTrue result ↔ (text.now ≡ signed_decimal value) }
{
    Buffer::new().format(value) == text
}

/// The data text that a part spells: `x`, and two lower-case hex digits for each of its bytes.
pub(crate) fn text_of(alloc: Global, part: &str) -> Result<DataText, TokenFault>
    ensures { IsPartRead (IsSpelling IsDataText text_part part.now) result }
{
    let Some(digits) = part.strip_prefix('x') else {
        return Err(TokenFault::Form);
    };
    let count = digits.len() / 2;
    if count > MOST_BYTES {
        return Err(TokenFault::Form);
    }
    let mut room = [0; MOST_BYTES];
    let bytes = &mut room[..count];
    if !decode(digits, bytes) {
        return Err(TokenFault::Form);
    }
    data_text(alloc, bytes)
}

// The data text of some bytes.
fn data_text(alloc: Global, bytes: &[u8]) -> Result<DataText, TokenFault>
    ensures { IsPartRead (λ t. IsDataText t × (t ≡ bytes.now)) result }
{
    match from_utf8(bytes) {
        Ok(text) if DataText::fits(text) => Ok(DataText::new(alloc, text)?),
        _ => Err(TokenFault::Form),
    }
}

/// The digest that 64 lower-case hex digits spell.
pub(crate) fn digest_of(digits: &str) -> Option<[u8; 32]>
    ensures { MatchOption result ((digest : List ℕ) → IsSpelling IsDigest hex digits.now digest → ⊥)
        (IsSpelling IsDigest hex digits.now) }
{
    if digits.len() != 64 {
        return None;
    }
    let mut digest = [0; 32];
    if decode(digits, &mut digest) {
        Some(digest)
    } else {
        None
    }
}
