// The bytes that tokens are made of, and the runs of them.
ghost use Rattle.std.specs.Prelude.{◌≡◌, ◌≤◌, ◌<◌, ◌+◌, ◌^◌, length, min, false};
ghost use Rattle.std.specs.Str.Parse.{digits_value};
ghost use Rattle.lrp_model.specs.Lexing.{is_letter as is_letter_byte, is_name_byte as is_byte_of_names, is_blank as is_blank_byte, is_forbidden as is_forbidden_byte, skip as skip_rule, run, after_run};
ghost use Rattle.std.specs.Char.{is_ascii_digit as is_digit_byte};
ghost use Rattle.lrp_model.specs.Limits.{greatest_number};

use crate::places::after_byte;
use lrp_model::{LIMIT, Place};

pub fn is_letter(b: u8) -> bool
    ensures { result ≡ is_letter_byte b }
{
    b.is_ascii_alphabetic() || b == b'_'
}

pub fn is_digit(b: u8) -> bool
    ensures { result ≡ is_digit_byte b }
{
    b.is_ascii_digit()
}

fn is_name_byte(b: u8) -> bool
    ensures { result ≡ is_byte_of_names b }
{
    is_letter(b) || is_digit(b)
}

fn is_blank(b: u8) -> bool
    ensures { result ≡ is_blank_byte b }
{
    matches!(b, b' ' | b'\t' | b'\r' | b'\n')
}

pub fn is_forbidden(b: u8) -> bool
    ensures { result ≡ is_forbidden_byte b }
{
    b <= 31 || b == 127
}

// Goes after blanks and comments.
#[tactic(auto, unfolding(lrp_model::specs::Lexing::skip))]
pub fn skip(place: Place, bytes: &[u8]) -> (Place, &[u8])
    requires line { place.line + length bytes.now < 2 ^ 32 }
    requires column { place.column + length bytes.now < 2 ^ 32 }
    ensures place { result.0 ≡ (skip_rule false place bytes.now).place }
    ensures rest { result.1.now ≡ (skip_rule false place bytes.now).bytes }
    ensures line { result.0.line + length result.1.now < 2 ^ 32 }
    ensures column { result.0.column + length result.1.now < 2 ^ 32 }
{
    let mut at = place;
    let mut rest = bytes;
    let mut comment = false;
    while let [b, tail @ ..] = rest {
        if comment {
            if *b == b'\n' {
                comment = false;
            }
        } else if *b == b'#' {
            comment = true;
        } else if !is_blank(*b) {
            return (at, rest);
        }
        at = after_byte(at, *b);
        rest = tail;
    }
    (at, rest)
}

// Goes after the letters, digits and underscores that come first.
#[tactic(auto, unfolding(lrp_model::specs::Lexing::after_run))]
pub fn after_name(bytes: &[u8]) -> &[u8]
    ensures rest { result.now ≡ after_run is_byte_of_names bytes.now }
    ensures shorter { length result.now ≤ length bytes.now }
{
    let mut rest = bytes;
    while let [b, tail @ ..] = rest {
        if !is_name_byte(*b) {
            return rest;
        }
        rest = tail;
    }
    rest
}

// The value of the digits that come first, or one more than the limit where it is greater, and what stands after them.
#[tactic(auto, unfolding(lrp_model::specs::Lexing::run, lrp_model::specs::Lexing::after_run))]
pub fn number(bytes: &[u8]) -> (u64, &[u8])
    ensures value { result.0 ≡ min (digits_value 10 (run is_digit_byte bytes.now))
        (greatest_number + 1) }
    ensures rest { result.1.now ≡ after_run is_digit_byte bytes.now }
{
    let most = LIMIT as u64 + 1;
    let mut value = 0u64;
    let mut rest = bytes;
    while let [b, tail @ ..] = rest {
        if !is_digit(*b) {
            return (value, rest);
        }
        value = if value < most {
            let next = 10 * u128::from(value) + u128::from(*b - b'0');
            next.min(u128::from(most)) as u64
        } else {
            most
        };
        rest = tail;
    }
    (value, rest)
}
