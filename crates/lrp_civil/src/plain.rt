// Database texts without civil values.
ghost use Rattle.std.specs.Prelude.{◌≡◌, ◌↔◌, ◌<◌, ◌≤◌, ◌++◌, ℕ, ℤ, pos, IsTrue, IfOk, IfSome, OnOk, List as ListOf, Some, length};
ghost use Rattle.std.specs.Int.{int_rem_euclid};
ghost use Rattle.lrp_model.specs.Limits.{greatest_number};
ghost use Rattle.lrp_model.specs.Printed.{point_bytes};
ghost use Rattle.lrp_civil.specs.CivilValues.{FallsAt, MeansMinute, is_civil, padded_bytes, plain_bytes};
ghost use Rattle.lrp_civil.specs.PlainText.{FindsFirst, HasSamePlaces, IsSpelledIn, plain_bytes_of, plain_as, value_in};
ghost use Rattle.lrp_civil.specs.declared.values.CivilValue.{CivilValue as CivilValueOf};

use crate::tokens::{after_blanks, after_token};
use crate::values::{CivilText, CivilValue};
use itoa::Buffer;
use lrp_calendar::minute_at;
use lrp_model::{List, Memory};
use std::alloc::Global;
use std::str::from_utf8;

/// A text of some kind with the plain value of each civil value in its place, and blanks after it, so that each place stays.
///
/// A civil value begins where a name does and ends where a token does, so one in a comment, in a quoted text or after a
/// byte that begins no token stays. Bytes that aren't UTF-8 are given back as they are.
pub fn plain_text_of(alloc: Global, bytes: &[u8], kind: CivilText) -> Result<List<u8>, Memory>
    ensures text { IfOk result (λ text. text ≡ plain_as kind bytes.now) }
    ensures places { HasSamePlaces bytes.now (plain_as kind bytes.now) }

    // Which civil value stands at the front of some bytes, and which minutes it stands for.
    ensures spelled { (here : ListOf ℕ) (value : CivilValueOf) → (value_in kind here ≡ Some value)
        ↔ IsSpelledIn kind here value }
    ensures meaning { (value : CivilValueOf) (x : ℤ) → IsTrue (is_civil value) → MeansMinute value x
        ↔ FallsAt value x }
{
    plain_list(alloc, bytes, kind)
}

// The same text; what else is promised depends on no memory.
fn plain_list(alloc: Global, bytes: &[u8], kind: CivilText) -> Result<List<u8>, Memory>
    ensures { IfOk result (λ text. text ≡ plain_as kind bytes.now) }
{
    let text = match from_utf8(bytes) {
        Ok(_) => rewritten(alloc, bytes, kind)?,
        Err(_) => bytes.to_vec(alloc)?,
    };
    Ok(List::from_vec(text))
}

// The plain text of bytes, from their first token on.
fn rewritten(alloc: Global, bytes: &[u8], kind: CivilText) -> Result<Vec<u8>, Memory>
    ensures { IfOk result (λ text. text.items ≡ plain_bytes_of kind bytes.now) }
{
    let mut text = Vec::with_capacity(alloc, bytes.len())?;
    let mut rest = bytes;
    while let Some(found) = first_value(kind, rest) {
        push(&mut text, found.before)?;
        push_padded(&mut text, &found.value)?;
        rest = found.rest;
    }
    push(&mut text, rest)?;
    Ok(text)
}

// A civil value, the bytes before it and those after it.
#[derive(Clone, Copy)]
struct Found<'a> {
    before: &'a [u8],
    value: CivilValue,
    rest: &'a [u8],
}

// The first civil value of bytes that begin after a token.
fn first_value(kind: CivilText, bytes: &[u8]) -> Option<Found<'_>>
    ensures first { FindsFirst kind bytes.now result }
    ensures shorter { IfSome result (λ found. length found.rest.now < length bytes.now) }
{
    let mut rest = bytes;
    loop {
        let token = after_blanks(rest);
        if let Some(value) = CivilValue::at(kind, token) {
            return Some(Found {
                before: &bytes[..bytes.len() - token.len()],
                value,
                rest: &token[value.len()..],
            });
        }
        rest = after_token(kind.has_signs(), token)?;
    }
}

// The plain value with blanks after it, as long as the civil value.
fn push_padded(text: &mut Vec<u8>, value: &CivilValue) -> Result<(), Memory>
    requires { IsTrue (is_civil value.now) }
    ensures { OnOk result (text.new.items ≡ text.old.items ++ padded_bytes value.now) }
{
    let end = text.len() + value.len();
    push_plain(text, value)?;
    text.resize(end, b' ')?;
    Ok(())
}

// The plain value: a point, or an instant.
fn push_plain(text: &mut Vec<u8>, value: &CivilValue) -> Result<(), Memory>
    requires { IsTrue (is_civil value.now) }
    ensures { OnOk result (text.new.items ≡ text.old.items ++ plain_bytes value.now) }
{
    match value {
        CivilValue::Daily { time } => push_point(text, u64::from(*time), 1440),
        CivilValue::Weekly { day, time } => {
            let first = (u64::from(*day) + 4) % 7;
            push_point(text, 1440 * first + u64::from(*time), 10080)
        }
        CivilValue::On { date, time } => {
            let minute = minute_at(*date, *time);
            push(text, Buffer::new().format(minute).as_bytes())
        }
        CivilValue::Every { pace, date, time } => {
            let period = pace.minutes();
            push_point(text, residue(minute_at(*date, *time), period), period)
        }
    }
}

// A minute modulo a period.
fn residue(minute: i64, period: u64) -> u64
    requires low { 1 ≤ period }
    requires high { period ≤ greatest_number }
    ensures value { pos result ≡ int_rem_euclid minute (pos period) }
    ensures small { result < period }
{
    minute.rem_euclid(period as i64) as u64
}

// `c+kn`
fn push_point(text: &mut Vec<u8>, offset: u64, period: u64) -> Result<(), Memory>
    requires { offset < period }
    ensures { OnOk result (text.new.items ≡ text.old.items
        ++ point_bytes (record { offset = pos offset; period = pos period })) }
{
    push(text, Buffer::new().format(offset).as_bytes())?;
    push(text, b"+")?;
    push(text, Buffer::new().format(period).as_bytes())?;
    push(text, b"n")
}

// Bytes after the text.
fn push(text: &mut Vec<u8>, bytes: &[u8]) -> Result<(), Memory>
    ensures { OnOk result (text.new.items ≡ text.old.items ++ bytes.now) }
{
    text.extend_from_slice(bytes)?;
    Ok(())
}
