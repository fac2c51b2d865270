// Tokens as they are written: version 2, with the files' digest.
ghost use Rattle.std.specs.Prelude.{⊤, ◌<◌, ◌≤◌, ◌++◌, codes, Some, length, take};
ghost use Rattle.std.specs.List.{AllByRecursion};
ghost use Rattle.std.specs.Fmt.{signed_decimal};
ghost use Rattle.lrp_io.specs.Causes.{HasCause};
ghost use Rattle.lrp_io.specs.Pieces.{IsWritten};
ghost use Rattle.lrp_model.specs.PrintedPages.{IsSmall, IsToken, hex as hex_of, text_part, tuple_text};
ghost use Rattle.lrp_model.specs.DataTexts.{IsDataText};
ghost use Rattle.lrp_token.specs.Spots.{spot_token, texts_in, times_in};
ghost use Rattle.lrp_model.specs.Tuples.{text_at};

use crate::digits::{MOST_DIGITS, digits_of};
use lrp_io::{Failed, Sink};
use lrp_model::{Domain, Shape, Spot};
use lrp_print::{Notation, write_bytes, write_integer, write_joined};

/// Writes the token of a spot's times and texts and of the files' digest. After a failure a front of it was written.
pub fn write_token<S: Sink>(
    out: &mut S,
    spot: &Spot,
    shape: Shape,
    domain: &Domain,
    digest: &[u8; 32],
) -> Result<(), Failed>
    requires times { shape.times ≤ 8 }
    requires texts { shape.texts ≤ 8 }
    requires small { AllByRecursion IsSmall (times_in shape spot.now) }
    requires known { AllByRecursion (λ n. n < length domain.now) (take shape.texts spot.now.texts) }
    ensures text { IsWritten (S.written out.old) (S.written out.new)
        (spot_token shape domain.now digest.now spot.now) result }
    ensures cause { HasCause (S.faults out.old) (S.faults out.new) result }

    // What is written is a token where the texts are data texts, as those of every domain are (`Domain::len`).
    ensures token { AllByRecursion IsDataText (texts_in shape domain.now spot.now)
        → IsToken (spot_token shape domain.now digest.now spot.now) (Some digest.now)
        (times_in shape spot.now) (texts_in shape domain.now spot.now) }
{
    write_head(out, digest)?;
    write_tuple(out, spot, shape, domain)
}

// The version, the digest, and a slash.
fn write_head<S: Sink>(out: &mut S, digest: &[u8; 32]) -> Result<(), Failed>
    ensures text { IsWritten (S.written out.old) (S.written out.new)
        (codes "T2/" ++ (hex_of digest.now ++ codes "/")) result }
    ensures cause { HasCause (S.faults out.old) (S.faults out.new) result }
{
    write_bytes(out, b"T2/")?;
    write_hex(out, digest)?;
    write_bytes(out, b"/")
}

// The times in the shape's places, a slash, and the texts.
fn write_tuple<S: Sink>(
    out: &mut S,
    spot: &Spot,
    shape: Shape,
    domain: &Domain,
) -> Result<(), Failed>
    requires times { shape.times ≤ 8 }
    requires texts { shape.texts ≤ 8 }
    requires known { AllByRecursion (λ n. n < length domain.now) (take shape.texts spot.now.texts) }
    ensures text { IsWritten (S.written out.old) (S.written out.new)
        (tuple_text (times_in shape spot.now) (texts_in shape domain.now spot.now)) result }
    ensures cause { HasCause (S.faults out.old) (S.faults out.new) result }
{
    write_joined(out, &Times, b",", &spot.times[..shape.times as usize])?;
    write_bytes(out, b"/")?;
    let texts = &spot.texts[..shape.texts as usize];
    write_joined(out, &Texts { domain }, b",", texts)
}

// Two lower-case hex digits for each byte.
fn write_hex<S: Sink>(out: &mut S, bytes: &[u8]) -> Result<(), Failed>
    requires { length bytes.now ≤ 255 }
    ensures text { IsWritten (S.written out.old) (S.written out.new) (hex_of bytes.now) result }
    ensures cause { HasCause (S.faults out.old) (S.faults out.new) result }
{
    let mut room = [0; MOST_DIGITS];
    write_bytes(out, digits_of(bytes, &mut room))
}

// Times in decimal.
#[derive(Clone, Copy)]
struct Times;

impl Notation for Times {
    type Item = i64;

    ghost spells = { λ _ _. ⊤ };

    ghost bytes = { λ _ time. signed_decimal time };

    fn write<S: Sink>(&self, out: &mut S, time: &i64) -> Result<(), Failed> {
        write_integer(out, time)
    }
}

// Texts of a domain by their numbers: `x`, and the hex digits of each.
#[derive(Clone, Copy)]
struct Texts<'a> {
    domain: &'a Domain,
}

impl Notation for Texts<'_> {
    type Item = u32;

    ghost spells = { λ s number. number < length s.domain.now };

    ghost bytes = { λ s number. text_part (text_at s.domain.now number) };

    fn write<S: Sink>(&self, out: &mut S, number: &u32) -> Result<(), Failed> {
        write_bytes(out, b"x")?;
        write_hex(out, self.domain.text(*number).as_bytes())
    }
}
