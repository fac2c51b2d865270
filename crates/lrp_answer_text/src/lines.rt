// The line of an answer.
ghost use Rattle.std.specs.Prelude.{⊤, ◌≡◌, ◌<◌, ◌+◌, IfSome, ℤ, false, true, length, map, take};
ghost use Rattle.std.specs.List.{AllByRecursion};
ghost use Rattle.std.specs.Fmt.{signed_decimal};
ghost use Rattle.lrp_io.specs.Causes.{HasCause};
ghost use Rattle.lrp_io.specs.Pieces.{IsWritten};
ghost use Rattle.lrp_model.specs.Rows.{Tuple};
ghost use Rattle.lrp_model.specs.Sorts.{time_count};
ghost use Rattle.lrp_model.specs.Printed.{quoted};
ghost use Rattle.lrp_model.specs.PrintedPages.{answer_line};
ghost use Rattle.lrp_model.specs.Satisfaction.{HasShape};
ghost use Rattle.lrp_model.specs.Tuples.{in_head_order, texts_at};
ghost use Rattle.lrp_store.specs.Least.{StandsFor};
ghost use Rattle.lrp_answers.specs.Spots.{spot_tuple, IsOfTexts};
ghost use Rattle.lrp_answer_text.specs.Lines.{IsFormOf, is_json, tuple_line};

use crate::texts::Form;
use crate::values::{Spelling, Values, write_values};
use lrp_answers::Answer;
use lrp_io::{Failed, Sink};
use lrp_model::Spot;
use lrp_print::{Notation, write_bytes, write_integer};

/// Writes the values of a spot in head order, joined by `, ` in plain form, and as a JSON list in JSON form. After a
/// failure a front of the line was written.
pub fn write_line<S: Sink>(
    out: &mut S,
    answer: &Answer,
    spot: &Spot,
    form: &Form,
) -> Result<(), Failed>
    requires known { IsOfTexts answer.now spot.now.texts }
    requires form { IsFormOf answer.now.domain form.now }
    ensures text { IsWritten (S.written out.old) (S.written out.new)
        (answer_line (is_json form.now)
        (spot_tuple answer.now.head.columns answer.now.store.shape answer.now.domain spot.now))
        result }
    ensures cause { HasCause (S.faults out.old) (S.faults out.new) result }

    // The tuple whose line it is, is the one that the spot stands for.
    ensures tuple { (tuple : Tuple) → HasShape answer.now.head.columns tuple
        → StandsFor answer.now.store.shape answer.now.domain spot.now tuple
        → spot_tuple answer.now.head.columns answer.now.store.shape answer.now.domain spot.now
        ≡ tuple }
{
    write_line_in(out, answer, spot, form, &Decimal)
}

/// Writes the values of a spot as `write_line` does, but each time in another notation. After a failure a front of the
/// line was written.
pub fn write_line_in<S: Sink, T: Notation<Item = i64>>(
    out: &mut S,
    answer: &Answer,
    spot: &Spot,
    form: &Form,
    times: &T,
) -> Result<(), Failed>
    requires known { IsOfTexts answer.now spot.now.texts }
    requires form { IsFormOf answer.now.domain form.now }
    requires times { AllByRecursion (T.spells times.now)
        (take answer.now.store.shape.times spot.now.times) }
    ensures text { IsWritten (S.written out.old) (S.written out.new)
        (tuple_line (T.bytes times.now) (is_json form.now)
        (spot_tuple answer.now.head.columns answer.now.store.shape answer.now.domain spot.now))
        result }
    ensures cause { HasCause (S.faults out.old) (S.faults out.new) result }
{
    let spelling = Spelling {
        times,
        texts: form.texts(),
    };
    write_spot(out, answer, spot, form.is_json(), &spelling)
}

// Times in decimal.
#[derive(Clone, Copy)]
struct Decimal;

impl Notation for Decimal {
    type Item = i64;

    ghost spells = { λ _ _. ⊤ };

    ghost bytes = { λ _ time. signed_decimal time };

    fn write<S: Sink>(&self, out: &mut S, time: &i64) -> Result<(), Failed> {
        write_integer(out, time)
    }
}

// The line of a spot of an answer.
fn write_spot<S: Sink, T: Notation<Item = i64>>(
    out: &mut S,
    answer: &Answer,
    spot: &Spot,
    json: bool,
    spelling: &Spelling<'_, T>,
) -> Result<(), Failed>
    requires known { IsOfTexts answer.now spot.now.texts }
    requires texts { IfSome spelling.now.texts (λ texts. texts.now ≡ map quoted answer.now.domain) }
    requires times { AllByRecursion (T.spells spelling.now.times.now)
        (take answer.now.store.shape.times spot.now.times) }
    ensures text { IsWritten (S.written out.old) (S.written out.new)
        (tuple_line (T.bytes spelling.now.times.now) json
        (spot_tuple answer.now.head.columns answer.now.store.shape answer.now.domain spot.now))
        result }
    ensures cause { HasCause (S.faults out.old) (S.faults out.new) result }
{
    let shape = answer.store.shape();
    let values = Values {
        columns: answer.head.columns.as_slice(),
        domain: &answer.domain,
        times: &spot.times[..shape.times as usize],
        numbers: &spot.texts[..shape.texts as usize],
    };
    if json {
        write_json(out, spelling, values)
    } else {
        write_plain(out, spelling, values)
    }
}

// The values with a comma and a space between and a line feed, or `()` where there is no column.
fn write_plain<S: Sink, T: Notation<Item = i64>>(
    out: &mut S,
    spelling: &Spelling<'_, T>,
    values: Values<'_, '_>,
) -> Result<(), Failed>
    requires known { AllByRecursion (λ n. n < length values.domain.now) values.numbers.now }
    requires texts { IfSome spelling.now.texts (λ texts. texts.now
        ≡ map quoted values.domain.now) }
    requires times { AllByRecursion (T.spells spelling.now.times.now) values.times.now }
    requires count { time_count values.columns.now ≡ length values.times.now }
    requires all { length values.columns.now
        ≡ length values.times.now + length values.numbers.now }
    ensures text { IsWritten (S.written out.old) (S.written out.new)
        (tuple_line (T.bytes spelling.now.times.now) false
        (in_head_order values.entry.columns.now values.entry.times.now
        (texts_at values.entry.domain.now values.entry.numbers.now))) result }
    ensures cause { HasCause (S.faults out.old) (S.faults out.new) result }
{
    if values.columns.is_empty() {
        return write_bytes(out, b"()\n");
    }
    write_values(out, spelling, b"", b", ", values)?;
    write_bytes(out, b"\n")
}

// The values in brackets with a comma between, and a line feed.
fn write_json<S: Sink, T: Notation<Item = i64>>(
    out: &mut S,
    spelling: &Spelling<'_, T>,
    values: Values<'_, '_>,
) -> Result<(), Failed>
    requires known { AllByRecursion (λ n. n < length values.domain.now) values.numbers.now }
    requires texts { IfSome spelling.now.texts (λ texts. texts.now
        ≡ map quoted values.domain.now) }
    requires times { AllByRecursion (T.spells spelling.now.times.now) values.times.now }
    ensures text { IsWritten (S.written out.old) (S.written out.new)
        (tuple_line (T.bytes spelling.now.times.now) true
        (in_head_order values.entry.columns.now values.entry.times.now
        (texts_at values.entry.domain.now values.entry.numbers.now))) result }
    ensures cause { HasCause (S.faults out.old) (S.faults out.new) result }
{
    write_bytes(out, b"[")?;
    write_values(out, spelling, b"", b",", values)?;
    write_bytes(out, b"]\n")
}
