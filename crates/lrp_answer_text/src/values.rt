// Values in head order, whichever way their times are written.
ghost use Rattle.std.specs.Prelude.{◌≡◌, ◌<◌, ◌++◌, IfSome, List, ℤ, length, map, take};
ghost use Rattle.std.specs.List.{AllByRecursion};
ghost use Rattle.lrp_io.specs.Causes.{HasCause};
ghost use Rattle.lrp_io.specs.Pieces.{IsWritten};
ghost use Rattle.lrp_model.specs.Printed.{quoted};
ghost use Rattle.lrp_model.specs.Tuples.{in_head_order, text_at, texts_at};
ghost use Rattle.lrp_answer_text.specs.Lines.{values_after};

use crate::texts::JsonTexts;
use lrp_io::{Failed, Sink};
use lrp_model::{Column, Domain};
use lrp_print::{Notation, write_bytes, write_quoted};

// How values are written: each time in a notation, and the JSON texts of their domain where they are at hand.
#[derive(Clone, Copy)]
pub(crate) struct Spelling<'a, T> {
    pub times: &'a T,
    pub texts: Option<&'a JsonTexts>,
}

// The values of columns: their times, and the numbers of their texts in a domain.
#[derive(Clone, Copy)]
pub(crate) struct Values<'a, 'v> {
    pub columns: &'a [Column],
    pub domain: &'a Domain,
    pub times: &'v [i64],
    pub numbers: &'v [u32],
}

// The values in head order, the first after some bytes and each further one after others.
pub(crate) fn write_values<S: Sink, T: Notation<Item = i64>>(
    out: &mut S,
    spelling: &Spelling<'_, T>,
    before: &[u8],
    between: &[u8],
    values: Values<'_, '_>,
) -> Result<(), Failed>
    requires known { AllByRecursion (λ n. n < length values.domain.now) values.numbers.now }
    requires texts { IfSome spelling.now.texts (λ texts. texts.now
        ≡ map quoted values.domain.now) }
    requires times { AllByRecursion (T.spells spelling.now.times.now) values.times.now }
    ensures text { IsWritten (S.written out.old) (S.written out.new)
        (values_after (T.bytes spelling.now.times.now) before.now between.now
        (in_head_order values.entry.columns.now values.entry.times.now
        (texts_at values.entry.domain.now values.entry.numbers.now))) result }
    ensures cause { HasCause (S.faults out.old) (S.faults out.new) result }
{
    let Values {
        columns,
        domain,
        times,
        numbers,
    } = values;
    let [column, columns @ ..] = columns else {
        return Ok(());
    };
    if column.sort.is_time() {
        let [time, times @ ..] = times else {
            return Ok(());
        };
        write_time(out, spelling, before, time)?;
        let values = Values {
            columns,
            domain,
            times,
            numbers,
        };
        write_values(out, spelling, between, between, values)
    } else {
        let [number, numbers @ ..] = numbers else {
            return Ok(());
        };
        write_text(out, spelling.texts, before, domain, *number)?;
        let values = Values {
            columns,
            domain,
            times,
            numbers,
        };
        write_values(out, spelling, between, between, values)
    }
}

// A time after these bytes.
fn write_time<S: Sink, T: Notation<Item = i64>>(
    out: &mut S,
    spelling: &Spelling<'_, T>,
    before: &[u8],
    time: &i64,
) -> Result<(), Failed>
    requires { T.spells spelling.now.times.now time.now }
    ensures text { IsWritten (S.written out.old) (S.written out.new)
        (before.now ++ T.bytes spelling.now.times.now time.now) result }
    ensures cause { HasCause (S.faults out.old) (S.faults out.new) result }
{
    write_bytes(out, before)?;
    spelling.times.write(out, time)
}

// A text of the domain in quotes, by its number, after these bytes.
fn write_text<S: Sink>(
    out: &mut S,
    texts: Option<&JsonTexts>,
    before: &[u8],
    domain: &Domain,
    number: u32,
) -> Result<(), Failed>
    requires known { number < length domain.now }
    requires texts { IfSome texts (λ texts. texts.now ≡ map quoted domain.now) }
    ensures text { IsWritten (S.written out.old) (S.written out.new)
        (before.now ++ quoted (text_at domain.now number)) result }
    ensures cause { HasCause (S.faults out.old) (S.faults out.new) result }
{
    write_bytes(out, before)?;
    match texts {
        Some(texts) => write_bytes(out, texts.as_slice()[number as usize].as_slice()),
        None => write_quoted(out, domain.text(number).as_bytes()),
    }
}
