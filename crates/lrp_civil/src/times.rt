// Single times as dates and times of day.
ghost use Rattle.std.specs.Prelude.{⊤, ◌≡◌, IsTrue, ◌↔◌};
ghost use Rattle.lrp_io.specs.Causes.{HasCause};
ghost use Rattle.lrp_io.specs.Pieces.{IsWritten};
ghost use Rattle.lrp_answers.specs.Spots.{spot_tuple, IsOfTexts};
ghost use Rattle.lrp_civil.specs.CivilLines.{civil_time_bytes};
ghost use Rattle.lrp_civil.specs.Dated.{dated_bytes, dated_line, is_civil_minute as is_civil_minute_by};
ghost use Rattle.lrp_calendar.specs.Moments.{IsCivilMinute};

use crate::lines::Moments;
use lrp_answer_text::{Form, write_line_in};
use lrp_answers::Answer;
use lrp_calendar::write_moment;
use lrp_io::{Failed, Sink};
use lrp_model::Spot;
use lrp_print::{Notation, write_integer};

/// The minute 0001-01-01 00:00.
const FIRST: i64 = -1_035_593_280;

/// The minute 9999-12-31 23:59.
const LAST: i64 = 4_223_371_679;

/// Writes a time as `YYYY-MM-DD HH:MM`, between quotes in JSON. After a failure a front of it was written.
pub fn write_civil_time<S: Sink>(out: &mut S, time: &i64, json: bool) -> Result<(), Failed>
    requires { IsCivilMinute time.now }
    ensures text { IsWritten (S.written out.old) (S.written out.new)
        (civil_time_bytes json time.now) result }
    ensures cause { HasCause (S.faults out.old) (S.faults out.new) result }
{
    Moments { json }.write(out, time)
}

/// Writes the values of a spot in head order, joined by `, `, each time of the years 1 to 9999 as `YYYY-MM-DD HH:MM`, and any
/// other as its number. After a failure a front of the line was written.
pub fn write_dated_line<S: Sink>(out: &mut S, answer: &Answer, spot: &Spot) -> Result<(), Failed>
    requires { IsOfTexts answer.now spot.now.texts }
    ensures text { IsWritten (S.written out.old) (S.written out.new)
        (dated_line (spot_tuple answer.now.head.columns answer.now.store.shape answer.now.domain
        spot.now)) result }
    ensures cause { HasCause (S.faults out.old) (S.faults out.new) result }
{
    write_line_in(out, answer, spot, &Form::Plain, &Dates)
}

// Times as dates and times of day where they have one, and else in decimal.
#[derive(Clone, Copy)]
struct Dates;

impl Notation for Dates {
    type Item = i64;

    ghost spells = { λ _ _. ⊤ };

    ghost bytes = { λ _ time. dated_bytes time };

    fn write<S: Sink>(&self, out: &mut S, time: &i64) -> Result<(), Failed> {
        if is_civil_minute(time) {
            write_moment(out, time)
        } else {
            write_integer(out, time)
        }
    }
}

/// Whether a minute is one of the years 1 to 9999.
fn is_civil_minute(time: &i64) -> bool
    ensures value { result ≡ is_civil_minute_by time.now }
    ensures civil { IsTrue result ↔ IsCivilMinute time.now }
{
    let time = *time;
    FIRST <= time && time <= LAST
}
