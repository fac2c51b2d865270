// The line of an answer with its times as dates and times of day.
ghost use Rattle.std.specs.Prelude.{◌≡◌, ◌<◌, ◌++◌, ℤ, codes, take, length};
ghost use Rattle.std.specs.List.{AllByRecursion};
ghost use Rattle.lrp_io.specs.Causes.{HasCause};
ghost use Rattle.lrp_io.specs.Pieces.{IsWritten};
ghost use Rattle.lrp_model.specs.Rows.{Tuple};
ghost use Rattle.lrp_model.specs.Satisfaction.{HasShape};
ghost use Rattle.lrp_store.specs.Least.{StandsFor};
ghost use Rattle.lrp_answers.specs.Spots.{spot_tuple};
ghost use Rattle.lrp_answer_text.specs.Lines.{IsFormOf, is_json};
ghost use Rattle.lrp_civil.specs.CivilLines.{civil_line, civil_time_bytes};
ghost use Rattle.lrp_calendar.specs.Dates.{IsDateOf, date_of};
ghost use Rattle.lrp_calendar.specs.Moments.{IsCivilMinute, day_of, moment_bytes};

use lrp_answer_text::{Form, write_line_in};
use lrp_answers::Answer;
use lrp_calendar::write_moment;
use lrp_io::{Failed, Sink};
use lrp_model::Spot;
use lrp_print::{Notation, write_bytes};

/// Writes the values of a spot as `write_line` of `lrp_answer_text` does, but each time as `YYYY-MM-DD HH:MM`, between quotes in
/// JSON form. After a failure a front of the line was written.
pub fn write_civil_line<S: Sink>(
    out: &mut S,
    answer: &Answer,
    spot: &Spot,
    form: &Form,
) -> Result<(), Failed>
    requires known { AllByRecursion (λ n. n < length answer.now.domain)
        (take answer.now.store.shape.texts spot.now.texts) }
    requires form { IsFormOf answer.now.domain form.now }
    requires times { AllByRecursion IsCivilMinute
        (take answer.now.store.shape.times spot.now.times) }
    ensures text { IsWritten (S.written out.old) (S.written out.new)
        (civil_line (is_json form.now) (spot_tuple answer.now.head.columns answer.now.store.shape
        answer.now.domain spot.now)) result }
    ensures cause { HasCause (S.faults out.old) (S.faults out.new) result }

    // The tuple whose line it is, is the one that the spot stands for, and the date of a time is that of its day.
    ensures tuple { (tuple : Tuple) → HasShape answer.now.head.columns tuple
        → StandsFor answer.now.store.shape answer.now.domain spot.now tuple
        → spot_tuple answer.now.head.columns answer.now.store.shape answer.now.domain spot.now
        ≡ tuple }
    ensures dates { (x : ℤ) → IsCivilMinute x → IsDateOf (day_of x) (date_of (day_of x)) }
{
    let json = form.is_json();
    write_line_in(out, answer, spot, form, &Moments { json })
}

// Times as dates and times of day, in quotes where the line is JSON.
#[derive(Clone, Copy)]
pub(crate) struct Moments {
    pub json: bool,
}

impl Notation for Moments {
    type Item = i64;

    ghost spells = { λ _ time. IsCivilMinute time };

    ghost bytes = { λ s time. civil_time_bytes s.json time };

    fn write<S: Sink>(&self, out: &mut S, time: &i64) -> Result<(), Failed> {
        if self.json {
            write_between_quotes(out, time)
        } else {
            write_moment(out, time)
        }
    }
}

// A date and a time of day in quotes.
fn write_between_quotes<S: Sink>(out: &mut S, minute: &i64) -> Result<(), Failed>
    requires { IsCivilMinute minute.now }
    ensures text { IsWritten (S.written out.old) (S.written out.new)
        (codes "\"" ++ (moment_bytes minute.now ++ codes "\"")) result }
    ensures cause { HasCause (S.faults out.old) (S.faults out.new) result }
{
    write_bytes(out, b"\"")?;
    write_moment(out, minute)?;
    write_bytes(out, b"\"")
}
