// The least answer as it is written.
ghost use Rattle.std.specs.Prelude.{IfSome};
ghost use Rattle.lrp_outputs.specs.Carried.{spot_prop};
ghost use Rattle.lrp_io.specs.Causes.{HasCause};
ghost use Rattle.lrp_io.specs.Pieces.{IsWritten};
ghost use Rattle.lrp_outputs.specs.First.{least_line};
ghost use Rattle.lrp_outputs.specs.Spots.{HasKnownTexts, answer_tuple};

use lrp_answer_text::{Form, write_line};
use lrp_answers::Answer;
use lrp_civil::write_dated_line;
use lrp_io::{Failed, Sink, Text};
use lrp_model::Spot;
use lrp_print::write_bytes;

/// The least of some answers, where there is one. With `dates` its times are shown as dates, those of the years 1 to 9999.
#[derive(Drop)]
pub struct Witness {
    pub answer: Answer,
    pub least: Option<Spot>,
    pub dates: bool,
    ghost known: { IfSome least (HasKnownTexts answer) } by { spot_prop answer least },
}

impl Text for Witness {
    ghost use Rattle.lrp_outputs.specs.Outputs.{witness_text};

    ghost text = { λ w. witness_text w };

    fn write_to<S: Sink>(&self, out: &mut S) -> Result<(), Failed> {
        match &self.least {
            None => write_bytes(out, b"Empty\n"),
            Some(spot) => {
                write_bytes(out, b"Nonempty\n")?;
                write_least(out, self, spot)
            }
        }
    }
}

/// The line of the least answer.
fn write_least<S: Sink>(out: &mut S, witness: &Witness, least: &Spot) -> Result<(), Failed>
    requires known { HasKnownTexts witness.now.answer least.now }
    ensures text { IsWritten (S.written out.old) (S.written out.new)
        (least_line witness.now.dates (answer_tuple witness.now.answer least.now)) result }
    ensures cause { HasCause (S.faults out.old) (S.faults out.new) result }
{
    if witness.dates {
        write_dated_line(out, &witness.answer, least)
    } else {
        write_line(out, &witness.answer, least, &Form::Plain)
    }
}
