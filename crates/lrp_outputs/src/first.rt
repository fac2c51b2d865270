// The line of a least answer.
ghost use Rattle.std.specs.Prelude.{option_map};
ghost use Rattle.lrp_io.specs.Causes.{HasCause};
ghost use Rattle.lrp_io.specs.Pieces.{IsWritten};
ghost use Rattle.lrp_outputs.specs.First.{first_line};
ghost use Rattle.lrp_outputs.specs.Spots.{IsKnownLeast, answer_tuple};

use lrp_answer_text::{Form, write_line};
use lrp_answers::Answer;
use lrp_io::{Failed, Sink};
use lrp_model::Spot;
use lrp_print::write_bytes;

/// Writes the plain line of a least answer, or `none` where there is none.
pub fn write_first<S: Sink>(
    out: &mut S,
    answer: &Answer,
    least: &Option<Spot>,
) -> Result<(), Failed>
    requires known { IsKnownLeast answer.now least.now }
    ensures text { IsWritten (S.written out.old) (S.written out.new)
        (first_line (option_map (answer_tuple answer.now) least.now)) result }
    ensures cause { HasCause (S.faults out.old) (S.faults out.new) result }
{
    match least {
        None => write_bytes(out, b"none\n"),
        Some(spot) => write_line(out, answer, spot, &Form::Plain),
    }
}
