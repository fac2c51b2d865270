// A page of answers as it is written.
ghost use Rattle.std.specs.List.{AllByRecursion};
ghost use Rattle.lrp_answer_text.specs.Lines.{IsFormOf};
ghost use Rattle.lrp_outputs.specs.Carried.{civil_prop, form_prop, spots_prop};
ghost use Rattle.lrp_outputs.specs.Known.{HaveCivilTimes, IsKnownSpot};

use crate::lines::write_page;
use lrp_answer_text::Form;
use lrp_answers::Answer;
use lrp_io::{Failed, Sink, Text};
use lrp_model::{List, Spot};

/// Some answers one after the other, whether more come after them, and the digest of the files that they are of. With
/// `civil` their times are shown as dates.
///
/// All of it stands before the first byte is written.
#[derive(Drop)]
pub struct Page {
    pub answer: Answer,
    pub form: Form,
    pub civil: bool,
    pub files: [u8; 32],
    pub spots: List<Spot>,
    pub more: bool,
    ghost form_is: { IsFormOf answer.domain form } by { form_prop answer.domain form },
    ghost known: { AllByRecursion (IsKnownSpot answer) spots } by { spots_prop answer spots },
    ghost dates: { HaveCivilTimes civil answer spots } by { civil_prop civil answer spots },
}

impl Text for Page {
    ghost use Rattle.lrp_outputs.specs.Outputs.{page_text};

    ghost text = { λ page. page_text page };

    fn write_to<S: Sink>(&self, out: &mut S) -> Result<(), Failed> {
        write_page(out, self)
    }
}
