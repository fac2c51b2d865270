// The least answers of a query as they are written.
ghost use Rattle.std.specs.List.{AllByRecursion};
ghost use Rattle.lrp_outputs.specs.Carried.{least_answers_prop};
ghost use Rattle.lrp_outputs.specs.Spots.{IsKnownLeast};

use crate::first::write_first;
use lrp_answers::Answer;
use lrp_io::{Failed, Sink, Text};
use lrp_model::{List, Spot};

/// The least answers of one query over some databases, one after the other, by the numbers of one answer's domain.
#[derive(Drop)]
pub struct LeastAnswers {
    pub answer: Answer,
    pub spots: List<Option<Spot>>,
    ghost known: { AllByRecursion (IsKnownLeast answer) spots } by { least_answers_prop answer spots },
}

impl Text for LeastAnswers {
    ghost use Rattle.lrp_outputs.specs.Outputs.{least_answers_text};

    ghost text = { λ l. least_answers_text l };

    fn write_to<S: Sink>(&self, out: &mut S) -> Result<(), Failed> {
        let spots = self.spots.as_slice();
        for least in spots {
            write_first(out, &self.answer, least)?;
        }
        Ok(())
    }
}
