// The whole answer of a question as it is written.
ghost use Rattle.std.specs.Prelude.{◌≡◌};
ghost use Rattle.lrp_store.specs.Least.{HasRoom};
ghost use Rattle.lrp_outputs.specs.Carried.{roomy_prop};
ghost use Rattle.lrp_outputs.specs.Rooms.{IsRoomy};

use lrp_answer_text::write_answer;
use lrp_answers::Answer;
use lrp_io::{Failed, Sink, Text};
use lrp_model::Name;

/// All answers of a query, whose text can be written.
#[derive(Drop)]
pub struct WholeAnswer {
    pub answer: Answer,
    pub name: Name,
    ghost room: { IsRoomy answer.store } by { roomy_prop answer.store },
}

impl WholeAnswer {
    /// These answers, as a relation of this name.
    pub fn new(answer: Answer, name: Name) -> Self
        requires { HasRoom answer.store }
        ensures answer { result.answer ≡ answer }
        ensures name { result.name ≡ name }
    {
        WholeAnswer { answer, name }
    }
}

impl Text for WholeAnswer {
    ghost use Rattle.lrp_answer_text.specs.AnswerText.{named_answer_text};

    ghost text = { λ whole. named_answer_text whole.name whole.answer };

    fn write_to<S: Sink>(&self, out: &mut S) -> Result<(), Failed> {
        write_answer(out, &self.answer, self.name.as_bytes())
    }
}
