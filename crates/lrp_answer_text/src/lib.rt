//! The texts of answers: the line of one answer, and the relation that a whole answer is.
#![tactic(auto)]

mod answers;
mod closures;
mod laws;
mod lines;
mod texts;
mod values;

pub use answers::write_answer;
pub use laws::{answers_are_texts, heads_are_columns};
pub use lines::{write_line, write_line_in};
pub use texts::{Form, JsonTexts};
