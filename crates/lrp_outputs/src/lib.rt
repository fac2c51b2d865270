//! What a run writes: outputs and refusals with their texts, and the status that each has.
//!
//! An output or a refusal stands whole before its first byte is written, and no memory is taken to write it.
#![tactic(auto)]

mod answer;
mod first;
mod head;
mod laws;
mod least;
mod leasts;
mod lines;
mod output;
mod page;
mod plan;
mod ranges;
mod refusal;
mod report;
mod status;
mod watch_refusal;
mod witness;
mod writing;

pub use answer::WholeAnswer;
pub use head::HeadNeed;
pub use laws::{small_answers_have_room, spots_stand_for_tuples};
pub use least::least_of_parts;
pub use leasts::LeastAnswers;
pub use output::Output;
pub use page::Page;
pub use plan::WritablePlan;
pub use ranges::RangeLines;
pub use refusal::Refusal;
pub use report::Report;
pub use status::Status;
pub use watch_refusal::WatchRefusal;
pub use witness::Witness;
pub use writing::write_outcome;
