//! The evaluation of a plan: its steps are run one after another, and the last table has the answers.
#![tactic(auto)]

mod answering;
mod complementing;
mod endings;
mod evaluation;
mod following;
mod freeing;
mod groups;
mod growing;
mod heading;
mod known;
mod laws;
mod projecting;
mod running;
mod settling;
mod sorting;
mod together;
mod worth;

pub use answering::{answer, answer_in_parts, nearest_in_parts};
pub use endings::run_steps;
pub use evaluation::EvalFault;
pub use freeing::operands_of;
pub use known::{AnswerFrom, Known, PartTable, PlanPart, answer_from};
pub use laws::{counts_are_unique, whole_pages_count_answers};
