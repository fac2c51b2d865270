//! The commands that the words of a command line spell.
#![tactic(auto)]

mod command;
mod entries;
mod keys;
mod numbers;
mod purpose;
mod reading;

pub use command::{Command, LintFiles, QuestionFiles, Usage};
pub use purpose::{Asked, Counting, Paging, Purpose, Ranging};
pub use reading::read_words;
