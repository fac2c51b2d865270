//! The meaning of the command line: from words and files to a status and a text.
#![tactic(auto)]

mod counting;
mod deciding;
mod files;
mod keeping;
mod language;
mod linting;
mod listing;
mod needing;
mod paging;
mod question;
mod questioning;
mod reading;
mod resuming;
mod running;
mod sampling;
mod seeing;
mod serving;
mod watching;

pub use keeping::{KeptDatabase, is_read_for, keep};
pub use lrp_outputs::{Refusal, Status, WatchRefusal};
pub use lrp_sample::{Texts, sample_texts};
pub use lrp_words::{Asked, Command, Usage, read_words};
pub use paging::{Told, ask, question_in};
pub use running::run;
