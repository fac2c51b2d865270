//! The tokens by which a page of answers is followed: the text of a tuple and of the files' digest, written and read.
#![tactic(auto)]

mod digits;
mod files;
mod parts;
mod reading;
mod resume;
mod writing;

pub use files::digest;
pub use lrp_model::tokens_spell_one_tuple;
pub use reading::read_token;
pub use resume::{Resume, TokenFault};
pub use writing::write_token;
