//! Answers: the tuples of a store in the order of a head, the least one of them, and those of a window as they are listed,
//! one after the other.
#![tactic(auto)]

mod answer;
mod cursor;
mod giving;
mod heap;
mod laws;
mod lister;
mod merging;
mod paused;
mod steps;
mod window;

pub use answer::Answer;
pub use cursor::Cursor;
pub use giving::{Taken, first_spots};
pub use laws::{listings_are_pages, moves_are_few};
pub use lister::Lister;
pub use merging::{SpotPage, merged};
pub use paused::Paused;
pub use steps::Steps;
