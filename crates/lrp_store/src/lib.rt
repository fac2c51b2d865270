//! Zones by cell: sets of tuples of times and texts, cell by cell.
#![tactic(auto)]

mod least;
mod line;
mod nearest;
mod reach;
mod reading;
mod store;
mod stored;
mod tidy;
mod zones;

pub use store::{Store, StoreFault};
pub use zones::{Entries, Zones};
