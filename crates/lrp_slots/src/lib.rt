//! Lists of values by cell. Each value stands in a slot of one vector, and a slot that is given up serves every cell.
#![tactic(auto)]

mod chains;
mod held;
mod in_line;
mod iterators;
mod key;
mod line;
mod medium;
mod narrow;
mod remembered;
mod slots;
mod tree;

pub use iterators::{Cells, ChainValues, Lists};
pub use remembered::Remembered;
pub use slots::{Ends, Slots};
