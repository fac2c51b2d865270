//! Values held for numbered owners, each let go with the first of its owners that goes.
#![tactic(auto)]

mod chains;
mod holdings;
mod ranked;
mod winners;

pub use holdings::Holdings;
pub use ranked::Ranked;
