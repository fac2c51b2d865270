//! Stores that are kept in large numbers: their tuples in as few bytes as their zones need.
#![tactic(auto)]

mod lists;
mod order;
mod stores;
mod zones;

pub use lists::PackedList;
pub use order::is_not_later;
pub use stores::{PackedPieces, PackedStore};
