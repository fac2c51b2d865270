//! How many answers lie in a window, and the answers of a window as ranges.
#![tactic(auto)]

mod blocks;
mod counting;
mod cuts;
mod laws;
mod sweep;
mod telling;
mod windows;

pub use counting::count;
pub use laws::{
    ranges_are_unique, ranges_cover, ranges_cover_the_front, sizes_add, sizes_are_unique,
};
pub use windows::{Range, Ranges, first_ranges};
