//! Numbers of zones with one column as spans of turns, moved, merged and taken from one another, and the least period of all.
#![tactic(auto)]

mod differences;
mod ends;
mod groups;
mod merging;
mod multiples;
mod periods;
mod residues;
mod shifting;
mod spans;

pub use differences::difference;
pub use ends::{open_above, open_below};
pub use groups::{groups_of, spans_at};
pub use periods::period_of;
pub use shifting::shifted;
pub use spans::Span;
