//! Zones of one cell: what of one is left where others are taken away, and the same tuples in settled zones.
#![tactic(auto)]

mod axes;
mod bounded;
mod covering;
mod cutters;
mod gaps;
mod half;
mod hull;
mod intervals;
mod leaving;
mod line;
mod pairs;
mod settled;
mod settling;
mod standing;
mod stored;
mod turns;
mod windows;

pub use cutters::Cutters;
pub use leaving::pieces;
pub use line::settle_line;
pub use settled::is_settled;
pub use settling::settle;
