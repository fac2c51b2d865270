//! Queries in kept form: their disjuncts, the rows that are held for them, and the limits.
#![tactic(auto)]

mod disjuncts;
mod equal_rows;
mod features;
mod kept;
mod laws;
mod limits;
mod looking;
mod outlines;
mod passing;
mod rows;
mod signs;
mod sketches;
mod sources;
mod spans;
mod windows;

pub use disjuncts::{Disjunct, JoinedAtom, disjuncts_of};
pub use equal_rows::are_equal;
pub use features::Feature;
pub use kept::is_kept;
pub use laws::kept_queries_are_choices;
pub use limits::{is_read, scaled_reach, tested_period, with_bounds, with_periods};
pub use outlines::Outline;
pub use passing::PlacedTest;
pub use rows::{HeldRelation, HeldRow, HeldRows, Sketch};
pub use sources::HeldSources;
pub use windows::TimeWindow;
