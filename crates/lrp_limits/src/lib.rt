//! Numbers with a limit of 2^62: least common multiples of periods, and reaches.
#![tactic(auto)]

pub mod facts;
pub mod periods;
pub mod reaches;
pub mod scaling;
