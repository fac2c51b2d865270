//! Tables: stores whose columns are named by variables, the sets of assignments that the steps of a plan compute, and what the steps share.
#![tactic(auto)]

mod free;
mod names;
mod pieces;
mod remembered;
mod setting;
mod table;

pub use free::is_free;
pub use names::{Places, joint, place_of, places_among, places_of, without};
pub use pieces::{Piece, Pieces};
pub use remembered::RememberedCells;
pub use setting::Setting;
pub use table::{StepFault, Table, Vars};
