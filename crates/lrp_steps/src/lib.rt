//! The steps that go through one table at a time, and the patterns of rows by which all steps fill stores.
#![tactic(auto)]

mod alike;
mod asked;
mod columns;
mod comparisons;
mod conditions;
mod data_drops;
mod equalities;
mod filling;
mod gathering;
mod layout;
mod lent;
mod pair;
mod pattern;
mod places;
mod row_bounds;
mod rows;
mod scans;
mod selections;
mod sides;
mod test_tables;
mod tested;
mod time_drops;
mod unions;

pub use columns::{head_vars, joint_vars, scan_vars, store_over};
pub use data_drops::drop_data;
pub use filling::{add_pattern, is_asked, parts_from};
pub use gathering::{add_lent_store, add_piece, add_store};
pub use layout::{Operand, Sought, Wanted};
pub use lent::{PatternRef, PieceAsked, PlacedRef, ZoneAsked, has_place};
pub use pair::TextPair;
pub use pattern::{Known, Pattern, Placed, known_at};
pub use rows::row_pattern;
pub use scans::scan;
pub use selections::select;
pub use test_tables::leaf;
pub use tested::with_tests;
pub use time_drops::drop_time;
pub use unions::{extend, union, unite};
