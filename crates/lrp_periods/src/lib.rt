//! Tables in parts, each part in cells of a period of its own, and the operations on them.
#![tactic(auto)]

mod bounding;
mod complements;
mod differences;
mod drops;
mod extends;
mod joins;
mod nearest;
mod parts;
mod periods;
mod scans;
mod selections;
mod sieves;
mod unions;
mod wholes;

pub use bounding::{cells_at_most, cells_of_table, is_line, product_within};
pub use complements::complement_in_parts;
pub use differences::minus_in_parts;
pub use drops::{drop_data_in_parts, drop_time_in_parts};
pub use extends::extend_in_parts;
pub use joins::join_in_parts;
pub use nearest::nearest_left;
pub use parts::PartsFault;
pub use scans::scan_in_parts;
pub use selections::select_in_parts;
pub use sieves::{can_be_sifted, sifted};
pub use unions::union_in_parts;
pub use wholes::whole;
