//! Texts as they are written out: numbers, data texts, sorts, points and offsets, and relations and plans made of them.
#![tactic(auto)]

mod notation;
mod pieces;
mod plans;
mod relations;
mod terms;

pub use notation::{Notation, write_each, write_joined};
pub use pieces::{
    write_bytes, write_count, write_integer, write_number, write_offset, write_point, write_quoted,
    write_sort,
};
pub use plans::write_plan;
pub use relations::{write_columns, write_conditions, write_relation, write_relations};
