//! Zones in a tree of hulls: those of a store that may have tuples in given ranges, found without a look at the others.
#![tactic(auto)]

mod axis;
mod columns;
mod common;
mod hull;
mod query;
mod range;
mod span;
mod tree;
mod trees;

pub use query::HullQuery;
pub use range::ColumnRange;
pub use trees::{Linked, ZoneTree};
