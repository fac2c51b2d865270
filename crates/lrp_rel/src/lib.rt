//! Databases as text: what is read and what is written.
#![tactic(auto)]

mod faults;
mod gathering;
mod laws;
mod meaning;
mod read;
mod reading;
mod trees;
mod written;

pub use faults::{row_fault, sooner_of};
pub use gathering::Heading;
pub use laws::{database_texts_have_one_tree, databases_read_back};
pub use lrp_database::Database;
pub use lrp_model::{DbFault, DbKind};
pub use lrp_print::write_relation;
pub use meaning::meant_row;
pub use read::read_database;
pub use reading::{read_label, read_placed_row};
pub use trees::{ReadFault, refusal};
pub use written::write_database;
