//! What the planner reads of queries: their core forms, the variables that occur free in these, and their data texts.
#![tactic(auto)]

mod comparisons;
mod core_forms;
mod coverage;
mod forming;
mod junctions;
mod literals;
mod polarities;
mod terms;
mod variable_trees;
mod variables;

pub use core_forms::{Core, TermTest};
pub use coverage::{are_among, are_same, covers, meet};
pub use forming::core_form;
pub use literals::query_texts;
pub use terms::copy_terms;
pub use variable_trees::{VariableTree, variable_tree};
pub use variables::{Variable, add_variables, free_variables, test_variables};
