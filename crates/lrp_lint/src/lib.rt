//! What is silently wrong in a database or a query: rows that hold nothing or whose times nothing ties, and names and texts of which there is nothing.
#![tactic(auto)]

mod contents;
mod fault;
mod findings;
mod flaws;
mod known;
mod laws;
mod listed;
mod parts;
mod queries;
mod report;
mod rows;
mod ties;

pub use fault::LintFault;
pub use findings::{Findings, lint};
pub use flaws::{QueryFinding, QueryFlaw, RowFinding, RowFlaw};
pub use laws::findings_are_one;
pub use report::LintReport;
