//! The least answers of a query while rows of its database are added and taken out.
#![tactic(auto)]

mod anew;
mod domains;
mod edited;
mod faults;
mod keeping;
mod same_steps;
mod watching;

pub use anew::{Anew, least_answers_anew};
pub use faults::WatchFault;
pub use watching::least_answers;
