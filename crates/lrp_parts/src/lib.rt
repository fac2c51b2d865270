//! Parts of choices: what rows have in common that stand for the first atoms of a disjunct.
#![tactic(auto)]

mod bound;
mod conjunctions;
mod derivation;
mod fronts;
mod heads;
mod indexes;
mod lines;
mod parts;
mod patterns;

pub use derivation::Derived;
pub use parts::DerivationSetting;
