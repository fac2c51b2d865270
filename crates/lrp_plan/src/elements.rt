// The elements of an `and`.
use lrp_core::VariableTree;
use lrp_model::{List, Test};
use std::collections::VecDeque;

/// An element of an `and` that is no test: its place in the list, its tree (of a negation that of what it denies), and
/// its rank, which is its number of rows, or 2^64 where it has none.
#[derive(Clone, Copy)]
pub(crate) struct Element<'a> {
    pub(crate) index: usize,
    pub(crate) tree: &'a VariableTree,
    pub(crate) rank: u128,
}

/// What an element adds to the result: its own formula, or the negation of the one whose steps are made.
#[derive(Clone, Copy)]
pub(crate) enum Kind {
    Positive,
    Negation,
}

/// The elements of an `and`: the positives in order of their ranks, and its tests and its negations in list order.
#[derive(Drop)]
pub(crate) struct Split<'a> {
    pub(crate) positives: VecDeque<Element<'a>>,
    pub(crate) tests: List<Test>,
    pub(crate) negations: VecDeque<Element<'a>>,
}
