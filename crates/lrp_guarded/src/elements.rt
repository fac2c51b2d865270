// The elements of an `and` that are left.
use lrp_core::{Variable, VariableTree};
use lrp_model::{List, Name, RawTerm, Sort, Test};

/// An atom, with its free variables and the number of its relation's rows.
#[derive(Clone, Copy)]
pub(crate) struct RankedAtom<'a> {
    pub(crate) relation: &'a Name,
    pub(crate) terms: &'a List<RawTerm>,
    pub(crate) variables: &'a List<Variable>,
    pub(crate) rows: u64,
}

/// A sort element, with its variable and the number of the sort's texts.
#[derive(Clone, Copy)]
pub(crate) struct RankedSort<'a> {
    pub(crate) sort: &'a Sort,
    pub(crate) name: &'a Name,
    pub(crate) variables: &'a List<Variable>,
    pub(crate) texts: u64,
}

/// An element with parts, or an `in`: its place in the list, and its tree, of a negation that of what it denies.
#[derive(Clone, Copy)]
pub(crate) struct Part<'a> {
    pub(crate) index: usize,
    pub(crate) tree: &'a VariableTree,
}

/// The elements: atoms and sort elements in order of their numbers of rows and texts, and the others in list order.
pub(crate) struct Elements<'a> {
    pub(crate) atoms: Vec<RankedAtom<'a>>,
    pub(crate) sorts: Vec<RankedSort<'a>>,
    pub(crate) others: Vec<Part<'a>>,
    pub(crate) tests: List<Test>,
    pub(crate) negations: Vec<Part<'a>>,
}

// They are let go by one call, which is proved once.
impl<'a> Drop for Elements<'a> {
    fn drop(self) {
        let Elements {
            atoms: _atoms,
            sorts: _sorts,
            others: _others,
            tests: _tests,
            negations: _negations,
        } = self;
    }
}
