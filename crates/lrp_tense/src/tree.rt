// Queries with temporal operators are trees as all others are.
use lrp_model::{RawFormula, RawKind, RawQuery};

/// A formula in which operators may stand.
pub type TenseFormula = RawFormula;

/// What such a formula is.
pub type TenseKind = RawKind;

/// A query in which operators may stand.
pub type TenseQuery = RawQuery;
