// Whether a formula is formed, or its negation.
ghost use Rattle.std.specs.Prelude.{◌≡◌, IfOk};
ghost use Rattle.lrp_model.specs.RawTerms.{said_test};
ghost use Rattle.lrp_core.specs.Cores.{core_of};
ghost use Rattle.lrp_core.specs.Polarities.{choice as choice_of, formed_test, opposite as opposite_of, with_polarity as signed_of};

use crate::Core;
use crate::comparisons::{negated, negative_comparison, positive_comparison};
use crate::junctions::Junction;
use lrp_model::{Memory, Op, RawTerm};
use std::alloc::Global;

/// The formula, or its negation.
#[derive(Clone, Copy, PartialEq, Eq)]
pub enum Polarity {
    Positive,
    Negative,
}

impl Polarity {
    /// The other one.
    pub fn opposite(self) -> Polarity
        ensures { result ≡ opposite_of self }
    {
        match self {
            Polarity::Positive => Polarity::Negative,
            Polarity::Negative => Polarity::Positive,
        }
    }

    /// How the formulas of an `or` are joined: their negations by `and`.
    pub fn choice(self) -> Junction
        ensures { result ≡ choice_of self }
    {
        match self {
            Polarity::Positive => Junction::Or,
            Polarity::Negative => Junction::And,
        }
    }

    /// A core form that may be negated as it stands, or its negation.
    pub fn signed<'a>(self, alloc: Global, f: Core<'a>) -> Result<Core<'a>, Memory>
        ensures { IfOk result (λ core. core_of core ≡ signed_of self (core_of f.entry)) }
    {
        match self {
            Polarity::Positive => Ok(f),
            Polarity::Negative => negated(alloc, f),
        }
    }

    /// The core form of a comparison, or of its negation.
    pub fn comparison<'a>(
        self,
        alloc: Global,
        left: &'a RawTerm,
        op: Op,
        right: &'a RawTerm,
    ) -> Result<Core<'a>, Memory>
        ensures { IfOk result (λ core. core_of core
            ≡ formed_test self (said_test left.now op right.now)) }
    {
        match self {
            Polarity::Positive => Ok(positive_comparison(left, op, right)),
            Polarity::Negative => negative_comparison(alloc, left, op, right),
        }
    }
}
