// `and` or `or` of core forms: the elements of an inner one stand in its place.
ghost use Rattle.std.specs.Prelude.{◌≡◌, IfOk, OnOk};
ghost use Rattle.lrp_model.specs.Formulas.{joined};
ghost use Rattle.lrp_core.specs.Cores.{core_of, cores_of};
ghost use Rattle.lrp_core.specs.Junctions.{elements, junction_of, two_of};

use crate::Core;
use lrp_model::Memory;
use std::alloc::Global;

/// How formulas are joined.
#[derive(Clone, Copy, PartialEq, Eq)]
pub enum Junction {
    And,
    Or,
}

impl Junction {
    /// The formula with these elements.
    pub fn of<'a>(self, of: Vec<Core<'a>>) -> Core<'a>
        ensures { core_of result ≡ junction_of self (cores_of of.entry.items) }
    {
        match self {
            Junction::And => Core::And { of },
            Junction::Or => Core::Or { of },
        }
    }

    /// A further element: those of a formula that is joined in the same way stand in its place.
    pub fn push<'a>(self, f: Core<'a>, all: &mut Vec<Core<'a>>) -> Result<(), Memory>
        ensures { OnOk result (cores_of all.new.items
            ≡ joined (cores_of all.old.items) (elements self (core_of f.entry))) }
    {
        match self {
            Junction::And => f.push_conjunct(all),
            Junction::Or => f.push_disjunct(all),
        }
    }

    /// Two formulas, joined.
    pub fn two<'a>(self, alloc: Global, f: Core<'a>, g: Core<'a>) -> Result<Core<'a>, Memory>
        ensures { IfOk result (λ core. core_of core
            ≡ two_of self (core_of f.entry) (core_of g.entry)) }
    {
        let mut of = Vec::with_capacity(alloc, 2)?;
        self.push(f, &mut of)?;
        self.push(g, &mut of)?;
        Ok(self.of(of))
    }
}
