// Stores whose columns are named by variables.
ghost use Rattle.std.specs.Prelude.{◌≡◌, ◌≢◌, ◌++◌, length, AllPairs, IfOk};

use crate::names::{Places, places_of};
use lrp_model::{Copies, List, Memory, Name};
use lrp_store::{Store, StoreFault};
use std::alloc::Global;
use thiserror::Error;

/// Why a step of a plan gave no table.
#[derive(Clone, Copy, Debug, PartialEq, Eq, Error)]
pub enum StepFault {
    #[error("more cells than the cap")]
    TooManyCells,
    #[error("memory")]
    Memory,
}

/// The variables that name the columns of a table: first the times, then the texts.
#[derive(Drop)]
pub struct Vars {
    pub times: List<Name>,
    pub texts: List<Name>,
}

/// Assignments of integers and texts to variables: those whose values the store has in the columns that they name.
#[derive(Drop)]
pub struct Table {
    pub vars: Vars,
    pub store: Store,
    ghost times_named: { length vars.times ≡ store.shape.times },
    ghost texts_named: { length vars.texts ≡ store.shape.texts },
    ghost names_differ: { AllPairs ◌≢◌ (vars.times ++ vars.texts) },
}

impl Copies for Vars {
    fn copy(&self, alloc: Global) -> Result<Self, Memory> {
        Ok(Vars {
            times: self.times.copy(alloc)?,
            texts: self.texts.copy(alloc)?,
        })
    }
}

impl Table {
    ghost use Rattle.lrp_store.specs.Stores.{IsStore};
    ghost use Rattle.lrp_tables.specs.Columns.{ArePlacesOf};
    ghost use Rattle.lrp_tables.specs.Tables.{AreNamesAmong};

    /// The same assignments, in as many slots as there are zones.
    pub fn copy(&self, alloc: Global) -> Result<Table, Memory>
        ensures vars { IfOk result (λ made. made.vars ≡ self.now.vars) }
        ensures store { IfOk result (λ made. made.store
            ≡ record self.now.store { spare = made.store.spare }) }
    {
        let vars = self.vars.copy(alloc)?;
        let store = self.store.copy(alloc)?;
        Ok(Table { vars, store })
    }

    /// The places of its columns among these variables. A caller learns here what its store keeps.
    pub fn places_in(&self, alloc: Global, all: &Vars) -> Result<Places, Memory>
        requires times { AreNamesAmong self.now.vars.times all.now.times }
        requires texts { AreNamesAmong self.now.vars.texts all.now.texts }
        ensures times { IfOk result (λ places. ArePlacesOf self.now.vars.times all.now.times
            places.times) }
        ensures texts { IfOk result (λ places. ArePlacesOf self.now.vars.texts all.now.texts
            places.texts) }
        ensures valid { IsStore self.now.store }
    {
        self.store.shape();
        places_of(alloc, &self.vars, all)
    }
}

impl From<StoreFault> for StepFault {
    ghost use Rattle.lrp_tables.specs.Faults.{step_fault};
    ghost use Rattle.std.specs.Prelude.{◌≡◌};

    ghost from_gives = { λ fault made. made ≡ step_fault fault };

    fn from(fault: StoreFault) -> StepFault {
        match fault {
            StoreFault::TooManyCells => StepFault::TooManyCells,
            StoreFault::Memory => StepFault::Memory,
        }
    }
}

impl From<Memory> for StepFault {
    ghost use Rattle.lrp_tables.specs.declared.table.StepFault.TheVariants.{Memory as MemoryFault};
    ghost use Rattle.std.specs.Prelude.{◌≡◌};

    ghost from_gives = { λ _ made. made ≡ MemoryFault };

    fn from(_: Memory) -> StepFault {
        StepFault::Memory
    }
}
