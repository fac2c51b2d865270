// A query whose answers are kept.

ghost use Rattle.std.specs.Prelude.{◌≡◌, ◌<◌, ◌++◌, ◌∷◌, [], Err, IfOk, OnOk};
ghost use Rattle.lrp_model.specs.Formulas.{question_of};
ghost use Rattle.lrp_parts.specs.Derivations.{CanDerive, HasLargePart, ground_of};
ghost use Rattle.lrp_keep.specs.States.{AreDerivedAt, AreDisjunctsFor, AreSketchesFor, CanAllBeJoinedUp, CanDeriveAt, HasLargePartAt, IsDerivedAfter, ground_at, levels_in};
ghost use Rattle.lrp_kept.specs.Sketches.{CanBeSketched};

use lrp_kept::{Disjunct, HeldRow, HeldRows, disjuncts_of};
use lrp_limits::periods::Period;
use lrp_model::{Copies, Domain, Memory, Query, Row};
use lrp_parts::{DerivationSetting, Derived};
use lrp_tables::StepFault;
use std::alloc::Global;

/// A query with its disjuncts, the constants, and the greatest number of cells that a part of a choice may have.
///
/// The query is read where it stands: a copy means the same but is another value, and what a keeper stands for names the
/// query that it was opened with.
#[derive(Drop)]
pub(crate) struct KeptQuery<'a> {
    pub(crate) alloc: Global,
    pub(crate) query: &'a Query,
    pub(crate) domain: Domain,
    pub(crate) cap: u32,
    pub(crate) disjuncts: Vec<Disjunct>,
}

impl<'a> KeptQuery<'a> {
    /// A query in kept form over relations.
    pub(crate) fn of(
        alloc: Global,
        query: &'a Query,
        domain: &Domain,
        cap: u32,
        rows: &HeldRows,
    ) -> Result<KeptQuery<'a>, Memory>
        requires { CanAllBeJoinedUp rows.now (question_of query.now) }
        ensures query { IfOk result (λ made. made.query.now ≡ query.now) }
        ensures domain { IfOk result (λ made. made.domain ≡ domain.now) }
        ensures cap { IfOk result (λ made. made.cap ≡ cap) }
        ensures disjuncts { IfOk result (AreDisjunctsFor rows.now (question_of query.now)) }
    {
        let disjuncts = disjuncts_of(alloc, query, rows)?;
        let domain = domain.copy(alloc)?;
        Ok(KeptQuery {
            alloc,
            query,
            domain,
            cap,
            disjuncts,
        })
    }

    /// A row as it is held in a relation.
    pub(crate) fn source(&self, relation: usize, row: &Row) -> Result<HeldRow, Memory>
        requires { CanBeSketched self.now.disjuncts.items relation row.now }
        ensures relation { IfOk result (λ made. made.relation ≡ relation) }
        ensures row { IfOk result (λ made. made.row ≡ row.now) }
        ensures sketches { IfOk result (AreSketchesFor self.now relation row.now) }
    {
        HeldRow::of(self.alloc, &self.disjuncts, relation, row, &self.domain)
    }

    /// What derivations from the rows have in common.
    pub(crate) fn setting<'b>(&'b self, rows: &'b HeldRows, period: Period) -> DerivationSetting<'b>
        ensures { ground_of result ≡ ground_at self.now rows.now period.number }
    {
        DerivationSetting {
            alloc: self.alloc,
            head: &self.query.head,
            domain: &self.domain,
            rows,
            period: period.number,
            cap: self.cap,
        }
    }

    /// What the rows make, by disjuncts.
    pub(crate) fn derive_all(
        &self,
        rows: &HeldRows,
        period: Period,
    ) -> Result<Vec<Derived>, StepFault>
        requires { CanDeriveAt self.now rows.now period.number }
        ensures derived { IfOk result (λ made. AreDerivedAt self.now rows.now period.number
            (levels_in made.items)) }
        ensures many { result ≡ Err StepFault.TooManyCells
            → HasLargePartAt self.now rows.now period.number }
    {
        let setting = self.setting(rows, period);
        let mut all = Vec::new(self.alloc);
        for disjunct in &self.disjuncts {
            match derive_one(&setting, disjunct, &mut all) {
                Ok(()) => {}
                Err(fault) => return Err(fault),
            }
        }
        Ok(all)
    }
}

// Adds what the rows make of a disjunct.
fn derive_one(
    setting: &DerivationSetting<'_>,
    disjunct: &Disjunct,
    all: &mut Vec<Derived>,
) -> Result<(), StepFault>
    requires { CanDerive (ground_of setting.now) disjunct.now }
    ensures derived { OnOk result (IsDerivedAfter
        (ground_of setting.now) disjunct.now all.old.items all.new.items) }
    ensures many { result ≡ Err StepFault.TooManyCells
        → HasLargePart (ground_of setting.now) disjunct.now }
{
    match Derived::of(setting, disjunct) {
        Ok(derived) => {
            push_derived(derived, all)?;
            Ok(())
        }
        Err(fault) => Err(fault),
    }
}

fn push_derived(derived: Derived, all: &mut Vec<Derived>) -> Result<(), Memory>
    ensures { OnOk result (all.new.items ≡ all.old.items ++ derived ∷ []) }
{
    all.push(derived)?;
    Ok(())
}
