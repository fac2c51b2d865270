// The answers of a query.
ghost use Rattle.lrp_model.specs.Rows.{Datum};
ghost use Rattle.std.specs.Prelude.{IfNone, IfOk, IfSome, ◌≡◌, ◌↔◌, ◌+◌, ℕ, ℤ, List, length, pos, IsTrue};
ghost use Rattle.lrp_model.specs.Sorts.{time_count};
ghost use Rattle.lrp_store.specs.Stores.{InStore};
ghost use Rattle.lrp_store.specs.Least.{HasRoom, IsLeastSpot};
ghost use Rattle.lrp_store.specs.Tables.{AreNumbered, InAnswer};

use lrp_model::{Copies, Domain, Head, Memory, Spot};
use lrp_store::Store;
use std::alloc::Global;

/// The tuples of a store, with a time or a text for each column of the head, in its order.
///
/// The numbers of the texts are those of the domain.
#[derive(Drop)]
pub struct Answer {
    pub head: Head,
    pub period: i64,
    pub domain: Domain,
    pub store: Store,
    ghost times_are: { time_count head.columns ≡ store.shape.times },
    ghost columns_are: { length head.columns ≡ store.shape.times + store.shape.texts },
    ghost period_is: { period ≡ pos store.period },
    ghost numbered: { AreNumbered domain store },
}

impl Answer {
    /// The same answers, in as many slots as there are zones.
    pub fn copy(&self, alloc: Global) -> Result<Answer, Memory>
        ensures head { IfOk result (λ made. made.head ≡ self.now.head) }
        ensures period { IfOk result (λ made. made.period ≡ self.now.period) }
        ensures domain { IfOk result (λ made. made.domain ≡ self.now.domain) }
        ensures store { IfOk result (λ made. made.store
            ≡ record self.now.store { spare = made.store.spare }) }
    {
        let head = self.head.copy(alloc)?;
        let domain = self.domain.copy(alloc)?;
        let store = self.store.copy(alloc)?;
        Ok(Answer {
            head,
            period: self.period,
            domain,
            store,
        })
    }

    /// Whether no tuple is an answer.
    pub fn is_empty(&self) -> bool
        ensures { IsTrue result ↔ ((times : List ℤ) (texts : List ℕ)
            → InStore self.now.store times texts → ⊥) }
    {
        self.store.is_empty()
    }

    /// The first answer in the order 0, 1, -1, 2, -2, .. of its times in head order, and then of its texts, if there is one.
    ///
    /// With the asked room each of its times has a magnitude of at most 2^62.
    pub fn least(&self) -> Option<Spot>
        requires { HasRoom self.now.store }
        ensures none { IfNone result ((tuple : List Datum)
            → InAnswer self.now.head.columns self.now.domain self.now.store tuple → ⊥) }
        ensures some { IfSome result (λ spot. IsLeastSpot self.now.head.columns self.now.domain
            self.now.store spot) }
    {
        self.domain.len();
        self.store.first()
    }
}
