// The first tuple of a store: by the ranks of its times, and then by the numbers of its texts.
ghost use Rattle.std.specs.Prelude.{◌≡◌, ◌≢◌, ◌⊎◌, ◌↔◌, ℕ, ℤ, List, Contains, Some, IsTrue, IfSome, IfNone, false};
ghost use Rattle.std.specs.Ordering.{nat_cmp};
ghost use Rattle.std.specs.Cmp.Lexicographic.{slice_cmp};
ghost use Rattle.std.specs.declared.cmp.Ordering.TheVariants.{Less, Greater};
ghost use Rattle.lrp_store.specs.Least.{HasRoom, IsFoundSpot, IsNearestTo, IsNotAfter, IsRoom, held_cmp};
ghost use Rattle.lrp_store.specs.Stores.{InCell, InStore, IsCellOf, IsStore, tables_at, zone_of};
ghost use Rattle.lrp_zone.specs.Zones.{columns_of};
ghost use Rattle.lrp_theory.specs.Residues.{rank};

use crate::nearest::{nearest, nearest_of_cell};
use crate::store::Store;
use crate::stored::StoredBounds;
use lrp_model::{Cell, Spot};
use lrp_slots::ChainValues;
use std::cmp::Ordering;

/// The place of a time in the order 0, 1, -1, 2, -2, ..
fn rank_of(time: i64) -> u128
    ensures { result ≡ rank time }
{
    let twice = 2 * u128::from(time.unsigned_abs());
    if time > 0 { twice - 1 } else { twice }
}

/// The order of two lists of times by their ranks. It reads no further than the first place where these differ.
fn times_order(a: &[i64; 8], b: &[i64; 8]) -> Ordering
    ensures { result ≡ slice_cmp (λ x y. nat_cmp (rank x) (rank y)) a.now b.now }
{
    for i in 0..8 {
        let order = rank_of(a[i]).cmp(&rank_of(b[i]));
        if order.is_ne() {
            return order;
        }
    }
    Ordering::Equal
}

/// Whether a spot comes before another one.
fn is_before(a: &Spot, b: &Spot) -> bool
    ensures { IsTrue result ↔ (held_cmp a.now.times a.now.texts b.now.times b.now.texts ≡ Less) }
{
    match times_order(&a.times, &b.times) {
        Ordering::Less => true,
        Ordering::Equal => a.texts.cmp(&b.texts).is_lt(),
        Ordering::Greater => false,
    }
}

/// Of a spot that was found, if any, and another one the nearer.
fn nearer(found: Option<Spot>, spot: Spot) -> Spot
    ensures one { (found ≡ Some result) ⊎ (result ≡ spot) }
    ensures found { IfSome found (λ old. held_cmp result.times result.texts old.times old.texts ≢
        Greater) }
    ensures spot { held_cmp result.times result.texts spot.times spot.texts ≢ Greater }
{
    let Some(old) = found else {
        return spot;
    };
    if is_before(&spot, &old) { spot } else { old }
}

impl Store {
    /// The first tuple of all that are held, if there is one.
    pub fn first(&self) -> Option<Spot>
        requires { HasRoom self.now }
        ensures none { IfNone result ((times : List ℤ) (texts : List ℕ)
            → InStore self.now times texts → ⊥) }
        ensures some { IsFoundSpot self.now result }
        ensures valid { IsStore self.now }
        ensures first { IfSome result (λ spot. (times : List ℤ) (texts : List ℕ)
            → InStore self.now times texts → IsNotAfter self.now (Some spot) times texts) }
    {
        let mut found = None;
        for (cell, tables) in self.slots.lists() {
            found = self.first_of_cell(&cell, tables, found);
        }
        found
    }

    // The first of what was found and of the tuples of one cell.
    fn first_of_cell(
        &self,
        cell: &Cell,
        tables: ChainValues<'_, StoredBounds>,
        found: Option<Spot>,
    ) -> Option<Spot>
        requires valid { IsStore self.now }
        requires tables { tables ≡ tables_at self.now cell.now }
        requires room { HasRoom self.now }
        requires found { IsFoundSpot self.now found }
        ensures found { IsFoundSpot self.now result }
        ensures kept { (times : List ℤ) (texts : List ℕ) → IsNotAfter self.now found times texts
            → IsNotAfter self.now result times texts }
        ensures cell { (times : List ℤ) (texts : List ℕ) → InCell self.now cell.now times texts
            → IsNotAfter self.now result times texts }
    {
        let mut found = found;
        for bounds in tables {
            if !self.may_be_nearer(cell, &found) {
                return found;
            }
            let spot = Spot {
                times: self.nearest_in(cell, bounds),
                texts: cell.texts,
            };
            found = Some(nearer(found, spot));
        }
        found
    }

    // Whether a tuple of a cell may come before what was found. None comes before the first tuple of the cell without
    // bounds, which is read off the residues, so most cells are passed over and no matrix of their zones is closed.
    fn may_be_nearer(&self, cell: &Cell, found: &Option<Spot>) -> bool
        requires proper { IsCellOf self.now.shape self.now.period cell.now }
        requires found { IsFoundSpot self.now found.now }
        ensures { result ≡ false → (times : List ℤ) (texts : List ℕ)
            → InCell self.now cell.now times texts → IsNotAfter self.now found.now times texts }
    {
        let Some(old) = found else {
            return true;
        };
        let times = usize::from(self.shape.times);
        let front = Spot {
            times: nearest_of_cell(self.period, &cell.residues, times),
            texts: cell.texts,
        };
        is_before(&front, old)
    }

    // The first tuple of a zone of a cell. Where no bound is stored no zone is made.
    fn nearest_in(&self, cell: &Cell, bounds: &StoredBounds) -> [i64; 8]
        requires held { Contains (tables_at self.now cell.now) bounds.now }
        requires room { (h : ℕ) × IsRoom (zone_of self.now cell.now bounds.now) h }
        ensures { IsNearestTo (zone_of self.now cell.now bounds.now)
            (columns_of (zone_of self.now cell.now bounds.now)) result }
    {
        let times = usize::from(self.shape.times);
        if bounds.is_free() {
            return nearest_of_cell(self.period, &cell.residues, times);
        }
        nearest(&bounds.zone(self.period, &cell.residues[..times]))
    }
}
