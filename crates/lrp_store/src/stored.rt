// The stored bounds of one zone, up to eight of them in place.
ghost use Rattle.std.specs.Prelude.{◌≡◌, ◌↔◌, ◌+◌, ◌*◌, ◌<◌, ◌≤◌, ◌^◌, [], IfOk, IsOk, IsTrue, None, Some, replicate, slice_index_or};
ghost use Rattle.lrp_theory.specs.Entries.{AtMost, IsBelow};
ghost use Rattle.lrp_zone.specs.Pairs.{IsWithin};
ghost use Rattle.lrp_zone.specs.Zones.{IsZone, columns_of};
ghost use Rattle.lrp_store.specs.Stored.{bound_with, bounds_of, count_of, placed, table_of, AreListed, AreStorable};

use lrp_model::{Copies, Memory};
use lrp_zone::{BoundTable, Zone};
use smallvec::SmallVec;
use std::alloc::Global;
use std::marker::Model;

/// A bound and its place in the table. Its number stands as bytes, so that an entry takes nine bytes and no padding.
#[derive(Clone, Copy, Default)]
pub(crate) struct Entry {
    pub(crate) place: u8,
    most: [u8; 8],
}

/// The stored bounds of a zone, which contracts see as their table. Its period and its residues stand elsewhere.
#[derive(Drop)]
pub struct StoredBounds {
    pub(crate) entries: SmallVec<Entry, 8>,
}

impl Model for StoredBounds {
    ghost use Rattle.std.specs.Prelude.{ℤ, List, Option};
    ghost use Rattle.lrp_store.specs.Stored.{bounds_of, table_of, AreListed};

    ghost Value = { List (Option ℤ) };

    ghost view = { λ s. table_of (bounds_of s.entries.items) };

    ghost invariant = { λ s. AreListed (bounds_of s.entries.items) };
}

impl Entry {
    // The entry of the bound at a place.
    pub(crate) fn at(place: u8, most: i64) -> Entry
        ensures { bound_with result ≡ placed place most }
    {
        Entry {
            place,
            most: most.to_le_bytes(),
        }
    }

    // The bound of an entry.
    pub(crate) fn most(&self) -> i64
        ensures { result ≡ (bound_with self.now).most }
    {
        i64::from_le_bytes(self.most)
    }
}

impl StoredBounds {
    /// The stored bounds of a zone. Up to eight take no memory.
    pub fn of(alloc: Global, zone: &Zone) -> Result<StoredBounds, Memory>
        ensures ok { IfOk result (λ made. made ≡ zone.now.bounds) }
        ensures succeeds { count_of zone.now.bounds ≤ 8 → IsOk result }
        ensures valid { IsZone zone.now }
    {
        let mut entries = SmallVec::new(alloc);
        let places = places_of(zone);
        for place in 0..places {
            if let Some(most) = bound_of(zone, place) {
                entries.push(Entry::at(place, most))?;
            }
        }
        Ok(StoredBounds { entries })
    }

    /// No bounds.
    pub fn free(alloc: Global) -> StoredBounds
        ensures { result ≡ replicate 81 None }
    {
        StoredBounds {
            entries: SmallVec::new(alloc),
        }
    }

    /// Whether there is no bound.
    pub fn is_free(&self) -> bool
        ensures { IsTrue result ↔ (self.now ≡ replicate 81 None) }
    {
        self.entries.is_empty()
    }

    /// Whether each of these bounds is at least the zone's bound at its place.
    pub fn are_looser(&self, zone: &Zone) -> bool
        requires { IsZone (record zone.now { bounds = self.now }) }
        ensures within { IsTrue result → IsWithin zone.now (record zone.now { bounds = self.now }) }
        ensures free { self.now ≡ replicate 81 None → IsTrue result }
    {
        are_above(zone, self.entries.as_slice())
    }

    /// The zone of this period and these residues whose stored bounds these are.
    pub fn zone(&self, period: u64, residues: &[i64]) -> Zone
        requires { IsZone (record { period = period; residues = residues.now; bounds = self.now }) }
        ensures { result ≡ record { period = period; residues = residues.now; bounds = self.now } }
    {
        Zone::of_table(period, residues, &written(self.entries.as_slice()))
    }
}

impl Copies for StoredBounds {
    fn copy(&self, alloc: Global) -> Result<Self, Memory> {
        Ok(StoredBounds {
            entries: SmallVec::from_slice(alloc, self.entries.as_slice())?,
        })
    }
}

// How many places of the table are in the rows of the columns and of the number zero.
fn places_of(zone: &Zone) -> u8
    ensures value { result ≡ 9 * (columns_of zone.now + 1) }
    ensures high { result ≤ 81 }
    ensures valid { IsZone zone.now }
{
    9 * (zone.columns() as u8 + 1)
}

// The stored bound at a place of the table.
pub(crate) fn bound_of(zone: &Zone, place: u8) -> Option<i64>
    requires { place < 81 }
    ensures value { result ≡ slice_index_or zone.now.bounds place None }
    ensures small { AtMost (2 ^ 62) result }
    ensures valid { IsZone zone.now }
{
    zone.bounds().get(usize::from(place))
}

// Whether each of the entries is at least the zone's bound at its place.
fn are_above(zone: &Zone, entries: &[Entry]) -> bool
    requires columns { columns_of zone.now ≤ 8 }
    requires listed { AreListed (bounds_of entries.now) }
    requires small { AreStorable (bounds_of entries.now) }
    ensures within { IsTrue result → IsWithin zone.now
        (record zone.now { bounds = table_of (bounds_of entries.now) }) }
    ensures none { entries.now ≡ [] → IsTrue result }
{
    for entry in entries {
        if !is_at_most(bound_of(zone, entry.place), entry.most()) {
            return false;
        }
    }
    true
}

// Whether there is a bound, and it is at most this one.
fn is_at_most(bound: Option<i64>, most: i64) -> bool
    ensures { IsTrue result ↔ IsBelow bound (Some most) }
{
    match bound {
        Some(a) => a <= most,
        None => false,
    }
}

// The table of the bounds of the entries.
fn written(entries: &[Entry]) -> BoundTable
    requires listed { AreListed (bounds_of entries.now) }
    requires small { AreStorable (bounds_of entries.now) }
    ensures { result ≡ table_of (bounds_of entries.now) }
{
    let mut table = BoundTable::free();
    for entry in entries {
        table.set(usize::from(entry.place), Some(entry.most()));
    }
    table
}
