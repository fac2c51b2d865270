// How far the bounds of a store reach. No zone is made to tell it.
ghost use Rattle.std.specs.Prelude.{◌≤◌, IsTrue, nat_abs};
ghost use Rattle.lrp_zone.specs.Zones.{greatest_of};
ghost use Rattle.lrp_store.specs.Stores.{HasReach};
ghost use Rattle.lrp_store.specs.Stored.{bounds_of, table_of};
ghost use Rattle.lrp_store.specs.Reaching.{AreTablesWithin};

use crate::store::Store;
use crate::stored::{Entry, StoredBounds};
use lrp_slots::ChainValues;

impl Store {
    /// Whether no stored bound of a zone is above the reach.
    pub fn has_reach(&self, reach: u64) -> bool
        ensures { IsTrue result → HasReach self.now reach }
    {
        for (_cell, tables) in self.slots.lists() {
            if !are_within(tables, reach) {
                return false;
            }
        }
        true
    }
}

// Whether no bound of the tables is above the reach.
fn are_within(tables: ChainValues<'_, StoredBounds>, reach: u64) -> bool
    ensures { IsTrue result → AreTablesWithin reach tables.entry }
{
    for bounds in tables {
        if !are_small(bounds.entries.as_slice(), reach) {
            return false;
        }
    }
    true
}

// Whether no bound of the entries is above the reach.
fn are_small(entries: &[Entry], reach: u64) -> bool
    ensures { IsTrue result → greatest_of (table_of (bounds_of entries.now)) ≤ reach }
{
    for entry in entries {
        if !is_small(entry.most(), reach) {
            return false;
        }
    }
    true
}

// Whether the bound is not above the reach.
fn is_small(most: i64, reach: u64) -> bool
    ensures { IsTrue result → nat_abs most ≤ reach }
{
    most.unsigned_abs() <= reach
}
