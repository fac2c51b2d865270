// Zones of one column that are joined to the one that they go on from.
ghost use Rattle.std.specs.Prelude.{◌≡◌, ◌+◌, ◌<◌, ◌≤◌, ◌^◌, ◌++◌, ◌≤ℤ◌, ℕ, IfSome, IsTrue, None, pos, slice_index_or};
ghost use Rattle.lrp_theory.specs.Entries.{AtMost, IsBelow};
ghost use Rattle.lrp_zone.specs.Zones.{IsZone, columns_of};
ghost use Rattle.lrp_store.specs.Joined.{AreNear, GoesOn, IsUnion, if_listed, line_table};
ghost use Rattle.lrp_store.specs.Stored.{bounds_of, listed_at};
ghost use Rattle.smallvec.specs.SmallVec.{small_vec_len};

use crate::stored::{Entry, StoredBounds, bound_of};
use lrp_zone::Zone;
use smallvec::SmallVec;
use std::alloc::Global;

// The places in the table of the bound of zero less the first column, and of that column less zero.
const LOW: u8 = 1;

const HIGH: u8 = 9;

impl StoredBounds {
    /// The bounds of a zone of one column and the one of these bounds together, where it goes on from that one: it begins and
    /// ends no sooner, and no number of the cell lies between them.
    pub(crate) fn joined(&self, alloc: Global, zone: &Zone) -> Option<StoredBounds>
        requires column { columns_of zone.now ≡ 1 }
        requires valid { IsZone (record zone.now { bounds = self.now }) }
        ensures { IfSome result (λ both. IsUnion (record zone.now { bounds = self.now }) zone.now
            (record zone.now { bounds = both })) }
    {
        let low = self.bound(LOW);
        if !goes_on(low, self.bound(HIGH), zone) {
            return None;
        }
        Some(line_bounds(alloc, low, bound_of(zone, HIGH)))
    }

    // The bound at a place of the table.
    fn bound(&self, place: u8) -> Option<i64>
        requires { place < 81 }
        ensures { result ≡ slice_index_or self.now place None }
    {
        bound_in(self.entries.as_slice(), place)
    }
}

// The bound that is listed for a place.
fn bound_in(entries: &[Entry], place: u8) -> Option<i64>
    ensures { result ≡ listed_at (bounds_of entries.now) place }
{
    for entry in entries {
        if entry.place == place {
            return Some(entry.most());
        }
    }
    None
}

// Whether a zone of one column goes on from the one with these bounds.
fn goes_on(low: Option<i64>, high: Option<i64>, zone: &Zone) -> bool
    requires high { AtMost (2 ^ 62) high }
    ensures { IsTrue result → GoesOn low high zone.now }
{
    let next_low = bound_of(zone, LOW);
    are_near(high, next_low, zone.period())
        && is_below(next_low, low)
        && is_below(high, bound_of(zone, HIGH))
}

// Whether a bound is at most another one.
fn is_below(bound: Option<i64>, other: Option<i64>) -> bool
    ensures { IsTrue result → IsBelow bound other }
{
    match (bound, other) {
        (_, None) => true,
        (Some(bound), Some(other)) => bound <= other,
        (None, Some(_)) => false,
    }
}

// Whether no number of the cell lies between those within a bound on the column and those within one on zero less the column.
fn are_near(high: Option<i64>, low: Option<i64>, period: i64) -> bool
    requires high { AtMost (2 ^ 62) high }
    requires low { AtMost (2 ^ 62) low }
    requires period_low { pos 0 ≤ℤ period }
    requires period_high { period ≤ℤ pos (2 ^ 62) }
    ensures { (k : ℕ) → period ≡ pos k → IsTrue result → AreNear k high low }
{
    match (high, low) {
        (Some(high), Some(low)) => -low - period <= high,
        _ => true,
    }
}

// The stored bounds of a zone of one column: of zero less the column, and of the column less zero.
fn line_bounds(alloc: Global, low: Option<i64>, high: Option<i64>) -> StoredBounds
    requires low { AtMost (2 ^ 62) low }
    requires high { AtMost (2 ^ 62) high }
    ensures { result ≡ line_table low high }
{
    let mut entries = SmallVec::new(alloc);
    list_bound(&mut entries, LOW, low);
    list_bound(&mut entries, HIGH, high);
    StoredBounds { entries }
}

// Lists the bound at a place, if there is one.
fn list_bound(entries: &mut SmallVec<Entry, 8>, place: u8, bound: Option<i64>)
    requires small { AtMost (2 ^ 62) bound }
    requires room { small_vec_len entries.old + 1 ≤ entries.old.capacity }
    ensures listed { bounds_of entries.new.items
        ≡ bounds_of entries.old.items ++ if_listed place bound }
    ensures len { small_vec_len entries.new ≤ small_vec_len entries.old + 1 }
    ensures capacity { entries.old.capacity ≤ entries.new.capacity }
{
    let Some(most) = bound else {
        return;
    };
    match entries.push(Entry::at(place, most)) {
        Ok(()) => {}
        Err(_) => unreachable!(),
    }
}
