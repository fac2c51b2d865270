// The places where operators begin, as numbers, and the operators numbered by them.
ghost use Rattle.std.specs.Prelude.{◌≡◌, ◌<◌, ◌^◌, map, length, count_by, nat_lt, IsTrue, IfOk};
ghost use Rattle.std.specs.List.Sorted.{IsNonDecreasing, IsStrictlyIncreasing};
ghost use Rattle.std.specs.List.{AllByRecursion};
ghost use Rattle.lrp_tense.specs.Counting.{position_of, operator_number_in, HasSmallColumn};

use lrp_model::{Memory, Place};
use std::alloc::Global;

// A place as one number, which rises along a text.
fn position(place: Place) -> u64
    ensures value { result ≡ position_of place }
    ensures small { HasSmallColumn place }
{
    4_294_967_296 * place.line as u64 + place.column as u64
}

/// The positions of some places.
pub fn positions_of(alloc: Global, places: &[Place]) -> Result<Vec<u64>, Memory>
    ensures items { IfOk result (λ made. made.items ≡ map position_of places.now) }
    ensures small { IfOk result (λ _. AllByRecursion HasSmallColumn places.now) }
    ensures few { length places.now < 2 ^ 64 }
{
    let mut positions = Vec::with_capacity(alloc, places.len())?;
    for place in places {
        positions.push(position(*place))?;
    }
    Ok(positions)
}

/// Whether each position is greater than the one before it.
pub fn is_ascending(positions: &[u64]) -> bool
    ensures { IsTrue result → IsStrictlyIncreasing positions.now }
{
    for i in 1..positions.len() {
        if positions[i - 1] >= positions[i] {
            return false;
        }
    }
    true
}

// How many positions are below this one.
fn below(positions: &[u64], here: u64) -> usize
    requires { IsNonDecreasing positions.now }
    ensures { result ≡ count_by (λ q. nat_lt q here) positions.now }
{
    positions.partition_point(|other| *other < here)
}

/// The number of the operator at a place among those at these positions, counted from 1.
pub fn number(positions: &[u64], place: Place) -> u64
    requires { IsNonDecreasing positions.now }
    ensures { result ≡ operator_number_in positions.now place }
{
    below(positions, position(place)) as u64 + 1
}
