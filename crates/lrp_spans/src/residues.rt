// The least period of a set of residues.
ghost use Rattle.std.specs.Prelude.{◌+◌, ◌<◌, ◌≤◌, ◌^◌, ◌↔◌, ◌≡◌, IsTrue, length};
ghost use Rattle.lrp_spans.specs.Repeating.{AreAscendingResidues, CanMove, HasOneOf, IsLeastStep, Moves, nth};

/// The least number with which the integers of some residues repeat, of which each such number is a multiple; 1 where there
/// is no residue.
///
/// A step takes each of them to the one that stands so many places further on, and so many places divide the number of
/// residues. So only the divisors of that number are tried, and the period is never factored.
pub fn least_period(residues: &[u64], period: u64) -> u64
    requires residues { AreAscendingResidues period residues.now }
    requires high { period ≤ 2 ^ 62 }
    ensures { IsLeastStep (HasOneOf period residues.now) result }
{
    let count = residues.len();
    if count == 0 {
        return 1;
    }
    for places in 1..count {
        if count % places == 0 && moves(residues, period, places) {
            return residues[places] - residues[0];
        }
    }
    period
}

// Whether the residues move so by this number of places.
//
// The last one is tried first: where all but a few numbers are in the set, it mostly tells that they don't.
fn moves(residues: &[u64], period: u64, places: usize) -> bool
    requires { CanMove period residues.now places }
    ensures { IsTrue result ↔ Moves period residues.now places }
{
    last_moves(residues, period, places) && all_move(residues, period, places)
}

// Whether the last of the residues moves so.
fn last_moves(residues: &[u64], period: u64, places: usize) -> bool
    requires { CanMove period residues.now places }
    ensures { Moves period residues.now places → IsTrue result }
{
    let step = residues[places] - residues[0];
    let last = residues.len() - 1;
    if number_at(residues, period, last + places) != residues[last] + step {
        return false;
    }
    true
}

// Whether each of the residues moves so.
fn all_move(residues: &[u64], period: u64, places: usize) -> bool
    requires { CanMove period residues.now places }
    ensures { IsTrue result ↔ Moves period residues.now places }
{
    let step = residues[places] - residues[0];
    for i in 0..residues.len() {
        if number_at(residues, period, i + places) != residues[i] + step {
            return false;
        }
    }
    true
}

// The number at a place, where the residues stand again after the last, a period greater.
fn number_at(residues: &[u64], period: u64, i: usize) -> u64
    requires residues { AreAscendingResidues period residues.now }
    requires high { period ≤ 2 ^ 62 }
    requires place { i < length residues.now + length residues.now }
    ensures { result ≡ nth period residues.now i }
{
    let count = residues.len();
    if i < count {
        residues[i]
    } else {
        residues[i - count] + period
    }
}
