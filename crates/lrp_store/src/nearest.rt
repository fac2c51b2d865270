// The first tuple of a zone, where each time is in the order 0, 1, -1, 2, -2, ..
ghost use Rattle.std.specs.Prelude.{◌≡◌, ◌+◌, ◌<◌, ◌≤ℤ◌, ◌<ℤ◌, ◌^◌, ℕ, None, length, nat_abs, pos, replicate, take};
ghost use Rattle.lrp_matrix.specs.Matrices.{IsClosed, HaveSameIntegers};
ghost use Rattle.lrp_zone.specs.Zones.{IsZone, columns_of};
ghost use Rattle.lrp_store.specs.Least.{matrix_of, IsRoom, IsNearestOf, IsNearestTo};

use lrp_matrix::{Matrix, nearest_zero};
use lrp_zone::Zone;

/// The values of one more column. After those before it, a column may have what lies within two ends and has its residue.
fn with_next(zone: &Zone, least: &Matrix, xs: &[i64; 8], i: usize) -> [i64; 8]
    requires valid { IsZone zone.now }
    requires column { i < columns_of zone.now }
    requires closed { IsClosed least.now }
    requires integers { HaveSameIntegers (matrix_of zone.now) least.now }
    requires room { (h : ℕ) × IsRoom zone.now h }
    requires begun { IsNearestTo zone.now i xs.now }
    ensures { IsNearestTo zone.now (i + 1) result }
{
    let (low, high) = least.range(i + 1, &xs[..i]);
    let mut next = *xs;
    match nearest_zero(low, high, zone.residue(i + 1), zone.period()) {
        Some(x) => {
            next[i] = x as i64;
            next
        }
        None => unreachable!(),
    }
}

/// The first tuple of a zone by the ranks of its values, with zeros after it.
pub fn nearest(zone: &Zone) -> [i64; 8]
    requires room { (h : ℕ) × IsRoom zone.now h }
    ensures { IsNearestTo zone.now (columns_of zone.now) result }
{
    let least = zone.closed();
    let mut xs = [0; 8];
    for i in 0..zone.columns() {
        xs = with_next(zone, &least, &xs, i);
    }
    xs
}

/// The first tuple of the zone of a cell that has no bound, by the ranks of its values, with zeros after it.
pub fn nearest_of_cell(period: u64, residues: &[i64; 8], times: usize) -> [i64; 8]
    requires zone { IsZone (record {
      period = period;
      residues = take times residues.now;
      bounds =
          replicate 81 None;
    }) }
    requires columns { length (take times residues.now) ≡ times }
    ensures { IsNearestTo (record {
      period = period;
      residues = take times residues.now;
      bounds =
          replicate 81 None;
    }) times result }
{
    let mut xs = [0; 8];
    for i in 0..times {
        xs[i] = nearest_of(residues[i], period as i64);
    }
    xs
}

/// The number of a residue that is nearest to zero. Of two it is the one above zero.
fn nearest_of(residue: i64, period: i64) -> i64
    requires low { pos 0 ≤ℤ residue }
    requires high { residue <ℤ period }
    requires small { period ≤ℤ pos (2 ^ 62) }
    ensures { IsNearestOf (nat_abs period) residue result }
{
    if residue <= period - residue {
        residue
    } else {
        residue - period
    }
}
