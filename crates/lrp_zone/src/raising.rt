// The least tuple of a zone in a box, found by raising values from its low ends.

ghost use Rattle.std.specs.Prelude.{◌<◌, ◌≤◌, ◌^◌, ℕ, ℤ, List, IfNone, IfSome, IsFalse, IsTrue, neg_ℤ, pos, ◌-ℤ◌, ◌≤ℤ◌, ◌↔◌};
ghost use Rattle.lrp_theory.specs.Bounds.{Within};
ghost use Rattle.lrp_zone.specs.Order.{at};
ghost use Rattle.lrp_zone.specs.Raising.{AreLowest, IsBoundedBy, IsFirstValue};
ghost use Rattle.lrp_zone.specs.Windows.{AreWindowEnds, IsBoxEmpty, IsBoxLeast};
ghost use Rattle.lrp_zone.specs.Zones.{IsResidue, columns_of};

use crate::tuples::value;
use crate::window::least_closed;
use crate::zone::Zone;
use lrp_point::numbers::remainder;

/// The first number of a residue from a low end on, or the low end where that number is too great.
fn first_value(low: i64, residue: i64, period: u64) -> i64
    requires period_low { 0 < period }
    requires period_high { period ≤ 2 ^ 62 }
    requires residue { IsResidue period residue }
    requires low { neg_ℤ (pos (2 ^ 62)) ≤ℤ low }
    ensures { IsFirstValue period residue low result }
{
    let over = remainder(residue - low, period);
    match low.checked_add(over as i64) {
        Some(first) => first,
        None => low,
    }
}

/// The first values of the columns' residues from the low ends on, and zeros after them.
fn first_values(zone: &Zone, low: &[i64; 8]) -> [i64; 8]
    requires { (i : ℕ) → i < columns_of zone.now → neg_ℤ (pos (2 ^ 62)) ≤ℤ at low.now i }
    ensures { AreLowest zone.now low.now result }
{
    let mut out = [0; 8];
    for i in 0..zone.columns() {
        out[i] = first_value(low[i], zone.residue(i + 1), zone.modulus());
    }
    out
}

/// A value, or the least that the bound on another one minus it leaves it, if that is more.
fn raised(value: i64, other: i64, bound: Option<i64>) -> i64
    ensures kept { value ≤ℤ result }
    ensures lowest { (x y : ℤ) → other ≤ℤ x → value ≤ℤ y → Within (x -ℤ y) bound → result ≤ℤ y }
{
    let Some(most) = bound else {
        return value;
    };
    match other.checked_sub(most) {
        Some(least) if least > value => least,
        _ => value,
    }
}

/// The values, each raised to what the stored bounds and the others leave it, one after another.
fn all_raised(zone: &Zone, values: &[i64; 8]) -> [i64; 8]
    ensures { (low : List ℤ) → AreLowest zone.now low values.now → AreLowest zone.now low result }
{
    let mut out = *values;
    for i in 0..zone.columns() + 1 {
        for j in 0..zone.columns() {
            out[j] = raised(out[j], value(&out, i), zone.bound(i, j + 1));
        }
    }
    out
}

/// Whether a value is at most its high end and its column's stored bound.
fn is_bounded(value: i64, high: i64, bound: Option<i64>) -> bool
    ensures { IsTrue result ↔ IsBoundedBy value high bound }
{
    match bound {
        Some(most) => value <= high && value <= most,
        None => value <= high,
    }
}

/// Whether each value is so.
fn are_bounded(zone: &Zone, values: &[i64; 8], high: &[i64; 8]) -> bool
    ensures inside { IsTrue result → (i : ℕ) → i < columns_of zone.now → at values.now i ≤ℤ at high.now i }
    ensures none { IsFalse result → (low : List ℤ) → AreLowest zone.now low values.now
        → IsBoxEmpty zone.now low high.now }
{
    for i in 0..zone.columns() {
        if !is_bounded(values[i], high[i], zone.bound(i + 1, 0)) {
            return false;
        }
    }
    true
}

/// The tuple of the zone in a box whose values are each the least of all those, or `None` where no tuple is in the box.
///
/// Values that no tuple of the box is below are raised until they are a tuple or pass an end. Few turns do, so most zones need
/// no closing.
pub fn least_in(zone: &Zone, low: &[i64; 8], high: &[i64; 8]) -> Option<[i64; 8]>
    requires ends { AreWindowEnds (columns_of zone.now) low.now high.now }
    ensures none { IfNone result (IsBoxEmpty zone.now low.now high.now) }
    ensures some { IfSome result (λ ys. IsBoxLeast zone.now low.now high.now ys) }
{
    let columns = zone.columns();
    let mut values = first_values(zone, low);
    for _turn in 0..4 {
        values = all_raised(zone, &values);
        if !are_bounded(zone, &values, high) {
            return None;
        }
        if zone.contains(&values[..columns]) {
            return Some(values);
        }
    }
    least_closed(zone, low, high)
}
