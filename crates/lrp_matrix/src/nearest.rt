// The integer nearest to zero in an interval, among those of a residue.

ghost use Rattle.std.specs.Prelude.{◌≡◌, ◌<◌, ◌≤◌, ◌^◌, ℤ, pos, ◌≤ℤ◌, ◌<ℤ◌, IfNone, IfSome, neg_ℤ};
ghost use Rattle.lrp_theory.specs.Entries.{AtMost};
ghost use Rattle.lrp_matrix.specs.Nearest.{IsBetween, IsLeastAbove, IsLastStart, IsFirstFromZero, IsLastBelowZero, IsNearest};

/// The least number from zero on that is above the end.
fn start_from_zero(least: Option<i128>) -> i128
    requires { AtMost (2 ^ 70) least }
    ensures start { IsLeastAbove least result }
    ensures high { result ≤ℤ pos (2 ^ 70) }
{
    match least {
        Some(a) if a > 0 => a,
        _ => 0,
    }
}

/// The greatest number below zero that is within the end.
fn start_below_zero(most: Option<i128>) -> i128
    requires { AtMost (2 ^ 70) most }
    ensures start { IsLastStart most result }
    ensures low { neg_ℤ (pos (2 ^ 70)) ≤ℤ result }
{
    match most {
        Some(b) if b < 0 => b,
        _ => -1,
    }
}

/// The least integer of the residue between the ends that is not negative.
fn first_from_zero(
    least: Option<i128>,
    most: Option<i128>,
    residue: u64,
    period: u64,
) -> Option<i128>
    requires low { AtMost (2 ^ 70) least }
    requires high { AtMost (2 ^ 70) most }
    requires residue { residue < period }
    requires period { period ≤ 2 ^ 62 }
    ensures none { IfNone result ((x : ℤ) → IsBetween least most (pos residue) (pos period) x
        → pos 0 ≤ℤ x → ⊥) }
    ensures some { IfSome result (IsFirstFromZero least most (pos residue) (pos period)) }
{
    let start = start_from_zero(least);
    let first = start + (i128::from(residue) - start).rem_euclid(i128::from(period));
    match most {
        Some(b) if first > b => None,
        _ => Some(first),
    }
}

/// The greatest integer of the residue between the ends that is negative.
fn last_below_zero(
    least: Option<i128>,
    most: Option<i128>,
    residue: u64,
    period: u64,
) -> Option<i128>
    requires low { AtMost (2 ^ 70) least }
    requires high { AtMost (2 ^ 70) most }
    requires residue { residue < period }
    requires period { period ≤ 2 ^ 62 }
    ensures none { IfNone result ((x : ℤ) → IsBetween least most (pos residue) (pos period) x
        → x <ℤ pos 0 → ⊥) }
    ensures some { IfSome result (IsLastBelowZero least most (pos residue) (pos period)) }
{
    let start = start_below_zero(most);
    let last = start - (start - i128::from(residue)).rem_euclid(i128::from(period));
    match least {
        Some(a) if last < a => None,
        _ => Some(last),
    }
}

/// The first integer of the order 0, 1, -1, 2, -2, .. that has the residue and lies between the ends, or `None` where
/// there is none. An end that is `None` leaves that side open.
pub fn nearest_zero(
    least: Option<i128>,
    most: Option<i128>,
    residue: i64,
    period: i64,
) -> Option<i128>
    requires low { AtMost (2 ^ 70) least }
    requires high { AtMost (2 ^ 70) most }
    requires residue { (pos 0 ≤ℤ residue) × (residue <ℤ period) }
    requires period { (pos 1 ≤ℤ period) × (period ≤ℤ pos (2 ^ 62)) }
    ensures none { IfNone result ((x : ℤ) → IsBetween least most residue period x → ⊥) }
    ensures some { IfSome result (IsNearest least most residue period) }
{
    let up = first_from_zero(least, most, residue as u64, period as u64);
    let down = last_below_zero(least, most, residue as u64, period as u64);
    match (up, down) {
        (Some(a), Some(b)) => if a.unsigned_abs() <= b.unsigned_abs() {
            Some(a)
        } else {
            Some(b)
        },
        (Some(a), None) => Some(a),
        (None, b) => b,
    }
}
