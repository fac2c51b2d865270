// Least common multiples of periods, from 1 to 2^62.
ghost use Rattle.std.specs.Prelude.{◌≡◌, ◌≤◌, ◌^◌, ◌++◌, ◌∷◌, [], ℕ, List};
ghost use Rattle.std.specs.Option.{option_map};
ghost use Rattle.lrp_limits.specs.Multiples.{AlwaysJoins};

use lrp_model::LIMIT;
use lrp_point::common;

/// A period, from 1 to 2^62.
#[derive(Clone, Copy, PartialEq, Eq)]
pub struct Period {
    pub number: u64,
    ghost low: { 1 ≤ number },
    ghost high: { number ≤ 2 ^ 62 },
}

/// The period 1, of what names no period.
pub fn one() -> Period
    ensures { result.number ≡ 1 }
{
    Period { number: 1 }
}

impl Period {
    ghost use Rattle.lrp_limits.specs.Multiples.{IsLeastWithinLimit, IsPeriodOf};

    /// The least common multiple of this period and a further number, or `None` where it is none from 1 to 2^62. A
    /// divisor adds nothing.
    pub fn with(self, further: u64) -> Option<Period>
        ensures { (ks : List ℕ) → IsLeastWithinLimit ks self.number
            → IsPeriodOf (ks ++ further ∷ []) (option_map (λ p. p.number) result) }
    {
        if further < 1 || further > LIMIT as u64 {
            return None;
        }
        if self.number % further == 0 {
            return Some(self);
        }
        match common(self.number as i64, further as i64) {
            Ok(k) => Some(Period { number: k as u64 }),
            Err(_) => None,
        }
    }
}

/// The least common multiple of two periods that both divide a period.
pub fn common_period(left: Period, right: Period) -> Period
    ensures { AlwaysJoins left.number right.number result.number }
{
    left.with(right.number).unwrap_or(left)
}
