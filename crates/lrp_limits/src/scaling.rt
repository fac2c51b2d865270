// The reach of a query, doubled for its answers.
ghost use Rattle.std.specs.Prelude.{◌≡◌, ℕ, ◌+◌, ◌*◌, ◌^◌, if◌then◌else◌};
ghost use Rattle.lrp_model.specs.Sorts.{same_sort, time_count};
ghost use Rattle.lrp_model.specs.declared.relations.Sort.TheVariants.{Time};
ghost use Rattle.lrp_limits.specs.Capped.{capped as capped_at};

use crate::reaches::{capped, doubled};
use lrp_model::{Column, Sort};

/// The reach of the last step times two, and once more times two for each time column of the head; 2^62 + 1 where that
/// is above 2^62.
pub fn scaled(reach: u64, columns: &[Column]) -> u64
    ensures { (n : ℕ) → reach ≡ capped_at n
        → result ≡ capped_at (2 ^ (time_count columns.now + 1) * n) }
{
    let mut all = capped(doubled(reach));
    for column in columns {
        all = doubled_for(all, column);
    }
    all
}

fn doubled_for(reach: u64, column: &Column) -> u64
    ensures { result ≡ (if same_sort column.now.sort Time then capped_at (2 * reach) else reach) }
{
    if column.sort.is_same(&Sort::Time) {
        capped(doubled(reach))
    } else {
        reach
    }
}

/// A reach doubled this many times; 2^62 + 1 where that is above 2^62.
pub fn doubled_times(reach: u64, times: u64) -> u64
    ensures { (n : ℕ) → reach ≡ capped_at n → result ≡ capped_at (2 ^ times * n) }
{
    let mut all = reach;
    for _turn in 0..times {
        all = capped(doubled(all));
    }
    all
}
