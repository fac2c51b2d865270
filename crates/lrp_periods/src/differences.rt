// Differences of parts: from each part of the left table each part of the right one is taken away.
ghost use Rattle.std.specs.Prelude.{IfOk};
ghost use Rattle.lrp_tables.specs.Tables.{HasAssignment};
ghost use Rattle.lrp_periods.specs.Combining.{CanTakeAll, CanTakeAway};
ghost use Rattle.lrp_periods.specs.Operations.{CanMinusInParts};
ghost use Rattle.lrp_periods.specs.Parts.{ArePartsOf, HasSome, IsPartOfSet, part_times, part_texts};
ghost use Rattle.lrp_periods.specs.Sets.{IsDifferenceOf};

use crate::parts::{PartsFault, add_part, small, some};
use crate::periods::common_period;
use lrp_minus::minus;
use lrp_model::List;
use lrp_tables::{Setting, Table};

/// The assignments of the left table that are none of the right one, whose variables are among the left one's.
pub fn minus_in_parts(
    setting: &Setting<'_>,
    lefts: &[Table],
    rights: &[Table],
    period: i64,
) -> Result<List<Table>, PartsFault>
    requires { CanMinusInParts setting.now.domain.now period lefts.now rights.now }
    ensures { IfOk result (ArePartsOf setting.now.domain.now (part_times lefts.now)
        (part_texts lefts.now) period
        (IsDifferenceOf (HasSome setting.now.domain.now lefts.now)
        (HasSome setting.now.domain.now rights.now))) }
{
    let mut parts = List::new(setting.alloc);
    for left in lefts {
        let made = left_of(setting, left, rights, period)?;
        let more = add_part(setting, parts, made)?;
        parts = more;
    }
    some(parts)
}

// What the right parts leave of a left one.
fn left_of(
    setting: &Setting<'_>,
    left: &Table,
    rights: &[Table],
    period: i64,
) -> Result<Table, PartsFault>
    requires { CanTakeAll setting.now.domain.now period left.now rights.now }
    ensures { IfOk result (IsPartOfSet setting.now.domain.now left.now.vars.times
        left.now.vars.texts period (IsDifferenceOf (HasAssignment left.now setting.now.domain.now)
        (HasSome setting.now.domain.now rights.now))) }
{
    let mut made = take_away(setting, left, &rights[0], period)?;
    for place in 1..rights.len() {
        let less = take_away(setting, &made, &rights[place], period)?;
        made = less;
    }
    Ok(made)
}

// What one right part leaves.
fn take_away(
    setting: &Setting<'_>,
    left: &Table,
    right: &Table,
    period: i64,
) -> Result<Table, PartsFault>
    requires { CanTakeAway setting.now.domain.now period left.now right.now }
    ensures { IfOk result (IsPartOfSet setting.now.domain.now left.now.vars.times
        left.now.vars.texts period (IsDifferenceOf (HasAssignment left.now setting.now.domain.now)
        (HasAssignment right.now setting.now.domain.now))) }
{
    let own = common_period(left.store.period(), right.store.period(), period);
    let made = minus(setting, left, right, own)?;
    small(made)
}
