// Selections from parts.
ghost use Rattle.std.specs.Prelude.{IfOk};
ghost use Rattle.lrp_tables.specs.Tables.{HasAssignment};
ghost use Rattle.lrp_periods.specs.Combining.{CanSelectPart};
ghost use Rattle.lrp_periods.specs.Operations.{CanSelectInParts};
ghost use Rattle.lrp_periods.specs.Parts.{ArePartsOf, HasSome, IsPartOfSet, part_times, part_texts};
ghost use Rattle.lrp_periods.specs.Sets.{IsSelectionOf};

use crate::parts::{PartsFault, add_part, small, some};
use crate::periods::with_test;
use lrp_algebra::select;
use lrp_model::{List, Test};
use lrp_tables::{Setting, Table};

/// The assignments of a table that pass a test of its variables.
pub fn select_in_parts(
    setting: &Setting<'_>,
    of: &[Table],
    test: &Test,
    period: i64,
) -> Result<List<Table>, PartsFault>
    requires { CanSelectInParts setting.now.domain.now period of.now test.now }
    ensures { IfOk result (ArePartsOf setting.now.domain.now (part_times of.now)
        (part_texts of.now) period
        (IsSelectionOf (HasSome setting.now.domain.now of.now) test.now)) }
{
    let mut parts = List::new(setting.alloc);
    for part in of {
        let made = select_part(setting, part, test, period)?;
        let more = add_part(setting, parts, made)?;
        parts = more;
    }
    some(parts)
}

// The assignments of one part.
fn select_part(
    setting: &Setting<'_>,
    part: &Table,
    test: &Test,
    period: i64,
) -> Result<Table, PartsFault>
    requires { CanSelectPart setting.now.domain.now period part.now test.now }
    ensures { IfOk result (IsPartOfSet setting.now.domain.now part.now.vars.times
        part.now.vars.texts period
        (IsSelectionOf (HasAssignment part.now setting.now.domain.now) test.now)) }
{
    let own = with_test(part.store.period(), test, period);
    let made = select(setting, part, test, own)?;
    small(made)
}
