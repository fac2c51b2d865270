// Parts with a column fewer.
ghost use Rattle.std.specs.Prelude.{IfOk};
ghost use Rattle.lrp_model.specs.Texts.{without};
ghost use Rattle.lrp_dropping.specs.Without.{IsTimeCompleted};
ghost use Rattle.lrp_periods.specs.Operations.{AreOperand};
ghost use Rattle.lrp_periods.specs.Parts.{ArePartsOf, HasSome, part_times, part_texts};
ghost use Rattle.lrp_periods.specs.Sets.{IsTextCompleted};

use crate::parts::{PartsFault, add_part, small, some};
use lrp_algebra::{drop_data, drop_time};
use lrp_model::{List, Name};
use lrp_tables::{Setting, Table};

/// The assignments that some integer for the time variable completes to one of the table.
pub fn drop_time_in_parts(
    setting: &Setting<'_>,
    of: &[Table],
    name: &Name,
    period: i64,
) -> Result<List<Table>, PartsFault>
    requires { AreOperand setting.now.domain.now period of.now }
    ensures { IfOk result (ArePartsOf setting.now.domain.now
        (without name.now (part_times of.now)) (part_texts of.now) period
        (IsTimeCompleted name.now (HasSome setting.now.domain.now of.now))) }
{
    let mut parts = List::new(setting.alloc);
    for part in of {
        let dropped = drop_time(setting.alloc, part, name)?;
        let made = small(dropped)?;
        let more = add_part(setting, parts, made)?;
        parts = more;
    }
    some(parts)
}

/// The assignments that some text of the domain for the data variable completes to one of the table.
pub fn drop_data_in_parts(
    setting: &Setting<'_>,
    of: &[Table],
    name: &Name,
    period: i64,
) -> Result<List<Table>, PartsFault>
    requires { AreOperand setting.now.domain.now period of.now }
    ensures { IfOk result (ArePartsOf setting.now.domain.now (part_times of.now)
        (without name.now (part_texts of.now)) period
        (IsTextCompleted setting.now.domain.now name.now (HasSome setting.now.domain.now of.now))) }
{
    let mut parts = List::new(setting.alloc);
    for part in of {
        let dropped = drop_data(setting.alloc, part, name, setting.domain)?;
        let made = small(dropped)?;
        let more = add_part(setting, parts, made)?;
        parts = more;
    }
    some(parts)
}
