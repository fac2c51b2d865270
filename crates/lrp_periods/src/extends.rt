// Parts over the columns of a head.
ghost use Rattle.std.specs.Prelude.{IfOk};
ghost use Rattle.lrp_tables.specs.Columns.{head_times, head_texts};
ghost use Rattle.lrp_periods.specs.Operations.{CanExtendInParts};
ghost use Rattle.lrp_periods.specs.Parts.{ArePartsOf, HasSome};
ghost use Rattle.lrp_periods.specs.Sets.{IsExtensionOf};

use crate::parts::{PartsFault, add_part, small, some};
use lrp_algebra::extend;
use lrp_model::{Head, List};
use lrp_tables::{Setting, Table};

/// The assignments of a table over the columns of a head, in its order: those that the table doesn't have are free.
pub fn extend_in_parts(
    setting: &Setting<'_>,
    of: &[Table],
    head: &Head,
    period: i64,
) -> Result<List<Table>, PartsFault>
    requires { CanExtendInParts setting.now.domain.now period of.now head.now.columns }
    ensures { IfOk result (ArePartsOf setting.now.domain.now (head_times head.now.columns)
        (head_texts head.now.columns) period
        (IsExtensionOf setting.now.domain.now (head_texts head.now.columns)
        (HasSome setting.now.domain.now of.now))) }
{
    let mut parts = List::new(setting.alloc);
    for part in of {
        let extended = extend(setting, part, head)?;
        let made = small(extended)?;
        let more = add_part(setting, parts, made)?;
        parts = more;
    }
    some(parts)
}
