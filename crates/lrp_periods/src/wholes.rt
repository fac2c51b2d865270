// Parts brought to one period.
ghost use Rattle.lrp_periods.specs.Operations.{AreOperand, IsWholeResult};

use crate::unions::nothing_over;
use lrp_algebra::union;
use lrp_tables::{Setting, StepFault, Table};

/// The parts' assignments in one table, in cells of the period.
///
/// `TooManyCells` comes exactly where they inhabit more than the setting's number of cells of the period.
pub fn whole(setting: &Setting<'_>, parts: &[Table], period: i64) -> Result<Table, StepFault>
    requires { AreOperand setting.now.domain.now period parts.now }
    ensures { IsWholeResult setting.now.cap setting.now.domain.now period parts.now result }
{
    let mut made = nothing_over(setting, &parts[0], period)?;
    for part in parts {
        match union(setting, &made, part, period) {
            Ok(more) => {
                more.store.shape();
                made = more;
            }
            Err(fault) => return Err(fault),
        }
    }
    Ok(made)
}
