// Tables of tests.
ghost use Rattle.std.specs.Prelude.{◌≡◌};
ghost use Rattle.lrp_tables.specs.Calls.{test_period};
ghost use Rattle.lrp_tables.specs.Steps.{CanTest, IsLeafResult};

use crate::columns::{store_over, test_vars};
use crate::filling::add_pattern;
use crate::layout::Wanted;
use crate::pattern::Pattern;
use crate::tested::with_test;
use lrp_model::Test;
use lrp_store::StoreFault;
use lrp_tables::{Setting, StepFault, Table};

/// The assignments that pass a test, over its variables.
///
/// The table has the period of the test's point, or 1. `TooManyCells` comes exactly where the assignments inhabit more than
/// the setting's number of cells of that period.
pub fn leaf(setting: &Setting<'_>, test: &Test) -> Result<Table, StepFault>
    requires { CanTest test.now }
    ensures { IsLeafResult setting.now.cap setting.now.domain.now test.now result }
{
    let (alloc, domain) = (setting.alloc, setting.domain);
    let vars = test_vars(alloc, test)?;
    let mut out = store_over(alloc, &vars, period_of(test));
    let size = domain.len();
    let all = Pattern::new(alloc);
    let Some(pattern) = with_test(all, test, &vars, domain)? else {
        return Ok(Table { vars, store: out });
    };
    let wanted = Wanted {
        pattern: &pattern,
        size,
        cap: setting.cap,
    };
    match add_pattern(wanted, &mut out) {
        Ok(()) => Ok(Table { vars, store: out }),
        Err(StoreFault::TooManyCells) => Err(StepFault::TooManyCells),
        Err(StoreFault::Memory) => Err(StepFault::Memory),
    }
}

// The period of a test: that of its point, or 1.
fn period_of(test: &Test) -> i64
    ensures { result ≡ test_period test.now }
{
    match test {
        Test::Compare { .. } => 1,
        Test::Member { point, .. } => point.period,
        Test::Equal { .. } => 1,
    }
}
