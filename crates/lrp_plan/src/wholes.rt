// The least common multiple of all periods that a core form names.
ghost use Rattle.std.specs.Option.{option_map};
ghost use Rattle.lrp_core.specs.Cores.{core_of, cores_of, test_of};
ghost use Rattle.lrp_model.specs.Formulas.{conjunction};
ghost use Rattle.lrp_model.specs.Periods.{periods, test_periods};
ghost use Rattle.lrp_model.specs.Satisfaction.{Structure};
ghost use Rattle.lrp_limits.specs.Facts.{KeepsMultiples, KeepsFacts, KeepsRows};
ghost use Rattle.lrp_plan.specs.Sources.{AreSources};

use crate::sources::Sources;
use lrp_core::{Core, TermTest};
use lrp_limits::facts::{Facts, with_point};
use lrp_limits::periods::Period;

/// A period with those that a core form names, or `None` where the common one is above 2^62.
#[cycle(periods)]
pub(crate) fn with_core(
    sources: &Sources<'_>,
    core: &Core<'_>,
    period: Option<Period>,
) -> Option<Period>
    ensures { (M : Structure) → AreSources M sources.now
        → KeepsMultiples (periods (core_of core.now) M.relations)
        (option_map (λ p. p.number) period)
        (option_map (λ p. p.number) result) }
{
    match core {
        Core::Atom { relation, .. } => with_facts(period, sources.facts(relation)),
        Core::Check { test } => with_test(period, test),
        Core::Sorted { .. } => period,
        Core::Not { of } => with_core(sources, of, period),
        Core::And { of } => with_each(sources, of, period),
        Core::Or { of } => with_each(sources, of, period),
        Core::Exists { of, .. } => with_core(sources, of, period),
    }
}

#[cycle(periods)]
fn with_each(sources: &Sources<'_>, of: &[Core<'_>], period: Option<Period>) -> Option<Period>
    ensures { (M : Structure) → AreSources M sources.now
        → KeepsMultiples (periods (conjunction (cores_of of.now)) M.relations)
        (option_map (λ p. p.number) period) (option_map (λ p. p.number) result) }
{
    let mut all = period;
    for core in of {
        all = with_core(sources, core, all);
    }
    all
}

// The period with those of a relation's rows.
fn with_facts(period: Option<Period>, facts: Facts) -> Option<Period>
    ensures { KeepsFacts facts (option_map (λ p. p.number) period)
        (option_map (λ p. p.number) result) }
{
    match period {
        Some(period) => with_rows(period, facts.period),
        None => None,
    }
}

fn with_rows(period: Period, rows: Option<Period>) -> Option<Period>
    ensures { KeepsRows (option_map (λ p. p.number) rows) period.number
        (option_map (λ p. p.number) result) }
{
    match rows {
        Some(rows) => period.with(rows.number),
        None => None,
    }
}

// The period with that of a test.
fn with_test(period: Option<Period>, test: &TermTest<'_>) -> Option<Period>
    ensures { KeepsMultiples (test_periods (test_of test.now)) (option_map (λ p. p.number) period)
        (option_map (λ p. p.number) result) }
{
    match test {
        TermTest::Member { point, .. } => with_point(period, point),
        TermTest::Compare { .. } => period,
        TermTest::Equal { .. } => period,
    }
}
