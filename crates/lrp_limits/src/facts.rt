// What the plan needs to know of a relation's rows.
ghost use Rattle.std.specs.Prelude.{◌≡◌, ◌∷◌, [], nat_abs};
ghost use Rattle.std.specs.Option.{option_map};
ghost use Rattle.lrp_model.specs.Periods.{value_periods, row_periods};
ghost use Rattle.lrp_model.specs.Reach.{greatest};
ghost use Rattle.lrp_limits.specs.Facts.{AreFacts, most_of_row, KeepsMultiples};

use crate::periods::{Period, one};
use lrp_model::{Bound, Row, RowPoint, Value};

/// The least common multiple of a relation's periods, or `None` where it is above 2^62; the greatest magnitude of a
/// bound of its rows; and how many rows it has.
#[derive(Clone, Copy)]
pub struct Facts {
    pub period: Option<Period>,
    pub bound: u64,
    pub rows: u64,
}

/// What there is to know of rows.
pub fn facts_of(rows: &[Row]) -> Facts
    ensures { AreFacts rows.now result }
{
    let mut period = Some(one());
    let mut bound = 0;
    for row in rows {
        period = with_row(period, row);
        bound = bound_of(row).max(bound);
    }
    Facts {
        period,
        bound,
        rows: rows.len() as u64,
    }
}

/// The period with those of a row's points.
pub fn with_row(period: Option<Period>, row: &Row) -> Option<Period>
    ensures { KeepsMultiples (row_periods row.now) (option_map (λ p. p.number) period)
        (option_map (λ p. p.number) result) }
{
    let mut all = period;
    for value in row.values.as_slice() {
        all = with_value(all, value);
    }
    all
}

// The period with that of a point.
fn with_value(period: Option<Period>, value: &Value) -> Option<Period>
    ensures { KeepsMultiples (value_periods value.now) (option_map (λ p. p.number) period)
        (option_map (λ p. p.number) result) }
{
    match value {
        Value::Point { at } => with_point(period, at),
        Value::Const { .. } => period,
    }
}

/// The period with that of a point.
pub fn with_point(period: Option<Period>, at: &RowPoint) -> Option<Period>
    ensures { KeepsMultiples (nat_abs at.now.period ∷ []) (option_map (λ p. p.number) period)
        (option_map (λ p. p.number) result) }
{
    match period {
        Some(period) => period.with(at.period.unsigned_abs()),
        None => None,
    }
}

/// The greatest magnitude of a row's bounds; 0 where there is none.
pub fn bound_of(row: &Row) -> u64
    ensures { result ≡ greatest (most_of_row row.now) }
{
    let mut most = 0;
    for bound in row.bounds.as_slice() {
        most = magnitude(bound).max(most);
    }
    most
}

fn magnitude(bound: &Bound) -> u64
    ensures { result ≡ nat_abs bound.now.most }
{
    bound.most.unsigned_abs()
}
