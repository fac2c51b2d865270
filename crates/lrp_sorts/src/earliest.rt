// The earlier of two faults.
ghost use Rattle.std.specs.Prelude.{◌≡◌, Some};
ghost use Rattle.lrp_model.specs.Sorting.{query_standing, query_fault};
ghost use Rattle.lrp_model.specs.Faults.{earlier, earliest, fault_if};
ghost use Rattle.lrp_model.specs.Sooner.{sooner};

use lrp_model::{Place, QueryFault, QueryKind};

// What faults are ordered by: the line, the column, and the number of the kind.
fn standing(fault: QueryFault) -> [u32; 3]
    ensures { result ≡ query_standing fault }
{
    [
        fault.place.line,
        fault.place.column,
        u32::from(fault.kind.number()),
    ]
}

/// The earlier of two faults, or the one that there is; of two that stand alike, the first.
pub fn sooner_of(first: Option<QueryFault>, second: Option<QueryFault>) -> Option<QueryFault>
    ensures { result ≡ sooner query_standing first second }
{
    match (first, second) {
        (Some(f), Some(g)) => Some(earlier_of(f, g)),
        (Some(f), None) => Some(f),
        (None, other) => other,
    }
}

fn earlier_of(f: QueryFault, g: QueryFault) -> QueryFault
    ensures { Some result ≡ earlier query_standing f (Some g) }
{
    if standing(g) < standing(f) { g } else { f }
}

/// The fault, where the test is true.
pub fn fault_where(holds: bool, kind: QueryKind, place: Place) -> Option<QueryFault>
    ensures { result ≡ earliest query_standing (fault_if holds (query_fault kind place)) }
{
    holds.then_some(QueryFault { kind, place })
}
