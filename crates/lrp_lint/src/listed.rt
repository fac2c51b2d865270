// What is found, each once and in order.
ghost use Rattle.std.specs.Prelude.{Contains};
ghost use Rattle.lrp_lint.specs.Listed.{AreEachOnce, query_order, row_order};

use crate::flaws::{QueryFinding, RowFinding};
use lrp_model::List;

/// The findings of rows, by relation, row and kind.
pub fn rows_in_order(found: Vec<RowFinding>) -> List<RowFinding>
    ensures { AreEachOnce row_order found.items result }
{
    let mut found = found;
    found.sort_unstable();
    found.dedup();
    List::from_vec(found)
}

/// The findings of a query, by place and kind.
pub fn query_in_order(found: Vec<QueryFinding>) -> List<QueryFinding>
    ensures { AreEachOnce query_order found.items result }
{
    let mut found = found;
    found.sort_unstable();
    found.dedup();
    List::from_vec(found)
}
