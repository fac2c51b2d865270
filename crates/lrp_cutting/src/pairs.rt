// Pairs of columns.
ghost use Rattle.std.specs.Prelude.{◌≡◌, ◌+◌, ◌<◌, ◌≤◌, ◌++◌, IfOk, OnOk};
ghost use Rattle.lrp_cutting.specs.Thresholds.{pairs_below, row_of_pairs};

use lrp_model::Memory;
use std::alloc::Global;

/// Two different columns, the lesser first. Column 0 is the number zero.
#[derive(Clone, Copy)]
pub struct NodePair {
    pub left: u8,
    pub right: u8,
}

/// The pairs of numbers below `nodes`, in order.
pub(crate) fn pairs(alloc: Global, nodes: u8) -> Result<Vec<NodePair>, Memory>
    requires { nodes ≤ 9 }
    ensures { IfOk result (λ made. made.items ≡ pairs_below nodes) }
{
    let mut made = Vec::new(alloc);
    for left in 0..nodes {
        push_row(left, nodes, &mut made)?;
    }
    Ok(made)
}

// Appends the pairs whose lesser number this is.
fn push_row(left: u8, nodes: u8, made: &mut Vec<NodePair>) -> Result<(), Memory>
    requires left { left < nodes }
    requires nodes { nodes ≤ 9 }
    ensures { OnOk result (made.new.items ≡ made.old.items ++ row_of_pairs nodes left) }
{
    for right in left + 1..nodes {
        made.push(NodePair { left, right })?;
    }
    Ok(())
}
