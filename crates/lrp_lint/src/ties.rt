// Whether the bounds of a row tie all of its time columns.
ghost use Rattle.std.specs.Prelude.{◌≡◌, ◌↔◌, ◌+◌, ◌==◌, ◌≤◌, ◌<◌, ℕ, IsTrue, List as ListOf, Some, length, slice_get, if◌then◌else◌};
ghost use Rattle.std.specs.List.{AllByRecursion};
ghost use Rattle.lrp_model.specs.declared.relations.Bound.{Bound as BoundOf};
ghost use Rattle.lrp_lint.specs.Flaws.{HasUntied};
ghost use Rattle.lrp_lint.specs.Ties.{AreBetween, IsGrouped, IsMerged};

use lrp_model::Bound;

// For each column the number of its group: columns of one group are tied. Number 0 is no column.
type Groups = [u8; 9];

/// Whether two of a number of time columns are tied by no bounds.
pub fn has_untied(times: u8, bounds: &[Bound]) -> bool
    requires times { times ≤ 8 }
    requires between { AllByRecursion (AreBetween 8) bounds.now }
    ensures { IsTrue result ↔ HasUntied times bounds.now }
{
    let groups = groups_of(bounds);
    for column in 2..usize::from(times) + 1 {
        if groups[column] != groups[1] {
            return true;
        }
    }
    false
}

// The groups of columns that bounds tie.
fn groups_of(bounds: &[Bound]) -> Groups
    requires { AllByRecursion (AreBetween 8) bounds.now }
    ensures { IsGrouped bounds.now (length bounds.now) result }
{
    let mut groups = [0, 1, 2, 3, 4, 5, 6, 7, 8];
    for bound in bounds {
        groups = tied(&groups, bound);
    }
    groups
}

// The groups, of which those of the bound's columns are one where it is between two.
fn tied(groups: &Groups, bound: &Bound) -> Groups
    requires size { length groups.now ≡ 9 }
    requires between { AreBetween 8 bound.now }
    ensures { (bounds : ListOf BoundOf) (n : ℕ) → IsGrouped bounds n groups.now
        → AllByRecursion (AreBetween 8) bounds → slice_get bounds n ≡ Some bound.now
        → IsGrouped bounds (n + 1) result }
{
    let (left, right) = (usize::from(bound.left), usize::from(bound.right));
    if left > 0 && right > 0 {
        merged(groups, left, right)
    } else {
        *groups
    }
}

// The groups, of which those of two columns are one.
fn merged(groups: &Groups, left: usize, right: usize) -> Groups
    requires size { length groups.now ≡ 9 }
    requires left { left < 9 }
    requires right { right < 9 }
    ensures { IsMerged groups.now left right result }
{
    let mut made = [0; 9];
    for column in 0..9 {
        made[column] = renamed(groups[column], groups[right], groups[left]);
    }
    made
}

// A group, which is another one where it is this one.
fn renamed(group: u8, from: u8, to: u8) -> u8
    ensures { result ≡ (if group == from then to else group) }
{
    if group == from { to } else { group }
}
