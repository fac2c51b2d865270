// The closed bounds of a zone.
ghost use Rattle.std.specs.Prelude.{◌≡◌, ◌≢◌, ◌<◌, ◌≤◌, ◌+◌, ◌^◌, ◌≤ℤ◌, ◌++◌, ◌∷◌, [], ℕ, length, pos, neg_ℤ};
ghost use Rattle.std.specs.List.{AllByRecursion};
ghost use Rattle.lrp_theory.specs.Entries.{AtMost, entry, IsSmallClosure};
ghost use Rattle.lrp_model.specs.Limits.{greatest_number};
ghost use Rattle.lrp_store.specs.Least.{IsRoom};
ghost use Rattle.lrp_zone.specs.Zones.{IsZone, columns_of};
ghost use Rattle.lrp_answer_text.specs.AnswerText.{bound_between, bounds_in_row, closed_bounds};

use lrp_matrix::Matrix;
use lrp_model::Bound;
use lrp_zone::Zone;
use std::marker::Model;

/// Bounds between the nodes of a matrix, at most nine rows of nine, in place.
#[derive(Drop)]
pub struct Bounds {
    all: [Bound; 81],
    count: usize,
}

impl Model for Bounds {
    ghost use Rattle.std.specs.Prelude.{◌≤◌, List, take};
    ghost use Rattle.lrp_model.specs.declared.relations.Bound.{Bound};

    ghost Value = { List Bound };

    ghost view = { λ b. take b.count b.all };

    ghost invariant = { λ b. b.count ≤ 81 };
}

impl Bounds {
    // No bounds.
    fn new() -> Bounds
        ensures { result ≡ [] }
    {
        let nothing = Bound {
            left: 0,
            right: 0,
            most: 0,
        };
        Bounds {
            all: [nothing; 81],
            count: 0,
        }
    }

    // One bound more.
    fn push(&mut self, bound: Bound)
        requires { length self.old < 81 }
        ensures { self.new ≡ self.old ++ bound ∷ [] }
    {
        self.all[self.count] = bound;
        self.count += 1;
    }

    /// The bounds, in order.
    pub fn as_slice(&self) -> &[Bound]
        ensures { result.now ≡ self.now }
    {
        &self.all[..self.count]
    }
}

/// The least bounds that the tuples of a zone meet, off the diagonal and row by row, where there are any.
pub fn closed_bounds(zone: &Zone) -> Bounds
    requires room { (h : ℕ) × IsRoom zone.now h }
    ensures bounds { result ≡ closed_bounds zone.now }
    ensures small { AllByRecursion (λ b. neg_ℤ (pos greatest_number) ≤ℤ b.most) result }
{
    if zone.columns() == 1 {
        bounds_of_one(zone)
    } else {
        bounds_of_all(zone)
    }
}

// The closed bounds of a zone with one column: its stored ones, since no path leads from one of two nodes to the other but
// the step itself.
fn bounds_of_one(zone: &Zone) -> Bounds
    requires valid { IsZone zone.now }
    requires column { columns_of zone.now ≡ 1 }
    ensures bounds { result ≡ closed_bounds zone.now }
    ensures small { AllByRecursion (λ b. neg_ℤ (pos greatest_number) ≤ℤ b.most) result }
{
    let mut bounds = Bounds::new();
    push_stored(&mut bounds, 0, 1, zone.bound(0, 1));
    push_stored(&mut bounds, 1, 0, zone.bound(1, 0));
    bounds
}

// The closed bounds of a zone, by a matrix.
fn bounds_of_all(zone: &Zone) -> Bounds
    requires valid { IsZone zone.now }
    requires room { (h : ℕ) × IsRoom zone.now h }
    ensures bounds { result ≡ closed_bounds zone.now }
    ensures small { AllByRecursion (λ b. neg_ℤ (pos greatest_number) ≤ℤ b.most) result }
{
    let closed = zone.closed();
    let nodes = closed.columns() as u8 + 1;
    let mut bounds = Bounds::new();
    for row in 0..nodes {
        push_row(&mut bounds, &closed, row, nodes);
    }
    bounds
}

// A stored bound of one node minus another, where there is one.
fn push_stored(bounds: &mut Bounds, left: u8, right: u8, most: Option<i64>)
    requires apart { left ≢ right }
    requires room { length bounds.old < 81 }
    requires small { AtMost (2 ^ 62) most }
    ensures bounds { bounds.new ≡ bounds.old ++ bound_between left right most }
    ensures few { length bounds.new ≤ length bounds.old + 1 }
    ensures small { AllByRecursion (λ b. neg_ℤ (pos greatest_number) ≤ℤ b.most) bounds.old
        → AllByRecursion (λ b. neg_ℤ (pos greatest_number) ≤ℤ b.most) bounds.new }
{
    if let Some(most) = most {
        bounds.push(Bound { left, right, most });
    }
}

// The bounds of one row.
fn push_row(bounds: &mut Bounds, closed: &Matrix, row: u8, nodes: u8)
    requires nodes { nodes ≡ closed.now.columns + 1 }
    requires few_nodes { nodes ≤ 9 }
    requires row { row < nodes }
    requires room { length bounds.old + nodes ≤ 81 }
    requires small { IsSmallClosure nodes (2 ^ 62) closed.now.cells }
    ensures bounds { bounds.new ≡ bounds.old ++ bounds_in_row nodes (entry closed.now.cells) row }
    ensures few { length bounds.new ≤ length bounds.old + nodes }
    ensures small { AllByRecursion (λ b. neg_ℤ (pos greatest_number) ≤ℤ b.most) bounds.old
        → AllByRecursion (λ b. neg_ℤ (pos greatest_number) ≤ℤ b.most) bounds.new }
{
    for column in 0..nodes {
        push_bound(bounds, closed, row, column);
    }
}

// The bound of one node minus another, where there is one and they are two.
fn push_bound(bounds: &mut Bounds, closed: &Matrix, left: u8, right: u8)
    requires left { left ≤ closed.now.columns }
    requires right { right ≤ closed.now.columns }
    requires room { length bounds.old < 81 }
    requires small { IsSmallClosure (closed.now.columns + 1) (2 ^ 62) closed.now.cells }
    ensures bounds { bounds.new ≡ bounds.old ++ bound_between left right
        (entry closed.now.cells left right) }
    ensures few { length bounds.new ≤ length bounds.old + 1 }
    ensures small { AllByRecursion (λ b. neg_ℤ (pos greatest_number) ≤ℤ b.most) bounds.old
        → AllByRecursion (λ b. neg_ℤ (pos greatest_number) ≤ℤ b.most) bounds.new }
{
    if left == right {
        return;
    }
    if let Some(most) = closed.get(usize::from(left), usize::from(right)) {
        bounds.push(Bound {
            left,
            right,
            most: most as i64,
        });
    }
}
