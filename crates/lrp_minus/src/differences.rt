// Differences of tables.
ghost use Rattle.std.specs.Prelude.{◌≡◌, IfOk, OnOk, Err};
ghost use Rattle.lrp_store.specs.Stores.{IsStore};
ghost use Rattle.lrp_tables.specs.Steps.{CanMinus, IsMinusResult};
ghost use Rattle.lrp_minus.specs.Cutters.{CanSubtractIn, CanTakeIn, IsCellFew, IsCellOfLeft, IsDifferenceAdded, IsDifferenceFew, IsDifferenceRefused, IsInDifference, IsInDifferenceAt, IsSameAdded, IsSameFew, IsSameRefused};
ghost use Rattle.lrp_minus.specs.Counts.{HasFewSpared};

use crate::cutters::cutters_of;
use crate::filling::add_left;
use crate::taking::add_taken;
use lrp_model::{Cell, Copies};
use lrp_store::{Store, StoreFault};
use lrp_tables::{Places, Setting, StepFault, Table, Vars, places_of};

/// A store of which the tuples that have one of another store at places are taken away, for one of at most so many cells.
#[derive(Clone, Copy)]
pub(crate) struct Difference<'a> {
    pub(crate) left: &'a Store,
    pub(crate) right: &'a Store,
    pub(crate) places: &'a Places,
    pub(crate) cap: u32,
}

/// The assignments of the left table that are none of the right one, whose variables are among the left one's.
///
/// `TooManyCells` comes exactly where they inhabit more than the setting's number of cells of the period. Only these cells are
/// ever made. The setting's constants play no part: the table is the same in each domain that has the left one's texts.
pub fn minus(
    setting: &Setting<'_>,
    left: &Table,
    right: &Table,
    period: i64,
) -> Result<Table, StepFault>
    requires { CanMinus period left.now right.now }
    ensures difference { IsMinusResult setting.now.cap period left.now right.now result }
    ensures valid { IfOk result (λ made. IsStore made.store) }
    ensures few { IfOk result (λ made. HasFewSpared left.now.store right.now.store made.store) }
{
    let alloc = setting.alloc;
    let vars = Vars {
        times: left.vars.times.copy(alloc)?,
        texts: left.vars.texts.copy(alloc)?,
    };
    let places = places_of(alloc, &right.vars, &left.vars)?;
    prove_eq!(places.times.len(), usize::from(right.store.shape().times));
    let mut out = Store::new(alloc, left.store.shape(), period);
    let difference = Difference {
        left: &left.store,
        right: &right.store,
        places: &places,
        cap: setting.cap,
    };
    match add_difference(&difference, &mut out) {
        Ok(()) => Ok(Table { vars, store: out }),
        Err(StoreFault::TooManyCells) => Err(StepFault::TooManyCells),
        Err(StoreFault::Memory) => Err(StepFault::Memory),
    }
}

// Adds the tuples of the left store that have none of the right one at the places, in cells of the period of `out`.
fn add_difference(difference: &Difference<'_>, out: &mut Store) -> Result<(), StoreFault>
    requires { CanSubtractIn difference.now out.old }
    ensures ok { OnOk result (IsDifferenceAdded difference.now
        (IsInDifference difference.now) out.old out.new) }
    ensures refused { result ≡ Err StoreFault.TooManyCells → IsDifferenceRefused difference.now
        (IsInDifference difference.now) out.old out.new }
    ensures few { OnOk result (IsDifferenceFew difference.now out.old out.new) }
{
    for cell in difference.left.cells() {
        match add_cell(difference, &cell, out) {
            Ok(()) => {}
            Err(fault) => return Err(fault),
        }
    }
    Ok(())
}

// Adds those of one cell, in that cell where the periods are the same.
fn add_cell(difference: &Difference<'_>, cell: &Cell, out: &mut Store) -> Result<(), StoreFault>
    requires cell { IsCellOfLeft difference.now cell.now }
    requires subtract { CanSubtractIn difference.now out.old }
    ensures ok { OnOk result (IsDifferenceAdded difference.now
        (IsInDifferenceAt difference.now cell.now) out.old out.new) }
    ensures refused { result ≡ Err StoreFault.TooManyCells → IsDifferenceRefused difference.now
        (IsInDifferenceAt difference.now cell.now) out.old out.new }
    ensures few { OnOk result (IsCellFew difference.now cell.now out.old out.new) }
{
    if difference.left.period() == out.period() {
        return add_same_cell(difference, cell, out);
    }
    for zone in difference.left.zones_of(cell) {
        match add_taken(difference, &zone, &cell.texts, out) {
            Ok(()) => {}
            Err(fault) => return Err(fault),
        }
    }
    Ok(())
}

// Adds those of one cell where the periods are the same, in that cell.
fn add_same_cell(
    difference: &Difference<'_>,
    cell: &Cell,
    out: &mut Store,
) -> Result<(), StoreFault>
    requires cell { IsCellOfLeft difference.now cell.now }
    requires take { CanTakeIn difference.now out.old }
    ensures ok { OnOk result (IsSameAdded difference.now
        (IsInDifferenceAt difference.now cell.now) out.old out.new) }
    ensures refused { result ≡ Err StoreFault.TooManyCells → IsSameRefused difference.now
        (IsInDifferenceAt difference.now cell.now) out.old out.new }
    ensures few { OnOk result (IsSameFew difference.now cell.now out.old out.new) }
{
    let left = difference.left;
    let (right, places) = (difference.right, difference.places);
    let cutters = cutters_of(left, cell, right, places, left.count(cell))?;
    for zone in left.zones_of(cell) {
        match add_left(&zone, &cutters, cell, difference.cap, out) {
            Ok(()) => {}
            Err(fault) => return Err(fault),
        }
    }
    Ok(())
}
