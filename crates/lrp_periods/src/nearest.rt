// The nearest number that no part has: the first of the order 0, 1, -1, 2, -2 and so on, with all numbers of its residue.
ghost use Rattle.std.specs.Prelude.{◌<◌, ◌≤◌, ◌^◌, IfOk, OnOk, IfSome};
ghost use Rattle.lrp_store.specs.Growing.{IsAdded};
ghost use Rattle.lrp_periods.specs.Nearest.{AreCoversWithin, HasRankedResidue, IsNearestLeft, IsNearestOpen, IsOfResidue};
ghost use Rattle.lrp_periods.specs.Operations.{AreOperand};
ghost use Rattle.lrp_periods.specs.Sieves.{CanBeSifted, IsLineStore};

use crate::parts::PartsFault;
use crate::sieves::{Cover, cell_at, covers_of, is_covered};
use lrp_model::Copies;
use lrp_steps::store_over;
use lrp_store::{Store, StoreFault};
use lrp_tables::{Setting, Table};

/// Of what none of the parts has the numbers of one residue, the nearest one's, where the parts can be sifted.
pub fn nearest_left(
    setting: &Setting<'_>,
    parts: &[Table],
    period: i64,
) -> Result<Table, PartsFault>
    requires operand { AreOperand setting.now.domain.now period parts.now }
    requires line { CanBeSifted parts.now }
    ensures { IfOk result (IsNearestLeft setting.now.domain.now period parts.now) }
{
    setting.domain.len();
    let covers = covers_of(setting.alloc, parts)?;
    let vars = parts[0].vars.copy(setting.alloc)?;
    let mut store = store_over(setting.alloc, &vars, period);
    let found = nearest_open(covers.as_slice(), period as u64);
    match add_residue(found, setting.cap, &mut store) {
        Ok(()) => Ok(Table { vars, store }),
        Err(StoreFault::TooManyCells) => Err(PartsFault::GivenUp),
        Err(StoreFault::Memory) => Err(PartsFault::Memory),
    }
}

// The residue of the nearest number that no cover has.
fn nearest_open(covers: &[Cover], own: u64) -> Option<u64>
    requires within { AreCoversWithin own covers.now }
    requires high { own ≤ 2 ^ 62 }
    ensures { IsNearestOpen covers.now own result }
{
    for place in 0..own + 1 {
        let residue = residue_of_rank(place, own);
        if !is_covered(covers, residue) {
            return Some(residue);
        }
    }
    None
}

// The residue of the number at a place of the order.
fn residue_of_rank(place: u64, own: u64) -> u64
    requires low { 0 < own }
    requires high { own ≤ 2 ^ 62 }
    requires place { place ≤ own }
    ensures { HasRankedResidue own place result }
{
    let far = (place + 1) / 2;
    if place % 2 == 1 {
        far % own
    } else {
        (own - far) % own
    }
}

// Adds the cell of the residue, where there is one.
fn add_residue(found: Option<u64>, cap: u32, out: &mut Store) -> Result<(), StoreFault>
    requires line { IsLineStore out.old }
    requires low { IfSome found (λ residue. residue < out.old.period) }
    ensures { OnOk result (IsAdded (IsOfResidue out.old.period found) cap 0 out.old out.new) }
{
    let Some(residue) = found else {
        return Ok(());
    };
    match out.add_whole(&cell_at(residue), cap) {
        Ok(()) => Ok(()),
        Err(fault) => Err(fault),
    }
}
