// Differences by what the right table lacks, where that is little.
ghost use Rattle.std.specs.Prelude.{◌≡◌, IfOk, IfSome, IsTrue, [], nat_abs};
ghost use Rattle.lrp_eval.specs.Together.{HasComplement, CanNarrow, IsSmallComplement, IsUnbrokenTable, ways_for};

use crate::together::Sides;
use lrp_algebra::{drop_time, join};
use lrp_minus::{complement, minus};
use lrp_model::{List, Name};
use lrp_periods::product_within;
use lrp_tables::{Setting, StepFault, Table, place_of};
use lrp_zone::Zone;

/// The assignments that the right table lacks, where they have so few cells that the left one's difference has few.
///
/// It has no more than a cell of these for each choice of residues of the left table's other columns. It is only done where
/// the left table bounds no residues and the first one has an eighth of the choices at most, so that joins make fewer cells.
pub(crate) fn small_complement(
    setting: &Setting<'_>,
    sides: &Sides<'_>,
    period: u64,
    most: u32,
) -> Option<Table>
    requires { HasComplement sides.now period }
    ensures { IfSome result
        (IsSmallComplement setting.now.domain.now sides.now period setting.now.cap) }
{
    if !is_plain(sides, period) {
        return None;
    }
    if !is_open(sides.left) {
        return None;
    }
    let (left, right) = (&sides.left.vars.times, &sides.right.vars.times);
    let Some(ways) = choices(left, right, period, setting.cap) else {
        return None;
    };
    if ways < 8 {
        return None;
    }
    if sides.from.store.len() > ways / 8 {
        return None;
    }
    let few = Setting {
        alloc: setting.alloc,
        domain: setting.domain,
        cap: most.min(setting.cap / ways),
    };
    match complement(&few, sides.right) {
        Ok(outside) => match product_within(outside.store.len(), u64::from(ways), setting.cap) {
            Some(_) => Some(outside),
            None => None,
        },
        Err(_) => None,
    }
}

// Whether the left table has no texts and no residues, and the cells of the others are of this period.
fn is_plain(sides: &Sides<'_>, period: u64) -> bool
    ensures texts { IsTrue result → sides.now.left.now.vars.texts ≡ [] }
    ensures period { IsTrue result → sides.now.right.now.store.period ≡ period }
{
    sides.left.vars.texts.len() == 0
        && sides.left.store.period() == 1
        && sides.right.store.period() as u64 == period
        && sides.from.store.period() as u64 == period
}

// Whether no zone of the table bounds a column from both sides.
fn is_open(table: &Table) -> bool {
    for cell in table.store.cells() {
        for zone in table.store.zones_of(&cell) {
            if has_window(&zone) {
                return false;
            }
        }
    }
    true
}

// Whether a column has a least and a greatest distance from another one, or from zero.
fn has_window(zone: &Zone) -> bool {
    let columns = zone.columns();
    for i in 0..columns {
        for j in 0..i + 1 {
            if zone.bound(i + 1, j).is_some() && zone.bound(j, i + 1).is_some() {
                return true;
            }
        }
    }
    false
}

// How many choices of residues the columns have that the others are not, where there are no more than the cap.
fn choices(names: &List<Name>, others: &List<Name>, period: u64, cap: u32) -> Option<u32>
    ensures { IfSome result (λ count. count ≡ ways_for others.now period names.now) }
{
    let mut count = 1;
    for name in names.as_slice() {
        if place_of(others, name).is_none() {
            match product_within(count, period, cap) {
                Some(product) => count = product,
                None => return None,
            }
        }
    }
    Some(count)
}

/// What the first table has beside the others' difference, by what the right one lacks: its join with that is made first.
pub(crate) fn narrow_by_complement(
    setting: &Setting<'_>,
    sides: &Sides<'_>,
    outside: &Table,
    name: &Name,
    period: i64,
) -> Result<Table, StepFault>
    requires narrow { CanNarrow setting.now.domain.now sides.now name.now period }
    requires outside { IsSmallComplement setting.now.domain.now sides.now (nat_abs period)
        setting.now.cap outside.now }
    ensures { IfOk result (λ made. IsUnbrokenTable setting.now.domain.now sides.now name.now period
        setting.now.cap made) }
{
    let tests = List::new(setting.alloc);
    let part = join(setting, sides.from, outside, &tests, period)?;
    let rest = join(setting, &part, sides.left, &tests, period)?;
    let taken = drop_time(setting.alloc, &rest, name)?;
    minus(setting, sides.from, &taken, period)
}
