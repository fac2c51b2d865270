// Cutters that are taken away from many zones.
ghost use Rattle.std.specs.Prelude.{◌≡◌, ◌+◌, ◌<◌, ◌≤◌, ◌^◌, ◌∷◌, [], Contains, IfOk, List as ListOf, length};
ghost use Rattle.lrp_zone.specs.Zones.{ZoneView};
ghost use Rattle.lrp_cutting.specs.Differences.{AreOfCell, greatest_reach};
ghost use Rattle.lrp_cutting.specs.Leaving.{AreLeftOf};
ghost use Rattle.lrp_cutting.specs.Thresholds.{most_pieces};
ghost use Rattle.lrp_cutting.specs.Windows.{AreLinesFor, AreNearIn, AreThoseMet, HaveLines};

use crate::leaving::left_over;
use crate::standing::have_common;
use crate::windows::{CutterWindow, Line};
use lrp_model::{List, Memory};
use lrp_zone::Zone;
use std::alloc::Global;
use std::marker::Model;

// How many zones on either side are few: all pairs of them are looked at.
const FEW: usize = 16;

/// Zones of one cell that are taken away from others of it, seen as the list of them.
///
/// Where there are many on both sides, those that one of the others can meet are found by search, in the column in which
/// they are fewest.
pub struct Cutters {
    zones: List<Zone>,
    lines: Vec<Line>,
}

impl Drop for Cutters {
    fn drop(self) {
        let Cutters {
            zones: _zones,
            lines: _lines,
        } = self;
    }
}

impl Model for Cutters {
    ghost use Rattle.std.specs.Prelude.{List};
    ghost use Rattle.lrp_zone.specs.Zones.{ZoneView};
    ghost use Rattle.lrp_cutting.specs.Windows.{HaveLines};

    ghost Value = { List ZoneView };

    ghost view = { λ c. c.zones };

    ghost invariant = { λ c. HaveLines c.zones c.lines.items };
}

impl Cutters {
    /// The cutters, to be taken away from so many zones.
    pub fn of(alloc: Global, zones: List<Zone>, turns: usize) -> Result<Cutters, Memory>
        requires { (z : ZoneView) → Contains zones z → AreOfCell z zones }
        ensures { IfOk result (λ made. made ≡ zones) }
    {
        let lines = lines_of(alloc, zones.as_slice(), turns)?;
        Ok(Cutters { zones, lines })
    }

    /// How many there are.
    pub fn len(&self) -> usize
        ensures { result ≡ length self.now }
    {
        self.zones.len()
    }

    /// Disjoint zones that hold the tuples of a zone that are in no cutter.
    pub fn pieces(&self, alloc: Global, zone: &Zone) -> Result<List<Zone>, Memory>
        requires cell { AreOfCell zone.now self.now }
        requires reach { greatest_reach (zone.now ∷ self.now) + zone.now.period ≤ 2 ^ 62 }
        ensures left { IfOk result (λ made. AreLeftOf zone.now (zone.now ∷ []) self.now
            (greatest_reach (zone.now ∷ self.now) + zone.now.period) made) }
        ensures count { IfOk result (λ made. length made ≤ most_pieces zone.now self.now) }
    {
        let Some((first, rest)) = self.lines.split_first() else {
            return left_over(alloc, zone, &self.zones);
        };
        let met = met(alloc, zone, &self.zones, nearest(zone, first, rest))?;
        left_over(alloc, zone, &met)
    }
}

// The lines of the zones, one for each of their columns, or none where there are few zones or turns.
fn lines_of(alloc: Global, zones: &[Zone], turns: usize) -> Result<Vec<Line>, Memory>
    requires { (z : ZoneView) → Contains zones.now z → AreOfCell z zones.now }
    ensures { IfOk result (λ made. HaveLines zones.now made.items) }
{
    let mut lines = Vec::new(alloc);
    if turns < FEW || zones.len() < FEW {
        return Ok(lines);
    }
    for i in 0..zones[0].columns() {
        lines.push(Line::of(alloc, zones, i + 1)?)?;
    }
    Ok(lines)
}

// The windows near a zone on the line on which they are fewest.
fn nearest<'a>(zone: &Zone, first: &'a Line, rest: &'a [Line]) -> &'a [CutterWindow]
    requires { AreLinesFor zone.now (first.now ∷ rest.now) }
    ensures { (cutters : ListOf ZoneView) → HaveLines cutters (first.now ∷ rest.now)
        → AreNearIn zone.now cutters result.now }
{
    let mut near = first.near(zone);
    for line in rest {
        let other = line.near(zone);
        if other.len() < near.len() {
            near = other;
        }
    }
    near
}

// The cutters at the places of windows that have a tuple in common with a zone.
fn met(
    alloc: Global,
    zone: &Zone,
    cutters: &List<Zone>,
    near: &[CutterWindow],
) -> Result<List<Zone>, Memory>
    requires cell { AreOfCell zone.now cutters.now }
    requires near { AreNearIn zone.now cutters.now near.now }
    ensures { IfOk result (λ met. AreThoseMet zone.now cutters.now met) }
{
    let mut met = List::new(alloc);
    for window in near {
        let cutter = cutters.at(window.place);
        if have_common(zone, cutter) {
            met.push(*cutter)?;
        }
    }
    Ok(met)
}
