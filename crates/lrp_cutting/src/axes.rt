// The differences of two columns, zone by zone, in an order in which those that hold others are found by search.
ghost use Rattle.std.specs.Prelude.{◌≡◌, ◌^◌, Contains, IfOk, length};
ghost use Rattle.lrp_theory.specs.Entries.{AtMost};
ghost use Rattle.lrp_matrix.specs.Ranges.{negation};
ghost use Rattle.lrp_zone.specs.Zones.{ZoneView};
ghost use Rattle.lrp_cutting.specs.Axes.{AreAxisWindows, AreHolding, HasPair, IsAxisOf, IsInOrder, IsWindowOfBounds};
ghost use Rattle.lrp_cutting.specs.Cutting.{IsPairOf};

use crate::hull::bound_of;
use crate::pairs::NodePair;
use crate::windows::{CutterWindow, count_before, count_by, reached_by};
use lrp_matrix::Matrix;
use lrp_model::Memory;
use lrp_zone::Zone;
use std::alloc::Global;

/// The windows of zones in the difference of two columns, in order, and for each the greatest end of those up to it.
pub struct Axis {
    pub(crate) pair: NodePair,
    pub(crate) windows: Vec<CutterWindow>,
    pub(crate) reached: Vec<Option<i64>>,
}

impl Drop for Axis {
    fn drop(self) {
        let Axis {
            pair: _pair,
            windows: _windows,
            reached: _reached,
        } = self;
    }
}

impl Axis {
    /// The windows of the zones in the difference of two columns.
    pub(crate) fn of(alloc: Global, zones: &[Zone], pair: NodePair) -> Result<Axis, Memory>
        requires { (z : ZoneView) → Contains zones.now z → IsPairOf z pair }
        ensures { IfOk result (λ axis. IsAxisOf zones.now axis) }
    {
        let mut windows = windows_of(alloc, zones, pair)?;
        windows.sort_unstable();
        let reached = reached_by(alloc, &windows)?;
        Ok(Axis {
            pair,
            windows,
            reached,
        })
    }

    /// The windows that hold another one, and perhaps others.
    pub(crate) fn holding(&self, window: &CutterWindow) -> &[CutterWindow]
        requires { IsInOrder self.now }
        ensures { AreHolding window.now self.now.windows.items result.now }
    {
        let start = count_before(&self.reached, window.most);
        let rest = &self.windows[start..];
        &rest[..count_by(rest, window.least)]
    }
}

// The windows of the zones, as they come.
fn windows_of(alloc: Global, zones: &[Zone], pair: NodePair) -> Result<Vec<CutterWindow>, Memory>
    requires { (z : ZoneView) → Contains zones.now z → IsPairOf z pair }
    ensures { IfOk result (λ made. AreAxisWindows zones.now pair (length zones.now) made.items) }
{
    let mut made = Vec::new(alloc);
    for zone in zones {
        let window = stored_window(zone, pair, made.len());
        made.push(window)?;
    }
    Ok(made)
}

// The window whose ends the stored bounds of a zone are.
fn stored_window(zone: &Zone, pair: NodePair, place: usize) -> CutterWindow
    requires { IsPairOf zone.now pair }
    ensures window { IsWindowOfBounds zone.now.bounds pair result }
    ensures place { result.place ≡ place }
{
    let (left, right) = (usize::from(pair.left), usize::from(pair.right));
    prove!(right <= zone.columns());
    CutterWindow {
        least: negated(zone.bound(right, left)),
        most: zone.bound(left, right),
        place,
    }
}

/// The window whose ends the closed bounds of a zone are.
pub(crate) fn closed_window(closed: &Matrix, pair: NodePair, place: usize) -> CutterWindow
    requires { HasPair closed.now pair }
    ensures window { IsWindowOfBounds closed.now.cells pair result }
    ensures place { result.place ≡ place }
{
    let (left, right) = (usize::from(pair.left), usize::from(pair.right));
    CutterWindow {
        least: negated(bound_of(closed, right, left)),
        most: bound_of(closed, left, right),
        place,
    }
}

// The number with the other sign, where there is one.
fn negated(bound: Option<i64>) -> Option<i64>
    requires { AtMost (2 ^ 62) bound }
    ensures { result ≡ negation bound }
{
    let bound = bound?;
    Some(-bound)
}
