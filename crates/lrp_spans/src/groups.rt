// The spans of a store with one time column, by the texts of its cells.
ghost use Rattle.std.specs.Prelude.{◌≡◌, Contains, IfOk, OnOk};
ghost use Rattle.lrp_slots.specs.Lists.{list_at};
ghost use Rattle.lrp_zone.specs.Zones.{IsZone, ZoneView, columns_of};
ghost use Rattle.lrp_store.specs.Stores.{IsStore};
ghost use Rattle.lrp_spans.specs.Groups.{AppendsSpans, AreGroups, group_cell};
ghost use Rattle.lrp_spans.specs.Spans.{AreMergedSpans};

use crate::merging::merged;
use crate::shifting::span_of;
use crate::spans::Span;
use lrp_model::{Cell, Memory};
use lrp_slots::Slots;
use lrp_store::{Store, Zones};
use std::alloc::Global;

/// The spans of the zones, for the texts of each cell. They stand at the cell of these texts and the residue 0.
pub fn groups_of(alloc: Global, store: &Store) -> Result<Slots<Span>, Memory>
    requires { store.now.shape.times ≡ 1 }
    ensures groups { IfOk result (λ made. AreGroups store.now made.lists) }
    ensures valid { IfOk result (λ _. IsStore store.now) }
{
    let mut groups = Slots::new(alloc);
    for (cell, zones) in store.entries() {
        push_spans(&group_of(&cell), zones, &mut groups)?;
    }
    Ok(groups)
}

// Appends the spans of zones with one column to those of a group.
fn push_spans(group: &Cell, zones: Zones<'_>, groups: &mut Slots<Span>) -> Result<(), Memory>
    requires { (z : ZoneView) → Contains zones z → IsZone z × (columns_of z ≡ 1) }
    ensures { OnOk result (AppendsSpans group.now zones.entry groups.old.lists groups.new.lists) }
{
    for zone in zones {
        groups.append(group, span_of(&zone))?;
    }
    Ok(())
}

// The cell at which the spans of the texts stand.
fn group_of(cell: &Cell) -> Cell
    ensures { result ≡ group_cell cell.now }
{
    Cell {
        texts: cell.texts,
        residues: [0; 8],
    }
}

/// The spans of a group, in order and merged.
pub fn spans_at(alloc: Global, groups: &Slots<Span>, group: &Cell) -> Result<Vec<Span>, Memory>
    ensures { IfOk result (λ made. AreMergedSpans (list_at groups.now.lists group.now) made.items) }
{
    let mut spans = Vec::with_capacity(alloc, groups.count(group))?;
    for span in groups.iter(group) {
        spans.push(*span)?;
    }
    merged(alloc, spans)
}
