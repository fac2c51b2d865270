// The zones of a store, read link after link.
ghost use Rattle.std.specs.Iterator.{YieldsFirst, item_count};

use crate::stored::StoredBounds;
use lrp_model::Cell;
use lrp_slots::{ChainValues, Lists};
use lrp_zone::Zone;
use std::marker::Model;

/// The zones of one cell in order, seen as the list of those that are left. Each step follows one link.
#[derive(Drop)]
pub struct Zones<'a> {
    pub(crate) period: u64,
    pub(crate) times: usize,
    pub(crate) residues: [i64; 8],
    pub(crate) left: ChainValues<'a, StoredBounds>,
}

impl<'a> Model for Zones<'a> {
    ghost use Rattle.std.specs.Prelude.{List, take};
    ghost use Rattle.lrp_zone.specs.Zones.{ZoneView};
    ghost use Rattle.lrp_store.specs.Reading.{zones_with, AreZonesWith};

    ghost Value = { List ZoneView };

    ghost view = { λ a. zones_with a.period (take a.times a.residues) a.left };

    ghost invariant = { λ a. AreZonesWith a.period a.times a.residues a.left };
}

impl<'a> Iterator for Zones<'a> {
    type Item = Zone;

    ghost next_gives = { YieldsFirst (λ left. left) };

    ghost remaining = { item_count (λ left. left) };

    fn next(&mut self) -> Option<Zone> {
        let bounds = self.left.next()?;
        Some(bounds.zone(self.period, &self.residues[..self.times]))
    }
}

/// The cells of a store, ascending, each with its zones, seen as the list of those that are left. No cell is looked up.
#[derive(Drop)]
pub struct Entries<'a> {
    pub(crate) period: u64,
    pub(crate) times: usize,
    pub(crate) left: Lists<'a, StoredBounds>,
}

impl<'a> Model for Entries<'a> {
    ghost use Rattle.std.specs.Prelude.{List};
    ghost use Rattle.lrp_model.specs.declared.tuples.Cell.{Cell};
    ghost use Rattle.lrp_zone.specs.Zones.{ZoneView};
    ghost use Rattle.lrp_store.specs.Reading.{entries_with, AreEntriesWith};

    ghost Value = { List (Cell × List ZoneView) };

    ghost view = { λ a. entries_with a.period a.times a.left };

    ghost invariant = { λ a. AreEntriesWith a.period a.times a.left };
}

impl<'a> Iterator for Entries<'a> {
    type Item = (Cell, Zones<'a>);

    ghost next_gives = { YieldsFirst (λ left. left) };

    ghost remaining = { item_count (λ left. left) };

    fn next(&mut self) -> Option<(Cell, Zones<'a>)> {
        let (period, times) = (self.period, self.times);
        let (cell, left) = self.left.next()?;
        let residues = cell.residues;
        let zones = Zones {
            period,
            times,
            residues,
            left,
        };
        Some((cell, zones))
    }
}
