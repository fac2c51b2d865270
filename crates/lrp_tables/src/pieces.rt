// The zones of a store, one after another.
ghost use Rattle.std.specs.Prelude.{◌≡◌};

use lrp_model::Cell;
use lrp_store::{Entries, Store, Zones};
use lrp_zone::Zone;
use std::marker::Model;

/// A zone of a store, and the cell that it stands in.
#[derive(Clone, Copy)]
pub struct Piece {
    pub cell: Cell,
    pub zone: Zone,
}

/// The zones of a store in the order of their cells, seen as the list of those that are left. No cell is looked up.
#[derive(Drop)]
pub struct Pieces<'a> {
    entries: Entries<'a>,
    cell: Cell,
    zones: Zones<'a>,
}

impl<'a> Model for Pieces<'a> {
    ghost use Rattle.std.specs.Prelude.{List};
    ghost use Rattle.lrp_tables.specs.declared.pieces.Piece.{Piece};
    ghost use Rattle.lrp_tables.specs.Pieces.{pieces_from, HaveZones};

    ghost Value = { List Piece };

    ghost view = { λ a. pieces_from a.cell a.zones a.entries };

    ghost invariant = { λ a. HaveZones a.entries };
}

impl<'a> Pieces<'a> {
    ghost use Rattle.lrp_tables.specs.Pieces.{ArePieces};

    /// All of them.
    pub fn of(store: &'a Store) -> Self
        ensures { ArePieces store.now result }
    {
        let mut entries = store.entries();
        if let Some((cell, zones)) = entries.next() {
            return Pieces {
                entries,
                cell,
                zones,
            };
        }
        let cell = Cell {
            texts: [0; 8],
            residues: [0; 8],
        };
        Pieces {
            entries,
            cell,
            zones: store.zones_of(&cell),
        }
    }
}

impl<'a> Iterator for Pieces<'a> {
    ghost use Rattle.std.specs.Iterator.{YieldsFirst, item_count};

    type Item = Piece;

    ghost next_gives = { YieldsFirst (λ left. left) };

    ghost remaining = { item_count (λ left. left) };

    fn next(&mut self) -> Option<Piece> {
        let cell = self.cell;
        if let Some(zone) = self.zones.next() {
            return Some(Piece { cell, zone });
        }
        let (cell, zones) = self.entries.next()?;
        self.cell = cell;
        self.zones = zones;
        let zone = self.zones.next()?;
        Some(Piece { cell, zone })
    }
}
