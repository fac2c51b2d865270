// The zones of a store one after another, in as few bytes as they need.
ghost use Rattle.std.specs.Prelude.{◌≡◌, ◌<◌, IfOk, length, slice_index_or};
ghost use Rattle.lrp_tables.specs.Pieces.{ArePieces};
ghost use Rattle.lrp_tables.specs.declared.pieces.Piece.{Piece as PieceValue};

use crate::zones::PackedZone;
use lrp_model::{Memory, Shape};
use lrp_store::Store;
use lrp_tables::{Piece, Pieces};
use std::alloc::Global;
use std::marker::Model;

/// The zones of a store, each with its cell, seen as the list of them. Each is unpacked where it is asked for.
pub struct PackedList {
    shape: Shape,
    period: u64,
    zones: Vec<PackedZone>,
}

// A derived drop would be proved anew, type by type, in each crate that lets one go.
impl Drop for PackedList {
    fn drop(self) {
        let PackedList {
            shape: _shape,
            period: _period,
            zones: _zones,
        } = self;
    }
}

impl Model for PackedList {
    ghost use Rattle.std.specs.Prelude.{List, map};
    ghost use Rattle.std.specs.List.{AllByRecursion};
    ghost use Rattle.lrp_tables.specs.declared.pieces.Piece.{Piece};
    ghost use Rattle.lrp_packed.specs.Packed.{CanBeUnpacked, unpacked};

    ghost Value = { List Piece };

    ghost view = { λ l. map (unpacked l.shape l.period) l.zones.items };

    ghost invariant = { λ l. AllByRecursion (CanBeUnpacked l.shape l.period) l.zones.items };
}

impl PackedList {
    /// The zones of a store.
    pub fn of(alloc: Global, store: &Store) -> Result<PackedList, Memory>
        ensures { IfOk result (ArePieces store.now) }
    {
        let shape = store.shape();
        let mut zones = Vec::with_capacity(alloc, store.zones())?;
        for piece in Pieces::of(store) {
            zones.push(PackedZone::of(alloc, &piece.cell, piece.zone.bounds())?)?;
        }
        Ok(PackedList {
            shape,
            period: store.period() as u64,
            zones,
        })
    }

    /// How many zones they are.
    pub fn len(&self) -> usize
        ensures { result ≡ length self.now }
    {
        let zones = self.zones.as_slice();
        zones.len()
    }

    /// The zone with a number, counted from 0.
    pub fn piece(&self, number: usize) -> Piece
        requires { number < length self.now }
        ensures { (other : PieceValue) → slice_index_or self.now number other ≡ result }
    {
        let zone = &self.zones[number];
        zone.piece(self.shape, self.period)
    }
}
