// Stores in as few bytes as their zones need.
ghost use Rattle.std.specs.Prelude.{◌≡◌, ◌^◌, IfOk, length, option_map};
ghost use Rattle.lrp_store.specs.Least.{HasRoom, IsFoundSpot};
ghost use Rattle.lrp_store.specs.Stores.{HasReach, StoreView};
ghost use Rattle.lrp_tables.specs.Pieces.{ArePieces};
ghost use Rattle.lrp_packed.specs.Leading.{IsFirstSpot, spot_in};
ghost use Rattle.lrp_packed.specs.Packed.{AllFit, HasSame};

use crate::order::is_not_later;
use crate::zones::PackedZone;
use lrp_holdings::Ranked;
use lrp_model::{Cell, Memory, Shape, Spot};
use lrp_store::Store;
use lrp_tables::{Piece, Pieces};
use lrp_zone::BoundTable;
use smallvec::SmallVec;
use std::alloc::Global;
use std::marker::Model;

/// The tuples of a store in as few bytes as its zones need, and the first of them, seen as a store without a spare slot.
///
/// One zone, as most have, stands in the value itself.
pub struct PackedStore {
    shape: Shape,
    period: u64,
    zones: SmallVec<PackedZone, 1>,
    first: Option<PackedZone>,
}

// A derived drop would be proved anew, type by type, in each crate that lets one go.
impl Drop for PackedStore {
    fn drop(self) {
        let PackedStore {
            shape: _shape,
            period: _period,
            zones: _zones,
            first: _first,
        } = self;
    }
}

impl Model for PackedStore {
    ghost use Rattle.lrp_store.specs.Codes.{store_code};
    ghost use Rattle.lrp_store.specs.Stores.{StoreView};
    ghost use Rattle.lrp_packed.specs.Packed.{ArePackedWith, store_of};

    ghost Value = { StoreView };

    ghost coded = { store_code };

    ghost view = { λ s. store_of s.shape s.period s.zones.items };

    ghost invariant = { λ s. ArePackedWith s.shape s.period s.zones.items s.first };
}

impl PackedStore {
    /// The tuples of a store.
    pub fn of(alloc: Global, store: &Store) -> Result<PackedStore, Memory>
        requires { HasRoom store.now }
        ensures { IfOk result (HasSame store.now) }
    {
        let shape = store.shape();
        let mut zones = SmallVec::with_capacity(alloc, store.zones())?;
        for piece in Pieces::of(store) {
            zones.push(PackedZone::of(alloc, &piece.cell, piece.zone.bounds())?)?;
        }
        let first = packed_spot(alloc, store.first())?;
        Ok(PackedStore {
            shape,
            period: store.period() as u64,
            zones,
            first,
        })
    }

    /// The first tuple, if there is one: by the ranks of its times, and then by the numbers of its texts.
    pub fn first(&self) -> Option<Spot>
        ensures { IsFirstSpot self.now result }
    {
        match &self.first {
            Some(packed) => Some(spot_of(packed)),
            None => None,
        }
    }

    /// The zones, each with its cell.
    pub fn pieces(&self) -> PackedPieces<'_>
        ensures all { ArePieces self.now result }
        ensures fit { AllFit self.now }
        ensures reach { HasReach self.now (2 ^ 62) }
    {
        PackedPieces {
            shape: self.shape,
            period: self.period,
            left: self.zones.as_slice(),
        }
    }
}

impl Ranked for PackedStore {
    ghost use Rattle.lrp_packed.specs.Leading.{leads_store};
    ghost use Rattle.lrp_packed.specs.Orders.{store_itself, store_onward};

    ghost leads = { leads_store };

    ghost itself = { store_itself };

    ghost onward = { store_onward };

    fn leads(&self, other: &PackedStore) -> bool {
        is_not_later(self.first(), other.first())
    }
}

// A spot in as few bytes as it needs: its times stand where residues do.
fn packed_spot(alloc: Global, spot: Option<Spot>) -> Result<Option<PackedZone>, Memory>
    requires { (s : StoreView) × IsFoundSpot s spot }
    ensures { IfOk result (λ made. option_map spot_in made ≡ spot) }
{
    match spot {
        Some(spot) => {
            let packed = packed_times(alloc, &spot)?;
            Ok(Some(packed))
        }
        None => Ok(None),
    }
}

fn packed_times(alloc: Global, spot: &Spot) -> Result<PackedZone, Memory>
    requires times { length spot.now.times ≡ 8 }
    requires texts { length spot.now.texts ≡ 8 }
    ensures { IfOk result (λ made. spot_in made ≡ spot.now) }
{
    let texts = spot.texts;
    let residues = spot.times;
    let cell = Cell { texts, residues };
    PackedZone::of(alloc, &cell, &BoundTable::free())
}

// The spot that is packed.
fn spot_of(packed: &PackedZone) -> Spot
    ensures { result ≡ spot_in packed.now }
{
    let cell = packed.cell();
    let times = cell.residues;
    let texts = cell.texts;
    Spot { times, texts }
}

/// The zones of a packed store, each with its cell, seen as the list of those that are left.
#[derive(Drop)]
pub struct PackedPieces<'a> {
    shape: Shape,
    period: u64,
    left: &'a [PackedZone],
}

impl<'a> Model for PackedPieces<'a> {
    ghost use Rattle.std.specs.Prelude.{List, map};
    ghost use Rattle.std.specs.List.{AllByRecursion};
    ghost use Rattle.lrp_tables.specs.declared.pieces.Piece.{Piece};
    ghost use Rattle.lrp_packed.specs.Packed.{CanBeUnpacked, unpacked};

    ghost Value = { List Piece };

    ghost view = { λ p. map (unpacked p.shape p.period) p.left.now };

    ghost invariant = { λ p. AllByRecursion (CanBeUnpacked p.shape p.period) p.left.now };
}

impl<'a> Iterator for PackedPieces<'a> {
    ghost use Rattle.std.specs.Iterator.{YieldsFirst, item_count};

    type Item = Piece;

    ghost next_gives = { YieldsFirst (λ left. left) };

    ghost remaining = { item_count (λ left. left) };

    fn next(&mut self) -> Option<Piece> {
        let (zone, rest) = self.left.split_first()?;
        self.left = rest;
        Some(zone.piece(self.shape, self.period))
    }
}
