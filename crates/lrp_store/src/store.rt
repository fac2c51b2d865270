// Zones by cell, each zone in a slot of one vector.
ghost use Rattle.std.specs.Prelude.{◌≡◌, ◌≢◌, ◌⊎◌, ◌+◌, ◌-◌, ◌<◌, ◌≤◌, ◌^◌, ◌≤ℤ◌, ◌↔◌, ℕ, ℤ, List, Option, pos, take, nat_abs, replicate, IsTrue, Ok, true, false, Some, None, [], ◌∷◌, ◌++◌, length, map, slice_get, IsSome, IsOk, IfOk, IfErr, OnOk, OnErr, OnSome, IfNone};
ghost use Rattle.std.specs.List.{remove};
ghost use Rattle.lrp_model.specs.declared.tuples.Cell.{Cell as CellValue};
ghost use Rattle.std.specs.FinMap as finite;
ghost use Rattle.lrp_slots.specs.Lists.{list_at, set_list, with_last};
ghost use Rattle.lrp_store.specs.Joined.{JoinsLast};
ghost use Rattle.lrp_store.specs.Stored.{count_of};
ghost use Rattle.std.specs.Prelude.{Contains};
ghost use Rattle.lrp_zone.specs.Zones.{IsZone};
ghost use Rattle.lrp_store.specs.Stores.{IsStore, IsCellOf, IsPadded, IsOneTooMany, BeginsWhole, ChangesTablesAlone, InStore, tables_at, zone_count, zone_of, zones_at};
ghost use Rattle.lrp_store.specs.Growing.{GrowsByAtMost, IsCellAdded, IsCellRefused, IsWhole, IsZoneAdded, IsZoneRefused, tuples_in};

use crate::stored::StoredBounds;
use lrp_model::{Cell, Copies, Memory, Shape, numbered};
use lrp_slots::{Cells, Remembered, Slots};
use lrp_zone::Zone;
use std::alloc::Global;
use std::marker::Model;
use thiserror::Error;

/// Why nothing was added: the cell would be one too many, or memory was refused.
#[derive(Clone, Copy, Debug, PartialEq, Eq, Error)]
pub enum StoreFault {
    #[error("more cells than the cap")]
    TooManyCells,
    #[error("memory")]
    Memory,
}

// The place of a zone that is added to a cell.
#[derive(Drop)]
enum PlaceInCell {
    // Its tuples are held.
    Held,
    // It is joined to the last zone, and both have these bounds.
    Joined(StoredBounds),
    // It is one more zone.
    Apart,
}

/// A set of tuples of times and texts: for each cell that is held the zones of its times.
///
/// Texts stand as numbers. A zone of at most eight stored bounds takes one slot and no further memory. Once a cell that is
/// held whole is put again, such cells are remembered, so that the next put of one looks up nothing.
pub struct Store {
    pub(crate) alloc: Global,
    pub(crate) shape: Shape,
    pub(crate) period: u64,
    pub(crate) slots: Slots<StoredBounds>,
    pub(crate) whole: Remembered,
}

// A derived drop would be proved anew, type by type, in each crate that lets a store go.
impl Drop for Store {
    fn drop(self) {
        let Store {
            alloc: _alloc,
            shape: _shape,
            period: _period,
            slots: _slots,
            whole: _whole,
        } = self;
    }
}

impl Model for Store {
    ghost use Rattle.lrp_store.specs.Stores.{StoreView};
    ghost use Rattle.lrp_store.specs.Remembered.{IsRemembering};
    ghost use Rattle.lrp_store.specs.Codes.{store_code};

    ghost Value = { StoreView };

    ghost coded = { store_code };

    ghost view = { λ s. record { shape = s.shape; period = s.period; tables = s.slots.lists; spare = s.slots.spare } };

    ghost invariant = { λ s. IsRemembering (record { shape = s.shape; period = s.period; tables = s.slots.lists; spare = s.slots.spare }) s.whole };
}

impl Store {
    /// No cell is held, and no slot is spare.
    pub fn new(alloc: Global, shape: Shape, period: i64) -> Store
        requires times { shape.times ≤ 8 }
        requires texts { shape.texts ≤ 8 }
        requires period_low { pos 1 ≤ℤ period }
        requires period_high { period ≤ℤ pos (2 ^ 62) }
        ensures { result ≡ record {
          shape = shape;
          period = nat_abs period;
          tables = finite.empty;
          spare = 0;
        } }
    {
        Store {
            alloc,
            shape,
            period: period as u64,
            slots: Slots::new(alloc),
            whole: Remembered::new(alloc),
        }
    }

    /// How many times and texts a tuple has. A caller learns here what each store keeps.
    pub fn shape(&self) -> Shape
        ensures value { result ≡ self.now.shape }
        ensures valid { IsStore self.now }
    {
        self.shape
    }

    /// Where it takes memory from.
    pub fn alloc(&self) -> Global {
        self.alloc
    }

    /// The period that all zones have.
    pub fn period(&self) -> i64
        ensures { result ≡ pos self.now.period }
    {
        self.period as i64
    }

    /// The number of cells that are held.
    pub fn len(&self) -> u32
        ensures { result ≡ finite.len self.now.tables }
    {
        self.slots.len() as u32
    }

    /// Whether no tuple is held.
    pub fn is_empty(&self) -> bool
        ensures { IsTrue result ↔ ((times : List ℤ) (texts : List ℕ)
            → InStore self.now times texts → ⊥) }
    {
        self.slots.len() == 0
    }

    /// The number of all zones.
    pub fn zones(&self) -> usize
        ensures { result ≡ zone_count self.now }
    {
        self.slots.values()
    }

    /// How many more zones of at most eight stored bounds the held cells can take in without memory: what `reserve`
    /// made, less what was added after it.
    pub fn spare(&self) -> usize
        ensures { result ≡ self.now.spare }
    {
        self.slots.spare()
    }

    /// Makes this number of slots spare, or more. For callers that add zones to held cells where no memory may be refused.
    pub fn reserve(&mut self, slots: usize) -> Result<(), Memory>
        ensures room { OnOk result (slots ≤ self.new.spare) }
        ensures same { self.new ≡ record self.old { spare = self.new.spare } }
        ensures kept { self.old.spare ≤ self.new.spare }
        ensures succeeds { slots ≤ self.old.spare → IsOk result }
    {
        self.slots.reserve(slots)
    }

    /// Brings the cells into the least memory, for a store that is mostly read from then on.
    pub fn compact(&mut self) -> Result<(), Memory>
        ensures { self.new ≡ self.old }
    {
        self.slots.compact()
    }

    /// Appends a zone to a cell's list.
    ///
    /// The zone has the store's period, the cell's residues and one column for each time.
    pub fn add(&mut self, cell: &Cell, zone: &Zone, cap: u32) -> Result<(), StoreFault>
        requires period { zone.now.period ≡ self.old.period }
        requires residues { zone.now.residues ≡ take self.old.shape.times cell.now.residues }
        requires texts { IsPadded 0 self.old.shape.texts cell.now.texts }
        requires times { IsPadded (pos 0) self.old.shape.times cell.now.residues }
        ensures ok { OnOk result (self.new.tables
            ≡ finite.insert self.old.tables cell.now
            (tables_at self.old cell.now ++ zone.now.bounds ∷ [])) }
        ensures err { OnErr result (self.new.tables ≡ self.old.tables) }
        ensures rest { ChangesTablesAlone self.old self.new }
        ensures too_many { (result ≡ Err StoreFault.TooManyCells)
            ↔ IsOneTooMany self.old cell.now cap }

        // A caller learns here that it is still a store.
        ensures valid { IsStore self.new }

        // A spare slot serves each held cell.
        ensures succeeds { 0 < self.old.spare → IsSome (finite.get self.old.tables cell.now)
            → count_of zone.now.bounds ≤ 8 → IsOk result }
        ensures taken { 0 < self.old.spare → IsSome (finite.get self.old.tables cell.now)
            → count_of zone.now.bounds ≤ 8 → self.new.spare + 1 ≡ self.old.spare }
        ensures lowered { self.old.spare ≤ self.new.spare + 1 }
        ensures kept { OnErr result (self.old.spare ≤ self.new.spare) }
    {
        if self.is_one_too_many(cell, cap) {
            return Err(StoreFault::TooManyCells);
        }
        self.put(cell, zone)?;
        Ok(())
    }

    /// Appends a zone to a cell's list, for callers whose cells no cap counts. Memory is refused where a store has as many
    /// cells as 32 bits number.
    ///
    /// The zone has the store's period, the cell's residues and one column for each time.
    pub fn put(&mut self, cell: &Cell, zone: &Zone) -> Result<(), Memory>
        requires period { zone.now.period ≡ self.old.period }
        requires residues { zone.now.residues ≡ take self.old.shape.times cell.now.residues }
        requires texts { IsPadded 0 self.old.shape.texts cell.now.texts }
        requires times { IsPadded (pos 0) self.old.shape.times cell.now.residues }
        ensures ok { OnOk result (self.new.tables
            ≡ finite.insert self.old.tables cell.now
            (tables_at self.old cell.now ++ zone.now.bounds ∷ [])) }
        ensures err { OnErr result (self.new.tables ≡ self.old.tables) }
        ensures rest { ChangesTablesAlone self.old self.new }
        ensures room { OnOk result (IsOneTooMany self.old cell.now (2 ^ 32 - 1) → ⊥) }

        // A caller learns here that it is still a store.
        ensures valid { IsStore self.new }

        // A spare slot serves each held cell.
        ensures succeeds { 0 < self.old.spare → IsSome (finite.get self.old.tables cell.now)
            → count_of zone.now.bounds ≤ 8 → IsOk result }
        ensures taken { 0 < self.old.spare → IsSome (finite.get self.old.tables cell.now)
            → count_of zone.now.bounds ≤ 8 → self.new.spare + 1 ≡ self.old.spare }
        ensures lowered { self.old.spare ≤ self.new.spare + 1 }
        ensures kept { OnErr result (self.old.spare ≤ self.new.spare) }
    {
        if self.is_one_too_many(cell, u32::MAX) {
            return Err(beyond(self.len()));
        }
        let bounds = StoredBounds::of(self.alloc, zone)?;
        self.slots.append(cell, bounds)?;
        Ok(())
    }

    /// Appends a zone to a cell's list, unless the first or the last zone of the list shows that its tuples are held.
    ///
    /// It shows so where no bound of it is less than the zone's bound at its place, as in an equal zone and in one without
    /// bounds. The store is left as it is then. A zone of one column that goes on where the last one of the list ends, with no
    /// number of the cell between them, is joined to that one, so intervals that come in order take as few zones as they can.
    pub fn add_new(&mut self, cell: &Cell, zone: &Zone, cap: u32) -> Result<(), StoreFault>
        requires period { zone.now.period ≡ self.old.period }
        requires residues { zone.now.residues ≡ take self.old.shape.times cell.now.residues }
        requires texts { IsPadded 0 self.old.shape.texts cell.now.texts }
        requires times { IsPadded (pos 0) self.old.shape.times cell.now.residues }
        ensures ok { OnOk result (IsZoneAdded zone.now cell.now cap self.old self.new) }
        ensures err { OnErr result (self.new.tables ≡ self.old.tables) }
        ensures rest { ChangesTablesAlone self.old self.new }
        ensures too_many { result ≡ Err StoreFault.TooManyCells
            → IsZoneRefused zone.now cell.now cap self.old self.new }
        ensures exact { (result ≡ Err StoreFault.TooManyCells)
            ↔ IsOneTooMany self.old cell.now cap }
        ensures one { OnOk result (GrowsByAtMost 1 cell.now self.old self.new) }
        ensures lowered { self.old.spare ≤ self.new.spare + 1 }
    {
        if self.takes_in(cell, zone) {
            return Ok(());
        }
        self.add(cell, zone, cap)
    }

    /// As `add_new`, for callers whose cells no cap counts. Memory is refused where a store has as many cells as 32 bits number.
    pub fn put_new(&mut self, cell: &Cell, zone: &Zone) -> Result<(), Memory>
        requires period { zone.now.period ≡ self.old.period }
        requires residues { zone.now.residues ≡ take self.old.shape.times cell.now.residues }
        requires texts { IsPadded 0 self.old.shape.texts cell.now.texts }
        requires times { IsPadded (pos 0) self.old.shape.times cell.now.residues }
        ensures ok { OnOk result (IsZoneAdded zone.now cell.now (2 ^ 32 - 1) self.old self.new) }
        ensures err { OnErr result (self.new.tables ≡ self.old.tables) }
        ensures rest { ChangesTablesAlone self.old self.new }
        ensures one { OnOk result (GrowsByAtMost 1 cell.now self.old self.new) }
        ensures lowered { self.old.spare ≤ self.new.spare + 1 }
    {
        if self.takes_in(cell, zone) {
            return Ok(());
        }
        self.put(cell, zone)
    }

    // Takes in a zone whose tuples are held, or that is joined to the last one of its cell, and tells whether it was so.
    fn takes_in(&mut self, cell: &Cell, zone: &Zone) -> bool
        requires period { zone.now.period ≡ self.old.period }
        requires residues { zone.now.residues ≡ take self.old.shape.times cell.now.residues }
        ensures taken { IsTrue result → (cap : ℕ)
            → IsZoneAdded zone.now cell.now cap self.old self.new }
        ensures held { IsTrue result → IsSome (finite.get self.old.tables cell.now) }
        ensures left { result ≡ false → self.new ≡ self.old }
        ensures rest { ChangesTablesAlone self.old self.new }
        ensures spare { self.new.spare ≡ self.old.spare }
        ensures one { IsTrue result → GrowsByAtMost 1 cell.now self.old self.new }
        ensures store { IsStore self.old }
        ensures zone { IsZone zone.now }
    {
        match self.place_of(cell, zone) {
            PlaceInCell::Held => true,
            PlaceInCell::Joined(both) => {
                self.replace_last(cell, both);
                true
            }
            PlaceInCell::Apart => false,
        }
    }

    // Puts bounds in the place of those of a cell's last zone. The cell is held, and its list begins with a bound.
    fn replace_last(&mut self, cell: &Cell, bounds: StoredBounds)
        requires held { IsSome (finite.get self.old.tables cell.now) }
        requires first { BeginsWhole self.old cell.now → ⊥ }
        requires zone { IsZone (zone_of self.old cell.now bounds) }
        ensures tables { self.new.tables ≡ finite.insert self.old.tables cell.now
            (with_last (tables_at self.old cell.now) bounds) }
        ensures rest { self.new ≡ record self.old { tables = self.new.tables } }
        ensures valid { IsStore self.new }
    {
        self.slots.replace_last(cell, bounds);
    }

    /// Appends the zone without bounds to a cell's list, unless the list begins with it.
    pub fn add_whole(&mut self, cell: &Cell, cap: u32) -> Result<(), StoreFault>
        requires proper { IsCellOf self.old.shape self.old.period cell.now }
        ensures ok { OnOk result (IsCellAdded cell.now cap self.old self.new) }
        ensures err { OnErr result (self.new.tables ≡ self.old.tables) }
        ensures rest { ChangesTablesAlone self.old self.new }
        ensures too_many { result ≡ Err StoreFault.TooManyCells
            → IsCellRefused cell.now cap self.old self.new }
        ensures exact { (result ≡ Err StoreFault.TooManyCells)
            ↔ IsOneTooMany self.old cell.now cap }
        ensures one { OnOk result (GrowsByAtMost 1 cell.now self.old self.new) }
    {
        if self.is_remembered(cell) {
            return Ok(());
        }
        if self.is_one_too_many(cell, cap) {
            return Err(StoreFault::TooManyCells);
        }
        if self.begin_whole(cell, cap)? {
            return Ok(());
        }
        self.add_free(cell, cap)?;
        Ok(())
    }

    // Puts in a cell that is not held yet with the zone without bounds, and tells whether it was so.
    fn begin_whole(&mut self, cell: &Cell, cap: u32) -> Result<bool, Memory>
        requires proper { IsCellOf self.old.shape self.old.period cell.now }
        requires room { finite.get self.old.tables cell.now ≡ None
            → finite.len self.old.tables < cap }
        ensures begun { result ≡ Ok true → IsCellAdded cell.now cap self.old self.new }
        ensures held { result ≡ Ok false → IsSome (finite.get self.old.tables cell.now) }
        ensures left { result ≢ Ok true → self.new.tables ≡ self.old.tables }
        ensures rest { ChangesTablesAlone self.old self.new }
        ensures one { OnOk result (GrowsByAtMost 1 cell.now self.old self.new) }
    {
        if self.slots.begin(cell, StoredBounds::free(self.alloc))? {
            follow(&mut self.whole, cell, self.slots.len());
            return Ok(true);
        }
        Ok(false)
    }

    // Appends the zone without bounds to the list of a cell that is held, unless the list begins with it. Then the cell
    // is remembered.
    fn add_free(&mut self, cell: &Cell, cap: u32) -> Result<(), Memory>
        requires proper { IsCellOf self.old.shape self.old.period cell.now }
        requires held { IsSome (finite.get self.old.tables cell.now) }
        ensures ok { OnOk result (IsCellAdded cell.now cap self.old self.new) }
        ensures err { OnErr result (self.new.tables ≡ self.old.tables) }
        ensures rest { ChangesTablesAlone self.old self.new }
        ensures one { OnOk result (GrowsByAtMost 1 cell.now self.old self.new) }
    {
        if self.is_whole(cell) {
            self.whole.put(cell, self.slots.len());
            return Ok(());
        }
        self.slots.append(cell, StoredBounds::free(self.alloc))?;
        Ok(())
    }

    /// Whether a cell is remembered as one that is held whole. It is not searched for.
    pub fn is_remembered(&self, cell: &Cell) -> bool
        ensures first { IsTrue result → BeginsWhole self.now cell.now }
        ensures held { IsTrue result → Contains (tables_at self.now cell.now) (replicate 81 None) }
        ensures valid { IsStore self.now }
    {
        self.whole.has(cell)
    }

    /// Whether a cell's first zone has no bound.
    pub fn is_whole(&self, cell: &Cell) -> bool
        ensures first { IsTrue result ↔ BeginsWhole self.now cell.now }
        ensures held { IsTrue result → Contains (tables_at self.now cell.now) (replicate 81 None) }
    {
        self.is_remembered(cell) || self.begins_whole(cell)
    }

    // Whether the zone that a cell's list begins with has no bound.
    fn begins_whole(&self, cell: &Cell) -> bool
        ensures { IsTrue result ↔ BeginsWhole self.now cell.now }
    {
        match self.slots.get(cell, 0) {
            Some(bounds) => bounds.is_free(),
            None => false,
        }
    }

    // Whether a cell is not held, and there are cap cells or more.
    fn is_one_too_many(&self, cell: &Cell, cap: u32) -> bool
        ensures many { IsTrue result ↔ IsOneTooMany self.now cell.now cap }
        ensures valid { IsStore self.now }
    {
        self.slots.len() >= cap as usize && self.slots.count(cell) == 0
    }

    // The place of a zone beside the first and the last zone of its cell, which is looked up once.
    fn place_of(&self, cell: &Cell, zone: &Zone) -> PlaceInCell
        requires period { zone.now.period ≡ self.now.period }
        requires residues { zone.now.residues ≡ take self.now.shape.times cell.now.residues }
        ensures whole { result ≡ PlaceInCell.Held
            → IsWhole (tuples_in self.now cell.now zone.now) self.now }
        ensures held { result ≢ PlaceInCell.Apart → IsSome (finite.get self.now.tables cell.now) }
        ensures joined { (both : List (Option ℤ)) → result ≡ PlaceInCell.Joined both
            → JoinsLast self.now cell.now zone.now both }
        ensures store { IsStore self.now }
        ensures zone { IsZone zone.now }
    {
        let is_line = zone.columns() == 1;
        let Some(ends) = self.slots.ends(cell) else {
            return PlaceInCell::Apart;
        };
        if ends.first.are_looser(zone) {
            return PlaceInCell::Held;
        }
        if ends.last.are_looser(zone) {
            return PlaceInCell::Held;
        }
        if !is_line {
            return PlaceInCell::Apart;
        }
        match ends.last.joined(self.alloc, zone) {
            Some(both) => PlaceInCell::Joined(both),
            None => PlaceInCell::Apart,
        }
    }

    /// How many zones a cell has, 0 where it is not held.
    pub fn count(&self, cell: &Cell) -> usize
        ensures count { result ≡ length (tables_at self.now cell.now) }
        ensures held { (0 < result) ↔ IsSome (finite.get self.now.tables cell.now) }
    {
        self.slots.count(cell)
    }

    /// The zone with the number i of a cell, counted from 0.
    pub fn zone(&self, cell: &Cell, i: usize) -> Option<Zone>
        ensures { result ≡ slice_get (zones_at self.now cell.now) i }
    {
        let bounds = self.slots.get(cell, i)?;
        let times = usize::from(self.shape.times);
        Some(bounds.zone(self.period, &cell.residues[..times]))
    }

    /// Takes the zone with the number i out of a cell's list. The cell goes with its last zone.
    pub fn remove(&mut self, cell: &Cell, i: usize) -> Option<Zone>
        ensures value { result ≡ slice_get (zones_at self.old cell.now) i }
        ensures tables { OnSome result (self.new.tables
            ≡ set_list self.old.tables cell.now (remove (tables_at self.old cell.now) i)) }
        ensures rest { ChangesTablesAlone self.old self.new }
        ensures spare { OnSome result (self.new.spare ≡ self.old.spare + 1) }
        ensures none { IfNone result (self.new ≡ self.old) }
    {
        let bounds = self.slots.remove(cell, i)?;
        self.whole = Remembered::new(self.alloc);
        let times = usize::from(self.shape.times);
        Some(bounds.zone(self.period, &cell.residues[..times]))
    }

    /// The cells that are held, ascending by texts and then by residues.
    pub fn cells(&self) -> Cells<'_>
        ensures { result ≡ finite.keys self.now.tables }
    {
        self.slots.cells()
    }

    /// The same zones, in as many slots as there are zones.
    pub fn copy(&self, alloc: Global) -> Result<Store, Memory>
        ensures value { IfOk result (λ made. made ≡ record self.now { spare = made.spare }) }
        ensures valid { IsStore self.now }
    {
        Ok(Store {
            alloc,
            shape: self.shape,
            period: self.period,
            slots: self.slots.copy(alloc)?,
            whole: Remembered::new(alloc),
        })
    }
}

// The refusal of one cell more than there are numbers of 32 bits.
fn beyond(held: u32) -> Memory
    requires { 2 ^ 32 - 1 ≤ held }
{
    match numbered(held as usize + 1) {
        Ok(_) => unreachable!(),
        Err(memory) => memory,
    }
}

// Remembers a cell among those that are held, if some are remembered.
fn follow(whole: &mut Remembered, cell: &Cell, held: usize)
    ensures { (other : CellValue) → Contains whole.new other → (other ≡ cell.now)
        ⊎ Contains whole.old other }
{
    if !whole.is_empty() {
        whole.put(cell, held);
    }
}

impl From<Memory> for StoreFault {
    ghost use Rattle.std.specs.Prelude.{◌≡◌};
    ghost use Rattle.lrp_store.specs.declared.store.StoreFault.TheVariants.{Memory as MemoryFault};

    ghost from_gives = { λ _ fault. fault ≡ MemoryFault };

    fn from(_: Memory) -> StoreFault {
        StoreFault::Memory
    }
}
