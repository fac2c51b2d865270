// Cells that are remembered.
ghost use Rattle.std.specs.Prelude.{◌≡◌, ◌<◌, ◌⊎◌, ◌↔◌, All, Contains, IsTrue, IfOk, [], true, length};
ghost use Rattle.lrp_model.specs.declared.tuples.Cell.{Cell as CellValue};
ghost use Rattle.lrp_slots.specs.declared.narrow.Narrow.{Narrow as NarrowValue};
ghost use Rattle.lrp_slots.specs.Narrow.{wide};

use crate::key::Key;
use crate::narrow::Narrow;
use lrp_model::{Cell, Memory};
use std::alloc::Global;
use std::marker::Model;

// How many places there are at first.
const FIRST: usize = 64;

/// Cells at places that their numbers give, seen as the list of the places.
///
/// A cell takes over the place of another one, which is forgotten. Cells of more than two texts or three residues
/// are not remembered.
#[derive(Drop)]
pub struct Remembered {
    alloc: Global,
    places: Vec<Narrow>,
    cells: usize,
}

impl Model for Remembered {
    ghost use Rattle.std.specs.Prelude.{List, map};
    ghost use Rattle.lrp_model.specs.declared.tuples.Cell.{Cell};
    ghost use Rattle.lrp_slots.specs.Narrow.{wide};

    ghost Value = { List Cell };

    ghost view = { λ a. map wide a.places.items };
}

impl Remembered {
    /// No cell is remembered, and there are no places.
    pub fn new(alloc: Global) -> Remembered
        ensures { result ≡ [] }
    {
        Remembered {
            alloc,
            places: Vec::new(alloc),
            cells: 0,
        }
    }

    /// Whether no cell is remembered.
    pub fn is_empty(&self) -> bool
        ensures { IsTrue result ↔ (self.now ≡ []) }
    {
        self.places.is_empty()
    }

    /// Whether a cell is remembered.
    pub fn has(&self, cell: &Cell) -> bool
        ensures { result ≡ true → Contains self.now cell.now }
    {
        if self.places.is_empty() {
            return false;
        }
        let Some(key) = Narrow::of(cell) else {
            return false;
        };
        self.places[place_of(&key, self.places.len())] == key
    }

    /// Remembers a cell among those that are held, as far as there is memory.
    pub fn put(&mut self, cell: &Cell, held: usize)
        ensures { (other : CellValue) → Contains self.new other → (other ≡ cell.now)
            ⊎ Contains self.old other }
    {
        let Some(key) = Narrow::of(cell) else {
            return;
        };
        self.make_room(&key, held);
        self.put_key(&key);
    }

    // Makes more places where as many cells have been put as there are, and more are held.
    fn make_room(&mut self, key: &Narrow, held: usize)
        ensures { (other : CellValue) → Contains self.new other → (other ≡ wide key.now)
            ⊎ Contains self.old other }
    {
        let places = self.places.len();
        if self.cells >= places && places < held {
            let _ = self.grow(key, held);
        }
    }

    // Puts a key at its place.
    fn put_key(&mut self, key: &Narrow)
        ensures { (other : CellValue) → Contains self.new other → (other ≡ wide key.now)
            ⊎ Contains self.old other }
    {
        if self.places.is_empty() {
            return;
        }
        let place = place_of(key, self.places.len());
        self.places[place] = *key;
        self.cells = self.cells.saturating_add(1);
    }

    // Makes more places, up to five for four cells that are held. Those that no cell takes have the new one.
    fn grow(&mut self, key: &Narrow, held: usize) -> Result<(), Memory>
        ensures { (other : CellValue) → Contains self.new other → (other ≡ wide key.now)
            ⊎ Contains self.old other }
    {
        let most = held.saturating_add(held / 4);
        let size = self.places.len().saturating_mul(2).min(most).max(FIRST);
        let mut places = filled(self.alloc, key, size)?;
        for i in 0..self.places.len() {
            let old = self.places[i];
            let place = place_of(&old, places.len());
            places[place] = old;
        }
        self.places = places;
        Ok(())
    }
}

// So many places, which all have this key.
fn filled(alloc: Global, key: &Narrow, size: usize) -> Result<Vec<Narrow>, Memory>
    requires { 0 < size }
    ensures size { IfOk result (λ made. length made.items ≡ size) }
    ensures each { IfOk result (λ made. All (λ k. k ≡ key.now) made.items) }
{
    let mut places = Vec::with_capacity(alloc, size)?;
    for _place in 0..size {
        places.push(*key)?;
    }
    Ok(places)
}

// The place of a key. Keys that differ in the first residue have places side by side.
fn place_of(key: &Narrow, places: usize) -> usize
    requires { 0 < places }
    ensures { result < places }
{
    (key.mixed() % places as u64) as usize
}
