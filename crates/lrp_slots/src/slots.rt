// Lists of values by cell in slots of one vector.
ghost use Rattle.std.specs.Prelude.{◌≡◌, ◌≢◌, Ok, true, false, ◌+◌, ◌-◌, ◌<◌, ◌≤◌, ◌↔◌, All, Some, None, [], ◌∷◌, ◌++◌, length, sum_by, slice_get, IsSome, IsOk, IfOk, OnOk, OnErr, OnSome, IfSome, IfNone, option_copied};
ghost use Rattle.std.specs.List.{remove};
ghost use Rattle.std.specs.FinMap as finite;
ghost use Rattle.lrp_slots.specs.Lists.{list_at, set_list, with_last, append_all};
ghost use Rattle.lrp_model.specs.declared.tuples.Cell.{Cell as CellValue};

use crate::chains::{Chain, Link, keep_rest, key_at, push, set_value, take_out, vacant_key};
use crate::held::Held;
use crate::iterators::{Cells, ChainValues, Lists};
use lrp_model::{Cell, Copies, Memory};
use slab::Slab;
use std::alloc::Global;
use std::marker::Model;

/// Lists of values by cell, each value in a slot of one vector.
///
/// A slot has the key of the slot that follows in its list, or of the next slot that is free, so one
/// that a cell gives up serves every other (Donald Knuth, "The Art of Computer Programming", volume 1,
/// section 2.2.3, "Linked Allocation", 1968). A list whose slots follow one another in the vector, as those of lists that are
/// filled one after another, is read at any place in one step; in another one place i costs i steps.
#[derive(Drop)]
pub struct Slots<V> {
    alloc: Global,
    links: Slab<Link<V>>,
    chains: Held,
}

/// The first and the last value of a list, which are one where it has one value.
#[derive(Drop)]
pub struct Ends<'a, V> {
    pub first: &'a V,
    pub last: &'a V,
}

impl<V> Model for Slots<V> {
    ghost use Rattle.std.specs.Prelude.{◌-◌};
    ghost use Rattle.slab.specs.Slab.{get, slab_len};
    ghost use Rattle.lrp_slots.specs.Lists.{SlotsValue, slots_code};

    ghost Value = { SlotsValue V };

    ghost coded = { slots_code V.code };

    ghost use Rattle.lrp_slots.specs.Links.{lists_of, AreLinked};

    ghost view = { λ s. record {
      lists = lists_of (get s.links) s.chains;
      spare = s.links.capacity - slab_len s.links;
    } };

    ghost invariant = { λ s. AreLinked s.links s.chains };
}

impl<V: Drop> Slots<V> {
    /// No cell is held, and no slot is spare.
    pub fn new(alloc: Global) -> Self
        ensures lists { result.lists ≡ finite.empty }
        ensures spare { result.spare ≡ 0 }
    {
        Slots {
            alloc,
            links: Slab::new(alloc),
            chains: Held::new(alloc),
        }
    }

    /// How many cells are held.
    pub fn len(&self) -> usize
        ensures { result ≡ finite.len self.now.lists }
    {
        self.chains.len()
    }

    /// How many values all cells have together.
    pub fn values(&self) -> usize
        ensures { result ≡ sum_by (λ list. length list) (finite.values self.now.lists) }
    {
        self.links.len()
    }

    /// How many more values held cells can take in without memory, for those who have reserved slots.
    pub fn spare(&self) -> usize
        ensures { result ≡ self.now.spare }
    {
        self.links.capacity() - self.links.len()
    }

    /// Makes this number of slots spare, or more, for callers that append to held cells where no memory may be refused.
    pub fn reserve(&mut self, slots: usize) -> Result<(), Memory>
        ensures room { OnOk result (slots ≤ self.new.spare) }
        ensures succeeds { slots ≤ self.old.spare → IsOk result }
        ensures lists { self.new.lists ≡ self.old.lists }
        ensures kept { self.old.spare ≤ self.new.spare }
    {
        self.links.reserve(slots)?;
        Ok(())
    }

    /// Brings the cells into the least memory, for lists that are mostly read from then on.
    pub fn compact(&mut self) -> Result<(), Memory>
        ensures { self.new ≡ self.old }
    {
        self.chains.compact()?;
        Ok(())
    }

    /// Appends a value to a cell's list. The cell is looked up once, and a value that is refused is dropped.
    pub fn append(&mut self, cell: &Cell, value: V) -> Result<(), Memory>
        ensures ok { OnOk result (self.new.lists
            ≡ finite.insert self.old.lists cell.now
            (list_at self.old.lists cell.now ++ value ∷ [])) }
        ensures err { OnErr result (self.new.lists ≡ self.old.lists) }

        // A spare slot serves each held cell.
        ensures succeeds { 0 < self.old.spare → IsSome (finite.get self.old.lists cell.now)
            → IsOk result }
        ensures taken { 0 < self.old.spare → IsSome (finite.get self.old.lists cell.now)
            → self.new.spare + 1 ≡ self.old.spare }
        ensures lowered { self.old.spare ≤ self.new.spare + 1 }
        ensures kept { OnErr result (self.old.spare ≤ self.new.spare) }
    {
        let key = vacant_key(&mut self.links)?;
        let held = self.chains.lengthen(cell, key)?;
        push(&mut self.links, held, value);
        Ok(())
    }

    /// Begins the list of a cell that is not held yet with a value, and tells whether it was so. The cell is looked up once.
    pub fn begin(&mut self, cell: &Cell, value: V) -> Result<bool, Memory>
        ensures absent { result ≡ Ok true → finite.get self.old.lists cell.now ≡ None }
        ensures put { result ≡ Ok true → self.new.lists
            ≡ finite.insert self.old.lists cell.now (value ∷ []) }
        ensures held { result ≡ Ok false → IsSome (finite.get self.old.lists cell.now) }
        ensures left { result ≢ Ok true → self.new.lists ≡ self.old.lists }
    {
        let key = vacant_key(&mut self.links)?;
        if !self.chains.begin(cell, key)? {
            return Ok(false);
        }
        push(&mut self.links, None, value);
        Ok(true)
    }

    /// How many values a cell has, 0 where it is not held.
    pub fn count(&self, cell: &Cell) -> usize
        ensures count { result ≡ length (list_at self.now.lists cell.now) }
        ensures held { (0 < result) ↔ IsSome (finite.get self.now.lists cell.now) }
    {
        match self.chains.get(cell) {
            Some(chain) => chain.count,
            None => 0,
        }
    }

    /// The value at a place of a cell's list.
    pub fn get(&self, cell: &Cell, i: usize) -> Option<&V>
        ensures { option_copied result ≡ slice_get (list_at self.now.lists cell.now) i }
    {
        let chain = *self.chains.get(cell)?;
        if i >= chain.count {
            return None;
        }
        let key = key_at(&self.links, chain, i);
        Some(&self.links[key].value)
    }

    /// The first and the last value of a cell, which is looked up once.
    pub fn ends(&self, cell: &Cell) -> Option<Ends<'_, V>>
        ensures none { IfNone result (finite.get self.now.lists cell.now ≡ None) }
        ensures first { IfSome result (λ ends. slice_get (list_at self.now.lists cell.now) 0
            ≡ Some ends.first.now) }
        ensures last { IfSome result (λ ends. slice_get (list_at self.now.lists cell.now)
            (length (list_at self.now.lists cell.now) - 1) ≡ Some ends.last.now) }
    {
        let chain = *self.chains.get(cell)?;
        let links = &self.links;
        Some(Ends {
            first: &links[chain.first].value,
            last: &links[chain.last].value,
        })
    }

    /// Puts a value in the place of the last one of a cell that is held. It takes no slot and no memory.
    pub fn replace_last(&mut self, cell: &Cell, value: V)
        requires { IsSome (finite.get self.old.lists cell.now) }
        ensures lists { self.new.lists ≡ finite.insert self.old.lists cell.now
            (with_last (list_at self.old.lists cell.now) value) }
        ensures spare { self.new.spare ≡ self.old.spare }
    {
        match self.chains.get(cell) {
            Some(chain) => set_value(&mut self.links, chain.last, value),
            None => unreachable!(),
        }
    }

    /// Takes the value at a place out of a cell's list. The cell goes with its last value.
    pub fn remove(&mut self, cell: &Cell, i: usize) -> Option<V>
        ensures value { result ≡ slice_get (list_at self.old.lists cell.now) i }
        ensures lists { OnSome result (self.new.lists
            ≡ set_list self.old.lists cell.now (remove (list_at self.old.lists cell.now) i)) }
        ensures spare { OnSome result (self.new.spare ≡ self.old.spare + 1) }
        ensures none { IfNone result (self.new ≡ self.old) }
    {
        let chain = *self.chains.get(cell)?;
        if i >= chain.count {
            return None;
        }
        let (value, rest) = take_out(&mut self.links, chain, i);
        keep_rest(&mut self.chains, cell, rest);
        Some(value)
    }

    /// The cells that are held, in order.
    pub fn cells(&self) -> Cells<'_>
        ensures cells { result ≡ finite.keys self.now.lists }
        ensures filled { (cell : CellValue) → finite.get self.now.lists cell ≢ Some [] }
    {
        Cells {
            left: self.chains.iter(),
        }
    }

    /// The cells that are held, in order, each with its values.
    pub fn lists(&self) -> Lists<'_, V>
        ensures entries { result ≡ finite.entries self.now.lists }
        ensures found { All (λ e. finite.get self.now.lists e.0 ≡ Some e.1) result }
    {
        Lists {
            links: &self.links,
            left: self.chains.iter(),
        }
    }

    /// The values of a cell, in order.
    pub fn iter(&self, cell: &Cell) -> ChainValues<'_, V>
        ensures { result ≡ list_at self.now.lists cell.now }
    {
        ChainValues::along(&self.links, self.chains.get(cell).copied())
    }
}

impl<V: Copies + Drop> Slots<V> {
    /// Equal lists, in as many slots as they have values.
    pub fn copy(&self, alloc: Global) -> Result<Self, Memory>
        ensures { IfOk result (λ made. made.lists ≡ self.now.lists) }
    {
        let mut made = Slots::new(alloc);
        made.reserve(self.values())?;
        for cell in self.cells() {
            append_copies(alloc, &mut made, &cell, self.iter(&cell))?;
        }
        Ok(made)
    }
}

// Appends equal values, in order, to a cell's list.
fn append_copies<V: Copies + Drop>(
    alloc: Global,
    made: &mut Slots<V>,
    cell: &Cell,
    values: ChainValues<'_, V>,
) -> Result<(), Memory>
    ensures { OnOk result (made.new.lists ≡ append_all made.old.lists cell.now values.entry) }
{
    for value in values {
        let value = value.copy(alloc)?;
        made.append(cell, value)?;
    }
    Ok(())
}
