// Values that are held by numbered owners: each is let go with the first of its owners.
ghost use Rattle.std.specs.Prelude.{◌≡◌, ◌<◌, ◌^◌, ℕ, IsSome, IfOk, IfSome, IfNone, OnOk, OnErr, [], None, length, map, option_copied, slice_get};
ghost use Rattle.std.specs.Option.{option_map};
ghost use Rattle.lrp_holdings.specs.Chains.{loose_owner};
ghost use Rattle.lrp_holdings.specs.Holdings.{IsHeldToo, IsReleased, held_at, owners_at};
ghost use Rattle.lrp_holdings.specs.Winners.{IsFirstHeld};

use crate::chains::{Holding, Owner, OwnerLink, link_all, make_room, release};
use crate::ranked::Ranked;
use crate::winners::{make_room_for_match, replay, winner};
use lrp_model::{Memory, numbered};
use slab::Slab;
use smallvec::SmallVec;
use std::alloc::Global;
use std::marker::Model;

/// Values in slots, each with a list of owners, which are numbers.
///
/// Each owner has a chain of the places where it stands, linked by index in both directions, so that a value leaves the
/// chains of its other owners in one step for each (Donald Knuth, "The Art of Computer Programming", volume 1, section
/// 2.2.5, "Doubly Linked Lists", 1968). A slot that is given up is used again.
pub struct Holdings<V: Ranked> {
    alloc: Global,
    slots: Slab<Holding<V>>,
    chains: Vec<Option<OwnerLink>>,
    winners: Vec<Option<u32>>,
}

// A derived drop would be proved anew, type by type, in each crate that lets one go.
impl<V: Ranked + Drop> Drop for Holdings<V> {
    fn drop(self) {
        let Holdings {
            alloc: _alloc,
            slots: _slots,
            chains: _chains,
            winners: _winners,
        } = self;
    }
}

impl<V: Ranked> Model for Holdings<V> {
    ghost use Rattle.lrp_holdings.specs.Holdings.{HoldingsView, holdings_code};

    ghost Value = { HoldingsView V };

    ghost coded = { holdings_code V.code };

    ghost use Rattle.std.specs.Prelude.{map};
    ghost use Rattle.lrp_holdings.specs.Chains.{held_in};

    ghost view = { λ h. record { slots = map held_in h.slots.slots } };

    ghost use Rattle.lrp_holdings.specs.Ordered.{IsHeldInOrder};

    ghost invariant = { λ h. IsHeldInOrder V.leads h.slots h.chains.items h.winners.items };
}

impl<V: Ranked + Drop> Holdings<V> {
    /// Nothing is held.
    pub fn new(alloc: Global) -> Self
        ensures { (slot : ℕ) → held_at result slot ≡ None }
    {
        Holdings {
            alloc,
            slots: Slab::new(alloc),
            chains: Vec::new(alloc),
            winners: Vec::new(alloc),
        }
    }

    /// One more than the greatest slot that a value has, or more.
    pub fn slots(&self) -> usize
        ensures { (slot : ℕ) → IsSome (held_at self.now slot) → slot < result }
    {
        self.slots.capacity()
    }

    /// The value in a slot, if there is one.
    pub fn value(&self, slot: usize) -> Option<&V>
        ensures { option_copied result ≡ option_map (λ h. h.value) (held_at self.now slot) }
    {
        match self.slots.get(slot) {
            Some(holding) => Some(&holding.value),
            None => None,
        }
    }

    /// The value that comes first, if there is one.
    pub fn first(&self) -> Option<&V>
        ensures none { IfNone result ((slot : ℕ) → held_at self.now slot ≡ None) }
        ensures some { IfSome result (λ first. IsFirstHeld V.leads self.now first.now) }
    {
        match winner(&self.winners, 0) {
            Some(slot) => self.value(slot as usize),
            None => None,
        }
    }

    /// The owners of the value in a slot, in order; none where the slot has no value.
    pub fn owners(&self, alloc: Global, slot: usize) -> Result<Vec<usize>, Memory>
        ensures { IfOk result (λ numbers. numbers.items ≡ owners_at self.now slot) }
    {
        match self.slots.get(slot) {
            Some(holding) => numbers_of(alloc, &holding.owners),
            None => Ok(Vec::new(alloc)),
        }
    }

    /// The owner at a place among those of the value in a slot, if there are as many.
    pub fn owner(&self, slot: usize, place: usize) -> Option<usize>
        ensures { result ≡ slice_get (owners_at self.now slot) place }
    {
        match self.slots.get(slot) {
            Some(holding) => number_at(&holding.owners, place),
            None => None,
        }
    }

    /// Holds a value for these owners. Where memory is refused nothing more is held; it is for more than 2^32 values, or owners
    /// of one.
    pub fn hold(&mut self, numbers: &[usize], value: V) -> Result<(), Memory>
        ensures held { OnOk result (IsHeldToo numbers.now value self.old self.new) }
        ensures same { OnErr result (self.new ≡ self.old) }
    {
        numbered(self.slots.vacant_key())?;
        make_room(&mut self.chains, numbers)?;
        make_room_for_match(&mut self.winners, self.slots.vacant_key())?;
        let owners = loose(self.alloc, numbers)?;
        let slot = self.slots.insert(Holding { value, owners })?;
        link_all(&mut self.slots, &mut self.chains, slot as u32);
        replay(&self.slots, &mut self.winners, slot as u32);
        Ok(())
    }

    /// Lets go each value that the owner holds.
    pub fn release(&mut self, number: usize)
        ensures { IsReleased number self.old self.new }
    {
        release(&mut self.slots, &mut self.chains, &mut self.winners, number);
    }
}

// Owners that no chain has yet; memory is refused for numbers from 2^32 on, and for so many of them.
fn loose(alloc: Global, numbers: &[usize]) -> Result<SmallVec<Owner, 2>, Memory>
    ensures made { IfOk result (λ made. made.items ≡ map loose_owner numbers.now) }
    ensures short { IfOk result (λ made. length made.items < 2 ^ 32) }
{
    numbered(numbers.len())?;
    let mut owners = SmallVec::with_capacity(alloc, numbers.len())?;
    for number in numbers {
        owners.push(Owner {
            number: numbered(*number)?,
            before: None,
            next: None,
        })?;
    }
    Ok(owners)
}

// The numbers of owners.
fn numbers_of(alloc: Global, owners: &SmallVec<Owner, 2>) -> Result<Vec<usize>, Memory>
    ensures { IfOk result (λ made. made.items ≡ map (λ o. o.number) owners.now.items) }
{
    let mut numbers = Vec::with_capacity(alloc, owners.len())?;
    for owner in owners.as_slice() {
        numbers.push(owner.number as usize)?;
    }
    Ok(numbers)
}

// The number at a place among those of owners, if there are as many.
fn number_at(owners: &SmallVec<Owner, 2>, place: usize) -> Option<usize>
    ensures { result ≡ slice_get (map (λ o. o.number) owners.now.items) place }
{
    match owners.as_slice().get(place) {
        Some(owner) => Some(owner.number as usize),
        None => None,
    }
}
