// Chains of the places at which owners of values stand, linked in both directions.
ghost use Rattle.std.specs.Prelude.{◌≡◌, ◌+◌, ◌<◌, ◌≤◌, ℕ, Some, None, OnOk, IsSome, IfSome, length, slice_set};
ghost use Rattle.std.specs.List.{All};
ghost use Rattle.slab.specs.Slab.{get};
ghost use Rattle.lrp_holdings.specs.Chains.{AreAllChained, AreChainedBelow, AreChainedFrom, AreLoose, HasRoomForFirst, IsChanged, IsShort, IsLedTo, IsLetGo, IsReleasedFrom, IsRelinked, IsSetAt, first_of, owner_at, with_before, with_next};
ghost use Rattle.lrp_holdings.specs.Winners.{HasWinners};

use crate::ranked::Ranked;
use crate::winners::replay;
use lrp_model::Memory;
use slab::Slab;
use smallvec::SmallVec;

/// A place of a value's list of owners: the value's slot, and a number from 0.
#[derive(Clone, Copy)]
pub(crate) struct OwnerLink {
    pub(crate) slot: u32,
    pub(crate) place: u32,
}

/// An owner of a value, and the links before and after this one in the owner's chain.
#[derive(Clone, Copy, Default)]
pub(crate) struct Owner {
    pub(crate) number: u32,
    pub(crate) before: Option<OwnerLink>,
    pub(crate) next: Option<OwnerLink>,
}

/// A value with its owners, of which two take no memory of their own.
#[derive(Drop)]
pub(crate) struct Holding<V> {
    pub(crate) value: V,
    pub(crate) owners: SmallVec<Owner, 2>,
}

// The owner at a link.
fn owner_of<V>(slots: &Slab<Holding<V>>, link: OwnerLink) -> Owner
    requires { IsSome (owner_at (get slots.now) link) }
    ensures { owner_at (get slots.now) link ≡ Some result }
{
    slots[link.slot as usize].owners.as_slice()[link.place as usize]
}

// How many owners the value in a slot has.
fn owner_count<V>(slots: &Slab<Holding<V>>, slot: u32) -> u32
    requires held { IsSome (get slots.now slot) }
    requires short { IsShort (get slots.now slot) }
    ensures { IfSome (get slots.now slot) (λ holding. result ≡ length holding.owners.items) }
{
    slots[slot as usize].owners.len() as u32
}

// Sets what is next after a link, if there is one.
fn set_next<V>(slots: &mut Slab<Holding<V>>, link: Option<OwnerLink>, next: Option<OwnerLink>)
    requires { IfSome link (λ at. IsSome (owner_at (get slots.old) at)) }
    ensures { IsChanged (with_next next) slots.old slots.new link }
{
    if let Some(link) = link {
        next_at(&mut slots[link.slot as usize].owners, link.place, next);
    }
}

fn next_at(owners: &mut SmallVec<Owner, 2>, place: u32, next: Option<OwnerLink>)
    requires { place < length owners.old.items }
    ensures { IsSetAt (with_next next) owners.old.items owners.new.items place }
{
    owners.as_mut_slice()[place as usize].next = next;
}

// Sets what is before a link, if there is one.
fn set_before<V>(slots: &mut Slab<Holding<V>>, link: Option<OwnerLink>, before: Option<OwnerLink>)
    requires { IfSome link (λ at. IsSome (owner_at (get slots.old) at)) }
    ensures { IsChanged (with_before before) slots.old slots.new link }
{
    if let Some(link) = link {
        before_at(&mut slots[link.slot as usize].owners, link.place, before);
    }
}

fn before_at(owners: &mut SmallVec<Owner, 2>, place: u32, before: Option<OwnerLink>)
    requires { place < length owners.old.items }
    ensures { IsSetAt (with_before before) owners.old.items owners.new.items place }
{
    owners.as_mut_slice()[place as usize].before = before;
}

// Lets a chain begin after its first link.
fn set_first(chains: &mut Vec<Option<OwnerLink>>, owner: Owner)
    requires { owner.number < length chains.old.items }
    ensures { IsLedTo owner chains.old.items chains.new.items }
{
    if owner.before.is_none() {
        chains[owner.number as usize] = owner.next;
    }
}

// Takes a link out of its owner's chain: those before and after it are joined.
fn unlink<V>(slots: &mut Slab<Holding<V>>, chains: &mut Vec<Option<OwnerLink>>, link: OwnerLink)
    requires chained { AreChainedFrom slots.old chains.old.items link.slot link.place }
    requires held { IsSome (owner_at (get slots.old) link) }
    ensures chained { AreChainedFrom slots.new chains.new.items link.slot (link.place + 1) }
    ensures same { IsRelinked slots.old slots.new }
{
    let owner = owner_of(slots, link);
    set_next(slots, owner.before, owner.next);
    set_before(slots, owner.next, owner.before);
    set_first(chains, owner);
}

// Puts a link before the others of its owner's chain.
fn put_first<V>(slots: &mut Slab<Holding<V>>, chains: &mut Vec<Option<OwnerLink>>, link: OwnerLink)
    requires chained { AreChainedBelow slots.old chains.old.items link.slot link.place }
    requires loose { AreLoose slots.old chains.old.items link.slot link.place }
    requires held { IsSome (owner_at (get slots.old) link) }
    ensures chained { AreChainedBelow slots.new chains.new.items link.slot (link.place + 1) }
    ensures loose { AreLoose slots.new chains.new.items link.slot (link.place + 1) }
    ensures same { IsRelinked slots.old slots.new }
{
    let owner = owner_of(slots, link);
    let next = chains[owner.number as usize];
    set_next(slots, Some(link), next);
    set_before(slots, next, Some(link));
    chains[owner.number as usize] = Some(link);
}

/// Puts the links of the value in a slot into the chains of its owners.
pub(crate) fn link_all<V>(
    slots: &mut Slab<Holding<V>>,
    chains: &mut Vec<Option<OwnerLink>>,
    slot: u32,
)
    requires chained { AreChainedBelow slots.old chains.old.items slot 0 }
    requires loose { AreLoose slots.old chains.old.items slot 0 }
    requires held { IsSome (get slots.old slot) }
    requires short { IsShort (get slots.old slot) }
    ensures chained { AreAllChained slots.new chains.new.items }
    ensures same { IsRelinked slots.old slots.new }
{
    for place in 0..owner_count(slots, slot) {
        put_first(slots, chains, OwnerLink { slot, place });
    }
}

// Takes the value of a slot out of the chains of its owners, and gives the slot up.
fn let_go<V: Drop>(slots: &mut Slab<Holding<V>>, chains: &mut Vec<Option<OwnerLink>>, slot: u32)
    requires chained { AreAllChained slots.old chains.old.items }
    requires held { IsSome (get slots.old slot) }
    requires short { IsShort (get slots.old slot) }
    ensures chained { AreAllChained slots.new chains.new.items }
    ensures gone { IsLetGo slots.old slots.new slot }
{
    for place in 0..owner_count(slots, slot) {
        unlink(slots, chains, OwnerLink { slot, place });
    }
    slots.try_remove(slot as usize);
}

// The first link of an owner's chain.
fn first(chains: &Vec<Option<OwnerLink>>, number: usize) -> Option<OwnerLink>
    ensures { result ≡ first_of chains.now.items number }
{
    if number < chains.len() {
        chains[number]
    } else {
        None
    }
}

/// Lets go each value that the owner holds.
pub(crate) fn release<V: Ranked + Drop>(
    slots: &mut Slab<Holding<V>>,
    chains: &mut Vec<Option<OwnerLink>>,
    winners: &mut Vec<Option<u32>>,
    number: usize,
)
    requires chained { AreAllChained slots.old chains.old.items }
    requires short { (slot : ℕ) → IsShort (get slots.old slot) }
    requires ranked { HasWinners V.leads slots.old winners.old.items }
    ensures chained { AreAllChained slots.new chains.new.items }
    ensures released { IsReleasedFrom number slots.old slots.new }
    ensures ranked { HasWinners V.leads slots.new winners.new.items }
{
    while let Some(link) = first(chains, number) {
        let_go(slots, chains, link.slot);
        replay(slots, winners, link.slot);
    }
}

/// Makes room for the chains of these owners.
pub(crate) fn make_room(
    chains: &mut Vec<Option<OwnerLink>>,
    numbers: &[usize],
) -> Result<(), Memory>
    ensures room { OnOk result (All (λ number. number < length chains.new.items) numbers.now) }
    ensures same { HasRoomForFirst chains.old.items chains.new.items }
{
    for number in numbers {
        make_room_for(chains, *number)?;
    }
    Ok(())
}

fn make_room_for(chains: &mut Vec<Option<OwnerLink>>, number: usize) -> Result<(), Memory>
    ensures room { OnOk result (number < length chains.new.items) }
    ensures same { HasRoomForFirst chains.old.items chains.new.items }
{
    while chains.len() <= number {
        chains.push(None)?;
    }
    Ok(())
}
