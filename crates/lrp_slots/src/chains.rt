// Chains of slots: each slot has the key of the slot that follows in its list.
ghost use Rattle.std.specs.Prelude.{◌≡◌, ◌+◌, ◌==◌, ◌^◌, ◌<◌, ◌≤◌, None, Some, Ok, OnOk, IfOk, IfSome, IsSome, cond};
ghost use Rattle.std.specs.BTreeMap.{is_at};
ghost use Rattle.slab.specs.Slab.{get, ContainsKey as HasValue, slab_len, HasRoomFor};
ghost use Rattle.lrp_slots.specs.Lists.{cell_cmp};
ghost use Rattle.lrp_model.specs.declared.tuples.Cell.{Cell as CellValue};
ghost use Rattle.lrp_slots.specs.Lines.{IsLine};
ghost use Rattle.lrp_slots.specs.Links.{key_after, keys_from, chain_at, slots_of, AreHeld, IsWhole, Joins, Pushes, Sets, TakesOut, extended, if_some};

use crate::held::Held;
use lrp_model::{Cell, Memory};
use slab::Slab;

// A value in its slot, and the key of the slot that follows.
#[derive(Drop)]
pub(crate) struct Link<V> {
    pub(crate) value: V,
    pub(crate) next: usize,
}

// Where a list stands: its first slot, its last one, how many it has, and whether each follows the one before it in the vector.
#[derive(Clone, Copy)]
pub(crate) struct Chain {
    pub(crate) first: usize,
    pub(crate) last: usize,
    pub(crate) count: usize,
    pub(crate) in_line: bool,
}

// The key that is so many links after one.
fn key_after<V>(links: &Slab<Link<V>>, first: usize, places: usize) -> usize
    requires { AreHeld (get links.now) (keys_from (get links.now) places first) }
    ensures { result ≡ key_after (get links.now) places first }
{
    let mut key = first;
    for _place in 0..places {
        key = links[key].next;
    }
    key
}

// The key at a place of a chain.
pub(crate) fn key_at<V>(links: &Slab<Link<V>>, chain: Chain, place: usize) -> usize
    requires whole { IsWhole (get links.now) chain }
    requires within { place < chain.count }
    ensures { result ≡ key_after (get links.now) place chain.first }
{
    if chain.in_line {
        chain.last - (chain.count - 1 - place)
    } else {
        key_after(links, chain.first, place)
    }
}

// Makes one slot follow another.
fn join<V>(links: &mut Slab<Link<V>>, key: usize, next: usize)
    requires { HasValue links.old key }
    ensures { Joins links.old links.new key next }
{
    links[key].next = next;
}

// Puts another value into a slot. The slot that follows stays the same.
pub(crate) fn set_value<V: Drop>(links: &mut Slab<Link<V>>, key: usize, value: V)
    requires { HasValue links.old key }
    ensures { Sets links.old links.new key value }
{
    links[key].value = value;
}

// The key of a slot for one more value.
pub(crate) fn vacant_key<V>(links: &mut Slab<Link<V>>) -> Result<usize, Memory>
    ensures room { OnOk result (HasRoomFor links.new 1) }
    ensures key { IfOk result (λ key. key ≡ links.new.vacant_key) }
    ensures fits { OnOk result (slab_len links.new + 1 < 2 ^ 64) }
    ensures succeeds { HasRoomFor links.old 1 → result ≡ Ok links.old.vacant_key }
    ensures had_room { HasRoomFor links.old 1 → links.new ≡ links.old }
    ensures capacity { links.old.capacity ≤ links.new.capacity }
    ensures rest_kept { links.new ≡ record links.old { capacity = links.new.capacity } }
{
    links.reserve(1)?;
    prove!(links.len() < links.capacity());
    Ok(links.vacant_key())
}

// Whether a key is the one after another.
fn is_next(last: usize, key: usize) -> bool
    ensures { result ≡ (last + 1 == key) }
{
    match last.checked_add(1) {
        Some(next) => next == key,
        None => false,
    }
}

// The chain with one slot more at its end.
pub(crate) fn extended(held: Option<Chain>, key: usize) -> Chain
    requires { IfSome held (λ chain. chain.count + 1 < 2 ^ 64) }
    ensures { result ≡ extended held key }
{
    match held {
        Some(chain) => Chain {
            first: chain.first,
            last: key,
            count: chain.count + 1,
            in_line: chain.in_line && is_next(chain.last, key),
        },
        None => Chain {
            first: key,
            last: key,
            count: 1,
            in_line: true,
        },
    }
}

// Puts a value into the vacant slot, at the end of a chain or alone.
pub(crate) fn push<V>(links: &mut Slab<Link<V>>, held: Option<Chain>, value: V)
    requires room { HasRoomFor links.old 1 }
    requires last { IfSome held (λ chain. HasValue links.old chain.last) }
    ensures { Pushes links.old links.new held value }
{
    let key = links.vacant_key();
    if let Some(chain) = held {
        join(links, chain.last, key);
    }
    links.insert_reserved(Link { value, next: key });
}

// Takes the value at a place out of its slot, and joins the slots before and after it.
pub(crate) fn take_out<V: Drop>(links: &mut Slab<Link<V>>, chain: Chain, place: usize) -> (V, Chain)
    requires whole { IsWhole (get links.old) chain }
    requires within { place < chain.count }
    ensures { TakesOut links.old links.new chain place result.0 result.1 }
{
    if place == 0 {
        let Link { value, next } = links.remove(chain.first);
        let rest = Chain {
            first: next,
            last: chain.last,
            count: chain.count - 1,
            in_line: false,
        };
        return (value, rest);
    }
    let before = key_after(links, chain.first, place - 1);
    let key = links[before].next;
    let Link { value, next } = links.remove(key);
    join(links, before, next);
    let rest = Chain {
        first: chain.first,
        last: if place + 1 == chain.count {
            before
        } else {
            chain.last
        },
        count: chain.count - 1,
        in_line: false,
    };
    (value, rest)
}

// Keeps what is left of a held cell's chain; a cell with no slot goes.
pub(crate) fn keep_rest(chains: &mut Held, cell: &Cell, rest: Chain)
    requires line { IsLine chains.old }
    requires held { IsSome (chain_at chains.old cell.now) }
    ensures updates { (other : CellValue) → chain_at chains.new other
        ≡ cond (is_at (cell_cmp cell.now) other) (if_some rest) (chain_at chains.old other) }
    ensures total { (chain : Chain) → chain_at chains.old cell.now ≡ Some chain
        → slots_of chains.new + chain.count ≡ slots_of chains.old + rest.count }
    ensures ordered { IsLine chains.new }
{
    if rest.count == 0 {
        chains.remove(cell);
        return;
    }
    match chains.insert(cell, rest) {
        Ok(_) => {}
        Err(_) => unreachable!(),
    }
}
