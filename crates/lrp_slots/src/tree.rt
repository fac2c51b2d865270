// The chains of cells that did not come in order.
ghost use Rattle.std.specs.Prelude.{◌≡◌, ◌≢◌, ◌+◌, ◌<◌, ◌^◌, [], None, Ok, true, false, IfOk, IfSome, IsSome, IsTrue, ◌↔◌, OnErr, OnOk, option_copied, unwrap_or, length};
ghost use Rattle.std.specs.BTreeMap.{is_at, insert_entry, get, IsOrdered};
ghost use Rattle.std.specs.Map.{remove_entry};
ghost use Rattle.lrp_slots.specs.Lists.{cell_cmp};
ghost use Rattle.lrp_slots.specs.Links.{chain_at, extended};
ghost use Rattle.lrp_slots.specs.Narrow.{wide_entries};

use crate::chains::{Chain, extended};
use crate::iterators::Branches;
use crate::key::Key;
use crate::narrow::Narrow;
use lrp_model::{Cell, Memory};
use std::alloc::Global;
use std::collections::BTreeMap;
use std::collections::btree_map::Entry;
use std::marker::Model;

/// The chains of cells in a tree, seen as the list of them in order of the cells.
///
/// As long as all cells are narrow, they stand as short keys, which are compared in a few steps.
#[derive(Drop)]
pub(crate) struct Tree {
    alloc: Global,
    narrow: BTreeMap<Narrow, Chain>,
    wide: BTreeMap<Cell, Chain>,
}

impl Model for Tree {
    ghost use Rattle.std.specs.Prelude.{List, ◌++◌};
    ghost use Rattle.lrp_model.specs.declared.tuples.Cell.{Cell};
    ghost use Rattle.lrp_slots.specs.declared.chains.Chain.{Chain};
    ghost use Rattle.lrp_slots.specs.Narrow.{wide_entries, AreOneWidth};

    ghost Value = { List (Cell × Chain) };

    ghost view = { λ t. wide_entries t.narrow.entries ++ t.wide.entries };

    ghost invariant = { λ t. AreOneWidth t.narrow.entries t.wide.entries };
}

impl Tree {
    /// No cell is held.
    pub(crate) fn new(alloc: Global) -> Self
        ensures { result ≡ [] }
    {
        Tree {
            alloc,
            narrow: BTreeMap::new(alloc),
            wide: BTreeMap::new(alloc),
        }
    }

    /// How many cells are held.
    pub(crate) fn len(&self) -> usize
        ensures { result ≡ length self.now }
    {
        if self.wide.is_empty() {
            self.narrow.len()
        } else {
            self.wide.len()
        }
    }

    /// Whether no cell is held.
    pub(crate) fn is_empty(&self) -> bool
        ensures { IsTrue result ↔ (length self.now ≡ 0) }
    {
        self.len() == 0
    }

    /// The chain of a cell.
    pub(crate) fn get(&self, cell: &Cell) -> Option<&Chain>
        ensures value { option_copied result ≡ chain_at self.now cell.now }
    {
        if !self.wide.is_empty() {
            return self.wide.get(cell);
        }
        let narrow = Narrow::of(cell)?;
        self.narrow.get(&narrow)
    }

    /// Sets the chain of a cell, and gives the one that it had.
    pub(crate) fn insert(&mut self, cell: &Cell, chain: Chain) -> Result<Option<Chain>, Memory>
        ensures held { IfOk result (λ held. held ≡ chain_at self.old cell.now) }
        ensures entries { OnOk result (self.new ≡ insert_entry cell_cmp self.old cell.now chain) }
        ensures absent { OnErr result (chain_at self.old cell.now ≡ None) }
        ensures err { OnErr result (self.new ≡ self.old) }
    {
        if self.wide.is_empty() {
            if let Some(narrow) = Narrow::of(cell) {
                let held = self.narrow.insert(narrow, chain)?;
                return Ok(held);
            }
            let mut wide = widened(self.alloc, &self.narrow)?;
            wide.insert(*cell, chain)?;
            self.wide = wide;
            self.narrow = BTreeMap::new(self.alloc);
            return Ok(None);
        }
        let held = self.wide.insert(*cell, chain)?;
        Ok(held)
    }

    /// Puts one slot more at the end of a cell's chain, and gives the chain as it was, if there was one.
    ///
    /// The cell is looked up once, unless it is the first one that has no short key.
    pub(crate) fn lengthen(&mut self, cell: &Cell, key: usize) -> Result<Option<Chain>, Memory>
        requires { IfSome (chain_at self.old cell.now) (λ chain. chain.count + 1 < 2 ^ 64) }
        ensures held { IfOk result (λ held. held ≡ chain_at self.old cell.now) }
        ensures entries { IfOk result (λ held. self.new
            ≡ insert_entry cell_cmp self.old cell.now (extended held key)) }
        ensures absent { OnErr result (chain_at self.old cell.now ≡ None) }
        ensures err { OnErr result (self.new ≡ self.old) }
    {
        if !self.wide.is_empty() {
            return lengthen_at(&mut self.wide, *cell, key);
        }
        if let Some(narrow) = Narrow::of(cell) {
            return lengthen_at(&mut self.narrow, narrow, key);
        }
        self.insert(cell, extended(None, key))?;
        Ok(None)
    }

    /// Puts in a cell that is not held yet, in one slot, and tells whether it was so. The cell is looked up once.
    pub(crate) fn begin(&mut self, cell: &Cell, key: usize) -> Result<bool, Memory>
        ensures absent { result ≡ Ok true → chain_at self.old cell.now ≡ None }
        ensures put { result ≡ Ok true → self.new
            ≡ insert_entry cell_cmp self.old cell.now (extended None key) }
        ensures held { result ≡ Ok false → IsSome (chain_at self.old cell.now) }
        ensures left { result ≢ Ok true → self.new ≡ self.old }
    {
        if !self.wide.is_empty() {
            return begin_at(&mut self.wide, *cell, key);
        }
        if let Some(narrow) = Narrow::of(cell) {
            return begin_at(&mut self.narrow, narrow, key);
        }
        self.insert(cell, extended(None, key))?;
        Ok(true)
    }

    /// Takes a cell and its chain out.
    pub(crate) fn remove(&mut self, cell: &Cell)
        ensures { self.new ≡ remove_entry (is_at (cell_cmp cell.now)) self.old }
    {
        if !self.wide.is_empty() {
            self.wide.remove(cell);
            return;
        }
        if let Some(narrow) = Narrow::of(cell) {
            self.narrow.remove(&narrow);
        }
    }

    /// The cells with their chains, in order.
    pub(crate) fn iter(&self) -> Branches<'_>
        ensures rest { result ≡ self.now }
    {
        Branches {
            narrow: self.narrow.iter(),
            wide: self.wide.iter(),
        }
    }
}

// Puts one slot more at the end of the chain under a key, which is looked up once.
fn lengthen_at<K: Ord + Drop>(
    chains: &mut BTreeMap<K, Chain>,
    at: K,
    key: usize,
) -> Result<Option<Chain>, Memory>
    requires { IfSome (get K.cmp chains.old at) (λ chain. chain.count + 1 < 2 ^ 64) }
    ensures held { IfOk result (λ held. held ≡ get K.cmp chains.old at) }
    ensures entries { IfOk result (λ held. chains.new.entries
        ≡ insert_entry K.cmp chains.old.entries at (extended held key)) }
    ensures absent { OnErr result (get K.cmp chains.old at ≡ None) }
    ensures err { OnErr result (chains.new.entries ≡ chains.old.entries) }
{
    match chains.entry(at)? {
        Entry::Occupied(entry) => {
            let chain = entry.into_mut();
            let held = *chain;
            *chain = extended(Some(held), key);
            Ok(Some(held))
        }
        Entry::Vacant(entry) => {
            entry.insert(extended(None, key));
            Ok(None)
        }
    }
}

// Puts in a key with its chain unless it is held, and gives the chain that it had. The key is looked up once.
fn hold_at<K: Ord + Drop>(
    chains: &mut BTreeMap<K, Chain>,
    at: K,
    fresh: Chain,
) -> Result<Option<Chain>, Memory>
    ensures held { IfOk result (λ held. held ≡ get K.cmp chains.old at) }
    ensures entries { IfOk result (λ held. chains.new.entries
        ≡ insert_entry K.cmp chains.old.entries at (unwrap_or held fresh)) }
    ensures err { OnErr result (chains.new.entries ≡ chains.old.entries) }
    ensures ordered { IsOrdered K.cmp chains.old }
{
    match chains.entry(at)? {
        Entry::Occupied(entry) => {
            // The chain is written as it was, since only of an entry that is written it is known what it leaves.
            let chain = entry.into_mut();
            let held = *chain;
            *chain = held;
            Ok(Some(held))
        }
        Entry::Vacant(entry) => {
            entry.insert(fresh);
            Ok(None)
        }
    }
}

// Puts in a key that is not held yet, with one slot, and tells whether it was so.
fn begin_at<K: Ord + Copy + Drop>(
    chains: &mut BTreeMap<K, Chain>,
    at: K,
    key: usize,
) -> Result<bool, Memory>
    ensures absent { result ≡ Ok true → get K.cmp chains.old at ≡ None }
    ensures put { result ≡ Ok true → chains.new.entries
        ≡ insert_entry K.cmp chains.old.entries at (extended None key) }
    ensures held { result ≡ Ok false → IsSome (get K.cmp chains.old at) }
    ensures left { result ≢ Ok true → chains.new.entries ≡ chains.old.entries }
{
    let held = hold_at(chains, at, extended(None, key))?;
    Ok(held.is_none())
}

// The cells of narrow keys, with their chains.
fn widened(alloc: Global, narrow: &BTreeMap<Narrow, Chain>) -> Result<BTreeMap<Cell, Chain>, Memory>
    ensures { IfOk result (λ wide. wide.entries ≡ wide_entries narrow.now.entries) }
{
    let mut wide = BTreeMap::new(alloc);
    for entry in narrow.iter() {
        wide.insert(entry.0.cell(), *entry.1)?;
    }
    Ok(wide)
}
