// The chains of cells in line, under keys of one of two kinds.
ghost use Rattle.std.specs.Prelude.{◌≡◌, ◌+◌, ◌<◌, ◌^◌, [], None, Ok, true, false, IfNone, IfOk, IfSome, OnErr, OnSome, option_copied, length};
ghost use Rattle.std.specs.BTreeMap.{is_at, insert_entry};
ghost use Rattle.std.specs.Map.{remove_entry};
ghost use Rattle.lrp_slots.specs.Lists.{cell_cmp};
ghost use Rattle.lrp_slots.specs.Links.{chain_at, extended};
ghost use Rattle.lrp_slots.specs.Lines.{IsLine};
ghost use Rattle.lrp_slots.specs.Medium.{medium_cell};

use crate::chains::Chain;
use crate::iterators::LineEntries;
use crate::key::Key;
use crate::line::Line;
use crate::medium::Medium;
use crate::narrow::Narrow;
use crate::tree::Tree;
use lrp_model::{Cell, Memory};
use std::alloc::Global;
use std::marker::Model;

/// The chains of cells in line, seen as the list of them in order of the cells.
///
/// As long as all cells are narrow, they stand under the shortest keys. The first one that isn't gives all of them longer ones.
#[derive(Drop)]
pub(crate) struct Lines {
    alloc: Global,
    narrow: Line<Narrow>,
    medium: Line<Medium>,
}

impl Model for Lines {
    ghost use Rattle.std.specs.Prelude.{List, ◌++◌};
    ghost use Rattle.lrp_model.specs.declared.tuples.Cell.{Cell};
    ghost use Rattle.lrp_slots.specs.declared.chains.Chain.{Chain};
    ghost use Rattle.lrp_slots.specs.Lines.{StandOnce};

    ghost Value = { List (Cell × Chain) };

    ghost view = { λ a. a.narrow ++ a.medium };

    ghost invariant = { λ a. StandOnce a.narrow a.medium };
}

impl Lines {
    /// No cell is in line.
    pub(crate) fn new(alloc: Global) -> Self
        ensures { result ≡ [] }
    {
        Lines {
            alloc,
            narrow: Line::new(alloc),
            medium: Line::new(alloc),
        }
    }

    /// How many cells are in line. A caller learns here that they ascend.
    pub(crate) fn len(&self) -> usize
        ensures len { result ≡ length self.now }
        ensures ordered { IsLine self.now }
    {
        if self.medium.is_empty() {
            self.narrow.len()
        } else {
            self.medium.len()
        }
    }

    /// The chain of a cell.
    pub(crate) fn get(&self, cell: &Cell) -> Option<&Chain>
        ensures value { option_copied result ≡ chain_at self.now cell.now }
    {
        if !self.medium.is_empty() {
            return self.medium.get(cell);
        }
        self.narrow.get(cell)
    }

    /// Sets the chain of a cell that is in line, and gives the one that it had.
    pub(crate) fn replace(&mut self, cell: &Cell, chain: Chain) -> Option<Chain>
        ensures held { result ≡ chain_at self.old cell.now }
        ensures some { OnSome result (self.new ≡ insert_entry cell_cmp self.old cell.now chain) }
        ensures none { IfNone result (self.new ≡ self.old) }
    {
        if !self.medium.is_empty() {
            return self.medium.replace(cell, chain);
        }
        self.narrow.replace(cell, chain)
    }

    /// Puts one slot more at the end of the chain of a cell that is in line, and gives the chain as it was.
    pub(crate) fn lengthen(&mut self, cell: &Cell, slot: usize) -> Option<Chain>
        requires { IfSome (chain_at self.old cell.now) (λ chain. chain.count + 1 < 2 ^ 64) }
        ensures held { result ≡ chain_at self.old cell.now }
        ensures some { OnSome result (self.new ≡ insert_entry cell_cmp self.old cell.now
            (extended result slot)) }
        ensures none { IfNone result (self.new ≡ self.old) }
    {
        if !self.medium.is_empty() {
            return self.medium.lengthen(cell, slot);
        }
        self.narrow.lengthen(cell, slot)
    }

    /// Puts a cell in line, unless it has no key or comes too late, and tells whether it did.
    pub(crate) fn insert(&mut self, cell: &Cell, chain: Chain) -> Result<bool, Memory>
        requires { chain_at self.old cell.now ≡ None }
        ensures put { result ≡ Ok true → self.new ≡ insert_entry cell_cmp self.old cell.now chain }
        ensures left { result ≡ Ok false → self.new ≡ self.old }
        ensures err { OnErr result (self.new ≡ self.old) }
    {
        if self.medium.is_empty() {
            if let Some(key) = Narrow::of(cell) {
                return self.narrow.insert(key, chain);
            }
        }
        match Medium::of(cell) {
            Some(key) => self.insert_longer(key, chain),
            None => Ok(false),
        }
    }

    // Puts a cell in line by a longer key, as all cells then have, and tells whether it did.
    fn insert_longer(&mut self, key: Medium, chain: Chain) -> Result<bool, Memory>
        requires { chain_at self.old (medium_cell key) ≡ None }
        ensures put { result ≡ Ok true → self.new
            ≡ insert_entry cell_cmp self.old (medium_cell key) chain }
        ensures left { result ≡ Ok false → self.new ≡ self.old }
        ensures err { OnErr result (self.new ≡ self.old) }
    {
        if self.narrow.is_empty() {
            return self.medium.insert(key, chain);
        }
        let mut medium = widened(self.alloc, &self.narrow)?;
        let put = medium.insert(key, chain)?;
        self.medium = medium;
        self.narrow = Line::new(self.alloc);
        Ok(put)
    }

    /// Takes a cell and its chain out. It costs as much as there are cells after it.
    pub(crate) fn remove(&mut self, cell: &Cell)
        ensures { self.new ≡ remove_entry (is_at (cell_cmp cell.now)) self.old }
    {
        if !self.medium.is_empty() {
            self.medium.remove(cell);
            return;
        }
        self.narrow.remove(cell);
    }

    /// The tree of the cells.
    pub(crate) fn tree(&self, alloc: Global) -> Result<Tree, Memory>
        ensures { IfOk result (λ tree. tree ≡ self.now) }
    {
        if !self.medium.is_empty() {
            return self.medium.tree(alloc);
        }
        self.narrow.tree(alloc)
    }

    /// The cells with their chains, in order.
    pub(crate) fn entries(&self) -> LineEntries<'_>
        ensures { result ≡ self.now }
    {
        LineEntries {
            narrow: self.narrow.entries(),
            medium: self.medium.entries(),
        }
    }
}

// The same cells under longer keys.
fn widened(alloc: Global, narrow: &Line<Narrow>) -> Result<Line<Medium>, Memory>
    ensures { IfOk result (λ medium. medium ≡ narrow.now) }
{
    let entries = narrow.entries();
    let mut medium = Line::new(alloc);
    for i in 0..entries.len() {
        let (key, chain) = entries[i];
        medium.push(Medium::of_narrow(&key), chain)?;
    }
    Ok(medium)
}
