// The chains of the cells that are held, in order of the cells.
ghost use Rattle.std.specs.Prelude.{◌≡◌, ◌≢◌, ◌+◌, ◌<◌, ◌^◌, [], Ok, None, true, false, IfOk, IfSome, IsSome, OnErr, OnOk, option_copied, length};
ghost use Rattle.std.specs.BTreeMap.{is_at};
ghost use Rattle.std.specs.Map.{remove_entry};
ghost use Rattle.lrp_slots.specs.Lists.{cell_cmp};
ghost use Rattle.lrp_slots.specs.Links.{chain_at, extended, IsLengthened};
ghost use Rattle.lrp_slots.specs.Lines.{IsLine};

use crate::chains::{Chain, extended};
use crate::in_line::Lines;
use crate::iterators::ChainEntries;
use crate::tree::Tree;
use lrp_model::{Cell, Memory};
use std::alloc::Global;
use std::marker::Model;

/// The chains of cells, seen as the list of them in order of the cells.
///
/// Cells that come in order stand in line, with a few that come late. The first cell that the line doesn't take moves all of
/// them into a tree.
#[derive(Drop)]
pub(crate) struct Held {
    alloc: Global,
    line: Lines,
    tree: Tree,
}

impl Model for Held {
    ghost use Rattle.std.specs.Prelude.{List, ◌++◌};
    ghost use Rattle.lrp_model.specs.declared.tuples.Cell.{Cell};
    ghost use Rattle.lrp_slots.specs.declared.chains.Chain.{Chain};
    ghost use Rattle.lrp_slots.specs.Lines.{StandOnce};

    ghost Value = { List (Cell × Chain) };

    ghost view = { λ a. a.line ++ a.tree };

    ghost invariant = { λ a. StandOnce a.line a.tree };
}

impl Held {
    /// No cell is held.
    pub(crate) fn new(alloc: Global) -> Self
        ensures { result ≡ [] }
    {
        Held {
            alloc,
            line: Lines::new(alloc),
            tree: Tree::new(alloc),
        }
    }

    /// How many cells are held. A caller learns here that they ascend.
    pub(crate) fn len(&self) -> usize
        ensures len { result ≡ length self.now }
        ensures ordered { IsLine self.now }
    {
        if self.tree.is_empty() {
            self.line.len()
        } else {
            self.tree.len()
        }
    }

    /// The chain of a cell.
    pub(crate) fn get(&self, cell: &Cell) -> Option<&Chain>
        ensures value { option_copied result ≡ chain_at self.now cell.now }
    {
        if !self.tree.is_empty() {
            return self.tree.get(cell);
        }
        self.line.get(cell)
    }

    /// The cells with their chains, in order.
    pub(crate) fn iter(&self) -> ChainEntries<'_>
        ensures rest { result ≡ self.now }
        ensures ordered { IsLine self.now }
    {
        ChainEntries {
            line: self.line.entries(),
            tree: self.tree.iter(),
        }
    }

    /// Sets the chain of a cell, and gives the one that it had.
    pub(crate) fn insert(&mut self, cell: &Cell, chain: Chain) -> Result<Option<Chain>, Memory>
        ensures held { IfOk result (λ held. held ≡ chain_at self.old cell.now) }
        ensures ok { OnOk result (IsLengthened self.old self.new cell.now chain) }
        ensures absent { OnErr result (chain_at self.old cell.now ≡ None) }
        ensures err { OnErr result (self.new ≡ self.old) }
    {
        if !self.tree.is_empty() {
            let held = self.tree.insert(cell, chain)?;
            return Ok(held);
        }
        if let Some(held) = self.line.replace(cell, chain) {
            return Ok(Some(held));
        }
        self.insert_new(cell, chain)?;
        Ok(None)
    }

    // Puts in a cell that is not held, with its chain.
    fn insert_new(&mut self, cell: &Cell, chain: Chain) -> Result<(), Memory>
        requires { chain_at self.old cell.now ≡ None }
        ensures ok { OnOk result (IsLengthened self.old self.new cell.now chain) }
        ensures err { OnErr result (self.new ≡ self.old) }
    {
        if !self.tree.is_empty() {
            self.tree.insert(cell, chain)?;
            return Ok(());
        }
        if self.line.insert(cell, chain)? {
            return Ok(());
        }
        let mut tree = self.line.tree(self.alloc)?;
        tree.insert(cell, chain)?;
        self.tree = tree;
        self.line = Lines::new(self.alloc);
        Ok(())
    }

    /// Puts in a cell that is not held yet, in one slot, and tells whether it was so. The cell is looked up once.
    pub(crate) fn begin(&mut self, cell: &Cell, key: usize) -> Result<bool, Memory>
        ensures absent { result ≡ Ok true → chain_at self.old cell.now ≡ None }
        ensures put { result ≡ Ok true → IsLengthened self.old self.new cell.now
            (extended None key) }
        ensures held { result ≡ Ok false → IsSome (chain_at self.old cell.now) }
        ensures left { result ≢ Ok true → self.new ≡ self.old }
    {
        if !self.tree.is_empty() {
            return self.tree.begin(cell, key);
        }
        if self.line.get(cell).is_some() {
            return Ok(false);
        }
        self.insert_new(cell, extended(None, key))?;
        Ok(true)
    }

    /// Puts one slot more at the end of a cell's chain, and gives the chain as it was, if there was one.
    pub(crate) fn lengthen(&mut self, cell: &Cell, key: usize) -> Result<Option<Chain>, Memory>
        requires { IfSome (chain_at self.old cell.now) (λ chain. chain.count + 1 < 2 ^ 64) }
        ensures held { IfOk result (λ held. held ≡ chain_at self.old cell.now) }
        ensures lengthened { IfOk result (λ held. IsLengthened self.old self.new cell.now
            (extended held key)) }
        ensures absent { OnErr result (chain_at self.old cell.now ≡ None) }
        ensures err { OnErr result (self.new ≡ self.old) }
    {
        if !self.tree.is_empty() {
            return self.tree.lengthen(cell, key);
        }
        if let Some(held) = self.line.lengthen(cell, key) {
            return Ok(Some(held));
        }
        self.insert_new(cell, extended(None, key))?;
        Ok(None)
    }

    /// Takes a cell and its chain out. One in line costs as much as there are cells after it.
    pub(crate) fn remove(&mut self, cell: &Cell)
        ensures { self.new ≡ remove_entry (is_at (cell_cmp cell.now)) self.old }
    {
        if !self.tree.is_empty() {
            self.tree.remove(cell);
            return;
        }
        self.line.remove(cell);
    }

    /// Puts the cells of a tree in line, where they take the least memory, unless one has no key.
    pub(crate) fn compact(&mut self) -> Result<(), Memory>
        ensures { self.new ≡ self.old }
    {
        if self.tree.is_empty() {
            return Ok(());
        }
        let Some(line) = line_of(self.alloc, &self.tree)? else {
            return Ok(());
        };
        self.line = line;
        self.tree = Tree::new(self.alloc);
        Ok(())
    }
}

// The cells of a tree in line, unless one has no key.
fn line_of(alloc: Global, tree: &Tree) -> Result<Option<Lines>, Memory>
    requires { IsLine tree.now }
    ensures { IfOk result (λ made. IfSome made (λ line. line ≡ tree.now)) }
{
    let mut line = Lines::new(alloc);
    for entry in tree.iter() {
        if !line.insert(&entry.0, entry.1)? {
            return Ok(None);
        }
    }
    Ok(Some(line))
}
