// The chains of cells that came in order, or nearly so.
ghost use Rattle.std.specs.Prelude.{◌≡◌, ◌+◌, ◌<◌, ◌^◌, ◌↔◌, [], ◌∷◌, ◌++◌, None, Ok, true, false, IfErr, IfNone, IfOk, IfSome, IsTrue, OnErr, OnOk, OnSome, option_copied, length};
ghost use Rattle.std.specs.BTreeMap.{is_at, insert_entry};
ghost use Rattle.std.specs.Map.{remove_entry};
ghost use Rattle.lrp_slots.specs.Lists.{cell_cmp};
ghost use Rattle.lrp_slots.specs.Links.{chain_at, extended};
ghost use Rattle.lrp_slots.specs.Keys.{entries_by};
ghost use Rattle.lrp_slots.specs.Lines.{IsAfterAll, IsLine, IsGap, StandsInLine};

use crate::chains::{Chain, extended};
use crate::key::Key;
use crate::tree::Tree;
use lrp_model::{Cell, Memory};
use std::alloc::Global;
use std::cmp::Ordering;
use std::marker::Model;

// How many entries a cell that comes late may move at any time.
const FEW: usize = 64;

// How many late cells may move more.
const MOST_LATE: u32 = 8;

/// The chains of cells that have keys of one kind, seen as the list of them in order of the cells.
///
/// A cell is found among them by halving. One that comes late moves those after it, so a line takes few of them.
#[derive(Drop)]
pub(crate) struct Line<K: Key> {
    entries: Vec<(K, Chain)>,
    late: u32,
}

impl<K: Key> Model for Line<K> {
    ghost use Rattle.std.specs.Prelude.{List};
    ghost use Rattle.lrp_model.specs.declared.tuples.Cell.{Cell};
    ghost use Rattle.lrp_slots.specs.declared.chains.Chain.{Chain};
    ghost use Rattle.lrp_slots.specs.Lines.{IsLine};
    ghost use Rattle.lrp_slots.specs.Keys.{entries_by};

    ghost Value = { List (Cell × Chain) };

    ghost view = { λ l. entries_by K.cell_of l.entries.items };

    ghost invariant = { λ l. IsLine (entries_by K.cell_of l.entries.items) };
}

impl<K: Key> Line<K> {
    /// No cell is in line.
    pub(crate) fn new(alloc: Global) -> Self
        ensures { result ≡ [] }
    {
        Line {
            entries: Vec::new(alloc),
            late: 0,
        }
    }

    /// How many cells are in line. A caller learns here that they ascend.
    pub(crate) fn len(&self) -> usize
        ensures len { result ≡ length self.now }
        ensures ordered { IsLine self.now }
    {
        self.entries.len()
    }

    /// Whether no cell is in line.
    pub(crate) fn is_empty(&self) -> bool
        ensures { IsTrue result ↔ (length self.now ≡ 0) }
    {
        self.len() == 0
    }

    /// The chain of a cell.
    pub(crate) fn get(&self, cell: &Cell) -> Option<&Chain>
        ensures value { option_copied result ≡ chain_at self.now cell.now }
    {
        let place = place_of(&self.entries, cell)?;
        Some(&self.entries[place].1)
    }

    /// Sets the chain of a cell that is in line, and gives the one that it had.
    pub(crate) fn replace(&mut self, cell: &Cell, chain: Chain) -> Option<Chain>
        ensures held { result ≡ chain_at self.old cell.now }
        ensures some { OnSome result (self.new ≡ insert_entry cell_cmp self.old cell.now chain) }
        ensures none { IfNone result (self.new ≡ self.old) }
    {
        let place = place_of(&self.entries, cell)?;
        let (key, held) = self.entries[place];
        self.entries[place] = (key, chain);
        Some(held)
    }

    /// Puts one slot more at the end of the chain of a cell that is in line, and gives the chain as it was.
    pub(crate) fn lengthen(&mut self, cell: &Cell, slot: usize) -> Option<Chain>
        requires { IfSome (chain_at self.old cell.now) (λ chain. chain.count + 1 < 2 ^ 64) }
        ensures held { result ≡ chain_at self.old cell.now }
        ensures some { OnSome result (self.new ≡ insert_entry cell_cmp self.old cell.now
            (extended result slot)) }
        ensures none { IfNone result (self.new ≡ self.old) }
    {
        let place = place_of(&self.entries, cell)?;
        let (key, held) = self.entries[place];
        self.entries[place] = (key, extended(Some(held), slot));
        Some(held)
    }

    /// Puts a cell in line by its key, unless it comes too late, and tells whether it did.
    pub(crate) fn insert(&mut self, key: K, chain: Chain) -> Result<bool, Memory>
        requires { chain_at self.old (K.cell_of key) ≡ None }
        ensures put { result ≡ Ok true → self.new
            ≡ insert_entry cell_cmp self.old (K.cell_of key) chain }
        ensures left { result ≡ Ok false → self.new ≡ self.old }
        ensures err { OnErr result (self.new ≡ self.old) }
    {
        match search(&self.entries, &key) {
            Ok(_) => unreachable!(),
            Err(place) => self.insert_at(place, key, chain),
        }
    }

    /// Puts a cell that comes after all others in line.
    pub(crate) fn push(&mut self, key: K, chain: Chain) -> Result<(), Memory>
        requires { IsAfterAll (K.cell_of key) self.old }
        ensures { OnOk result (self.new ≡ self.old ++ (K.cell_of key, chain) ∷ []) }
    {
        self.entries.push((key, chain))?;
        Ok(())
    }

    // Puts a key at its place, unless it comes too late, and tells whether it did.
    fn insert_at(&mut self, place: usize, key: K, chain: Chain) -> Result<bool, Memory>
        requires { IsGap self.old (K.cell_of key) place }
        ensures put { result ≡ Ok true → self.new
            ≡ insert_entry cell_cmp self.old (K.cell_of key) chain }
        ensures left { result ≡ Ok false → self.new ≡ self.old }
        ensures err { OnErr result (self.new ≡ self.old) }
    {
        let moved = self.entries.len() - place;
        if moved > FEW && self.late >= MOST_LATE {
            return Ok(false);
        }
        self.entries.insert(place, (key, chain))?;
        self.late = late_with(self.late, moved);
        Ok(true)
    }

    /// Takes a cell and its chain out. It costs as much as there are cells after it.
    pub(crate) fn remove(&mut self, cell: &Cell)
        ensures { self.new ≡ remove_entry (is_at (cell_cmp cell.now)) self.old }
    {
        if let Some(place) = place_of(&self.entries, cell) {
            self.entries.remove(place);
        }
    }

    /// The tree of the cells.
    pub(crate) fn tree(&self, alloc: Global) -> Result<Tree, Memory>
        ensures { IfOk result (λ tree. tree ≡ self.now) }
    {
        let mut tree = Tree::new(alloc);
        for i in 0..self.entries.len() {
            let (key, chain) = self.entries[i];
            tree.insert(&key.cell(), chain)?;
        }
        Ok(tree)
    }

    /// The entries, in order.
    pub(crate) fn entries(&self) -> &[(K, Chain)]
        ensures ordered { IsLine self.now }
        ensures entries { entries_by K.cell_of result.now ≡ self.now }
    {
        &self.entries
    }
}

// How many cells have come late, with one more that moves these entries.
fn late_with(late: u32, moved: usize) -> u32 {
    if moved > FEW {
        late.saturating_add(1)
    } else {
        late
    }
}

// The place of a cell in a line.
fn place_of<K: Key>(line: &[(K, Chain)], cell: &Cell) -> Option<usize>
    requires { IsLine (entries_by K.cell_of line.now) }
    ensures none { IfNone result (chain_at (entries_by K.cell_of line.now) cell.now ≡ None) }
    ensures some { IfSome result (StandsInLine (entries_by K.cell_of line.now) cell.now) }
{
    let key = K::of(cell)?;
    search(line, &key).ok()
}

// The place of a key in a line, or the one where it is missing. The last one is looked at first, since cells mostly
// come in order.
fn search<K: Key>(line: &[(K, Chain)], key: &K) -> Result<usize, usize>
    requires { IsLine (entries_by K.cell_of line.now) }
    ensures there { IfOk result (StandsInLine (entries_by K.cell_of line.now) (K.cell_of key.now)) }
    ensures gap { IfErr result (IsGap (entries_by K.cell_of line.now) (K.cell_of key.now)) }
{
    let Some(last) = line.len().checked_sub(1) else {
        return Err(0);
    };
    match key.cmp(&line[last].0) {
        Ordering::Less => search_by_halving(line, key),
        Ordering::Equal => Ok(last),
        Ordering::Greater => Err(line.len()),
    }
}

// The same, by halving.
fn search_by_halving<K: Key>(line: &[(K, Chain)], key: &K) -> Result<usize, usize>
    requires { IsLine (entries_by K.cell_of line.now) }
    ensures there { IfOk result (StandsInLine (entries_by K.cell_of line.now) (K.cell_of key.now)) }
    ensures gap { IfErr result (IsGap (entries_by K.cell_of line.now) (K.cell_of key.now)) }
{
    let mut low = 0;
    let mut high = line.len();
    while low < high {
        let middle = low + (high - low) / 2;
        match key.cmp(&line[middle].0) {
            Ordering::Less => high = middle,
            Ordering::Equal => return Ok(middle),
            Ordering::Greater => low = middle + 1,
        }
    }
    Err(low)
}
