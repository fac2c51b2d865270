// The cells in order, and the values of one cell in order.
ghost use Rattle.std.specs.Prelude.{◌≡◌, IfSome};
ghost use Rattle.std.specs.Iterator.{YieldsFirst, YieldsFirstRef, item_count};
ghost use Rattle.slab.specs.Slab.{get};
ghost use Rattle.lrp_slots.specs.Links.{AreHeld, chain_keys, list_of};

use crate::chains::{Chain, Link};
use crate::key::Key;
use crate::medium::Medium;
use crate::narrow::Narrow;
use lrp_model::Cell;
use slab::Slab;
use std::collections::btree_map;
use std::marker::Model;

/// The cells with their chains in order, seen as the list of those that are left.
#[derive(Drop)]
pub(crate) struct ChainEntries<'a> {
    pub(crate) line: LineEntries<'a>,
    pub(crate) tree: Branches<'a>,
}

impl<'a> Model for ChainEntries<'a> {
    ghost use Rattle.std.specs.Prelude.{List, ◌++◌};
    ghost use Rattle.lrp_model.specs.declared.tuples.Cell.{Cell};
    ghost use Rattle.lrp_slots.specs.declared.chains.Chain.{Chain};

    ghost Value = { List (Cell × Chain) };

    ghost view = { λ a. a.line ++ a.tree };
}

impl<'a> Iterator for ChainEntries<'a> {
    type Item = (Cell, Chain);

    ghost next_gives = { YieldsFirst (λ left. left) };

    ghost remaining = { item_count (λ left. left) };

    fn next(&mut self) -> Option<(Cell, Chain)> {
        if let Some(entry) = self.line.next() {
            return Some(entry);
        }
        self.tree.next()
    }
}

/// The cells in line with their chains in order, seen as the list of those that are left.
#[derive(Drop)]
pub(crate) struct LineEntries<'a> {
    pub(crate) narrow: &'a [(Narrow, Chain)],
    pub(crate) medium: &'a [(Medium, Chain)],
}

impl<'a> Model for LineEntries<'a> {
    ghost use Rattle.std.specs.Prelude.{List, ◌++◌};
    ghost use Rattle.lrp_model.specs.declared.tuples.Cell.{Cell};
    ghost use Rattle.lrp_slots.specs.declared.chains.Chain.{Chain};
    ghost use Rattle.lrp_slots.specs.Keys.{entries_by};
    ghost use Rattle.lrp_slots.specs.Narrow.{wide};
    ghost use Rattle.lrp_slots.specs.Medium.{medium_cell};

    ghost Value = { List (Cell × Chain) };

    ghost view = { λ a. entries_by wide a.narrow.now ++ entries_by medium_cell a.medium.now };
}

impl<'a> Iterator for LineEntries<'a> {
    type Item = (Cell, Chain);

    ghost next_gives = { YieldsFirst (λ left. left) };

    ghost remaining = { item_count (λ left. left) };

    fn next(&mut self) -> Option<(Cell, Chain)> {
        if let Some((entry, rest)) = self.narrow.split_first() {
            self.narrow = rest;
            return Some((entry.0.cell(), entry.1));
        }
        let (entry, rest) = self.medium.split_first()?;
        self.medium = rest;
        Some((entry.0.cell(), entry.1))
    }
}

/// The cells of a tree with their chains in order, seen as the list of those that are left.
#[derive(Drop)]
pub(crate) struct Branches<'a> {
    pub(crate) narrow: btree_map::Iter<'a, Narrow, Chain>,
    pub(crate) wide: btree_map::Iter<'a, Cell, Chain>,
}

impl<'a> Model for Branches<'a> {
    ghost use Rattle.std.specs.Prelude.{List, ◌++◌};
    ghost use Rattle.lrp_model.specs.declared.tuples.Cell.{Cell};
    ghost use Rattle.lrp_slots.specs.declared.chains.Chain.{Chain};
    ghost use Rattle.lrp_slots.specs.Narrow.{wide_entries};

    ghost Value = { List (Cell × Chain) };

    ghost view = { λ b. wide_entries b.narrow ++ b.wide };
}

impl<'a> Iterator for Branches<'a> {
    type Item = (Cell, Chain);

    ghost next_gives = { YieldsFirst (λ left. left) };

    ghost remaining = { item_count (λ left. left) };

    fn next(&mut self) -> Option<(Cell, Chain)> {
        if let Some((key, chain)) = self.narrow.next() {
            return Some((key.cell(), *chain));
        }
        let (cell, chain) = self.wide.next()?;
        Some((*cell, *chain))
    }
}

/// The cells that are held, ascending by texts and then by residues, seen as the list of those that are left.
#[derive(Drop)]
pub struct Cells<'a> {
    pub(crate) left: ChainEntries<'a>,
}

impl<'a> Model for Cells<'a> {
    ghost use Rattle.std.specs.Prelude.{List};
    ghost use Rattle.lrp_model.specs.declared.tuples.Cell.{Cell};
    ghost use Rattle.std.specs.Map.{keys_of};

    ghost Value = { List Cell };

    ghost view = { λ a. keys_of a.left };
}

impl<'a> Iterator for Cells<'a> {
    type Item = Cell;

    ghost next_gives = { YieldsFirst (λ left. left) };

    ghost remaining = { item_count (λ left. left) };

    fn next(&mut self) -> Option<Cell> {
        let (cell, _) = self.left.next()?;
        Some(cell)
    }
}

/// The cells that are held, ascending, each with its values, seen as the list of those that are left.
///
/// No cell is looked up: one pass over the cells, and over the links of each.
#[derive(Drop)]
pub struct Lists<'a, V> {
    pub(crate) links: &'a Slab<Link<V>>,
    pub(crate) left: ChainEntries<'a>,
}

impl<'a, V> Model for Lists<'a, V> {
    ghost use Rattle.std.specs.Prelude.{List};
    ghost use Rattle.slab.specs.Slab.{get};
    ghost use Rattle.lrp_model.specs.declared.tuples.Cell.{Cell};

    ghost Value = { List (Cell × List V) };

    ghost use Rattle.lrp_slots.specs.Links.{values_of_chains, AreHeldChains};

    ghost view = { λ a. values_of_chains (get a.links.now) a.left };

    ghost invariant = { λ a. AreHeldChains (get a.links.now) a.left };
}

impl<'a, V> Iterator for Lists<'a, V> {
    type Item = (Cell, ChainValues<'a, V>);

    ghost next_gives = { YieldsFirst (λ left. left) };

    ghost remaining = { item_count (λ left. left) };

    fn next(&mut self) -> Option<(Cell, ChainValues<'a, V>)> {
        let links = self.links;
        let (cell, chain) = self.left.next()?;
        let values = ChainValues::along(links, Some(chain));
        Some((cell, values))
    }
}

/// The values of one cell in order, seen as the list of those that are left. Each step follows one link.
#[derive(Drop)]
pub struct ChainValues<'a, V> {
    links: &'a Slab<Link<V>>,
    next: usize,
    left: usize,
}

impl<'a, V> Model for ChainValues<'a, V> {
    ghost use Rattle.std.specs.Prelude.{List};
    ghost use Rattle.slab.specs.Slab.{get};

    ghost Value = { List V };

    ghost use Rattle.lrp_slots.specs.Links.{values_at, keys_from, AreHeld};

    ghost view = { λ a. values_at (get a.links.now) (keys_from (get a.links.now) a.left a.next) };

    ghost invariant = { λ a. AreHeld (get a.links.now) (keys_from (get a.links.now) a.left a.next) };
}

impl<'a, V> ChainValues<'a, V> {
    // The values of a chain, if there is one.
    pub(crate) fn along(links: &'a Slab<Link<V>>, held: Option<Chain>) -> Self
        requires { IfSome held (λ chain. AreHeld (get links.now)
            (chain_keys (get links.now) chain)) }
        ensures { result ≡ list_of (get links.now) held }
    {
        match held {
            Some(chain) => ChainValues {
                links,
                next: chain.first,
                left: chain.count,
            },
            None => ChainValues {
                links,
                next: 0,
                left: 0,
            },
        }
    }
}

impl<'a, V> Iterator for ChainValues<'a, V> {
    type Item = &'a V;

    ghost next_gives = { YieldsFirstRef (λ left. left) };

    ghost remaining = { item_count (λ left. left) };

    fn next(&mut self) -> Option<&'a V> {
        if self.left == 0 {
            return None;
        }
        let links = self.links;
        let link = &links[self.next];
        self.next = link.next;
        self.left -= 1;
        Some(&link.value)
    }
}
