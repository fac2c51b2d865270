// The rows that are held.
ghost use Rattle.std.specs.Prelude.{◌≡◌, ◌↔◌, ◌<◌, false, [], ◌∷◌, ◌++◌, length, Contains, slice_get, Some, IfSome, IfNone, IfOk, IsTrue, OnErr, OnOk, MatchOption};
ghost use Rattle.slab.specs.Slab.{get};
ghost use Rattle.lrp_model.specs.Kept.{AreKept};
ghost use Rattle.lrp_kept.specs.Keys.{IsSketchOf, keys_at, keys_of};
ghost use Rattle.lrp_kept.specs.EqualRows.{AreEqualRows};
ghost use Rattle.lrp_kept.specs.Held.{names_of};
ghost use Rattle.lrp_kept.specs.Labels.{first_most};
ghost use Rattle.lrp_kept.specs.Keyed.{AreRelisted, AreSameRows, HasNoEqualRow, IsEmptyOf, IsEmptyRelation, IsFirstEqual, IsHeldAfter, IsLetGoAt, IsUnlisted};

use crate::equal_rows::are_equal;
use crate::outlines::Outline;
use crate::sources::{HeldSources, first_most};
use lrp_database::Database;
use lrp_model::{Column, Copies, List, Memory, Name, Relation, Row};
use std::alloc::Global;

/// What a row leaves to the variables of an atom of a disjunct, by their numbers from 0 on.
#[derive(Clone, Copy)]
pub struct Sketch {
    pub disjunct: usize,
    pub atom: usize,
    pub outline: Outline,
}

/// A row that is held: the number of its relation, and a sketch for each atom that reads the relation.
pub struct HeldRow {
    pub relation: usize,
    pub row: Row,
    pub sketches: Vec<Sketch>,
}

// A derived drop would be proved anew, type by type, in each crate that lets one go.
impl Drop for HeldRow {
    fn drop(self) {
        let HeldRow {
            relation: _relation,
            row: _row,
            sketches: _sketches,
        } = self;
    }
}

impl HeldRow {
    /// What the row leaves to the variables of an atom, if it is known.
    pub fn outline(&self, disjunct: usize, atom: usize) -> Option<&Outline>
        ensures { IfSome result (λ o. IsSketchOf self.now disjunct atom o.now) }
    {
        for sketch in &self.sketches {
            if sketch.disjunct == disjunct && sketch.atom == atom {
                return Some(&sketch.outline);
            }
        }
        None
    }
}

/// A relation with the keys of the rows now held, in order, and the greatest magnitude of a bound that one ever had.
#[derive(Drop)]
pub struct HeldRelation {
    pub name: Name,
    pub columns: List<Column>,
    pub keys: Vec<usize>,
    pub most: u64,
}

/// The relations of a database, and the rows that they now hold by their keys.
pub struct HeldRows {
    pub relations: Vec<HeldRelation>,
    pub sources: HeldSources,
}

// A derived drop would be proved anew, type by type, in each crate that lets one go.
impl Drop for HeldRows {
    fn drop(self) {
        let HeldRows {
            relations: _relations,
            sources: _sources,
        } = self;
    }
}

impl HeldRows {
    /// The relations of a database, of which no row is held yet.
    pub fn of(alloc: Global, database: &Database) -> Result<HeldRows, Memory>
        ensures empty { IfOk result (IsEmptyOf database.now) }

        // A caller learns here what each database keeps.
        ensures kept { AreKept database.now }
    {
        let mut relations = Vec::new(alloc);
        for i in 0..database.relations() {
            let relation = empty(alloc, database.at(i))?;
            relations.push(relation)?;
        }
        Ok(HeldRows {
            relations,
            sources: HeldSources::new(alloc),
        })
    }

    /// The number of the relation with this name, from 0.
    pub fn relation(&self, name: &Name) -> Option<usize>
        ensures some { IfSome result (λ number. slice_get (names_of self.now) number
            ≡ Some name.now) }
        ensures none { IfNone result (Contains (names_of self.now) name.now → ⊥) }
    {
        for number in 0..self.relations.len() {
            if self.relations[number].name == *name {
                return Some(number);
            }
        }
        None
    }

    /// Where the first row that is equal to this one stands among those of its relation.
    pub fn place_of(&self, relation: usize, row: &Row) -> Option<usize>
        requires { relation < length self.now.relations.items }
        ensures { MatchOption result (HasNoEqualRow self.now relation row.now)
            (IsFirstEqual self.now relation row.now) }
    {
        let keys = &self.relations[relation].keys;
        let most = first_most(row.bounds.as_slice());
        for place in 0..keys.len() {
            if self.is_equal(keys[place], row, most) {
                return Some(place);
            }
        }
        None
    }

    // Whether there is a row under the key that is equal to this one, the first bound of which has this number.
    fn is_equal(&self, key: usize, row: &Row, most: i64) -> bool
        requires { most ≡ first_most row.now.bounds }
        ensures { MatchOption (get self.now.sources key) (result ≡ false)
            (λ source. IsTrue result ↔ AreEqualRows source.row row.now) }
    {
        if self.sources.has_other_most(key, most) {
            return false;
        }
        match self.sources.get(key) {
            Some(source) => are_equal(&source.row, row),
            None => false,
        }
    }

    /// Puts a row after the others of its relation, and gives its key.
    pub fn hold(&mut self, source: HeldRow) -> Result<usize, Memory>
        requires { source.relation < length self.old.relations.items }
        ensures held { IfOk result (λ key. IsHeldAfter source key self.old self.new) }
        ensures same { OnErr result (AreSameRows self.old self.new) }
    {
        let relation = source.relation;
        let key = self.sources.insert(source)?;
        match list_key(&mut self.relations, relation, key) {
            Ok(()) => Ok(key),
            Err(memory) => {
                self.sources.try_remove(key);
                Err(memory)
            }
        }
    }

    /// Lets go the row at a place among those of its relation, and gives the key that it had.
    pub fn let_go(&mut self, relation: usize, place: usize) -> usize
        requires relation { relation < length self.old.relations.items }
        requires place { place < length (keys_of self.old relation) }
        ensures { IsLetGoAt relation place result self.old self.new }
    {
        let key = unlist_key(&mut self.relations, relation, place);
        self.sources.try_remove(key);
        key
    }
}

// Puts a key after the others of a relation.
fn list_key(relations: &mut Vec<HeldRelation>, relation: usize, key: usize) -> Result<(), Memory>
    requires { relation < length relations.old.items }
    ensures listed { OnOk result (AreRelisted relation
        (keys_at relations.old.items relation ++ key ∷ []) relations.old.items
        relations.new.items) }
    ensures same { OnErr result (AreRelisted relation
        (keys_at relations.old.items relation) relations.old.items relations.new.items) }
{
    relations[relation].keys.push(key)?;
    Ok(())
}

// Takes out the key at a place among those of a relation.
fn unlist_key(relations: &mut Vec<HeldRelation>, relation: usize, place: usize) -> usize
    requires relation { relation < length relations.old.items }
    requires place { place < length (keys_at relations.old.items relation) }
    ensures { IsUnlisted relation place result relations.old.items relations.new.items }
{
    relations[relation].keys.remove(place)
}

// A relation of which no row is held yet.
fn empty(alloc: Global, relation: &Relation) -> Result<HeldRelation, Memory>
    ensures { IfOk result (IsEmptyRelation relation.now) }
{
    Ok(HeldRelation {
        name: relation.name.copy(alloc)?,
        columns: relation.columns.copy(alloc)?,
        keys: Vec::new(alloc),
        most: 0,
    })
}
