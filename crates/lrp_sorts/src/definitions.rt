// Definitions beside a database, each as a relation without rows, looked up by their names.
ghost use Rattle.std.specs.Prelude.{◌≡◌, ◌<◌, ◌++◌, ◌&&◌, List as ListOf, [], ◌∷◌, Some, map, not, get_or, length, slice_get, IfOk, IfSome, IsTrue, OnOk};
ghost use Rattle.lrp_model.specs.Faults.{is_named_in};
ghost use Rattle.lrp_model.specs.Texts.{Identifier};
ghost use Rattle.lrp_sorts.specs.Definitions.{AreMarked, AreNamesNumbered, definition_number, is_marked, is_taken, rowless as rowless_of};

use crate::resolving::plain_columns;
use lrp_database::Database;
use lrp_model::{Copies, List, Memory, Name, RawColumn, Relation};
use std::alloc::Global;
use std::cell::Cell;
use std::collections::HashMap;
use std::marker::Model;

/// A database, and definitions in order. Most names that are none of theirs are told by their first byte, as are most that no
/// relation has, and most that are stand near the one that was found last, or are that of the definition right before the text
/// in which they stand.
pub struct Definitions<'a> {
    db: &'a Database,
    all: Vec<Relation>,
    numbers: HashMap<Name, usize>,
    initials: Box<[bool; 256]>,
    taken: Box<[bool; 256]>,
    are_new: bool,
    last: Cell<usize>,
}

// It is let go by one call, which is proved once.
impl<'a> Drop for Definitions<'a> {
    fn drop(self) {
        let Definitions {
            db: _db,
            all: _all,
            numbers: _numbers,
            initials: _initials,
            taken: _taken,
            are_new: _are_new,
            last: _last,
        } = self;
    }
}

impl<'a> Model for Definitions<'a> {
    ghost use Rattle.std.specs.Prelude.{map};
    ghost use Rattle.lrp_sorts.specs.Definitions.{IsNumberingOf, Defined};

    ghost Value = { Defined };

    ghost view = { λ d. record { relations = d.db.now; definitions = d.all.items } };

    // The number of a name that is no relation's is that of the first definition which has it, and its first byte is known. It is
    // known of all names whether each is new.
    ghost invariant = { λ d. IsNumberingOf d.numbers d.initials.value d.taken.value d.are_new
        (map (λ r. r.name) d.db.now) (map (λ r. r.name) d.all.items) };
}

impl<'a> Definitions<'a> {
    /// None yet, with room for this many.
    pub fn with_room(alloc: Global, db: &'a Database, count: usize) -> Result<Self, Memory>
        ensures { IfOk result (λ made. made ≡ record { relations = db.now; definitions = [] }) }
    {
        Ok(Definitions {
            db,
            all: Vec::with_capacity(alloc, count)?,
            numbers: HashMap::with_capacity(alloc, count)?,
            initials: Box::new(alloc, [false; 256])?,
            taken: initials_of(alloc, db)?,
            are_new: true,
            last: Cell::new(0),
        })
    }

    /// The database.
    pub fn database(&self) -> &'a Database
        ensures { result.now ≡ self.now.relations }
    {
        self.db
    }

    /// How many there are.
    pub fn len(&self) -> usize
        ensures { result ≡ length self.now.definitions }
    {
        self.all.len()
    }

    /// The number of the definition that a name means among this many of the first. A relation's name is no definition's, and of
    /// two definitions of one name it is the first one.
    pub fn number(&self, name: &Name, before: usize) -> Option<usize>
        ensures number { result ≡ definition_number self.now before name.now }
        ensures before { IfSome result (λ i. i < before) }
        ensures there { IfSome result (λ i. i < length self.now.definitions) }
    {
        if before == 0 {
            return None;
        }
        if !may_begin(&self.initials, name) {
            return None;
        }
        if let Some(number) = self.near(name, before) {
            self.last.set(number);
            return Some(number);
        }
        let number = *self.numbers.get(name)?;
        self.last.set(number);
        (number < before).then_some(number)
    }

    // The same, where it is the definition that was found last, the next one, or the last of those that count.
    fn near(&self, name: &Name, before: usize) -> Option<usize>
        ensures number { IfSome result (λ i. Some i ≡ definition_number self.now before name.now) }
        ensures before { IfSome result (λ i. i < before) }
        ensures there { IfSome result (λ i. i < length self.now.definitions) }
    {
        let last = self.last.get();
        if self.is_meant(name, last, before) {
            return Some(last);
        }
        let next = last.saturating_add(1);
        if self.is_meant(name, next, before) {
            return Some(next);
        }
        let end = before.saturating_sub(1);
        if self.is_meant(name, end, before) {
            return Some(end);
        }
        None
    }

    // Whether the definition that has a number below a bound is known to be what a name means.
    fn is_meant(&self, name: &Name, number: usize, before: usize) -> bool
        ensures number { IsTrue result → Some number ≡ definition_number self.now before name.now }
        ensures before { IsTrue result → number < before }
        ensures there { IsTrue result → number < length self.now.definitions }
    {
        if !self.are_new {
            return false;
        }
        if number >= before {
            return false;
        }
        if number >= self.all.len() {
            return false;
        }
        self.all[number].name == *name
    }

    /// A definition as a relation without rows.
    pub fn at(&self, number: usize) -> &Relation
        requires { number < length self.now.definitions }
        ensures { slice_get self.now.definitions number ≡ Some result.now }
    {
        &self.all[number]
    }

    /// The same with a definition more, after the others, and whether its name is new.
    pub fn with(
        self,
        alloc: Global,
        name: &Name,
        columns: &[RawColumn],
    ) -> Result<(Definitions<'a>, bool), Memory>
        ensures new { IfOk result (λ made. made.1 ≡ not (is_taken self.entry name.now)) }
        ensures added { IfOk result (λ made. made.0 ≡ record self.entry {
          definitions = self.entry.definitions ++ rowless_of name.now columns.now ∷ [];
        }) }
    {
        let Definitions {
            db,
            all,
            numbers,
            initials,
            taken,
            are_new,
            last,
        } = self;
        let mut all = all;
        let mut numbers = numbers;
        let mut initials = initials;
        let relations = Relations {
            db,
            initials: &taken,
        };
        let is_new = add_number(alloc, relations, &mut numbers, name, all.len())?;
        mark(&mut initials, name);
        all.push(rowless(alloc, name, columns)?)?;
        let made = Definitions {
            db,
            all,
            numbers,
            initials,
            taken,
            are_new: all_new(are_new, is_new),
            last,
        };
        Ok((made, is_new))
    }
}

// The first byte of a name, or 0 where it has none.
fn first_byte(name: &Name) -> u8
    ensures { result ≡ get_or name.now 0 0 }
{
    match name.as_bytes().first() {
        Some(first) => *first,
        None => 0,
    }
}

// Whether one of the names whose first bytes are marked begins as this one does.
fn may_begin(initials: &[bool; 256], name: &Name) -> bool
    ensures { result ≡ is_marked initials.now name.now }
{
    initials[usize::from(first_byte(name))]
}

// Marks the first byte of a name.
fn mark(initials: &mut [bool; 256], name: &Name)
    ensures { (names : ListOf Identifier) → AreMarked initials.old names
        → AreMarked initials.new (names ++ name.now ∷ []) }
{
    initials[usize::from(first_byte(name))] = true;
}

// Whether names are new, and one more.
fn all_new(are_new: bool, is_new: bool) -> bool
    ensures { result ≡ (are_new && is_new) }
{
    are_new && is_new
}

// The first bytes of the names of a database's relations, marked.
fn initials_of(alloc: Global, db: &Database) -> Result<Box<[bool; 256]>, Memory>
    ensures { IfOk result (λ made. AreMarked made.value (map (λ r. r.name) db.now)) }
{
    let mut initials = Box::new(alloc, [false; 256])?;
    for i in 0..db.relations() {
        mark(&mut initials, &db.at(i).name);
    }
    Ok(initials)
}

// A database, and the first bytes of its relations' names.
#[derive(Clone, Copy)]
struct Relations<'a> {
    db: &'a Database,
    initials: &'a [bool; 256],
}

// Whether no relation of the database has the name.
fn is_apart(relations: Relations<'_>, name: &Name) -> bool
    requires { AreMarked relations.initials.now (map (λ r. r.name) relations.db.now) }
    ensures { result ≡ not (is_named_in (map (λ r. r.name) relations.entry.db.now) name.now) }
{
    if !may_begin(relations.initials, name) {
        return true;
    }
    relations.db.relation(name).is_none()
}

// The number of a name that is new; one that is there has its number, and a relation's has none. Whether it is new.
fn add_number(
    alloc: Global,
    relations: Relations<'_>,
    numbers: &mut HashMap<Name, usize>,
    name: &Name,
    number: usize,
) -> Result<bool, Memory>
    requires { AreMarked relations.initials.now (map (λ r. r.name) relations.db.now) }
    ensures new { IfOk result (λ is_new. (names : ListOf Identifier)
        → AreNamesNumbered numbers.old (map (λ r. r.name) relations.entry.db.now) names
        → is_new ≡ not (is_named_in (map (λ r. r.name) relations.entry.db.now ++ names) name.now)) }
    ensures numbers { OnOk result ((names : ListOf Identifier) → number ≡ length names
        → AreNamesNumbered numbers.old (map (λ r. r.name) relations.entry.db.now) names
        → AreNamesNumbered numbers.new (map (λ r. r.name) relations.entry.db.now)
        (names ++ name.now ∷ [])) }
{
    if !is_apart(relations, name) {
        return Ok(false);
    }
    let Some(earlier) = numbers.insert(name.copy(alloc)?, number)? else {
        return Ok(true);
    };
    numbers.insert(name.copy(alloc)?, earlier)?;
    Ok(false)
}

// A relation without rows.
fn rowless(alloc: Global, name: &Name, columns: &[RawColumn]) -> Result<Relation, Memory>
    ensures { IfOk result (λ made. made ≡ rowless_of name.now columns.now) }
{
    Ok(Relation {
        name: name.copy(alloc)?,
        columns: plain_columns(alloc, columns)?,
        rows: List::new(alloc),
    })
}
