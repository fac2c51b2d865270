// How uses of definitions and `*` are numbered: by the places of their atoms, in each text by itself.
ghost use Rattle.std.specs.Prelude.{◌≡◌, ◌<◌, ◌+◌, ◌-◌, ◌++◌, ◌^◌, List as ListOf, IfOk, IsTrue, OnOk, cond};
ghost use Rattle.lrp_model.specs.RawQueries.{raw_form_of, raw_forms_of};
ghost use Rattle.lrp_model.specs.Rows.{columns_in, relation_named};
ghost use Rattle.lrp_wide.specs.Inlining.{Known, atom_numbers as numbers_of_atom, meant_by, numbers_before};
ghost use Rattle.lrp_wide.specs.Counts.{AreAscending, AreRelationsNumbered, IsFirstAfter, counted_of, end_before, kept_each, kept_in, stopped};
ghost use Rattle.lrp_tense.specs.Expanding.{is_before as is_before_of};

use crate::measures::{stars_of, terms_of};
use lrp_model::{Memory, Name, Place, RawFormula, RawKind, RawTerm, numbered};
use lrp_sorts::Definitions;
use std::alloc::Global;
use std::cell::Cell;
use std::marker::Model;

// An atom that takes numbers: how many, and how many those that were met before it take. Both stop at the greatest word: a
// definition that nothing uses may take any number.
#[derive(Clone, Copy)]
struct Counted {
    place: Place,
    numbers: u64,
    before: u64,
}

/// The atoms of a text that take numbers, as they were met; in a text that was read they stand in the order of their places. Most
/// are asked for in this order.
pub struct Numbers {
    atoms: Vec<Counted>,
    total: u64,
    is_ascending: bool,
    next: Cell<usize>,
}

impl Drop for Numbers {
    fn drop(self) {
        let Numbers {
            atoms: _atoms,
            total: _total,
            is_ascending: _is_ascending,
            next: _next,
        } = self;
    }
}

impl Model for Numbers {
    ghost use Rattle.std.specs.Prelude.{List};
    ghost use Rattle.lrp_wide.specs.Inlining.{Counted as CountedOf};
    ghost use Rattle.lrp_wide.specs.Counts.{AreSummed, counted_of};

    ghost Value = { List CountedOf };

    ghost view = { λ n. counted_of n.atoms.items };

    ghost invariant = { λ n. AreSummed n.atoms.items n.total n.is_ascending };
}

/// The sum of two numbers.
///
/// # Errors
///
/// It has no number of 32 bits, as each sum has in a query whose formulas are within their limit.
pub fn plus(left: u64, right: u64) -> Result<u64, Memory>
    ensures sum { IfOk result (λ sum. sum ≡ left + right) }
    ensures below { IfOk result (λ sum. sum < 2 ^ 64 - 1) }
{
    let sum = numbered(left.saturating_add(right) as usize)?;
    Ok(u64::from(sum))
}

// Whether the first place stands before the second.
fn is_before(place: Place, other: Place) -> bool
    ensures { result ≡ is_before_of place other }
{
    place.line < other.line || (place.line == other.line && place.column < other.column)
}

// Whether the last of these atoms stands before a place.
fn ends_before(atoms: &[Counted], place: Place) -> bool
    ensures { result ≡ end_before atoms.now place }
{
    match atoms.last() {
        Some(last) => is_before(last.place, place),
        None => true,
    }
}

// Whether these atoms stand in the order of their places, and before a further place too.
fn ascends(is_ascending: bool, atoms: &[Counted], place: Place) -> bool
    ensures { IsTrue result → IsTrue is_ascending × IsTrue (end_before atoms.now place) }
{
    is_ascending && ends_before(atoms, place)
}

// Room for a first atom: most texts of definitions have no other that takes numbers.
fn make_room(atoms: &mut Vec<Counted>) -> Result<(), Memory>
    ensures { atoms.new.items ≡ atoms.old.items }
{
    if atoms.is_empty() {
        atoms.reserve_exact(1)?;
    }
    Ok(())
}

impl Numbers {
    ghost use Rattle.std.specs.Prelude.{◌≡◌, ◌++◌, [], List, IfOk, OnOk};
    ghost use Rattle.lrp_wide.specs.Inlining.{Counted as CountedOf, counted_atom, numbers_before, numbers_of};
    ghost use Rattle.lrp_wide.specs.Counts.{stopped, stopped_counts};

    // None yet.
    fn new(alloc: Global) -> Self
        ensures { result ≡ [] }
    {
        Numbers {
            atoms: Vec::new(alloc),
            total: 0,
            is_ascending: true,
            next: Cell::new(0),
        }
    }

    // One atom more, where it takes numbers.
    fn count(&mut self, place: Place, numbers: u64) -> Result<(), Memory>
        ensures { OnOk result (self.new ≡ self.old ++ counted_atom place numbers) }
    {
        if numbers == 0 {
            return Ok(());
        }
        let before = self.total;
        let is_ascending = ascends(self.is_ascending, self.atoms.as_slice(), place);
        make_room(&mut self.atoms)?;
        self.atoms.push(Counted {
            place,
            numbers,
            before,
        })?;
        self.total = before.saturating_add(numbers);
        self.is_ascending = is_ascending;
        Ok(())
    }

    // How many numbers all atoms take.
    fn total(&self) -> u64
        ensures { result ≡ stopped (numbers_of self.now) }
    {
        self.total
    }

    /// The same numbers, of which none has stopped.
    ///
    /// # Errors
    ///
    /// Their sum has no number of 32 bits, as each has in a text that a query uses whose formulas are within their limit.
    pub fn whole(&self) -> Result<&Numbers, Memory>
        ensures { IfOk result (λ made. (counted : List CountedOf)
            → self.now ≡ stopped_counts counted → made.now ≡ counted) }
    {
        numbered(self.total as usize)?;
        Ok(self)
    }

    /// How many numbers the atoms before a place take.
    pub fn before(&self, place: Place) -> u64
        ensures { result ≡ stopped (numbers_before self.now place) }
    {
        if self.total == 0 {
            return 0;
        }
        let atoms = self.atoms.as_slice();
        if !self.is_ascending {
            return sum_before(atoms, place);
        }
        let first = first_from(atoms, self.next.get(), place);
        self.next.set(first.saturating_add(1));
        if first == atoms.len() {
            return self.total;
        }
        atoms[first].before
    }
}

// How many of the atoms, which stand in the order of their places, stand before a place.
fn first_after(atoms: &[Counted], place: Place) -> usize
    requires { AreAscending atoms.now }
    ensures { IsFirstAfter atoms.now place result }
{
    atoms.partition_point(|atom| is_before(atom.place, place))
}

// The same, with a guess, which is right where places are asked for in their order.
fn first_from(atoms: &[Counted], guess: usize, place: Place) -> usize
    requires { AreAscending atoms.now }
    ensures { IsFirstAfter atoms.now place result }
{
    if is_first_after(atoms, guess, place) {
        return guess;
    }
    first_after(atoms, place)
}

// Whether the atom with a number is known to be the first that doesn't stand before a place.
fn is_first_after(atoms: &[Counted], number: usize, place: Place) -> bool
    requires { AreAscending atoms.now }
    ensures { IsTrue result → IsFirstAfter atoms.now place number }
{
    if number >= atoms.len() {
        return false;
    }
    let atom = &atoms[number];
    if is_before(atom.place, place) {
        return false;
    }
    if number == 0 {
        return true;
    }
    let last = &atoms[number - 1];
    is_before(last.place, place)
}

// How many numbers the atoms before a place take, in any order.
fn sum_before(atoms: &[Counted], place: Place) -> u64
    ensures { result ≡ stopped (numbers_before (counted_of atoms.now) place) }
{
    let mut sum = 0u64;
    for atom in atoms {
        sum = sum.saturating_add(taken_before(*atom, place));
    }
    sum
}

// How many numbers an atom takes, where it stands before a place.
fn taken_before(atom: Counted, place: Place) -> u64
    ensures { result ≡ cond (is_before_of atom.place place) atom.numbers 0 }
{
    if is_before(atom.place, place) {
        atom.numbers
    } else {
        0
    }
}

/// The numbers of a text, where those of the definitions before are known.
pub fn number_text(
    alloc: Global,
    definitions: &Definitions<'_>,
    known: &[Numbers],
    f: &RawFormula,
) -> Result<Numbers, Memory>
    ensures { IfOk result (λ made. (ks : ListOf Known)
        → AreRelationsNumbered ks definitions.now.definitions known.now
        → made ≡ kept_in definitions.now.relations ks (raw_form_of f.now)) }
{
    let mut numbers = Numbers::new(alloc);
    count_in(&mut numbers, definitions, known, f)?;
    Ok(numbers)
}

// Counts the atoms of a formula.
#[cycle(numbering)]
fn count_in(
    numbers: &mut Numbers,
    definitions: &Definitions<'_>,
    known: &[Numbers],
    f: &RawFormula,
) -> Result<(), Memory>
    ensures { OnOk result ((ks : ListOf Known)
        → AreRelationsNumbered ks definitions.now.definitions known.now → numbers.new
        ≡ numbers.old ++ kept_in definitions.now.relations ks (raw_form_of f.now)) }
{
    match &f.kind {
        RawKind::Atom { relation, terms } => {
            let taken = atom_numbers(definitions, known, relation, terms.as_slice());
            numbers.count(f.place, taken)
        }
        RawKind::Compare { .. } => Ok(()),
        RawKind::Member { .. } => Ok(()),
        RawKind::Not { of } => count_in(numbers, definitions, known, of),
        RawKind::Group { of } => count_in(numbers, definitions, known, of),
        RawKind::Exists { of, .. } => count_in(numbers, definitions, known, of),
        RawKind::Forall { of, .. } => count_in(numbers, definitions, known, of),
        RawKind::Ranged { of, .. } => count_in(numbers, definitions, known, of),
        RawKind::And { of } => count_each(numbers, definitions, known, of),
        RawKind::Or { of } => count_each(numbers, definitions, known, of),
        RawKind::Implies { left, right } => {
            count_in(numbers, definitions, known, left)?;
            count_in(numbers, definitions, known, right)
        }
        RawKind::Paired { left, right, .. } => {
            count_in(numbers, definitions, known, left)?;
            count_in(numbers, definitions, known, right)
        }
    }
}

#[cycle(numbering)]
fn count_each(
    numbers: &mut Numbers,
    definitions: &Definitions<'_>,
    known: &[Numbers],
    fs: &[RawFormula],
) -> Result<(), Memory>
    ensures { OnOk result ((ks : ListOf Known)
        → AreRelationsNumbered ks definitions.now.definitions known.now → numbers.new
        ≡ numbers.old ++ kept_each definitions.now.relations ks (raw_forms_of fs.now)) }
{
    for f in fs {
        count_in(numbers, definitions, known, f)?;
    }
    Ok(())
}

// How many numbers an atom takes: one for a use, one for each `*`, and those of the definition that is used.
fn atom_numbers(
    definitions: &Definitions<'_>,
    known: &[Numbers],
    name: &Name,
    terms: &[RawTerm],
) -> u64
    ensures { (ks : ListOf Known) → AreRelationsNumbered ks definitions.now.definitions known.now
        → result ≡ stopped (numbers_of_atom
        (columns_in (relation_named definitions.now.relations name.now)) terms.now
        (meant_by definitions.now.relations ks name.now)) }
{
    if let Some(number) = definitions.number(name, known.len()) {
        let stars = terms_of(definitions.at(number).columns.as_slice(), terms).stars;
        return stars
            .saturating_add(1)
            .saturating_add(known[number].total());
    }
    stars_of(definitions, name, terms)
}
