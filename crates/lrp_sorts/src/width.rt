// The variables that occur free in a formula, as they are counted.
ghost use Rattle.std.specs.Prelude.{◌≡◌, ◌∷◌, ◌++◌, [], List, ℕ, Bool, true, suc, not, bytes_eq, Some, IfOk, OnOk};
ghost use Rattle.lrp_model.specs.Texts.{Identifier, without};
ghost use Rattle.lrp_model.specs.Faults.{is_named_in};
ghost use Rattle.lrp_model.specs.Sorting.{Binders, binder_sort, too_many};
ghost use Rattle.lrp_model.specs.declared.raw.RawColumn.{RawColumn};
ghost use Rattle.lrp_model.specs.declared.relations.Sort.{Sort as SortOf};
ghost use Rattle.lrp_sorts.specs.Widths.{AreKeptNames, IsTally, names_after, passing};

use lrp_model::{Memory, Name, Sort};
use std::alloc::Global;

// The most columns of a kind in a head, and the most variables of a kind that may occur free in a formula.
pub const MOST: usize = 8;

/// The names of time variables and of data variables that occur free, each once. A list that is longer than 8 and the
/// number of the quantifiers around stays too long, however many of these take a name off, so it need not grow.
pub struct Tally<'a> {
    pub times: Vec<&'a Name>,
    pub texts: Vec<&'a Name>,
}

// It is let go by one call, which is proved once.
impl<'a> Drop for Tally<'a> {
    fn drop(self) {
        let Tally {
            times: _times,
            texts: _texts,
        } = self;
    }
}

impl<'a> Tally<'a> {
    // No names.
    pub fn new(alloc: Global) -> Self
        ensures { (bs : Binders) (quantifiers : ℕ) → IsTally bs quantifiers [] result }
    {
        Tally {
            times: Vec::new(alloc),
            texts: Vec::new(alloc),
        }
    }

    // One name more, whose binder has this sort.
    pub fn add(&mut self, quantifiers: usize, name: &'a Name, sort: &Sort) -> Result<(), Memory>
        ensures { OnOk result ((bs : Binders) (names : List Identifier)
            → binder_sort bs name.now ≡ Some sort.now → IsTally bs quantifiers names self.old
            → IsTally bs quantifiers (names ++ name.now ∷ []) self.new) }
    {
        if sort.is_time() {
            keep(&mut self.times, quantifiers, name)
        } else {
            keep(&mut self.texts, quantifiers, name)
        }
    }

    // The names of this formula and of another one.
    pub fn and(self, quantifiers: usize, other: Tally<'a>) -> Result<Tally<'a>, Memory>
        ensures { IfOk result (λ made. (bs : Binders) (names others : List Identifier)
            → IsTally bs quantifiers names self.entry → IsTally bs quantifiers others other.entry
            → IsTally bs quantifiers (names ++ others) made) }
    {
        let Tally { times, texts } = self;
        let Tally {
            times: more_times,
            texts: more_texts,
        } = other;
        Ok(Tally {
            times: merged(quantifiers, times, more_times)?,
            texts: merged(quantifiers, texts, more_texts)?,
        })
    }

    // Outside a quantifier, whose name is not free there.
    pub fn leave(&mut self, name: &Name)
        ensures { (c : RawColumn) (bs : Binders) (quantifiers : ℕ) (names : List Identifier)
            → c.name ≡ name.now → IsTally (c ∷ bs) (suc quantifiers) names self.old
            → IsTally bs quantifiers (without name.now names) self.new }
    {
        self.times.retain(|n| is_other(name, n));
        self.texts.retain(|n| is_other(name, n));
    }

    // More than 8 variables of sort time, or more than 8 of all data sorts together.
    pub fn is_wide(&self) -> bool
        ensures { (bs : Binders) (quantifiers : ℕ) (names : List Identifier)
            → IsTally bs quantifiers names self.now → result ≡ too_many bs names }
    {
        self.times.len() > MOST || self.texts.len() > MOST
    }
}

fn is_other(name: &Name, other: &Name) -> bool
    ensures { result ≡ not (bytes_eq name.now other.now) }
{
    name != other
}

fn is_among(names: &[&Name], name: &Name) -> bool
    ensures { result ≡ is_named_in (names_after names.now) name.now }
{
    names.iter().any(|n| *name == **n)
}

// A name among others of its kind, unless they are too many anyway.
fn keep<'a>(kept: &mut Vec<&'a Name>, quantifiers: usize, name: &'a Name) -> Result<(), Memory>
    ensures { OnOk result ((passes : SortOf → Bool) (bs : Binders) (names : List Identifier)
        → passing passes (binder_sort bs name.now) ≡ true
        → AreKeptNames passes bs quantifiers names (names_after kept.old.items)
        → AreKeptNames passes bs quantifiers (names ++ name.now ∷ [])
        (names_after kept.new.items)) }
{
    let more = kept.len().saturating_sub(MOST);
    if more <= quantifiers && !is_among(kept, name) {
        kept.push(name)?;
    }
    Ok(())
}

// The names of two lists. Those of the shorter one go after the others, so that a long list is neither copied nor gone
// through for each of its names.
fn merged<'a>(
    quantifiers: usize,
    left: Vec<&'a Name>,
    right: Vec<&'a Name>,
) -> Result<Vec<&'a Name>, Memory>
    ensures { IfOk result (λ made. (passes : SortOf → Bool) (bs : Binders)
        (names more : List Identifier) → AreKeptNames passes bs quantifiers names
        (names_after left.entry.items)
        → AreKeptNames passes bs quantifiers more (names_after right.entry.items)
        → AreKeptNames passes bs quantifiers (names ++ more) (names_after made.items)) }
{
    if left.len() < right.len() {
        appended(quantifiers, right, &left)
    } else {
        appended(quantifiers, left, &right)
    }
}

// The names of a list, and those of another one after them.
fn appended<'a>(
    quantifiers: usize,
    names: Vec<&'a Name>,
    others: &[&'a Name],
) -> Result<Vec<&'a Name>, Memory>
    ensures { IfOk result (λ made. (passes : SortOf → Bool) (bs : Binders)
        (some more : List Identifier) → AreKeptNames passes bs quantifiers some
        (names_after names.entry.items)
        → AreKeptNames passes bs quantifiers more (names_after others.now)
        → AreKeptNames passes bs quantifiers (some ++ more) (names_after made.items)) }
{
    let mut kept = names;
    keep_each(&mut kept, quantifiers, others)?;
    Ok(kept)
}

// The names of another list, each so.
fn keep_each<'a>(
    kept: &mut Vec<&'a Name>,
    quantifiers: usize,
    others: &[&'a Name],
) -> Result<(), Memory>
    ensures { OnOk result ((passes : SortOf → Bool) (bs : Binders) (names more : List Identifier)
        → AreKeptNames passes bs quantifiers names (names_after kept.old.items)
        → AreKeptNames passes bs quantifiers more (names_after others.now)
        → AreKeptNames passes bs quantifiers (names ++ more) (names_after kept.new.items)) }
{
    for name in others {
        keep(kept, quantifiers, *name)?;
    }
    Ok(())
}
