// Held rows by their keys, each with a label that tells it from others at a look.
ghost use Rattle.std.specs.Prelude.{◌≡◌, ◌≢◌, ◌<◌, [], None, Some, true, IfOk, IfSome, IsSomeAnd, OnErr, OnOk, length, option_copied};
ghost use Rattle.slab.specs.Slab.{Updates, get};
ghost use Rattle.lrp_kept.specs.Labels.{ExtendsLabels, HasOtherText, IsLabelOf, IsOtherText, IsTextLabelIn, IsTextLabelOf, IsOtherTextFor, first_most};
ghost use Rattle.lrp_kept.specs.declared.rows.HeldRow.{HeldRow as HeldRowValue};

use crate::outlines::Outline;
use crate::rows::{HeldRow, Sketch};
use lrp_model::{Bound, Memory};
use slab::Slab;
use std::alloc::Global;
use std::marker::Model;

/// Rows by their keys.
///
/// A row lies far from the next one, so a search through many of them waits for memory at each. Their labels stand in one
/// vector: most rows that are not sought are passed over by these alone.
pub struct HeldSources {
    rows: Slab<HeldRow>,
    labels: Vec<RowLabel>,
}

// A derived drop would be proved anew, type by type, in each crate that lets one go.
impl Drop for HeldSources {
    fn drop(self) {
        let HeldSources {
            rows: _rows,
            labels: _labels,
        } = self;
    }
}

impl Model for HeldSources {
    ghost use Rattle.slab.specs.Slab.{Slab};
    ghost use Rattle.lrp_kept.specs.Labels.{AreLabelled};
    ghost use Rattle.lrp_kept.specs.declared.rows.HeldRow.{HeldRow};

    ghost Value = { Slab HeldRow };

    ghost view = { λ s. s.rows };

    ghost invariant = { λ s. AreLabelled s.rows s.labels.items };
}

/// The number of a row's first bound, and a text for a first atom and for a later one.
#[derive(Clone, Copy)]
pub(crate) struct RowLabel {
    most: i64,
    first: Option<TextLabel>,
    later: Option<TextLabel>,
}

/// The number of the text that a row leaves to a variable of an atom.
#[derive(Clone, Copy)]
pub(crate) struct TextLabel {
    disjunct: usize,
    atom: usize,
    place: usize,
    text: u32,
}

impl HeldSources {
    /// No row is held.
    pub(crate) fn new(alloc: Global) -> HeldSources
        ensures empty { result.slots ≡ [] }
    {
        HeldSources {
            rows: Slab::new(alloc),
            labels: Vec::new(alloc),
        }
    }

    /// The row under a key, if there is one.
    pub fn get(&self, key: usize) -> Option<&HeldRow>
        ensures { option_copied result ≡ get self.now key }
    {
        self.rows.get(key)
    }

    /// Holds a row, and gives its key.
    pub(crate) fn insert(&mut self, source: HeldRow) -> Result<usize, Memory>
        ensures was_vacant { IfOk result (λ key. get self.old key ≡ None) }
        ensures updates { IfOk result (λ key. Updates self.old self.new key (Some source)) }
        ensures err { OnErr result (self.new ≡ record self.old { capacity = self.new.capacity }) }
    {
        let next = self.rows.vacant_key();
        make_room(&mut self.labels, next)?;
        let label = label_of(&source);
        let key = self.rows.insert(source)?;
        self.labels[key] = label;
        Ok(key)
    }

    /// Lets go the row under a key, if there is one.
    pub(crate) fn try_remove(&mut self, key: usize)
        ensures updates { Updates self.old self.new key None }
    {
        self.rows.try_remove(key);
    }

    /// Whether the label of a row tells that it leaves another text to an atom than an outline has.
    pub fn has_other_text(&self, key: usize, disjunct: usize, atom: usize, other: &Outline) -> bool
        ensures { result ≡ true → (source : HeldRowValue) → get self.now key ≡ Some source
            → HasOtherText source disjunct atom other.now }
    {
        match self.labels.get(key) {
            Some(label) => is_other_at(label, disjunct, atom, other),
            None => false,
        }
    }

    /// Whether the label of a row tells that its first bound has another number.
    pub(crate) fn has_other_most(&self, key: usize, most: i64) -> bool
        ensures { result ≡ true → (source : HeldRowValue) → get self.now key ≡ Some source
            → first_most source.row.bounds ≡ most → ⊥ }
    {
        match self.labels.get(key) {
            Some(label) => differ(label.most, most),
            None => false,
        }
    }
}

fn differ(number: i64, other: i64) -> bool
    ensures { result ≡ true → number ≢ other }
{
    number != other
}

/// The number of the first of some bounds; 0 where there is none.
pub(crate) fn first_most(bounds: &[Bound]) -> i64
    ensures { result ≡ first_most bounds.now }
{
    match bounds.first() {
        Some(bound) => bound.most,
        None => 0,
    }
}

// Makes room for the label of a key.
fn make_room(labels: &mut Vec<RowLabel>, key: usize) -> Result<(), Memory>
    ensures room { OnOk result (key < length labels.new.items) }
    ensures same { ExtendsLabels labels.old.items labels.new.items }
{
    while labels.len() <= key {
        labels.push(RowLabel {
            most: 0,
            first: None,
            later: None,
        })?;
    }
    Ok(())
}

fn label_of(source: &HeldRow) -> RowLabel
    ensures { IsLabelOf source.now result }
{
    RowLabel {
        most: first_most(source.row.bounds.as_slice()),
        first: first_label(&source.sketches),
        later: later_label(&source.sketches),
    }
}

// The last text that is known for a first atom: a later atom may share it.
fn first_label(sketches: &[Sketch]) -> Option<TextLabel>
    ensures { IfSome result (IsTextLabelOf sketches.now) }
{
    for sketch in sketches {
        if sketch.atom == 0 {
            return last_text(sketch);
        }
    }
    None
}

// The first text that is known for a later atom: those that it shares with the atoms before come first.
fn later_label(sketches: &[Sketch]) -> Option<TextLabel>
    ensures { IfSome result (IsTextLabelOf sketches.now) }
{
    for sketch in sketches {
        if sketch.atom != 0 {
            return first_text(sketch);
        }
    }
    None
}

fn last_text(sketch: &Sketch) -> Option<TextLabel>
    ensures { IfSome result (IsTextLabelIn sketch.now) }
{
    for turn in 0..8 {
        let label = text_at(sketch, 7 - turn);
        if label.is_some() {
            return label;
        }
    }
    None
}

fn first_text(sketch: &Sketch) -> Option<TextLabel>
    ensures { IfSome result (IsTextLabelIn sketch.now) }
{
    for place in 0..8 {
        let label = text_at(sketch, place);
        if label.is_some() {
            return label;
        }
    }
    None
}

// The text at a place of a sketch, if it is known.
fn text_at(sketch: &Sketch, place: usize) -> Option<TextLabel>
    ensures { IfSome result (IsTextLabelIn sketch.now) }
{
    match sketch.outline.texts.get(place) {
        Some(Some(text)) => Some(TextLabel {
            disjunct: sketch.disjunct,
            atom: sketch.atom,
            place,
            text: *text,
        }),
        _ => None,
    }
}

// Whether a row with this label leaves another text to an atom than an outline has.
fn is_other_at(label: &RowLabel, disjunct: usize, atom: usize, other: &Outline) -> bool
    ensures { result ≡ true → (source : HeldRowValue) → IsLabelOf source label.now
        → HasOtherText source disjunct atom other.now }
{
    if atom == 0 {
        is_told(&label.first, disjunct, atom, other)
    } else {
        is_told(&label.later, disjunct, atom, other)
    }
}

// Whether the text of an atom is known, and another than an outline has.
fn is_told(label: &Option<TextLabel>, disjunct: usize, atom: usize, other: &Outline) -> bool
    ensures { result ≡ true
        → IsSomeAnd label.now (λ text. IsOtherTextFor text disjunct atom other.now) }
{
    match label {
        Some(text) => is_of(text, disjunct, atom) && is_other(text, other),
        None => false,
    }
}

fn is_of(label: &TextLabel, disjunct: usize, atom: usize) -> bool
    ensures disjunct { result ≡ true → label.now.disjunct ≡ disjunct }
    ensures atom { result ≡ true → label.now.atom ≡ atom }
{
    label.disjunct == disjunct && label.atom == atom
}

// Whether the text is another than the outline has at its place.
fn is_other(label: &TextLabel, other: &Outline) -> bool
    ensures { result ≡ true → IsOtherText label.now other.now }
{
    match other.texts.get(label.place) {
        Some(Some(text)) => *text != label.text,
        _ => false,
    }
}
