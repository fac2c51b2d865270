// What is asked of a tuple.
ghost use Rattle.std.specs.Prelude.{◌≡◌, ◌<◌, ◌≤◌, ◌-◌, ◌++◌, [], ◌∷◌, ℕ, List, IfOk, IfSome, IfNone, MatchOption, length, take, replicate, slice_index_or, None, false};
ghost use Rattle.lrp_zone.specs.Zones.{ZoneView, columns_of};
ghost use Rattle.lrp_steps.specs.Conditions.{IsWithPair, IsWithZone};
ghost use Rattle.lrp_steps.specs.Patterns.{part_of, AreLow, AreKnown, IsKnownToo, IsNotKnown, AreNumbersAt, IsWithPiece, HasNoPiece};

use crate::lent::{PatternRef, lent_from};
use crate::pair::TextPair;
use lrp_model::{Cell, Copies, List, Memory};
use lrp_tables::{Piece, Places};
use lrp_zone::Zone;
use std::alloc::Global;

/// A zone, and the places of its columns among those of a longer tuple, counted from 1, with zeros after them.
#[derive(Clone, Copy)]
pub struct Placed {
    pub zone: Zone,
    pub places: [usize; 8],
}

/// The numbers of texts that are known, by data column.
pub type Known = [Option<u32>; 8];

/// What is asked of a tuple: its times at the places are tuples of the zones, its texts are the known ones, and the texts of
/// each pair of columns are equal.
pub struct Pattern {
    pub zones: List<Placed>,
    pub texts: Known,
    pub equal: List<TextPair>,
}

impl Drop for Pattern {
    fn drop(self) {
        let Pattern {
            zones: _zones,
            texts: _texts,
            equal: _equal,
        } = self;
    }
}

impl Copies for Placed {
    fn copy(&self, _alloc: Global) -> Result<Self, Memory> {
        Ok(*self)
    }
}

impl Placed {
    /// The zone at these places.
    pub fn at(zone: &Zone, places: &[usize]) -> Placed
        requires { length places.now ≡ columns_of zone.now }
        ensures { part_of result ≡ record { zone = zone.now; places = places.now } }
    {
        let mut all = [0; 8];
        for i in 0..zone.columns() {
            all[i] = places[i];
        }
        Placed {
            zone: *zone,
            places: all,
        }
    }
}

impl Copies for Pattern {
    fn copy(&self, alloc: Global) -> Result<Self, Memory> {
        Ok(Pattern {
            zones: self.zones.copy(alloc)?,
            texts: self.texts,
            equal: self.equal.copy(alloc)?,
        })
    }
}

impl Pattern {
    /// Nothing is asked.
    pub fn new(alloc: Global) -> Pattern
        ensures { result ≡ record { zones = []; texts = replicate 8 None; equal = [] } }
    {
        Pattern {
            zones: List::new(alloc),
            texts: [None; 8],
            equal: List::new(alloc),
        }
    }

    /// The times at the places are to be a tuple of the zone too.
    pub fn with_zone(self, zone: &Zone, places: &[usize]) -> Result<Pattern, Memory>
        requires { length places.now ≡ columns_of zone.now }
        ensures { IfOk result (IsWithZone self (record { zone = zone.now; places = places.now })) }
    {
        let Pattern {
            zones,
            texts,
            equal,
        } = self;
        let zones = and_zone(zones, Placed::at(zone, places))?;
        Ok(Pattern {
            zones,
            texts,
            equal,
        })
    }

    /// Two data columns, counted from 1, are to have one text.
    pub fn with_pair(self, left: usize, right: usize) -> Result<Pattern, Memory>
        requires left_low { 0 < left }
        requires left_high { left ≤ 8 }
        requires right_low { 0 < right }
        requires right_high { right ≤ 8 }
        ensures { IfOk result (IsWithPair self left right) }
    {
        let Pattern {
            zones,
            texts,
            mut equal,
        } = self;
        equal.push(TextPair {
            left: left - 1,
            right: right - 1,
        })?;
        Ok(Pattern {
            zones,
            texts,
            equal,
        })
    }

    /// The known numbers are these.
    pub fn with_texts(self, texts: Known) -> Pattern
        ensures { result ≡ record self { texts = texts } }
    {
        let Pattern {
            zones,
            texts: _known,
            equal,
        } = self;
        Pattern {
            zones,
            texts,
            equal,
        }
    }

    /// The same, with zones that stand here.
    pub fn lent(&self, alloc: Global) -> Result<PatternRef<'_>, Memory>
        ensures { IfOk result (λ made. made ≡ self.now) }
    {
        Ok(PatternRef {
            zones: lent_from(alloc, self.zones.as_slice())?,
            texts: self.texts,
            equal: self.equal.as_slice(),
        })
    }
}

// The zones, and one more after them. The first one takes room for itself alone, since most patterns have one.
fn and_zone(zones: List<Placed>, last: Placed) -> Result<List<Placed>, Memory>
    ensures { IfOk result (λ made. made ≡ zones ++ last ∷ []) }
{
    let mut all = zones.into_vec();
    if all.is_empty() {
        all.reserve_exact(1)?;
    }
    all.push(last)?;
    Ok(List::from_vec(all))
}

/// The number of a column is known too; `None` where it has another one.
pub fn known_at(known: &Known, column: usize, number: u32) -> Option<Known>
    requires size { length known.now ≡ 8 }
    requires low { column < 8 }
    ensures { MatchOption result (IsNotKnown known.now column number)
        (IsKnownToo known.now column number) }
{
    if let Some(other) = known[column] {
        if other != number {
            return None;
        }
    }
    let mut new = *known;
    new[column] = Some(number);
    Some(new)
}

/// The first numbers are known too, at these places.
pub(crate) fn known_too(known: &Known, places: &[usize], numbers: &[u32; 8]) -> Option<Known>
    requires size { length known.now ≡ 8 }
    requires eight { length numbers.now ≡ 8 }
    requires low { AreLow places.now }
    requires few { length places.now ≤ 8 }
    ensures none { IfNone result ((texts : List ℕ) → AreKnown known.now texts
        → AreNumbersAt places.now numbers.now (length places.now) texts → ⊥) }
    ensures to { IfSome result (λ new. (texts : List ℕ) → AreKnown new texts
        → AreKnown known.now texts × AreNumbersAt places.now numbers.now
        (length places.now) texts) }
    ensures from { IfSome result (λ new. (texts : List ℕ) → AreKnown known.now texts
        → AreNumbersAt places.now numbers.now (length places.now) texts → AreKnown new texts) }
    ensures eight { IfSome result (λ new. length new ≡ 8) }
{
    let mut found = *known;
    for i in 0..places.len() {
        found = known_at(&found, places[i] - 1, numbers[i])?;
    }
    Some(found)
}
