// What is asked of a tuple by zones that stand elsewhere.
ghost use Rattle.std.specs.Prelude.{◌≡◌, ◌≤◌, ◌++◌, [], ◌∷◌, IfOk, MatchOption, false, length, map};
ghost use Rattle.lrp_zone.specs.Zones.{ZoneView, columns_of};
ghost use Rattle.lrp_steps.specs.Conditions.{IsWithZone};
ghost use Rattle.lrp_steps.specs.Patterns.{part_of, AreLow, HasNoPiece, IsWithPiece};

use crate::pair::TextPair;
use crate::pattern::{Known, Placed, known_too};
use lrp_model::{Cell, Memory};
use lrp_systems::Part;
use lrp_tables::{Piece, Places};
use lrp_zone::Zone;
use std::alloc::Global;
use std::marker::Model;

/// A zone that stands elsewhere, and the places of its columns, seen as a placed zone.
#[derive(Drop)]
pub struct PlacedRef<'a> {
    zone: &'a Zone,
    places: [usize; 8],
}

impl<'a> Model for PlacedRef<'a> {
    ghost use Rattle.lrp_steps.specs.declared.pattern.Placed.{Placed};

    ghost Value = { Placed };

    ghost view = { λ p. record { zone = p.zone.now; places = p.places } };
}

/// A pattern whose zones stand elsewhere, seen as the pattern. One more zone is asked for without a copy of any.
pub struct PatternRef<'a> {
    pub(crate) zones: Vec<PlacedRef<'a>>,
    pub(crate) texts: Known,
    pub(crate) equal: &'a [TextPair],
}

impl<'a> Drop for PatternRef<'a> {
    fn drop(self) {
        let PatternRef {
            zones: _zones,
            texts: _texts,
            equal: _equal,
        } = self;
    }
}

impl<'a> Model for PatternRef<'a> {
    ghost use Rattle.lrp_steps.specs.declared.pattern.Pattern.{Pattern};

    ghost Value = { Pattern };

    ghost view = { λ p. record { zones = p.zones.items; texts = p.texts; equal = p.equal.now } };
}

impl<'a> PlacedRef<'a> {
    /// The zone where it stands.
    fn of(placed: &'a Placed) -> PlacedRef<'a>
        ensures { result ≡ placed.now }
    {
        PlacedRef {
            zone: &placed.zone,
            places: placed.places,
        }
    }

    /// The zone at these places.
    fn at(zone: &'a Zone, places: &[usize]) -> PlacedRef<'a>
        requires { length places.now ≡ columns_of zone.now }
        ensures { part_of result ≡ record { zone = zone.now; places = places.now } }
    {
        let mut all = [0; 8];
        for i in 0..zone.columns() {
            all[i] = places[i];
        }
        PlacedRef { zone, places: all }
    }

    // The zone at the places that stand in an array.
    fn with(zone: &'a Zone, places: [usize; 8]) -> PlacedRef<'a>
        ensures { result ≡ record { zone = zone.now; places = places } }
    {
        PlacedRef { zone, places }
    }

    // The zone.
    fn zone(&self) -> &'a Zone
        ensures { result.now ≡ self.now.zone }
    {
        self.zone
    }

    // The places of its columns.
    fn places(&self) -> [usize; 8]
        ensures { result ≡ self.now.places }
    {
        self.places
    }

    /// The part that it is.
    pub(crate) fn part(&self) -> Part<'a>
        ensures { result ≡ part_of self.now }
    {
        Part::of(self.zone, &self.places)
    }

    /// Whether a column stands at the place.
    pub fn has_place(&self, place: usize) -> bool {
        has_place(&self.places, place)
    }
}

impl<'a> PatternRef<'a> {
    /// The known numbers.
    pub fn texts(&self) -> &Known
        ensures { result.now ≡ self.now.texts }
    {
        &self.texts
    }

    /// The zones at their places.
    pub fn zones(&self) -> &[PlacedRef<'a>]
        ensures { result.now ≡ self.now.zones }
    {
        &self.zones
    }

    /// The pairs of columns that are to have one text.
    pub(crate) fn equal(&self) -> &'a [TextPair]
        ensures { result.now ≡ self.now.equal }
    {
        self.equal
    }

    /// Whether tuples of a cell may be as the pattern asks: no other texts are known at the places.
    pub fn may_have(&self, cell: &Cell, places: &Places) -> bool
        requires texts { AreLow places.now.texts }
        requires few { length places.now.texts ≤ 8 }
        requires eight { length cell.now.texts ≡ 8 }
        requires known { length self.now.texts ≡ 8 }
        ensures { result ≡ false → (zone : ZoneView)
            → HasNoPiece self.now places.now (record { cell = cell.now; zone = zone }) }
    {
        match known_too(self.texts(), places.texts.as_slice(), &cell.texts) {
            Some(_) => true,
            None => false,
        }
    }
}

/// A pattern, and a zone that is asked for too.
#[derive(Clone, Copy)]
pub struct ZoneAsked<'a, 'z> {
    pub pattern: &'a PatternRef<'z>,
    pub zone: &'a Zone,
}

impl<'a, 'z> ZoneAsked<'a, 'z> {
    /// The times at the places are to be a tuple of the zone too.
    pub fn at(self, alloc: Global, places: &[usize]) -> Result<PatternRef<'a>, Memory>
        requires { length places.now ≡ columns_of self.zone.now }
        ensures { IfOk result (IsWithZone self.entry.pattern.now
            (record { zone = self.entry.zone.now; places = places.now })) }
    {
        let last = PlacedRef::at(self.zone, places);
        let zones = zones_and(alloc, self.pattern.zones(), last)?;
        Ok(PatternRef {
            zones,
            texts: *self.pattern.texts(),
            equal: self.pattern.equal(),
        })
    }
}

/// A pattern, and a zone of a table that is asked for too, with its texts.
#[derive(Clone, Copy)]
pub struct PieceAsked<'a, 'z> {
    pub pattern: &'a PatternRef<'z>,
    pub piece: &'a Piece,
}

impl<'a, 'z> PieceAsked<'a, 'z> {
    /// The pattern of both; `None` where other texts are known.
    pub fn at(self, alloc: Global, places: &Places) -> Result<Option<PatternRef<'a>>, Memory>
        requires times { length places.now.times ≡ columns_of self.piece.now.zone }
        requires texts { AreLow places.now.texts }
        requires few { length places.now.texts ≤ 8 }
        requires eight { length self.piece.now.cell.texts ≡ 8 }
        requires known { length self.pattern.now.texts ≡ 8 }
        ensures { IfOk result (λ found. MatchOption found
            (HasNoPiece self.entry.pattern.now places.now self.entry.piece.now)
            (IsWithPiece self.entry.pattern.now places.now self.entry.piece.now)) }
    {
        let known = self.pattern.texts();
        let Some(texts) = known_too(known, places.texts.as_slice(), &self.piece.cell.texts) else {
            return Ok(None);
        };
        let last = PlacedRef::at(&self.piece.zone, places.times.as_slice());
        let zones = zones_and(alloc, self.pattern.zones(), last)?;
        Ok(Some(PatternRef {
            zones,
            texts,
            equal: self.pattern.equal(),
        }))
    }
}

/// References to the zones, in order.
pub(crate) fn lent_from(alloc: Global, zones: &[Placed]) -> Result<Vec<PlacedRef<'_>>, Memory>
    ensures { IfOk result (λ made. made.items ≡ zones.now) }
{
    let mut lent = Vec::with_capacity(alloc, zones.len())?;
    for placed in zones {
        lent.push(PlacedRef::of(placed))?;
    }
    Ok(lent)
}

// The zones, and one more at places after them.
fn zones_and<'a>(
    alloc: Global,
    zones: &'a [PlacedRef<'_>],
    last: PlacedRef<'a>,
) -> Result<Vec<PlacedRef<'a>>, Memory>
    ensures { IfOk result (λ made. made.items ≡ zones.now ++ last.entry ∷ []) }
{
    let mut all = Vec::with_capacity(alloc, zones.len() + 1)?;
    for placed in zones {
        let zone = placed.zone();
        all.push(PlacedRef::with(zone, placed.places()))?;
    }
    all.push(last)?;
    Ok(all)
}

/// Whether the place is one of these.
pub fn has_place(places: &[usize], place: usize) -> bool {
    for other in places {
        if *other == place {
            return true;
        }
    }
    false
}
