// Columns by their names.
ghost use Rattle.std.specs.Prelude.{◌≡◌, Some, slice_get, IfOk, IfSome, IfNone, Contains};
ghost use Rattle.lrp_tables.specs.Columns.{joint, IsPlace, ArePlacesOf};
ghost use Rattle.lrp_tables.specs.Tables.{AreNamesAmong};
ghost use Rattle.lrp_model.specs.Texts.{without};

use crate::Vars;
use lrp_model::{List, Memory, Name};
use std::alloc::Global;

/// The places of a table's time columns and of its data columns among those of a longer tuple, both counted from 1.
pub struct Places {
    pub times: List<usize>,
    pub texts: List<usize>,
}

impl Drop for Places {
    fn drop(self) {
        let Places {
            times: _times,
            texts: _texts,
        } = self;
    }
}

/// The number of the column with this name, from 0, where there is one.
pub fn place_of(names: &List<Name>, name: &Name) -> Option<usize>
    ensures some { IfSome result (λ place. slice_get names.now place ≡ Some name.now) }
    ensures none { IfNone result (Contains names.now name.now → ⊥) }
{
    for place in 0..names.len() {
        if names.at(place) == name {
            return Some(place);
        }
    }
    None
}

/// The names but this one, in order.
pub fn without(alloc: Global, names: &List<Name>, name: &Name) -> Result<List<Name>, Memory>
    ensures { IfOk result (λ made. made ≡ without name.now names.now) }
{
    let mut kept = List::new(alloc);
    for other in names.as_slice() {
        if name != other {
            kept.push(other.copy(alloc)?)?;
        }
    }
    Ok(kept)
}

/// The names, and after them those of the second list that are new, each once.
pub fn joint(alloc: Global, names: &List<Name>, more: &List<Name>) -> Result<List<Name>, Memory>
    ensures { IfOk result (λ made. made ≡ joint names.now more.now) }
{
    let mut made = names.copy(alloc)?;
    for name in more.as_slice() {
        if place_of(&made, name).is_none() {
            made.push(name.copy(alloc)?)?;
        }
    }
    Ok(made)
}

// The place of a name among these, counted from 1, where it is one of them.
fn column_of(all: &List<Name>, name: &Name) -> usize
    ensures { Contains all.now name.now → IsPlace all.now result name.now }
{
    for (place, other) in all.as_slice().iter().enumerate() {
        if name == other {
            return place + 1;
        }
    }
    0
}

/// For each of the names its place among all of them, counted from 1, as `Zone::spread` takes places.
pub fn places_among(
    alloc: Global,
    names: &List<Name>,
    all: &List<Name>,
) -> Result<Vec<usize>, Memory>
    requires { AreNamesAmong names.now all.now }
    ensures { IfOk result (λ places. ArePlacesOf names.now all.now places.items) }
{
    let mut places = Vec::new(alloc);
    for name in names.as_slice() {
        places.push(column_of(all, name))?;
    }
    Ok(places)
}

/// The places of these variables among all of them.
pub fn places_of(alloc: Global, vars: &Vars, all: &Vars) -> Result<Places, Memory>
    requires times { AreNamesAmong vars.now.times all.now.times }
    requires texts { AreNamesAmong vars.now.texts all.now.texts }
    ensures times { IfOk result (λ places. ArePlacesOf vars.now.times all.now.times places.times) }
    ensures texts { IfOk result (λ places. ArePlacesOf vars.now.texts all.now.texts places.texts) }
{
    Ok(Places {
        times: List::from_vec(places_among(alloc, &vars.times, &all.times)?),
        texts: List::from_vec(places_among(alloc, &vars.texts, &all.texts)?),
    })
}
