// The names of a quantifier, which have one sort.
ghost use Rattle.std.specs.Prelude.{◌≡◌, ◌<◌, ◌≤◌, ◌-◌, ◌∷◌, ◌++◌, ℕ, [], map, length, IfOk, OnOk};
ghost use Rattle.lrp_text.specs.Parsers.{Reads};
ghost use Rattle.lrp_query.specs.Reading.{ReadsEach};
ghost use Rattle.lrp_query.specs.Rules.{binders_rule, column_at, names_from};
ghost use Rattle.lrp_query.specs.Grammars.{name_and_place};

use lrp_model::{Copies, Fault, List, Memory, Name, Place, RawColumn, Sort, Symbol};
use lrp_text::{TokenCursor, sort};
use std::alloc::Global;

// A name and its place.
#[derive(Drop)]
struct PlacedName {
    name: Name,
    place: Place,
}

// One more name after the others.
fn add(names: &mut Vec<PlacedName>, one: PlacedName) -> Result<(), Memory>
    ensures { OnOk result (names.new.items ≡ names.old.items ++ one ∷ []) }
{
    Ok(names.push(one)?)
}

// One name or more, with commas between.
fn read_names(alloc: Global, tokens: &mut TokenCursor<'_>) -> Result<Vec<PlacedName>, Fault>
    ensures value { (turns : ℕ) → length tokens.old < turns → ReadsEach name_and_place
        (names_from turns [] tokens.old) result tokens.new }
    ensures shorter { IfOk result (λ _. length tokens.new ≤ length tokens.old) }
    ensures some { IfOk result (λ names. 0 < length names.items) }
{
    let mut names = Vec::new(alloc);
    loop {
        let (name, place) = tokens.name(alloc)?;
        add(&mut names, PlacedName { name, place })?;
        if !tokens.eat(Symbol::Comma) {
            return Ok(names);
        }
    }
}

// The column of a name, of a sort that stands at a place.
fn column_of(
    alloc: Global,
    one: &PlacedName,
    sort: &Sort,
    sort_place: Place,
) -> Result<RawColumn, Memory>
    ensures { IfOk result (λ made. made ≡ column_at (sort.now, sort_place) (name_and_place one.now)) }
{
    Ok(RawColumn {
        name: one.name.copy(alloc)?,
        place: one.place,
        sort: sort.copy(alloc)?,
        sort_place,
    })
}

// The columns of these names, all of one sort that stands at a place.
fn columns_of(
    alloc: Global,
    names: &[PlacedName],
    sort: &Sort,
    sort_place: Place,
) -> Result<List<RawColumn>, Memory>
    ensures { IfOk result (λ made. made ≡ map (column_at (sort.now, sort_place))
        (map name_and_place names.now)) }
{
    let mut columns = List::from_vec(Vec::with_capacity(alloc, names.len())?);
    for one in names {
        columns.push(column_of(alloc, one, sort, sort_place)?)?;
    }
    Ok(columns)
}

/// The binders of a quantifier, after its word: one name or more, a colon and a sort.
#[tactic(auto, unfolding(crate::specs::Rules::binders_rule))]
pub fn read_binders(alloc: Global, tokens: &mut TokenCursor<'_>) -> Result<List<RawColumn>, Fault>
    ensures value { (turns : ℕ) → length tokens.old < turns
        → Reads (binders_rule turns tokens.old) result tokens.new }
    ensures fewer { IfOk result (λ _. length tokens.new < length tokens.old) }
    ensures some { IfOk result (λ made. 0 < length made) }
{
    let names = read_names(alloc, tokens)?;
    tokens.expect(Symbol::Colon)?;
    let (sort, place) = sort(alloc, tokens)?;
    Ok(columns_of(alloc, names.as_slice(), &sort, place)?)
}

/// A depth that is left, less so many; none is left where it is smaller.
pub fn deeper(depth: u32, names: usize) -> u32
    ensures { result ≡ depth - names }
{
    match u32::try_from(names) {
        Ok(names) => depth.saturating_sub(names),
        Err(_) => 0,
    }
}
