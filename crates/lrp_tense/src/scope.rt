// What surrounds a formula while it is expanded: how operators are numbered, and the variables that are bound.
ghost use Rattle.std.specs.Prelude.{◌≡◌, ◌<◌, [], List as ListOf, length, IfOk, OnOk};
ghost use Rattle.lrp_model.specs.declared.tokens.Place.{Place as PlaceOf};
ghost use Rattle.lrp_model.specs.Texts.{Identifier};
ghost use Rattle.std.specs.List.Sorted.{IsNonDecreasing};
ghost use Rattle.lrp_tense.specs.Expanding.{present_name, moment_name, between_name};
ghost use Rattle.lrp_tense.specs.Named.{naming_of};
ghost use Rattle.lrp_tense.specs.Numbers.{met, ranked, next_number};
ghost use Rattle.lrp_tense.specs.Scopes.{ScopeView, inside_variable, past_one};

use crate::counting::number;
use crate::variables::{ScopedVariable, look_of};
use itoa::Buffer;
use lrp_model::{Memory, Name, Place};
use std::alloc::Global;
use std::marker::Model;

/// The names that an operator over two formulas brings: of its moment, and of each moment between.
#[derive(Drop)]
pub struct Moments {
    pub own: Name,
    pub between: Name,
}

/// The variables around a formula, the innermost last, and how operators are numbered: in the order in which they are met,
/// whose places are kept, or by the positions of all of them in order. Beside them room for the text of a name.
///
/// An occurrence of a variable finds its present name here, so no part of a formula is copied only to be renamed.
pub struct OperatorScope<'a> {
    variables: Vec<ScopedVariable<'a>>,
    is_ranked: bool,
    places: Vec<Place>,
    positions: Vec<u64>,
    bytes: Vec<u8>,
}

impl<'a> Drop for OperatorScope<'a> {
    fn drop(self) {
        let OperatorScope {
            variables: _variables,
            is_ranked: _is_ranked,
            places: _places,
            positions: _positions,
            bytes: _bytes,
        } = self;
    }
}

impl<'a> Model for OperatorScope<'a> {
    ghost use Rattle.std.specs.Prelude.{cond};
    ghost use Rattle.std.specs.List.Sorted.{IsNonDecreasing};
    ghost use Rattle.lrp_tense.specs.Named.{naming_of};
    ghost use Rattle.lrp_tense.specs.Numbers.{met, ranked};
    ghost use Rattle.lrp_tense.specs.Scopes.{ScopeView};

    ghost Value = { ScopeView };

    ghost view = { λ a. record { numbers = cond a.is_ranked (ranked a.positions.items) (met a.places.items); names = naming_of a.variables.items } };

    ghost invariant = { λ a. IsNonDecreasing a.positions.items };
}

impl<'a> OperatorScope<'a> {
    /// No variable, and operators are numbered as they are met.
    pub fn counting(alloc: Global) -> Self
        ensures { result ≡ record { numbers = met []; names = [] } }
    {
        OperatorScope {
            variables: Vec::new(alloc),
            is_ranked: false,
            places: Vec::new(alloc),
            positions: Vec::new(alloc),
            bytes: Vec::new(alloc),
        }
    }

    /// No variable, and operators are numbered by these positions of all of them.
    pub fn ranking(alloc: Global, positions: Vec<u64>) -> Self
        requires { IsNonDecreasing positions.items }
        ensures { result ≡ record { numbers = ranked positions.items; names = [] } }
    {
        OperatorScope {
            variables: Vec::new(alloc),
            is_ranked: true,
            places: Vec::new(alloc),
            positions,
            bytes: Vec::new(alloc),
        }
    }

    /// The number of the next operator, which stands at a place.
    pub fn number(&mut self, place: Place) -> Result<u64, Memory>
        ensures value { IfOk result (λ number. number ≡ next_number self.old.numbers place) }
        ensures scope { OnOk result (self.new ≡ past_one self.old place) }
    {
        if self.is_ranked {
            return Ok(number(self.positions.as_slice(), place));
        }
        self.places.push(place)?;
        Ok(self.places.len() as u64)
    }

    /// The places of the operators that were met, where they are numbered so.
    pub fn into_places(self) -> Vec<Place>
        ensures { (places : ListOf PlaceOf) → self.entry.numbers ≡ met places
            → result.items ≡ places }
    {
        let OperatorScope {
            variables: _variables,
            is_ranked: _is_ranked,
            places,
            positions: _positions,
            bytes: _bytes,
        } = self;
        places
    }

    /// The name of a written variable here: what the innermost that binds it gives, and else its own.
    pub fn present<'b>(&'b self, written: &'b Name) -> &'b Name
        ensures { result.now ≡ present_name self.now.names written.now }
    {
        present(self.variables.as_slice(), written)
    }

    /// The name of an operator's moment, of its variable's name and its number.
    pub fn moment(&mut self, alloc: Global, name: &Name, number: u64) -> Result<Name, Memory>
        ensures name { IfOk result (λ made. made ≡ moment_name name.now number) }
        ensures scope { OnOk result (self.new ≡ self.old) }
    {
        write_moment(&mut self.bytes, name, number)?;
        Name::of_bytes(alloc, self.bytes.as_slice())
    }

    /// The same, and the name of each moment between.
    pub fn moments(&mut self, alloc: Global, name: &Name, number: u64) -> Result<Moments, Memory>
        ensures own { IfOk result (λ made. made.own ≡ moment_name name.now number) }
        ensures between { IfOk result (λ made. made.between ≡ between_name name.now number) }
        ensures scope { OnOk result (self.new ≡ self.old) }
    {
        write_moment(&mut self.bytes, name, number)?;
        let own = Name::of_bytes(alloc, self.bytes.as_slice())?;
        self.bytes.push(b'~')?;
        let between = Name::of_bytes(alloc, self.bytes.as_slice())?;
        Ok(Moments { own, between })
    }

    /// One variable further in.
    pub fn enter(&mut self, written: &'a Name, present: Name) -> Result<(), Memory>
        ensures { OnOk result (self.new ≡ inside_variable self.old written.now present) }
    {
        self.variables.push(ScopedVariable::new(written, present))?;
        Ok(())
    }

    /// Out of the innermost variable, whose name is given back.
    pub fn leave(&mut self) -> Name
        requires { 0 < length self.old.names }
        ensures { (v present : Identifier) (outer : ScopeView)
            → self.old ≡ inside_variable outer v present
            → (result ≡ present) × (self.new ≡ outer) }
    {
        self.variables.take_last().into_present()
    }
}

// The name that the last of these variables which is so written gives, and else its own.
fn present<'b>(variables: &'b [ScopedVariable<'_>], written: &'b Name) -> &'b Name
    ensures { result.now ≡ present_name (naming_of variables.now) written.now }
{
    let look = look_of(written);
    let mut left = variables.len();
    while left > 0 {
        left -= 1;
        let around = &variables[left];
        if around.is_written(look, written) {
            return around.present();
        }
    }
    written
}

// The name of an operator's moment, in place of what the bytes were.
fn write_moment(bytes: &mut Vec<u8>, name: &Name, number: u64) -> Result<(), Memory>
    ensures { OnOk result (bytes.new.items ≡ moment_name name.now number) }
{
    bytes.clear();
    bytes.extend_from_slice(name.as_bytes())?;
    bytes.push(b'~')?;
    bytes.extend_from_slice(Buffer::new().format(number).as_bytes())?;
    Ok(())
}
