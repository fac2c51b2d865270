// Operators as they are written: where one stands, its variable, and what it is beside.
ghost use Rattle.std.specs.Prelude.{◌≡◌};
ghost use Rattle.lrp_model.specs.RawQueries.{operator_at};
ghost use Rattle.lrp_tense.specs.Written.{operator_of};

use crate::written_out::OperatorPlaces;
use lrp_model::{Name, Paired, Place, Ranged};

/// Where an operator stands, and its variable.
#[derive(Clone, Copy)]
pub struct Operator<'a> {
    pub places: OperatorPlaces,
    pub name: &'a Name,
}

/// An operator with an interval: which one, and the ends of that.
#[derive(Clone, Copy)]
pub struct RangeOperator<'a> {
    pub at: Operator<'a>,
    pub word: Ranged,
    pub from: i64,
    pub to: i64,
}

/// An operator over two formulas: which one.
#[derive(Clone, Copy)]
pub struct PairOperator<'a> {
    pub at: Operator<'a>,
    pub word: Paired,
}

pub fn written(place: Place, name: &Name, name_place: Place) -> Operator<'_>
    ensures { operator_of result ≡ operator_at place name.now name_place }
{
    let places = OperatorPlaces { place, name_place };
    Operator { places, name }
}
