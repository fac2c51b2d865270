// The first words of operators, and what stands before their formulas.
ghost use Rattle.std.specs.Prelude.{◌≡◌};
ghost use Rattle.lrp_query.specs.Grammars.{word_of as word_rule};

use lrp_model::{Name, Paired, Place, Ranged};

/// An operator by its first word: one with an interval, or one over two formulas.
#[derive(Clone, Copy, PartialEq, Eq)]
pub enum Leading<R, P> {
    OfRange(R),
    OfPair(P),
}

/// Where an operator begins, and its variable with the place of its name.
#[derive(Drop)]
pub struct Opening {
    pub place: Place,
    pub name: Name,
    pub name_place: Place,
}

/// The operator that a name begins where another name follows it.
pub fn word_of(name: &Name) -> Option<Leading<Ranged, Paired>>
    ensures { result ≡ word_rule name.now }
{
    let word = name.as_bytes();
    if word == b"once".as_slice() {
        return Some(Leading::OfRange(Ranged::Once));
    }
    if word == b"always".as_slice() {
        return Some(Leading::OfRange(Ranged::Always));
    }
    if word == b"since".as_slice() {
        return Some(Leading::OfPair(Paired::Since));
    }
    if word == b"until".as_slice() {
        return Some(Leading::OfPair(Paired::Until));
    }
    None
}
