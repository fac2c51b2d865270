// The languages of queries, which all are read alike into one tree; each has operators of its own.
use crate::words::{Leading, word_of};
use lrp_model::{Name, Paired, Ranged};

/// A language of queries.
pub trait Grammar {
    ghost use Rattle.std.specs.Prelude.{◌≡◌};
    ghost use Rattle.lrp_model.specs.Queries.{Language, is_wide};
    ghost use Rattle.lrp_query.specs.Grammars.{word_in};

    /// Which one it is.
    ghost language: { Language };

    /// The operator that a name begins where another name follows it.
    fn word_of(name: &Name) -> Option<Leading<Ranged, Paired>>
        ensures { result ≡ word_in language name.now };

    /// Whether formulas go on without parentheses, and `*`, `!=` and several names of one quantifier are taken.
    fn is_wide() -> bool
        ensures { result ≡ is_wide language };
}

/// Formulas of first-order logic alone.
pub struct Plain;

impl Grammar for Plain {
    ghost use Rattle.lrp_model.specs.Queries.Language.{first_order};

    ghost language = { first_order };

    fn word_of(_name: &Name) -> Option<Leading<Ranged, Paired>> {
        None
    }

    fn is_wide() -> bool {
        false
    }
}

/// These, and temporal operators.
pub struct Temporal;

impl Grammar for Temporal {
    ghost use Rattle.lrp_model.specs.Queries.Language.{temporal};

    ghost language = { temporal };

    fn word_of(name: &Name) -> Option<Leading<Ranged, Paired>> {
        word_of(name)
    }

    fn is_wide() -> bool {
        false
    }
}

/// These, and formulas as people write them: without parentheses where precedence tells their parts, with `*` and `!=`.
pub struct Wide;

impl Grammar for Wide {
    ghost use Rattle.lrp_model.specs.Queries.Language.{wide};

    ghost language = { wide };

    fn word_of(name: &Name) -> Option<Leading<Ranged, Paired>> {
        word_of(name)
    }

    fn is_wide() -> bool {
        true
    }
}
