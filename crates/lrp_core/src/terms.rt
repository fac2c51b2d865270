// Copies of the terms of an atom.
ghost use Rattle.std.specs.Prelude.{◌≡◌, map, IfOk};
ghost use Rattle.lrp_model.specs.RawTerms.{said_term};

use lrp_model::{List, Memory, RawTerm, Term};
use std::alloc::Global;

/// What the terms say, with no more room than it needs.
pub fn copy_terms(alloc: Global, terms: &[RawTerm]) -> Result<List<Term>, Memory>
    ensures { IfOk result (λ made. made ≡ map said_term terms.now) }
{
    let mut made = Vec::with_capacity(alloc, terms.len())?;
    for term in terms {
        made.push(term.said(alloc)?)?;
    }
    Ok(List::from_vec(made))
}
