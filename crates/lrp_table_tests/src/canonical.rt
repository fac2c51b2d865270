// Canonical answers, and how many rows they have.
ghost use Rattle.lrp_canon.specs.Canonical.{CanMakeCanonical};

use crate::parts::{add_residue, cell, head, no_residues};
use lrp_answers::Answer;
use lrp_canon::{canonical, canonical_rows};
use lrp_model::{Domain, List};
use std::alloc::Global;
use std::process::Abort;

// All integers, in two cells.
fn all_integers(rt: &impl Abort, alloc: Global) -> Answer
    ensures { CanMakeCanonical result.store }
{
    let head = head(rt, alloc);
    let domain = Domain::new(List::new(alloc)).expect(rt, "memory");
    let mut store = no_residues(alloc, 2);
    add_residue(rt, &mut store, 0);
    add_residue(rt, &mut store, 1);
    Answer {
        head,
        period: 2,
        domain,
        store,
    }
}

#[test]
fn two_cells_that_are_all_integers_are_one_row(rt: HostRuntime) {
    let alloc = rt.alloc();
    let answer = all_integers(&rt, alloc);
    assert!(rt; canonical_rows(alloc, &answer, 1).expect(&rt, "memory") == Some(1));
    assert!(rt;
        canonical_rows(alloc, &answer, 0)
            .expect(&rt, "memory")
            .is_none()
    );
    let made = canonical(alloc, &answer).expect(&rt, "memory");
    assert!(rt; made.period == 1 && made.store.len() == 1 && made.store.is_whole(&cell(0, 0)));
}
