// Matrices at the limits of their nodes and bounds, and the integer nearest to zero at the limit of its ends.

ghost use Rattle.std.specs.Prelude.{◌≡◌, ◌+◌, ◌^◌};
ghost use Rattle.lrp_theory.specs.Entries.{AllSmall};

use lrp_matrix::{Matrix, nearest_zero};

const LIMIT: i128 = 4_611_686_018_427_387_904;

/// Eight columns, each the limit less than the one before, the first as much less than zero.
fn stairs() -> Matrix
    ensures columns { result.columns ≡ 8 }
    ensures small { AllSmall (result.columns + 1) (2 ^ 62) result.cells }
{
    let mut matrix = Matrix::free(8);
    for i in 0..8 {
        matrix.lower(i + 1, i, -LIMIT);
        matrix.lower(i, i + 1, LIMIT);
    }
    matrix
}

#[test]
fn nine_nodes_close_at_the_limit(rt: HostRuntime) {
    let mut matrix = stairs();
    assert!(rt; matrix.close());
    assert!(rt; matrix.columns() == 8);
    assert!(rt; matrix.get(8, 0) == Some(-8 * LIMIT));
    assert!(rt; matrix.get(0, 8) == Some(8 * LIMIT));
}

#[test]
fn nearest_at_the_limit(rt: HostRuntime) {
    const FAR: i128 = 1_180_591_620_717_411_303_424;
    let above = nearest_zero(Some(FAR), None, 1, 60);
    assert!(rt; above == Some(1_180_591_620_717_411_303_481));
}

// Eight columns without bounds.
fn free() -> Matrix
    ensures columns { result.columns ≡ 8 }
    ensures small { AllSmall (result.columns + 1) (2 ^ 62) result.cells }
{
    Matrix::free(8)
}

#[test]
fn stairs_lie_within_what_is_free(rt: HostRuntime) {
    let mut matrix = stairs();
    assert!(rt; matrix.close());
    assert!(rt; matrix.columns() == 8);
    let mut free = free();
    assert!(rt; free.close());
    assert!(rt; free.columns() == 8);
    assert!(rt; matrix.within(&free) && !free.within(&matrix));
}
