// The order of spots: by the ranks of their times, and then by the numbers of their texts.
ghost use Rattle.std.specs.Prelude.{◌≡◌, ◌↔◌, IsTrue, true, false};
ghost use Rattle.std.specs.Ordering.{nat_cmp};
ghost use Rattle.std.specs.Cmp.Lexicographic.{slice_cmp};
ghost use Rattle.std.specs.declared.cmp.Ordering.TheVariants.{Less};
ghost use Rattle.lrp_store.specs.Least.{held_cmp};
ghost use Rattle.lrp_theory.specs.Residues.{rank};
ghost use Rattle.lrp_packed.specs.Leading.{IsNotLater};

use lrp_model::Spot;
use std::cmp::Ordering;

// The place of a time in the order 0, 1, -1, 2, -2, ..
fn rank_of(time: i64) -> u128
    ensures { result ≡ rank time }
{
    let twice = 2 * u128::from(time.unsigned_abs());
    if time > 0 { twice - 1 } else { twice }
}

// The order of two lists of times by their ranks. It reads no further than the first place where these differ.
fn times_order(a: &[i64; 8], b: &[i64; 8]) -> Ordering
    ensures { result ≡ slice_cmp (λ x y. nat_cmp (rank x) (rank y)) a.now b.now }
{
    for i in 0..8 {
        let order = rank_of(a[i]).cmp(&rank_of(b[i]));
        if order.is_ne() {
            return order;
        }
    }
    Ordering::Equal
}

// Whether a spot comes before another one.
fn is_before(a: &Spot, b: &Spot) -> bool
    ensures { IsTrue result ↔ (held_cmp a.now.times a.now.texts b.now.times b.now.texts ≡ Less) }
{
    match times_order(&a.times, &b.times) {
        Ordering::Less => true,
        Ordering::Equal => a.texts.cmp(&b.texts).is_lt(),
        Ordering::Greater => false,
    }
}

/// Whether a spot does not come after another one; what is no spot comes after each one.
pub fn is_not_later(own: Option<Spot>, other: Option<Spot>) -> bool
    ensures to { result ≡ true → IsNotLater own other }
    ensures from { result ≡ false → IsNotLater other own }
{
    let Some(other) = other else {
        return true;
    };
    let Some(own) = own else {
        return false;
    };
    !is_before(&other, &own)
}
