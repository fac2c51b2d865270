// Tables of bounds: the bound of node i minus node j stands at `9 * i + j`, and node 0 is the number zero.

ghost use Rattle.std.specs.Prelude.{◌≡◌, ◌<◌, ◌≤◌, ◌^◌, ◌*◌, ◌+◌, ℕ, List, None, length, replicate, slice_index_or, slice_set};
ghost use Rattle.lrp_theory.specs.Bounds.{plus};
ghost use Rattle.lrp_theory.specs.Entries.{entry, IsLesser, AtMost};
ghost use Rattle.lrp_zone.specs.Numbers.{FitsNumber, bound_from_number, number_for_bound};
ghost use Rattle.lrp_zone.specs.Pieces.{IsSingle};

use lrp_matrix::cells::no_bounds;
use std::marker::Model;

/// The bounds between nine nodes, seen as nine rows of nine bounds.
///
/// A number stands at each place, and where there is no bound the greatest one of its type.
#[derive(Clone, Copy)]
pub struct BoundTable {
    numbers: [i64; 81],
}

impl Model for BoundTable {
    ghost use Rattle.std.specs.Prelude.{◌≡◌, ℤ, List, Option, map, length};
    ghost use Rattle.lrp_zone.specs.Numbers.{bound_from_number, number_for_bound, numbers_again};

    ghost Value = { List (Option ℤ) };

    ghost view = { λ t. map bound_from_number t.numbers };

    ghost inverse = { λ v. record { numbers = map number_for_bound v } };

    ghost invariant = { λ t. length t.numbers ≡ 81 };

    ghost inverse_ok = { λ t _ i. record { numbers = numbers_again t.numbers i } };
}

impl BoundTable {
    /// No bounds.
    pub fn free() -> BoundTable
        ensures { result ≡ replicate 81 None }
    {
        BoundTable {
            numbers: [i64::MAX; 81],
        }
    }

    /// The number of places.
    pub fn size(&self) -> usize
        ensures value { result ≡ 81 }
        ensures size { length self.now ≡ 81 }
    {
        let numbers = &self.numbers;
        numbers.len()
    }

    /// The bound at a place, which counts rows of nine from 0.
    pub fn get(&self, place: usize) -> Option<i64>
        requires { place < 81 }
        ensures value { result ≡ slice_index_or self.now place None }
        ensures stands { FitsNumber result }
        ensures size { length self.now ≡ 81 }
    {
        bound_of(self.numbers[place])
    }

    /// Writes a bound at a place.
    pub fn set(&mut self, place: usize, bound: Option<i64>)
        requires place { place < 81 }
        requires stands { FitsNumber bound }
        ensures value { self.new ≡ slice_set self.old place bound }
        ensures size { length self.old ≡ 81 }
    {
        self.numbers[place] = number_of(bound);
    }
}

/// The bound that a number stands for.
fn bound_of(number: i64) -> Option<i64>
    ensures value { result ≡ bound_from_number number }
    ensures stands { FitsNumber result }
{
    if number < i64::MAX {
        Some(number)
    } else {
        None
    }
}

/// The number that stands for a bound.
fn number_of(bound: Option<i64>) -> i64
    ensures { result ≡ number_for_bound bound }
{
    match bound {
        Some(a) => a,
        None => i64::MAX,
    }
}

/// A table without bounds.
pub fn free() -> BoundTable
    ensures { result ≡ replicate 81 None }
{
    BoundTable::free()
}

/// The bound at a place.
pub fn at(bounds: &BoundTable, i: usize, j: usize) -> Option<i64>
    requires row { i < 9 }
    requires column { j < 9 }
    ensures value { result ≡ entry bounds.now i j }
    ensures stands { FitsNumber result }
{
    bounds.get(9 * i + j)
}

/// Writes a bound at a place.
pub fn put(bounds: &mut BoundTable, i: usize, j: usize, bound: Option<i64>)
    requires row { i < 9 }
    requires column { j < 9 }
    requires stands { FitsNumber bound }
    ensures here { entry bounds.new i j ≡ bound }
    ensures others { (p q : ℕ) → q < 9 → (p ≡ i → q ≡ j → ⊥)
        → entry bounds.new p q ≡ entry bounds.old p q }
{
    bounds.set(9 * i + j, bound);
}

/// One bound alone.
pub fn single(i: usize, j: usize, bound: Option<i64>) -> BoundTable
    requires row { i < 9 }
    requires column { j < 9 }
    requires stands { FitsNumber bound }
    ensures { IsSingle result i j bound }
{
    let mut bounds = free();
    put(&mut bounds, i, j, bound);
    bounds
}

/// The lesser bound, where `None` is no bound.
pub fn lesser(a: Option<i64>, b: Option<i64>) -> Option<i64>
    ensures { IsLesser result a b }
{
    match (a, b) {
        (Some(x), Some(y)) => if x <= y { Some(x) } else { Some(y) },
        (Some(x), None) => Some(x),
        (None, e) => e,
    }
}

/// The number that stands for the lesser of the bounds of two numbers.
fn lesser_number(a: i64, b: i64) -> i64
    ensures { IsLesser (bound_from_number result) (bound_from_number a) (bound_from_number b) }
{
    if a <= b { a } else { b }
}

/// The lesser bound at each place.
pub fn least(a: &BoundTable, b: &BoundTable) -> BoundTable
    ensures { (p : ℕ) → p < 81 → IsLesser (slice_index_or result p None)
        (slice_index_or a.now p None) (slice_index_or b.now p None) }
{
    let mut numbers = [i64::MAX; 81];
    for place in 0..81 {
        numbers[place] = lesser_number(a.numbers[place], b.numbers[place]);
    }
    BoundTable { numbers }
}

/// The sum of two bounds, which is no bound where one of them is none.
pub fn sum(a: Option<i64>, b: Option<i64>) -> Option<i64>
    requires left { AtMost (2 ^ 61) a }
    requires right { AtMost (2 ^ 61) b }
    ensures { result ≡ plus a b }
{
    match (a, b) {
        (Some(x), Some(y)) => Some(x + y),
        _ => None,
    }
}

/// The same bound with more bits.
pub fn wide(bound: Option<i64>) -> Option<i128>
    ensures { result ≡ bound }
{
    match bound {
        Some(a) => Some(i128::from(a)),
        None => None,
    }
}

/// The same bound with fewer bits.
pub fn narrow(bound: Option<i128>) -> Option<i64>
    requires { AtMost (2 ^ 62) bound }
    ensures { result ≡ bound }
{
    match bound {
        Some(a) => Some(a as i64),
        None => None,
    }
}

/// The same bounds with more bits.
pub fn widened(bounds: &BoundTable) -> [Option<i128>; 81]
    ensures { result ≡ bounds.now }
{
    let numbers = &bounds.numbers;
    let mut out = no_bounds();
    for place in 0..81 {
        out[place] = wide(bound_of(numbers[place]));
    }
    out
}
