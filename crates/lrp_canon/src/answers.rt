// The canonical answer, and how many rows it has.
ghost use Rattle.std.specs.Prelude.{◌≡◌, ◌≤◌, ◌<◌, IfOk, IfNone, IfSome, IsTrue};
ghost use Rattle.lrp_store.specs.Stores.{IsStore, zone_count};
ghost use Rattle.lrp_spans.specs.Groups.{AreGroups};
ghost use Rattle.lrp_spans.specs.Periods.{IsEndPeriod};
ghost use Rattle.lrp_canon.specs.Canonical.{CanMakeCanonical, HasCanonicalZones, HasMoreRows, IsCanonicalOf, StandsAlready};

use crate::counting::rows_of;
use crate::edges::Periods;
use crate::storing::rows_in_store;
use lrp_answers::Answer;
use lrp_model::{Copies, Memory, Shape};
use lrp_slots::Slots;
use lrp_spans::{Span, groups_of, period_of};
use lrp_store::Store;
use std::alloc::Global;

/// The same answers over the least period with which finitely many rows give them, in maximal rows.
///
/// The bytes that are written of a canonical answer depend on its head and its answers alone. It takes memory and time in the
/// number of its rows, which [`canonical_rows`] tells first.
pub fn canonical(alloc: Global, answer: &Answer) -> Result<Answer, Memory>
    requires { CanMakeCanonical answer.now.store }
    ensures head { IfOk result (λ made. made.head ≡ answer.now.head) }
    ensures domain { IfOk result (λ made. made.domain ≡ answer.now.domain) }
    ensures store { IfOk result (λ made. IsCanonicalOf answer.now.store made.store) }
{
    let groups = groups_of(alloc, &answer.store)?;
    let periods = periods_of(alloc, &answer.store, &groups)?;
    let store = rows_in_store(alloc, &groups, periods, answer.store.shape())?;
    Ok(Answer {
        head: answer.head.copy(alloc)?,
        period: periods.least as i64,
        domain: answer.domain.copy(alloc)?,
        store,
    })
}

/// The number of rows of the canonical answer, or `None` where it has more than `most`.
///
/// No row is made: the cost depends on the cells and zones of the answer, and not on the number of rows.
pub fn canonical_rows(alloc: Global, answer: &Answer, most: u32) -> Result<Option<u32>, Memory>
    requires { CanMakeCanonical answer.now.store }
    ensures some { IfOk result (λ found. IfSome found
        (λ count. HasCanonicalZones answer.now.store count)) }
    ensures few { IfOk result (λ found. IfSome found (λ count. count ≤ most)) }
    ensures none { IfOk result (λ found. IfNone found (HasMoreRows answer.now.store most)) }
{
    let groups = groups_of(alloc, &answer.store)?;
    let periods = periods_of(alloc, &answer.store, &groups)?;
    let rows = rows_of(alloc, &groups, periods)?;
    Ok(at_most(rows, most))
}

/// The canonical answer, or `None` where it has more than `most` rows, in one pass over the cells and zones of the answer.
///
/// An answer of the least period with one zone in each cell is given back as it stands. Otherwise its store is let go before a
/// row is made, so that not both are held.
pub fn canonical_within(alloc: Global, answer: Answer, most: u32) -> Result<Option<Answer>, Memory>
    requires { CanMakeCanonical answer.store }
    ensures head { IfOk result (λ found. IfSome found (λ made. made.head ≡ answer.head)) }
    ensures domain { IfOk result (λ found. IfSome found (λ made. made.domain ≡ answer.domain)) }
    ensures store { IfOk result (λ found. IfSome found
        (λ made. IsCanonicalOf answer.store made.store)) }
    ensures counted { IfOk result (λ found. IfSome found
        (λ made. HasCanonicalZones answer.store (zone_count made.store))) }
    ensures few { IfOk result (λ found. IfSome found (λ made. zone_count made.store ≤ most)) }
    ensures none { IfOk result (λ found. IfNone found (HasMoreRows answer.store most)) }
{
    let groups = groups_of(alloc, &answer.store)?;
    let periods = periods_of(alloc, &answer.store, &groups)?;
    if stands_already(&answer.store, periods) {
        return Ok(kept(answer, most));
    }
    let rows = rows_of(alloc, &groups, periods)?;
    match at_most(rows, most) {
        Some(_) => match of_groups(alloc, answer, &groups, periods) {
            Ok(made) => Ok(Some(made)),
            Err(memory) => Err(memory),
        },
        None => Ok(None),
    }
}

// Whether the period is the least one, and each cell has one zone.
fn stands_already(store: &Store, periods: Periods) -> bool
    requires { IsStore store.now }
    ensures { IsTrue result → StandsAlready store.now periods }
{
    if periods.least != periods.whole {
        return false;
    }
    store.zones() == store.len() as usize
}

// An answer that is canonical as it stands, or `None` where it has more than `most` zones.
fn kept(answer: Answer, most: u32) -> Option<Answer>
    requires canonical { IsCanonicalOf answer.store answer.store }
    requires counted { HasCanonicalZones answer.store (zone_count answer.store) }
    ensures head { IfSome result (λ made. made.head ≡ answer.head) }
    ensures domain { IfSome result (λ made. made.domain ≡ answer.domain) }
    ensures store { IfSome result (λ made. IsCanonicalOf answer.store made.store) }
    ensures counted { IfSome result (λ made. HasCanonicalZones answer.store
        (zone_count made.store)) }
    ensures few { IfSome result (λ made. zone_count made.store ≤ most) }
    ensures none { IfNone result (HasMoreRows answer.store most) }
{
    if answer.store.zones() > most as usize {
        return None;
    }
    Some(answer)
}

// The canonical answer of the groups of an answer, whose store is let go first.
fn of_groups(
    alloc: Global,
    answer: Answer,
    groups: &Slots<Span>,
    periods: Periods,
) -> Result<Answer, Memory>
    requires can { CanMakeCanonical answer.store }
    requires valid { IsStore answer.store }
    requires groups { AreGroups answer.store groups.now.lists }
    requires whole { periods.whole ≡ answer.store.period }
    requires least { IsEndPeriod answer.store.period groups.now.lists periods.least }
    ensures head { IfOk result (λ made. made.head ≡ answer.head) }
    ensures domain { IfOk result (λ made. made.domain ≡ answer.domain) }
    ensures store { IfOk result (λ made. IsCanonicalOf answer.store made.store) }
{
    let Answer {
        head,
        domain,
        store,
        ..
    } = answer;
    let shape = shape_of(store);
    let store = rows_in_store(alloc, groups, periods, shape)?;
    Ok(Answer {
        head,
        period: periods.least as i64,
        domain,
        store,
    })
}

// The shape of a store, which goes.
fn shape_of(store: Store) -> Shape
    ensures { result ≡ store.shape }
{
    store.shape()
}

// The period of the store, and the least one of its groups.
fn periods_of(alloc: Global, store: &Store, groups: &Slots<Span>) -> Result<Periods, Memory>
    requires can { CanMakeCanonical store.now }
    requires valid { IsStore store.now }
    requires groups { AreGroups store.now groups.now.lists }
    ensures whole { IfOk result (λ made. made.whole ≡ store.now.period) }
    ensures least { IfOk result (λ made. IsEndPeriod store.now.period groups.now.lists made.least) }
{
    let whole = store.period() as u64;
    let least = period_of(alloc, groups, whole)?;
    Ok(Periods { whole, least })
}

// The number of rows, or `None` where there are more than `most`.
fn at_most(rows: u64, most: u32) -> Option<u32>
    ensures some { IfSome result (λ count. (count ≡ rows) × (count ≤ most)) }
    ensures none { IfNone result (most < rows) }
{
    if rows > u64::from(most) {
        return None;
    }
    Some(rows as u32)
}
