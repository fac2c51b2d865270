// Two pages of answers as one page of both.
ghost use Rattle.std.specs.Prelude.{◌≡◌, ◌≤◌, ◌⊎◌, IfNone, IfOk, IfSome, Some, length, slice_get};
ghost use Rattle.lrp_model.specs.Pairs.{AllPairsByRecursion};
ghost use Rattle.lrp_answers.specs.Cursors.{spot_cmp};
ghost use Rattle.lrp_answers.specs.Merging.{AreMergedLists, IsEarlierSpot, IsMergedPage, IsNextOf};

use lrp_model::{List, Memory, Spot};
use std::alloc::Global;
use std::cmp::Ordering;

/// Spots in order, and whether more answers come after them.
#[derive(Drop)]
pub struct SpotPage {
    pub spots: List<Spot>,
    pub more: bool,
}

/// The spots of both pages in order, each once, up to a limit, and whether more come after them.
///
/// Where both are pages up to this limit of the same window, it is the page of the answers of the one and of the other. The
/// spots are those of one head and one domain.
pub fn merged(
    alloc: Global,
    left: &SpotPage,
    right: &SpotPage,
    limit: u32,
) -> Result<SpotPage, Memory>
    requires left { AllPairsByRecursion IsEarlierSpot left.now.spots }
    requires right { AllPairsByRecursion IsEarlierSpot right.now.spots }
    ensures { IfOk result (IsMergedPage left.now right.now limit) }
{
    let lefts = left.spots.as_slice();
    let rights = right.spots.as_slice();
    let MergedSpots {
        spots,
        left: taken_left,
        right: taken_right,
    } = first_of_both(alloc, lefts, rights, limit)?;
    let more_left = left.more || taken_left < lefts.len();
    let more_right = right.more || taken_right < rights.len();
    Ok(SpotPage {
        spots,
        more: more_left || more_right,
    })
}

/// Spots of two lists in order, and how many of each list they are.
#[derive(Drop)]
struct MergedSpots {
    spots: List<Spot>,
    left: usize,
    right: usize,
}

/// The first spots of two lists, each once, up to a limit.
fn first_of_both(
    alloc: Global,
    left: &[Spot],
    right: &[Spot],
    limit: u32,
) -> Result<MergedSpots, Memory>
    requires left { AllPairsByRecursion IsEarlierSpot left.now }
    requires right { AllPairsByRecursion IsEarlierSpot right.now }
    ensures merged { IfOk result (λ made.
        AreMergedLists IsEarlierSpot left.now right.now made.left made.right made.spots) }
    ensures short { IfOk result (λ made. length made.spots ≤ limit) }
    ensures whole { IfOk result (λ made. (length made.spots ≡ limit)
        ⊎ ((made.left ≡ length left.now) × (made.right ≡ length right.now))) }
{
    let mut made = MergedSpots {
        spots: List::new(alloc),
        left: 0,
        right: 0,
    };
    for _line in 0..limit {
        let Some(next) = next_of_both(left, made.left, right, made.right) else {
            return Ok(made);
        };
        made.spots.push(next.spot)?;
        made.left = next.left;
        made.right = next.right;
    }
    Ok(made)
}

/// A spot, and how many of each list are taken with it.
#[derive(Clone, Copy)]
struct NextSpot {
    spot: Spot,
    left: usize,
    right: usize,
}

/// The first spot of two lists after these counts of each, if there is one. Where both have it, it is taken from both.
fn next_of_both(left: &[Spot], i: usize, right: &[Spot], j: usize) -> Option<NextSpot>
    requires left { i ≤ length left.now }
    requires right { j ≤ length right.now }
    ensures none_left { IfNone result (i ≡ length left.now) }
    ensures none_right { IfNone result (j ≡ length right.now) }
    ensures left { IfSome result (λ next. IsNextOf IsEarlierSpot left.now i next.spot next.left) }
    ensures right { IfSome result (λ next.
        IsNextOf IsEarlierSpot right.now j next.spot next.right) }
    ensures here { IfSome result (λ next. (slice_get left.now i ≡ Some next.spot)
        ⊎ (slice_get right.now j ≡ Some next.spot)) }
{
    if i == left.len() {
        return if j == right.len() {
            None
        } else {
            Some(NextSpot {
                spot: right[j],
                left: i,
                right: j + 1,
            })
        };
    }
    if j == right.len() {
        return Some(NextSpot {
            spot: left[i],
            left: i + 1,
            right: j,
        });
    }
    match spot_order(&left[i], &right[j]) {
        Ordering::Less => Some(NextSpot {
            spot: left[i],
            left: i + 1,
            right: j,
        }),
        Ordering::Equal => Some(NextSpot {
            spot: left[i],
            left: i + 1,
            right: j + 1, // It is one answer.
        }),
        Ordering::Greater => Some(NextSpot {
            spot: right[j],
            left: i,
            right: j + 1,
        }),
    }
}

/// The order of spots: by their times, and then by the numbers of their texts.
fn spot_order(a: &Spot, b: &Spot) -> Ordering
    ensures { result ≡ spot_cmp a.now b.now }
{
    a.times.cmp(&b.times).then(a.texts.cmp(&b.texts))
}
