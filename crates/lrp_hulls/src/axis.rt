// By what zones are told apart. Nothing that is found depends on it, only how fast.
use crate::hull::{Hull, span_of_column, text_span_of_column};

/// What of zones is compared: an end of a column, its residue, or the text of one.
#[derive(Clone, Copy)]
pub(crate) enum AxisKind {
    End,
    Residue,
    Text,
}

/// The column after so many, what of it is compared, and how far all zones are spread there.
#[derive(Clone, Copy)]
pub(crate) struct Axis {
    pub kind: AxisKind,
    pub column: usize,
    pub spread: u64,
}

impl Axis {
    /// Where the hull with a number stands, and 0 for none.
    pub(crate) fn key(&self, hulls: &[Hull], number: usize) -> i64 {
        match hulls.get(number) {
            Some(hull) => self.key_of(hull),
            None => 0,
        }
    }

    // Where a hull stands.
    fn key_of(&self, hull: &Hull) -> i64 {
        match self.kind {
            AxisKind::End => {
                let span = span_of_column(&hull.times, self.column);
                end_of(span.low, span.high)
            }
            AxisKind::Residue => span_of_column(&hull.times, self.column).first,
            AxisKind::Text => i64::from(text_span_of_column(&hull.texts, self.column).first),
        }
    }
}

// An end, if there is one, else 0.
fn end_of(low: i64, high: i64) -> i64 {
    if low != i64::MIN {
        return low;
    }
    if high != i64::MAX { high } else { 0 }
}

/// How far the hulls with these numbers are spread on an axis.
pub(crate) fn spread_of(axis: &Axis, hulls: &[Hull], numbers: &[usize]) -> u64 {
    let mut low = i64::MAX;
    let mut high = i64::MIN;
    for number in numbers {
        let key = axis.key(hulls, *number);
        if key < low {
            low = key;
        }
        if high < key {
            high = key;
        }
    }
    if low < high { low.abs_diff(high) } else { 0 }
}

/// The axis on which they are spread farthest beside all zones, or `None` where they are alike on each.
pub(crate) fn widest(axes: &[Axis], hulls: &[Hull], numbers: &[usize]) -> Option<Axis> {
    let mut best = None;
    let mut most = 0;
    for axis in axes {
        let share = share_of(spread_of(axis, hulls, numbers), axis.spread);
        if share > most {
            most = share;
            best = Some(*axis);
        }
    }
    best
}

// A part of a whole, in parts of 2^60.
fn share_of(part: u64, whole: u64) -> u128 {
    if whole == 0 {
        return 0;
    }
    u128::from(part) * (1 << 60) / u128::from(whole)
}
