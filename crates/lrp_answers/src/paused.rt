// Listings that stand still between two pages.
ghost use Rattle.std.specs.Prelude.{◌≡◌, IsTrue};
ghost use Rattle.lrp_answers.specs.Listing.{listed_tuple, window_tuple};
ghost use Rattle.lrp_answers.specs.Pauses.{IsPausedOf, paused_window};

use crate::answer::Answer;
use crate::heap::Heap;
use crate::window::texts_order;
use lrp_model::{Spot, Tuple};

/// A listing that stands still: the ends of its window, the spot that it gave last, and its cursors.
///
/// It holds nothing of its answer, so that both can be kept side by side.
#[derive(Drop)]
pub struct Paused {
    pub(crate) from: i64,
    pub(crate) to: i64,
    pub(crate) spot: Spot,
    pub(crate) heap: Heap,
}

impl Paused {
    /// Whether it is one of the window from `from` to `to`, and stands at this tuple.
    pub fn is_at(&self, answer: &Answer, from: i64, to: i64, tuple: &Tuple) -> bool
        requires { IsPausedOf answer.now self.now }
        ensures from { IsTrue result → self.now.from ≡ from }
        ensures to { IsTrue result → self.now.to ≡ to }
        ensures tuple { IsTrue result → listed_tuple answer.now.head.columns tuple.now
            ≡ window_tuple (paused_window answer.now self.now) self.now.spot }
    {
        self.from == from && self.to == to && self.stands_at(answer, tuple)
    }

    /// Whether it stands at this tuple.
    fn stands_at(&self, answer: &Answer, tuple: &Tuple) -> bool
        requires { IsPausedOf answer.now self.now }
        ensures { IsTrue result → listed_tuple answer.now.head.columns tuple.now
            ≡ window_tuple (paused_window answer.now self.now) self.now.spot }
    {
        let shape = answer.store.shape();
        let times = &self.spot.times[..shape.times as usize];
        let numbers = &self.spot.texts[..shape.texts as usize];
        tuple.times.as_slice() == times
            && texts_order(&answer.domain, tuple.texts.as_slice(), numbers).is_eq()
    }
}
