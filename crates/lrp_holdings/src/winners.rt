// Which slot has the value that comes first: a tournament over slots.
ghost use Rattle.std.specs.Prelude.{◌≡◌, ◌⊎◌, ◌+◌, ◌*◌, ◌<◌, ◌≤◌, ℕ, Some, None, IfNone, IfSome, IsSome, OnOk, length, option_copied};
ghost use Rattle.slab.specs.Slab.{get};
ghost use Rattle.lrp_holdings.specs.Winners.{AreMatched, AreMatchedBut, HasRoomForMatch, IsMatchWith, LeadsAt, value_numbered, winner_at};

use crate::chains::Holding;
use crate::ranked::Ranked;
use lrp_model::Memory;
use slab::Slab;

/// For each slot the one whose value comes first among its own and those of the two slots after twice its number, which
/// stand for those after them.
///
/// Slot 0 so has the first of all, and a value that is put or let go changes those in one line to it alone (the tournament
/// of Donald Knuth, "The Art of Computer Programming", volume 3, section 5.2.3, "Sorting by Selection", 1973).
pub(crate) type Winners = Vec<Option<u32>>;

/// The winner of a slot, if the slot is there.
pub(crate) fn winner(winners: &Winners, slot: usize) -> Option<u32>
    ensures { result ≡ winner_at winners.now.items slot }
{
    if slot < winners.len() {
        winners[slot]
    } else {
        None
    }
}

// The first of two slots; of one without a value and another one the other.
fn first_of<V: Ranked>(
    slots: &Slab<Holding<V>>,
    one: Option<u32>,
    other: Option<u32>,
) -> Option<u32>
    ensures is { (result ≡ one) ⊎ (result ≡ other) }
    ensures one { LeadsAt V.leads (value_numbered slots.now) result one }
    ensures other { LeadsAt V.leads (value_numbered slots.now) result other }
{
    let Some(value) = value_of(slots, one) else {
        return other;
    };
    let Some(second) = value_of(slots, other) else {
        return one;
    };
    if value.leads(second) { one } else { other }
}

// The value in a slot, where there is a slot and it has one.
fn value_of<V>(slots: &Slab<Holding<V>>, slot: Option<u32>) -> Option<&V>
    ensures none { slot ≡ None → option_copied result ≡ None }
    ensures some { (s : ℕ) → slot ≡ Some s → option_copied result ≡ value_numbered slots.now s }
{
    match slots.get(slot? as usize) {
        Some(holding) => Some(&holding.value),
        None => None,
    }
}

// The slot itself, if it has a value.
fn own<V>(slots: &Slab<Holding<V>>, slot: u32) -> Option<u32>
    ensures some { IfSome result (λ own. (own ≡ slot) × IsSome (value_numbered slots.now slot)) }
    ensures none { IfNone result (value_numbered slots.now slot ≡ None) }
{
    if slots.contains(slot as usize) {
        Some(slot)
    } else {
        None
    }
}

// The first of a slot's own value and those of the two slots after twice its number.
fn match_at<V: Ranked>(slots: &Slab<Holding<V>>, winners: &Winners, slot: u32) -> Option<u32>
    ensures { IsMatchWith V.leads (value_numbered slots.now) winners.now.items slot result }
{
    let own = own(slots, slot);
    let left = winner(winners, 2 * slot as usize + 1);
    let right = winner(winners, 2 * slot as usize + 2);
    first_of(slots, first_of(slots, own, left), right)
}

/// Lets the matches be played again from a slot up, after a change of what it holds.
pub(crate) fn replay<V: Ranked>(slots: &Slab<Holding<V>>, winners: &mut Winners, slot: u32)
    requires within { slot < length winners.old.items }
    requires others { AreMatchedBut V.leads (value_numbered slots.now) (Some slot) winners.old.items }
    ensures matched { AreMatched V.leads (value_numbered slots.now) winners.new.items }
    ensures size { length winners.new.items ≡ length winners.old.items }
{
    let mut next = Some(slot);
    while let Some(slot) = next {
        let first = match_at(slots, winners, slot);
        if first == winner(winners, slot as usize) {
            return;
        }
        winners[slot as usize] = first;
        next = above(slot);
    }
}

// The slot in whose match the winner of this one stands.
fn above(slot: u32) -> Option<u32>
    ensures none { result ≡ None → slot ≡ 0 }
    ensures some { IfSome result (λ up. (slot ≡ 2 * up + 1) ⊎ (slot ≡ 2 * up + 2)) }
{
    if slot == 0 {
        None
    } else {
        Some((slot - 1) / 2)
    }
}

/// Makes room for the match of a slot.
pub(crate) fn make_room_for_match(winners: &mut Winners, slot: usize) -> Result<(), Memory>
    ensures room { OnOk result (HasRoomForMatch slot winners.old.items winners.new.items) }
    ensures same { (s : ℕ) → winner_at winners.new.items s ≡ winner_at winners.old.items s }
    ensures more { length winners.old.items ≤ length winners.new.items }
{
    while winners.len() <= slot {
        winners.push(None)?;
    }
    Ok(())
}
