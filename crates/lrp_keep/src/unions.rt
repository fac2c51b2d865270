// The answers of all choices in one store.
ghost use Rattle.std.specs.Prelude.{◌≡◌, ◌-◌, ◌^◌, ◌∷◌, [], OnOk};
ghost use Rattle.lrp_cutting.specs.Settling.{IsLike, IsPlaceOf};
ghost use Rattle.lrp_parts.specs.Derivations.{HoldsIn};
ghost use Rattle.lrp_store.specs.Stores.{IsStore};
ghost use Rattle.lrp_keep.specs.Taken.{HasTaken, HasTakenLast, HasTakenPiece, HasTakenSlot, HasTakenSome, HasTakenValue, IsLikeHeld, IsLikeLast, IsLikeValue};

use lrp_holdings::Holdings;
use lrp_model::Memory;
use lrp_packed::PackedStore;
use lrp_parts::Derived;
use lrp_store::Store;
use lrp_tables::Piece;

/// Adds the answers of each whole choice of a disjunct.
pub(crate) fn add_derived(derived: &Derived, out: &mut Store) -> Result<(), Memory>
    requires { IsLikeLast derived.now.levels.items out.old }
    ensures { OnOk result (HasTakenLast derived.now.levels.items out.old out.new) }
{
    match derived.choices() {
        Some(choices) => add_choices(choices, out),
        None => Ok(()),
    }
}

fn add_choices(choices: &Holdings<Option<PackedStore>>, out: &mut Store) -> Result<(), Memory>
    requires { IsLikeHeld (HoldsIn (choices.now ∷ []) 0) out.old }
    ensures { OnOk result (HasTakenSome (HoldsIn (choices.now ∷ []) 0) out.old out.new) }
{
    for slot in 0..choices.slots() {
        add_slot(choices, slot, out)?;
    }
    Ok(())
}

// Adds the answers that a slot has, if there are any.
fn add_slot(
    choices: &Holdings<Option<PackedStore>>,
    slot: usize,
    out: &mut Store,
) -> Result<(), Memory>
    requires { IsLikeHeld (HoldsIn (choices.now ∷ []) 0) out.old }
    ensures { OnOk result (HasTakenSlot choices.now slot out.old out.new) }
{
    match choices.value(slot) {
        Some(answers) => add_answers(answers, out),
        None => Ok(()),
    }
}

fn add_answers(answers: &Option<PackedStore>, out: &mut Store) -> Result<(), Memory>
    requires { IsLikeValue answers.now out.old }
    ensures { OnOk result (HasTakenValue answers.now out.old out.new) }
{
    match answers {
        Some(store) => add_all(store, out),
        None => Ok(()),
    }
}

// Adds the tuples of a store to another one of its period and shape.
fn add_all(from: &PackedStore, out: &mut Store) -> Result<(), Memory>
    requires valid { IsStore out.old }
    requires like { IsLike from.now out.old }
    ensures { OnOk result (HasTaken from.now out.old out.new) }
{
    for piece in from.pieces() {
        add_piece(&piece, out)?;
    }
    Ok(())
}

// Adds the tuples of a zone. Many choices may have one and the same zone, which is added once where it comes at once.
fn add_piece(piece: &Piece, out: &mut Store) -> Result<(), Memory>
    requires valid { IsStore out.old }
    requires place { IsPlaceOf out.old piece.now.cell piece.now.zone }
    ensures { OnOk result (HasTakenPiece piece.now out.old out.new) }
{
    out.put_new(&piece.cell, &piece.zone)
}
