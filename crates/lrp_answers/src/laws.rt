// What is proved of listings, each law as the contract of a function that does nothing.
ghost use Rattle.std.specs.Prelude.{◌≡◌, ◌≤◌, ◌↔◌, ℕ, Bool, IsTrue, List, length, Option};
ghost use Rattle.lrp_model.specs.Pages.{IsPage};
ghost use Rattle.lrp_model.specs.Rows.{Tuple};
ghost use Rattle.lrp_store.specs.Stores.{zone_count};
ghost use Rattle.lrp_store.specs.Tables.{InAnswer};
ghost use Rattle.lrp_model.specs.declared.tuples.Spot.{Spot};
ghost use Rattle.lrp_answers.specs.Cursors.{standing_at};
ghost use Rattle.lrp_answers.specs.Giving.{GivesTuples};
ghost use Rattle.lrp_answers.specs.Listing.{AreCursors, IsLeft, WindowView};
ghost use Rattle.lrp_answers.specs.declared.cursor.Cursor.{Cursor};

/// The answers that a lister gives one after the other, up to a limit, are the page after its first position, with the
/// flag that something is left after them.
pub fn listings_are_pages()
    ensures { (w : WindowView) (after end : Option Tuple) (limit : ℕ) (page : List Tuple)
        (more : Bool)
        → GivesTuples w after page end
        → length page ≤ limit
        → (IsTrue more → length page ≡ limit)
        → (IsTrue more ↔ ((t : Tuple) × IsLeft w end t))
        → IsPage (InAnswer w.columns w.domain w.store) w.from w.to after limit page more }
{}

/// No more cursors stand at a spot than the answer has zones, so one step of a listing makes at most as many moves.
pub fn moves_are_few()
    ensures { (w : WindowView) (position : Option Tuple) (cursors : List Cursor) (spot : Spot)
        → AreCursors w position cursors
        → standing_at spot cursors ≤ zone_count w.store }
{}
