// What holds of sizes and ranges of the answers of queries.
ghost use Rattle.std.specs.Prelude.{◌≡◌, ◌↔◌, ◌+◌, ◌+ℤ◌, ◌≤ℤ◌, ℕ, ℤ, Bool, List, [], ◌∷◌, Contains, false, pos};
ghost use Rattle.lrp_model.specs.Formulas.{Question};
ghost use Rattle.lrp_model.specs.Rows.{Tuple, time};
ghost use Rattle.lrp_model.specs.Satisfaction.{IsAnswer};
ghost use Rattle.lrp_model.specs.Sorts.{time_count};
ghost use Rattle.lrp_model.specs.declared.relations.Relation.{Relation};
ghost use Rattle.lrp_count.specs.Numbers.{HasSize};
ghost use Rattle.lrp_count.specs.Ranges.{AreRanges, InSomeRange, InWindowOf, IsAnswerTime, LiesInWindow};
ghost use Rattle.lrp_count.specs.declared.windows.Range.{Range as ToldRange};

/// Queries with equal answers have equally many in each window.
pub fn sizes_are_unique()
    ensures { (db other_db : List Relation) (q other : Question) (from to : ℤ) (size count : ℕ)
        → ((t : Tuple) → IsAnswer db q t ↔ IsAnswer other_db other t)
        → HasSize (InWindowOf (IsAnswer db q) from to) size
        → HasSize (InWindowOf (IsAnswer other_db other) from to) count
        → size ≡ count }
{}

/// The number of a window is the sum of those of two windows that make it up, where the head has one time column.
pub fn sizes_add()
    ensures { (db : List Relation) (q : Question) (from middle to : ℤ) (size other : ℕ)
        → time_count q.head ≡ 1
        → from ≤ℤ middle
        → middle ≤ℤ to
        → HasSize (InWindowOf (IsAnswer db q) from middle) size
        → HasSize (InWindowOf (IsAnswer db q) (middle +ℤ pos 1) to) other
        → HasSize (InWindowOf (IsAnswer db q) from to) (size + other) }
{}

/// Queries with equal answers have the same first ranges in each window.
pub fn ranges_are_unique()
    ensures { (db other_db : List Relation) (q other : Question) (from to : ℤ) (limit : ℕ)
        (ranges others : List ToldRange) (more further : Bool)
        → ((x : ℤ) → IsAnswer db q (time x ∷ []) ↔ IsAnswer other_db other (time x ∷ []))
        → AreRanges (IsAnswerTime (IsAnswer db q)) from to limit ranges more
        → AreRanges (IsAnswerTime (IsAnswer other_db other)) from to limit others further
        → (ranges ≡ others) × (more ≡ further) }
{}

/// Where no more are left, the ranges have just the answers of the window.
pub fn ranges_cover()
    ensures { (db : List Relation) (q : Question) (from to : ℤ) (limit : ℕ)
        (ranges : List ToldRange) (x : ℤ)
        → AreRanges (IsAnswerTime (IsAnswer db q)) from to limit ranges false
        → InSomeRange ranges x ↔ LiesInWindow (IsAnswerTime (IsAnswer db q)) from to x }
{}

/// Up to the end of the last one the ranges have just the answers of the window, whether more are left or not.
pub fn ranges_cover_the_front()
    ensures { (db : List Relation) (q : Question) (from to : ℤ) (limit : ℕ)
        (ranges : List ToldRange) (more : Bool) (last : ToldRange) (x : ℤ)
        → AreRanges (IsAnswerTime (IsAnswer db q)) from to limit ranges more
        → Contains ranges last
        → x ≤ℤ last.to
        → InSomeRange ranges x ↔ LiesInWindow (IsAnswerTime (IsAnswer db q)) from to x }
{}
