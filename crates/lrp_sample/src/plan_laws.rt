// What holds of the sample's plan: each law is the contract of a function that does nothing.
ghost use Rattle.std.specs.Prelude.{◌≡◌, ◌≤◌, ◌*◌, ℕ, List, length};
ghost use Rattle.std.specs.List.{AllByRecursion};
ghost use Rattle.lrp_model.specs.Pages.{Rises};
ghost use Rattle.lrp_model.specs.Rows.{Tuple};
ghost use Rattle.lrp_sample.specs.Plans.{IsSampleSize, planned_kinds, sample_kinds, sample_period, sample_reach, IsOfFirstDay, IsSampleWithinLimits, HasAtMostCells};

/// The plan has the same steps for all trips. Its period is a day, and so it is within the limits.
pub fn sample_is_within_limits()
    ensures steps { (seed size : ℕ) → planned_kinds seed size ≡ sample_kinds }
    ensures period { (seed size : ℕ) → IsSampleSize size → sample_period seed size ≡ 1440 }
    ensures reach { (seed size : ℕ) → IsSampleSize size → sample_reach seed size ≤ 117088 }
    ensures limits { (seed size : ℕ) → IsSampleSize size → IsSampleWithinLimits seed size }
{}

/// A trip and, where the plan joins, how many minutes before it determine each inhabited cell of a step. So no step has
/// more than the default cap.
pub fn sample_has_few_cells()
    ensures few { (seed size : ℕ) → IsSampleSize size → HasAtMostCells seed size (16 * size) }
    ensures default { (seed size : ℕ) → IsSampleSize size → HasAtMostCells seed size 1000000 }
{}

/// An answer of a day is the departure of a trip with its line. So no list of answers of the first day that rises is longer
/// than 16 for each trip.
pub fn sample_has_few_answers()
    ensures { (seed size : ℕ) (page : List Tuple)
        → Rises page → AllByRecursion (IsOfFirstDay seed size) page → length page ≤ 16 * size }
{}
