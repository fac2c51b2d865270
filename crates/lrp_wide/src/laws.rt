// What holds of files and of their expanded queries: each law is the contract of a function that does nothing.
ghost use Rattle.std.specs.Prelude.{ℕ, List};
ghost use Rattle.lrp_model.specs.Kept.{AreKept};
ghost use Rattle.lrp_model.specs.QueryReading.{IsFile};
ghost use Rattle.lrp_model.specs.RawQueries.{RawFileView};
ghost use Rattle.lrp_model.specs.declared.relations.Relation.{Relation};
ghost use Rattle.lrp_tense.specs.Lawful.{IsLawfulExpansion};
ghost use Rattle.lrp_wide.specs.Inlining.{expanded_file};
ghost use Rattle.lrp_wide.specs.Laws.{KeepsAnswers};
ghost use Rattle.lrp_wide.specs.Limits.{IsSmallFile};
ghost use Rattle.lrp_wide.specs.Outcomes.{IsExpandableFile};
ghost use Rattle.lrp_wide.specs.WideSorting.{IsWellSortedFile};

/// The answers of a file that was read and is well-sorted are those of its expanded query.
pub fn expansion_keeps_answers()
    ensures { (bytes : List ℕ) (db : List Relation) (f : RawFileView) → IsFile bytes f
        → IsSmallFile db f → IsWellSortedFile db f → KeepsAnswers db f }
{}

/// The operators of a file that was read can be written out.
pub fn files_can_be_expanded()
    ensures { (bytes : List ℕ) (f : RawFileView) → IsFile bytes f → IsExpandableFile f }
{}

/// The expanded query of a file that was read can be planned where it is well-sorted.
pub fn expanded_files_are_lawful()
    ensures { (bytes : List ℕ) (db : List Relation) (f : RawFileView) → IsFile bytes f → AreKept db
        → IsSmallFile db f → IsWellSortedFile db f → IsLawfulExpansion (expanded_file db f) }
{}
