// What the texts of databases and queries say, they say in one way.
ghost use Rattle.std.specs.Prelude.{◌≡◌, ◌⊎◌, ℕ, List};
ghost use Rattle.std.specs.List.{AllByRecursion};
ghost use Rattle.lrp_model.specs.Checked.{plain_question};
ghost use Rattle.lrp_model.specs.DataTexts.{IsDataText};
ghost use Rattle.lrp_model.specs.Domains.{all_texts};
ghost use Rattle.lrp_model.specs.DatabaseReading.{IsDatabase, IsDatabaseFault};
ghost use Rattle.lrp_model.specs.QueryReading.{IsFile, IsFileFault, IsQuery, IsQueryFault};
ghost use Rattle.lrp_model.specs.RawQueries.{RawFileView, RawQuestion};
ghost use Rattle.lrp_model.specs.Sorting.{IsWellSorted, IsSortFault};
ghost use Rattle.lrp_model.specs.declared.faults.DbFault.{DbFault};
ghost use Rattle.lrp_model.specs.declared.faults.QueryFault.{QueryFault};
ghost use Rattle.lrp_model.specs.declared.relations.Relation.{Relation};
ghost use Rattle.lrp_edits.specs.EditReading.{IsEditsFault, SaysEdits};
ghost use Rattle.lrp_reading_laws.specs.Either.{OneOrOther};
ghost use Rattle.lrp_tense.specs.Expanding.{expanded_question};
ghost use Rattle.lrp_tense.specs.TenseReading.{IsTenseQuery, IsTenseQueryFault};
ghost use Rattle.lrp_wide.specs.Inlining.{expanded_file};
ghost use Rattle.lrp_wide.specs.WideSorting.{IsFileSortFault, IsWellSortedFile};

/// Every text is a database or has a fault of one.
pub fn every_text_is_a_database_or_faulty()
    ensures { (bytes : List ℕ) → OneOrOther (IsDatabase bytes) (IsDatabaseFault bytes) }
{}

/// Every text is a query or has a fault of one.
pub fn every_text_is_a_query_or_faulty()
    ensures { (bytes : List ℕ) → OneOrOther (IsQuery bytes) (IsQueryFault bytes) }
{}

/// Every text is a query with temporal operators or has a fault of one.
pub fn every_text_is_a_tense_query_or_faulty()
    ensures { (bytes : List ℕ) → OneOrOther (IsTenseQuery bytes) (IsTenseQueryFault bytes) }
{}

/// Every text is a file of the wide language or has a fault of one.
pub fn every_text_is_a_file_or_faulty()
    ensures { (bytes : List ℕ) → OneOrOther (IsFile bytes) (IsFileFault bytes) }
{}

/// Every text is edits of a database or has a fault of them.
pub fn every_text_is_edits_or_faulty()
    ensures { (bytes : List ℕ) (relations : List Relation)
        → OneOrOther (SaysEdits bytes relations) (IsEditsFault bytes relations) }
{}

/// Over a database every query is well-sorted or has a sort fault.
pub fn every_query_is_well_sorted_or_faulty()
    ensures { (relations : List Relation) (q : RawQuestion)
        → IsWellSorted relations q ⊎ ((fault : QueryFault) × IsSortFault relations q fault) }
{}

/// Over a database every file of the wide language is well-sorted or has a sort fault.
pub fn every_file_is_well_sorted_or_faulty()
    ensures { (relations : List Relation) (f : RawFileView) → IsWellSortedFile relations f
        ⊎ ((fault : QueryFault) × IsFileSortFault relations f fault) }
{}

/// A text is of one database at most.
pub fn texts_are_of_one_database()
    ensures { (bytes : List ℕ) (relations other : List Relation)
        → IsDatabase bytes relations → IsDatabase bytes other → relations ≡ other }
{}

/// The text of a database has no fault.
pub fn databases_have_no_fault()
    ensures { (bytes : List ℕ) (relations : List Relation) (fault : DbFault)
        → IsDatabase bytes relations → IsDatabaseFault bytes fault → ⊥ }
{}

/// A text has one fault of a database at most.
pub fn databases_have_one_fault()
    ensures { (bytes : List ℕ) (fault other : DbFault)
        → IsDatabaseFault bytes fault → IsDatabaseFault bytes other → fault ≡ other }
{}

/// A text is of one query at most.
pub fn texts_are_of_one_query()
    ensures { (bytes : List ℕ) (q other : RawQuestion)
        → IsQuery bytes q → IsQuery bytes other → q ≡ other }
{}

/// The text of a query has no fault.
pub fn queries_have_no_fault()
    ensures { (bytes : List ℕ) (q : RawQuestion) (fault : QueryFault)
        → IsQuery bytes q → IsQueryFault bytes fault → ⊥ }
{}

/// A text has one fault of a query at most.
pub fn queries_have_one_fault()
    ensures { (bytes : List ℕ) (fault other : QueryFault)
        → IsQueryFault bytes fault → IsQueryFault bytes other → fault ≡ other }
{}

/// The text of a query with temporal operators has no fault.
pub fn tense_queries_have_no_fault()
    ensures { (bytes : List ℕ) (q : RawQuestion) (fault : QueryFault)
        → IsTenseQuery bytes q → IsTenseQueryFault bytes fault → ⊥ }
{}

/// A text has one fault of a query with temporal operators at most.
pub fn tense_queries_have_one_fault()
    ensures { (bytes : List ℕ) (fault other : QueryFault)
        → IsTenseQueryFault bytes fault → IsTenseQueryFault bytes other → fault ≡ other }
{}

/// The texts of a database and of a query over it are data texts.
pub fn read_texts_are_data_texts()
    ensures { (database query : List ℕ) (relations : List Relation) (q : RawQuestion)
        → IsDatabase database relations
        → IsQuery query q
        → AllByRecursion (λ entry. IsDataText entry.1) (all_texts relations (plain_question q)) }
{}

/// The texts of a database and of the expansion of a query with temporal operators are data texts.
pub fn expanded_texts_are_data_texts()
    ensures { (database query : List ℕ) (relations : List Relation) (q : RawQuestion)
        → IsDatabase database relations
        → IsTenseQuery query q
        → AllByRecursion (λ entry. IsDataText entry.1)
        (all_texts relations (plain_question (expanded_question q))) }
{}

/// A query that is well-sorted for a database has no sort fault.
pub fn well_sorted_queries_have_no_fault()
    ensures { (relations : List Relation) (q : RawQuestion) (fault : QueryFault)
        → IsWellSorted relations q → IsSortFault relations q fault → ⊥ }
{}

/// A text of the wide language is of one file at most.
pub fn texts_are_of_one_file()
    ensures { (bytes : List ℕ) (f other : RawFileView)
        → IsFile bytes f → IsFile bytes other → f ≡ other }
{}

/// The text of a file of the wide language has no fault.
pub fn files_have_no_fault()
    ensures { (bytes : List ℕ) (f : RawFileView) (fault : QueryFault)
        → IsFile bytes f → IsFileFault bytes fault → ⊥ }
{}

/// A text has one fault of a file of the wide language at most.
pub fn files_have_one_fault()
    ensures { (bytes : List ℕ) (fault other : QueryFault)
        → IsFileFault bytes fault → IsFileFault bytes other → fault ≡ other }
{}

/// The texts of a database and of the query that stands for a file of the wide language are data texts.
pub fn expanded_files_have_data_texts()
    ensures { (database file : List ℕ) (relations : List Relation) (f : RawFileView)
        → IsDatabase database relations
        → IsFile file f
        → AllByRecursion (λ entry. IsDataText entry.1)
        (all_texts relations (plain_question (expanded_file relations f))) }
{}
