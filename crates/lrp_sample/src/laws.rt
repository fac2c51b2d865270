// What holds of the sample's texts: each law is the contract of a function that does nothing.
ghost use Rattle.std.specs.Prelude.{◌≡◌, ℕ};
ghost use Rattle.lrp_model.specs.Checked.{plain_question};
ghost use Rattle.lrp_model.specs.DatabaseReading.{IsDatabase};
ghost use Rattle.lrp_model.specs.QueryReading.{IsQuery};
ghost use Rattle.lrp_model.specs.Sorting.{IsWellSorted};
ghost use Rattle.lrp_sample.specs.Texts.{sample_database, sample_query};
ghost use Rattle.lrp_sample.specs.Trees.{sample_relations, raw_sample, sample_question};

/// The sample's texts are a database and a query.
pub fn sample_texts_are_read()
    ensures database { (seed size : ℕ)
        → IsDatabase (sample_database seed size) (sample_relations seed size) }
    ensures query { IsQuery sample_query raw_sample }
{}

/// The sample's query is well-sorted for its database, and this is the query without its places.
pub fn sample_query_is_well_sorted()
    ensures sorted { (seed size : ℕ) → IsWellSorted (sample_relations seed size) raw_sample }
    ensures plain { plain_question raw_sample ≡ sample_question }
{}
