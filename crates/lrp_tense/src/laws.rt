// What holds of expanded queries: each law is the contract of a function that does nothing.
ghost use Rattle.std.specs.Prelude.{◌≡◌, ◌↔◌, ◌<◌, ◌^◌, ℕ, List, length};
ghost use Rattle.lrp_model.specs.Checked.{plain_question};
ghost use Rattle.lrp_model.specs.RawQueries.{HasNoOperator, RawQuestion};
ghost use Rattle.lrp_model.specs.Rows.{Tuple};
ghost use Rattle.lrp_model.specs.Satisfaction.{IsAnswer};
ghost use Rattle.lrp_model.specs.Sorting.{IsWellSorted};
ghost use Rattle.lrp_model.specs.declared.relations.Relation.{Relation};
ghost use Rattle.lrp_tense.specs.Expanding.{IsExpandable, operators, expanded_question};
ghost use Rattle.lrp_tense.specs.Laws.{KeepsMeaning, IsTenseAnswer};
ghost use Rattle.lrp_tense.specs.TenseReading.{IsTenseQuery};
ghost use Rattle.lrp_model.specs.QueryReading.{IsQuery};

/// The expanded query is satisfied exactly where the written one is, by the operators' own meaning.
pub fn expansion_keeps_meaning()
    ensures { (q : RawQuestion) → IsExpandable q → length (operators q.body) < 2 ^ 64
        → KeepsMeaning q (expanded_question q) }
{}

/// The expanded query has the answers of the written one, by the operators' own meaning.
pub fn expansion_keeps_answers()
    ensures { (q : RawQuestion) (relations : List Relation) (tuple : Tuple) → IsExpandable q
        → length (operators q.body) < 2 ^ 64 → IsWellSorted relations (expanded_question q)
        → IsAnswer relations (plain_question (expanded_question q)) tuple
        ↔ IsTenseAnswer relations q tuple }
{}

/// A query without operators is its own expansion.
pub fn expansion_leaves_plain_queries()
    ensures { (q : RawQuestion) → HasNoOperator q.body → expanded_question q ≡ q }
{}

/// Bytes are one query at most, and it can be expanded.
pub fn texts_are_one_query()
    ensures one { (bytes : List ℕ) (q other : RawQuestion) → IsTenseQuery bytes q
        → IsTenseQuery bytes other → q ≡ other }
    ensures expandable { (bytes : List ℕ) (q : RawQuestion) → IsTenseQuery bytes q
        → IsExpandable q }
{}

/// A text without operators is read as without them, and expanded to what it says.
pub fn plain_texts_are_read_alike()
    ensures read { (bytes : List ℕ) (q : RawQuestion) → IsQuery bytes q
        → IsTenseQuery bytes q }
    ensures expanded { (bytes : List ℕ) (q t : RawQuestion) → IsQuery bytes q
        → IsTenseQuery bytes t → expanded_question t ≡ q }
{}
