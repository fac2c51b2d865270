// What holds of canonical answers and their texts.
ghost use Rattle.std.specs.Prelude.{◌≡◌, ◌↔◌, ℕ, List};
ghost use Rattle.lrp_model.specs.AnswerTexts.{IsAnswerTextOf};
ghost use Rattle.lrp_model.specs.Formulas.{Question};
ghost use Rattle.lrp_model.specs.Sorts.{time_count};
ghost use Rattle.lrp_model.specs.Rows.{Datum};
ghost use Rattle.lrp_model.specs.Satisfaction.{IsAnswer};
ghost use Rattle.lrp_model.specs.Texts.{Identifier};
ghost use Rattle.lrp_model.specs.declared.relations.Relation.{Relation};
ghost use Rattle.lrp_canon.specs.Answers.{HasNumber};
ghost use Rattle.lrp_canon.specs.Rows.{HasRowCount};

/// Two queries with one time column, equal heads and equal answers have one answer text under a name in rows of a period: the rows are the
/// maximal intervals, their bounds are the least ones, and their order is fixed.
pub fn answer_texts_are_unique()
    ensures { (K : ℕ) (called : Identifier) (db other_db : List Relation) (q other : Question)
        (bytes others : List ℕ)
        → q.head ≡ other.head
        → time_count q.head ≡ 1
        → ((tuple : List Datum) → IsAnswer db q tuple ↔ IsAnswer other_db other tuple)
        → IsAnswerTextOf called K db q bytes
        → IsAnswerTextOf called K other_db other others
        → bytes ≡ others }
{}

/// The answers of a query with one time column have one number of maximal rows.
pub fn answers_have_one_row_count()
    ensures { (db : List Relation) (q : Question) (count other : ℕ)
        → HasRowCount (HasNumber db q) count
        → HasRowCount (HasNumber db q) other
        → count ≡ other }
{}
