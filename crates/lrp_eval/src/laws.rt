// What is proved of counts, each law as the contract of a function that does nothing.
ghost use Rattle.std.specs.Prelude.{◌≡◌, ℕ, ℤ, List, length, false, None};
ghost use Rattle.lrp_model.specs.Formulas.{Question};
ghost use Rattle.lrp_model.specs.Steps.{Steps};
ghost use Rattle.lrp_model.specs.Pages.{IsPage};
ghost use Rattle.lrp_model.specs.Rows.{Tuple};
ghost use Rattle.lrp_model.specs.Satisfaction.{IsAnswer};
ghost use Rattle.lrp_model.specs.declared.relations.Relation.{Relation};
ghost use Rattle.lrp_eval.specs.Counts.{HasAnswerCount, HasCells};

/// A page of a window from its beginning on, with no more left, has all of the window's answers, so that its length is
/// their number.
pub fn whole_pages_count_answers()
    ensures { (db : List Relation) (q : Question) (from to : ℤ) (limit : ℕ) (page : List Tuple)
        → IsPage (IsAnswer db q) from to None limit page false
        → HasAnswerCount db q from to (length page) }
{}

/// A step has one number of cells, and a window one number of answers.
pub fn counts_are_unique()
    ensures cells { (planned : Steps) (db : List Relation) (q : Question) (s count other : ℕ)
        → HasCells planned db q s count
        → HasCells planned db q s other
        → count ≡ other }
    ensures answers { (db : List Relation) (q : Question) (from to : ℤ) (count other : ℕ)
        → HasAnswerCount db q from to count
        → HasAnswerCount db q from to other
        → count ≡ other }
{}
