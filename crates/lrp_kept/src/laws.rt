// What holds of queries in kept form: each law is the contract of a function that does nothing.
ghost use Rattle.std.specs.Prelude.{◌≡◌, true};
ghost use Rattle.lrp_model.specs.Formulas.{Question};
ghost use Rattle.lrp_model.specs.Satisfaction.{Assignment, Satisfies, Structure};
ghost use Rattle.lrp_kept.specs.Choices.{IsDerived};
ghost use Rattle.lrp_kept.specs.KeptForm.{is_kept, query_disjuncts};

/// What satisfies the body of a query in kept form is some choice for some of its disjuncts: held rows, one for each atom, and
/// values for the quantifiers. Satisfaction is read classically, so that a choice is there unless there is none.
pub fn kept_queries_are_choices()
    ensures to { (q : Question) (M : Structure) (env : Assignment) → is_kept q ≡ true
        → Satisfies q.body M env → (IsDerived M (query_disjuncts q) env → ⊥) → ⊥ }
    ensures from { (q : Question) (M : Structure) (env : Assignment) → is_kept q ≡ true
        → IsDerived M (query_disjuncts q) env → Satisfies q.body M env }
{}
