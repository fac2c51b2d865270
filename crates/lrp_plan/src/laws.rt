// What holds of queries over relations that were read, as the contract of a function that does nothing.
ghost use Rattle.std.specs.Prelude.{◌≤ℤ◌, List, pos};
ghost use Rattle.std.specs.List.{AllByRecursion};
ghost use Rattle.lrp_model.specs.Formulas.{Question};
ghost use Rattle.lrp_model.specs.TestPoints.{points};
ghost use Rattle.lrp_model.specs.declared.relations.Relation.{Relation};
ghost use Rattle.lrp_plan_laws.specs.Rising.{HasPeriods};
ghost use Rattle.lrp_model.specs.Kept.{IsKept};

/// A query over kept relations has periods of at least 1, where the points of its `in` tests have.
pub fn kept_queries_have_periods()
    ensures { (db : List Relation) (q : Question) → AllByRecursion IsKept db
        → AllByRecursion (λ at. pos 1 ≤ℤ at.period) (points q.body) → HasPeriods db q }
{}
