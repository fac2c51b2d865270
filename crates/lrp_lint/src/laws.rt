// What holds of findings, as the contract of a function that does nothing.
ghost use Rattle.std.specs.Prelude.{◌≡◌, List, Option};
ghost use Rattle.lrp_model.specs.RawQueries.{RawQuestion};
ghost use Rattle.lrp_model.specs.declared.relations.Relation.{Relation};
ghost use Rattle.lrp_lint.specs.Listed.{AreFindings};
ghost use Rattle.lrp_lint.specs.declared.findings.Findings.{Findings as Found};

/// What is found in a database, and in a query over it, is one.
pub fn findings_are_one()
    ensures { (db : List Relation) (asked : Option RawQuestion) (findings other : Found)
        → AreFindings db asked findings
        → AreFindings db asked other
        → findings ≡ other }
{}
