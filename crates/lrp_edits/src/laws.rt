// What the texts of edits say, they say in one way.
ghost use Rattle.std.specs.Prelude.{◌≡◌, ℕ, List};
ghost use Rattle.lrp_model.specs.declared.faults.DbFault.{DbFault};
ghost use Rattle.lrp_model.specs.declared.relations.Relation.{Relation};
ghost use Rattle.lrp_edits.specs.EditReading.{IsEditsFault, SaysEdits};
ghost use Rattle.lrp_edits.specs.declared.edits.Edit.{Edit};

/// A text is of one list of edits of a database at most.
pub fn edits_are_one()
    ensures { (bytes : List ℕ) (relations : List Relation) (edits other : List Edit)
        → SaysEdits bytes relations edits → SaysEdits bytes relations other → edits ≡ other }
{}

/// The text of edits has no fault.
pub fn edits_have_no_fault()
    ensures { (bytes : List ℕ) (relations : List Relation) (edits : List Edit) (fault : DbFault)
        → SaysEdits bytes relations edits → IsEditsFault bytes relations fault → ⊥ }
{}

/// A text has one fault of edits at most.
pub fn edits_have_one_fault()
    ensures { (bytes : List ℕ) (relations : List Relation) (fault other : DbFault)
        → IsEditsFault bytes relations fault → IsEditsFault bytes relations other → fault ≡ other }
{}
