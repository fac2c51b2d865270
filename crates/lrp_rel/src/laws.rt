// What holds of databases as text: each law is the contract of a function that does nothing.
ghost use Rattle.std.specs.Prelude.{◌≡◌, List, ℕ};
ghost use Rattle.lrp_model.specs.declared.written.RawRelation.{RawRelation};
ghost use Rattle.lrp_model.specs.Databases.{database_text, FitsDatabase};
ghost use Rattle.lrp_model.specs.Tokens.{Tokens, Spells};
ghost use Rattle.lrp_model.specs.DatabaseReading.{IsDatabase};
ghost use Rattle.lrp_model.specs.declared.relations.Relation.{Relation};
ghost use Rattle.lrp_print.specs.ReadBack.{ReadsBack};

/// Tokens that spell a lawful database spell no other tree.
pub fn database_texts_have_one_tree()
    ensures { (tree other : List RawRelation) (tokens : Tokens)
        → FitsDatabase tree
        → Spells (database_text tree) tokens
        → Spells (database_text other) tokens
        → tree ≡ other }
{}

/// The relations of a database's text, written out, read back as relations that hold the same.
pub fn databases_read_back()
    ensures { (bytes : List ℕ) (relations : List Relation) → IsDatabase bytes relations
        → ReadsBack relations }
{}
