// What holds of queries as text: each law is the contract of a function that does nothing.
ghost use Rattle.std.specs.Prelude.{◌≡◌, ℕ, List};
ghost use Rattle.lrp_model.specs.Queries.{Language, TakesWide, WrittenFile, WrittenQuery};
ghost use Rattle.lrp_model.specs.Queries.{file_text, query_text, FitsFile, FitsQuery};
ghost use Rattle.lrp_model.specs.Queries.Language.{wide};
ghost use Rattle.lrp_model.specs.QueryMeaning.{raw_file};
ghost use Rattle.lrp_model.specs.QueryReading.{IsFile, IsQueryIn};
ghost use Rattle.lrp_model.specs.RawQueries.{RawQuestion};
ghost use Rattle.lrp_model.specs.Tokens.{Tokens, Spells};
ghost use Rattle.lrp_query.specs.Reading.{query_alone};

/// Tokens that spell a lawful query of a language without wide formulas spell no other tree.
pub fn query_texts_have_one_tree()
    ensures { (l : Language) → (TakesWide l → ⊥) → (tree other : WrittenQuery l) (tokens : Tokens)
        → FitsQuery tree
        → Spells (query_text tree) tokens
        → Spells (query_text other) tokens
        → tree ≡ other }
{}

/// Tokens that spell a lawful file of the wide language say one file, whatever tree they spell besides.
pub fn file_texts_say_one_file()
    ensures { (tree other : WrittenFile wide) (tokens : Tokens)
        → FitsFile tree
        → Spells (file_text tree) tokens
        → Spells (file_text other) tokens
        → raw_file tree ≡ raw_file other }
{}

/// A query of a language without wide formulas says the same as a file of the wide language.
pub fn narrow_texts_read_alike()
    ensures { (l : Language) (bytes : List ℕ) (q : RawQuestion)
        → (TakesWide l → ⊥)
        → IsQueryIn l bytes q
        → IsFile bytes (query_alone q) }
{}
