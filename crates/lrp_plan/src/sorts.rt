// Whether a database names sorts.
ghost use Rattle.std.specs.Prelude.{◌≡◌};
ghost use Rattle.std.specs.List.{list_any};
ghost use Rattle.lrp_model.specs.Core.{has_named_sort as names_some_sort, is_named as is_named_sort};

use lrp_database::Database;
use lrp_model::{Relation, Sort};

/// Whether some column of the database has a named sort.
pub fn has_named_sort(database: &Database) -> bool
    ensures { result ≡ names_some_sort database.now }
{
    for i in 0..database.relations() {
        if names_sort(database.at(i)) {
            return true;
        }
    }
    false
}

fn names_sort(relation: &Relation) -> bool
    ensures { result ≡ list_any (λ column. is_named_sort column.sort) relation.now.columns }
{
    relation
        .columns
        .as_slice()
        .iter()
        .any(|column| is_named(&column.sort))
}

fn is_named(sort: &Sort) -> bool
    ensures { result ≡ is_named_sort sort.now }
{
    matches!(sort, Sort::Named { .. })
}
