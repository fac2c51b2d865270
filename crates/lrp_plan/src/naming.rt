// The facts of all relations of a database, by their names.
ghost use Rattle.std.specs.Prelude.{ℕ, ◌≤◌, List, [], ◌∷◌, ◌++◌, IfOk, OnOk, bytes_eq};
ghost use Rattle.std.specs.List.{AllByRecursion};
ghost use Rattle.std.specs.HashMap.{get};
ghost use Rattle.lrp_model.specs.Rows.{rows_of, relation_named};
ghost use Rattle.lrp_model.specs.declared.relations.Relation.{Relation as RelationOf};
ghost use Rattle.lrp_plan_laws.specs.Rising.{database_periods};
ghost use Rattle.lrp_plan.specs.Sources.{AreFactsOf};
ghost use Rattle.lrp_plan.specs.Naming.{IsNamedAs};

use lrp_database::Database;
use lrp_limits::facts::{Facts, facts_of};
use lrp_model::{Memory, Name, Relation};
use std::alloc::Global;
use std::collections::HashMap;

/// The facts of each relation of the database, by its name. A database keeps periods of at least 1.
///
/// A relation's period is computed once, here, and is none where it is above the limit: so a relation that a query doesn't
/// name refuses no query.
pub(crate) fn facts_by_name(
    alloc: Global,
    database: &Database,
) -> Result<HashMap<Name, Facts>, Memory>
    ensures facts { IfOk result (λ made. (name : List ℕ)
        → AreFactsOf (rows_of database.now name) (get bytes_eq made name)) }
    ensures periods { IfOk result (λ _. AllByRecursion (λ k. 1 ≤ k)
        (database_periods database.now)) }
{
    let mut facts = HashMap::new(alloc);
    for i in 0..database.relations() {
        name_one(alloc, &mut facts, database.at(i))?;
    }
    Ok(facts)
}

// The facts of a relation, unless its name is there.
fn name_one(
    alloc: Global,
    facts: &mut HashMap<Name, Facts>,
    relation: &Relation,
) -> Result<(), Memory>
    ensures { OnOk result ((before : List RelationOf)
        → ((name : List ℕ) → IsNamedAs (relation_named before name) (get bytes_eq facts.old name))
        → (name : List ℕ) → IsNamedAs (relation_named (before ++ relation.now ∷ []) name)
        (get bytes_eq facts.new name)) }
{
    if !facts.contains_key(&relation.name) {
        let of_rows = facts_of(relation.rows.as_slice());
        facts.insert(relation.name.copy(alloc)?, of_rows)?;
    }
    Ok(())
}
