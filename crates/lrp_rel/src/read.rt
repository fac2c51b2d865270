// Databases, read from the bytes of a text.
ghost use Rattle.std.specs.Prelude.{◌≡◌, ◌≤◌, List as ListOf, length, IfOk, IfErr};
ghost use Rattle.lrp_model.specs.DatabaseReading.{IsDatabase, IsDatabaseFault};
ghost use Rattle.lrp_model.specs.declared.faults.DbFault.{DbFault as FaultOf};
ghost use Rattle.lrp_model.specs.declared.relations.Relation.{Relation as RelationOf};
ghost use Rattle.lrp_model.specs.declared.written.RawRelation.{RawRelation as Tree};
ghost use Rattle.lrp_rel.specs.Gathered.{AreRelationsGathered};
ghost use Rattle.lrp_rel.specs.Reading.{HasFewTexts, IsReadOrMemory, IsDatabaseFaultOrMemory, IsRefusedBy, IsSoundTree, IsGatheredFromText, IsTreeRefusal};
ghost use Rattle.lrp_model.specs.Limits.{most_bytes};

use crate::gathering::Gathered;
use crate::trees::{ReadFault, read_bytes};
use lrp_database::Database;
use std::alloc::Global;

// The database of what a text says, or the first fault of that.
fn database_of(alloc: Global, gathered: Gathered) -> Result<Database, ReadFault>
    requires { IsGatheredFromText gathered }
    ensures read { IfOk result (λ db. (tree : ListOf Tree) → AreRelationsGathered tree gathered
        → IsSoundTree tree db) }
    ensures few { IfOk result HasFewTexts }
    ensures refused { IfErr result (λ e. (tree : ListOf Tree) → AreRelationsGathered tree gathered
        → IsTreeRefusal tree e) }
{
    match gathered.fault() {
        Some(fault) => Err(ReadFault::Fault { fault }),
        None => Ok(Database::of(alloc, gathered.relations)?),
    }
}

// The database of a text, or why there is none.
fn database_of_bytes(alloc: Global, bytes: &[u8]) -> Result<Database, ReadFault>
    requires { length bytes.now ≤ most_bytes }
    ensures read { IfOk result (IsDatabase bytes.now) }
    ensures few { IfOk result HasFewTexts }
    ensures refused { IfErr result (IsRefusedBy bytes.now) }
{
    let gathered = read_bytes(alloc, bytes)?;
    database_of(alloc, gathered)
}

/// The database of a text of at most 16,777,216 bytes. A text that isn't one has the one fault that is reported: of its bytes,
/// else of the grammar, else of what it says.
pub fn read_database(alloc: Global, bytes: &[u8]) -> Result<Database, ReadFault>
    requires { length bytes.now ≤ most_bytes }
    ensures read { IfOk result (IsDatabase bytes.now) }
    ensures refused { IfErr result (IsRefusedBy bytes.now) }
    ensures few { IfOk result HasFewTexts }

    // Each database is read, and each other text is refused for its one fault.
    ensures every_database { (db : ListOf RelationOf) → IsDatabase bytes.now db
        → IsReadOrMemory db result }
    ensures every_fault { (fault : FaultOf) → IsDatabaseFault bytes.now fault
        → IsDatabaseFaultOrMemory fault result }
{
    database_of_bytes(alloc, bytes)
}
