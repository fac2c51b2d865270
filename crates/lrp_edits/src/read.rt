// Edits of a database, read from the bytes of a text.
ghost use Rattle.std.specs.Prelude.{◌≡◌, ◌≤◌, List as ListOf, length, IfOk, IfErr};
ghost use Rattle.std.specs.List.{AllByRecursion};
ghost use Rattle.lrp_model.specs.declared.faults.DbFault.{DbFault as FaultOf};
ghost use Rattle.lrp_edits.specs.declared.edits.Edit.{Edit as EditOf};
ghost use Rattle.lrp_rel.specs.Reading.{IsReadOrMemory, IsDatabaseFaultOrMemory};
ghost use Rattle.lrp_edits.specs.EditMeaning.{HaveFewTexts, IsEditOf};
ghost use Rattle.lrp_edits.specs.EditReading.{SaysEdits, IsEditsFault, AreEditsRefused};
ghost use Rattle.lrp_edits.specs.EditGathered.{AreEditsFrom};
ghost use Rattle.lrp_model.specs.Limits.{most_bytes};

use crate::edits::{Edit, Edits};
use crate::headings::headings_of;
use crate::reading::read_edits_to_end;
use lrp_database::Database;
use lrp_model::{DbFault, DbKind, List};
use lrp_rel::{ReadFault, refusal};
use lrp_text::{TokenCursor, place_after};
use std::alloc::Global;
use std::str::from_utf8;

// What a text says.
fn read_text(alloc: Global, text: &str, database: &Database) -> Result<Edits, ReadFault>
    requires { length text.now ≤ most_bytes }
    ensures kept { IfOk result (AreEditsFrom text.now database.now) }
    ensures refused { IfErr result (AreEditsRefused text.now database.now) }
{
    let headings = headings_of(alloc, database.as_slice())?;
    let mut tokens = TokenCursor::new(text);
    match read_edits_to_end(alloc, database, &headings, &mut tokens) {
        Ok(kept) => Ok(kept),
        Err(fault) => Err(refusal(fault, tokens.peek().place)),
    }
}

// What bytes say, where they are UTF-8 and a text of the grammar.
fn read_bytes(alloc: Global, bytes: &[u8], database: &Database) -> Result<Edits, ReadFault>
    requires { length bytes.now ≤ most_bytes }
    ensures kept { IfOk result (AreEditsFrom bytes.now database.now) }
    ensures refused { IfErr result (AreEditsRefused bytes.now database.now) }
{
    match from_utf8(bytes) {
        Ok(text) => read_text(alloc, text, database),
        Err(error) => {
            let kind = DbKind::Utf8;
            let place = place_after(&bytes[..error.valid_up_to()]);
            Err(ReadFault::Fault {
                fault: DbFault { kind, place },
            })
        }
    }
}

// The edits of a text, or why there are none.
fn edits_of_bytes(alloc: Global, bytes: &[u8], database: &Database) -> Result<List<Edit>, ReadFault>
    requires { length bytes.now ≤ most_bytes }
    ensures read { IfOk result (SaysEdits bytes.now database.now) }
    ensures refused { IfErr result (AreEditsRefused bytes.now database.now) }
{
    let kept = read_bytes(alloc, bytes, database)?;
    match kept.fault {
        Some(fault) => Err(ReadFault::Fault { fault }),
        None => Ok(kept.list),
    }
}

/// The edits of a database that a text of at most 16,777,216 bytes says, in order. A text that says none has the one fault
/// that is reported: of its bytes, else of the grammar, else of what it says. Then the kinds are `Arity`, `Sort` and `Column`
/// of a row, and `UnknownRelation` at a name that is no relation of the database, whose row has no fault of its own.
pub fn read_edits(alloc: Global, bytes: &[u8], database: &Database) -> Result<List<Edit>, ReadFault>
    requires { length bytes.now ≤ most_bytes }
    ensures read { IfOk result (SaysEdits bytes.now database.now) }
    ensures refused { IfErr result (AreEditsRefused bytes.now database.now) }

    // All edits that a text says are read, and each other text is refused for its one fault.
    ensures every_edits { (edits : ListOf EditOf) → SaysEdits bytes.now database.now edits
        → IsReadOrMemory edits result }
    ensures every_fault { (fault : FaultOf) → IsEditsFault bytes.now database.now fault
        → IsDatabaseFaultOrMemory fault result }

    // Each names a relation and has a row of its columns, and all rows together have fewer than 2^24 data texts.
    ensures lawful { IfOk result (AllByRecursion (IsEditOf database.now)) }
    ensures few { IfOk result (HaveFewTexts database.now) }
{
    edits_of_bytes(alloc, bytes, database)
}
