// The query with temporal operators of a text, or the fault of the bytes or of the grammar.
ghost use Rattle.std.specs.Prelude.{◌≤◌, length, IfOk, IfErr};
ghost use Rattle.lrp_model.specs.declared.faults.QueryFault.{QueryFault as FaultOf};
ghost use Rattle.lrp_model.specs.Outcomes.{IsFaultOrMemory};
ghost use Rattle.lrp_model.specs.RawQueries.{RawQuestion, raw_question_of};
ghost use Rattle.lrp_tense.specs.Expanding.{IsExpandable, expanded_question};
ghost use Rattle.lrp_tense.specs.Lawful.{IsLawfulExpansion};
ghost use Rattle.lrp_tense.specs.TenseReading.{IsTenseQuery, IsTenseQueryFault};
ghost use Rattle.lrp_tense.specs.Reading.{IsTenseUnread, IsTenseOrMemory};
ghost use Rattle.lrp_model.specs.Limits.{most_bytes};

use crate::TenseQuery;
use lrp_model::QueryRead;
use lrp_query::{Temporal, read_bytes};
use std::alloc::Global;

/// The query of a text of at most 16,777,216 bytes, in the grammar of queries with temporal operators.
/// Its faults are those of the bytes and of the grammar: `Utf8`, `Syntax`, `Number`, `Period`, `Deep` and `TextTooLong`.
pub fn read_tense(alloc: Global, bytes: &[u8]) -> Result<TenseQuery, QueryRead>
    requires { length bytes.now ≤ most_bytes }
    ensures query { IfOk result (λ q. IsTenseQuery bytes.now (raw_question_of q)) }
    ensures refused { IfErr result (IsTenseUnread bytes.now) }

    // What is read can be expanded, and what it is expanded to can be planned.
    ensures expandable { IfOk result (λ q. IsExpandable (raw_question_of q)) }
    ensures lawful { IfOk result (λ q. IsLawfulExpansion
        (expanded_question (raw_question_of q))) }

    // Each text of the grammar is read, and each other one is refused for its one fault.
    ensures every_query { (q : RawQuestion) → IsTenseQuery bytes.now q
        → IsTenseOrMemory q result }
    ensures every_fault { (fault : FaultOf) → IsTenseQueryFault bytes.now fault
        → IsFaultOrMemory fault result }
{
    read_bytes::<Temporal>(alloc, bytes)
}
