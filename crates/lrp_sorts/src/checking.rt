// The check of a whole query.
ghost use Rattle.std.specs.Prelude.{◌≡◌, IfOk, OnOk, IfErr};
ghost use Rattle.lrp_model.specs.Checked.{plain_question};
ghost use Rattle.lrp_model.specs.Faults.{earliest};
ghost use Rattle.lrp_model.specs.Core.{HasElements};
ghost use Rattle.lrp_model.specs.Formulas.{form_of, question_of};
ghost use Rattle.lrp_model.specs.RawQueries.{HasNoOperator, raw_form_of, raw_question_of};
ghost use Rattle.lrp_model.specs.Sorting.{query_standing, query_faults, IsWellSorted, IsSortFault};
ghost use Rattle.lrp_model.specs.declared.faults.QueryFault.{QueryFault as FaultOf};
ghost use Rattle.lrp_model.specs.TestPoints.{points};
ghost use Rattle.lrp_sorts.specs.Carried.{HasMembers, raw_points};
ghost use Rattle.lrp_sorts.specs.Outcomes.{IsUnsorted};
ghost use Rattle.lrp_model.specs.Outcomes.{IsQueryOrMemory, IsFaultOrMemory};

use crate::catalog::Catalog;
use crate::earliest::sooner_of;
use crate::finding::with_width;
use crate::head::{OpenedHead, head_width, open};
use crate::resolving::{Binders, plain_columns, resolve};
use crate::walk::inspect;
use lrp_database::Database;
use lrp_model::{Head, Memory, Query, QueryFault, QueryRead, RawColumn, RawFormula, RawQuery};
use std::alloc::Global;

/// The first sort fault of a query over a database, beside the definitions that its catalog sees.
pub fn sort_fault(
    alloc: Global,
    catalog: &Catalog<'_>,
    head: &[RawColumn],
    body: &RawFormula,
) -> Result<Option<QueryFault>, Memory>
    ensures { IfOk result (λ fault. fault ≡ earliest query_standing (query_faults catalog.now
        (record { head = head.now; body = raw_form_of body.now }))) }
{
    let OpenedHead { fault, mut scope } = open(alloc, catalog, head)?;
    let inside = inspect(alloc, catalog, &mut scope, body)?;
    let found = with_width(body.place, inside);
    let before = sooner_of(fault, head_width(head));
    Ok(sooner_of(before, found.fault))
}

// The same over the database alone.
fn fault_over(alloc: Global, raw: &RawQuery, db: &Database) -> Result<Option<QueryFault>, Memory>
    ensures { IfOk result (λ fault. fault
        ≡ earliest query_standing (query_faults db.now (raw_question_of raw.now))) }
{
    let catalog = Catalog::new(alloc, db)?;
    sort_fault(alloc, &catalog, raw.head.as_slice(), &raw.body)
}

// The query whose sorts are those of this one, which is well-sorted.
fn sorted_query(alloc: Global, raw: RawQuery) -> Result<Query, Memory>
    requires { HasNoOperator (raw_form_of raw.body) }
    ensures query { IfOk result (λ q. question_of q ≡ plain_question (raw_question_of raw)) }
    ensures plain { IfOk result (λ q. HasNoOperator (raw_form_of q.body)) }
{
    let (head, body) = raw.into_parts();
    let mut body = body;
    let columns = plain_columns(alloc, head.as_slice())?;
    let around = Binders::Head {
        columns: head.as_slice(),
    };
    resolve(alloc, &mut body, &around);
    Ok(Query {
        head: Head { columns },
        body,
    })
}

/// The query that a raw query is, if it is well-sorted for the database: the same tree, the sorts of its names resolved in place.
///
/// # Errors
///
/// Its sort fault, the earliest and at one place the one whose kind has the least number, or want of memory.
pub fn check(alloc: Global, raw: RawQuery, db: &Database) -> Result<Query, QueryRead>
    requires { HasNoOperator (raw_form_of raw.body) }
    // An answer is the query, and the query is well-sorted.
    ensures sorted { OnOk result (IsWellSorted db.now (raw_question_of raw)) }
    ensures query { IfOk result (λ q. question_of q ≡ plain_question (raw_question_of raw)) }
    // A refusal is the sort fault.
    ensures refused { IfErr result (IsUnsorted db.now (raw_question_of raw)) }
    // Each well-sorted query is answered, and each sort fault is told.
    ensures every_query { IsWellSorted db.now (raw_question_of raw)
        → IsQueryOrMemory question_of (plain_question (raw_question_of raw)) result }
    ensures every_fault { (f : FaultOf) → IsSortFault db.now (raw_question_of raw) f
        → IsFaultOrMemory f result }
    ensures plain { IfOk result (λ q. HasNoOperator (raw_form_of q.body)) }
    // What is carried over: each `and` and `or` has a member where it has one in the raw query, and the points are the same.
    ensures members { HasMembers (raw_form_of raw.body)
        → IfOk result (λ q. HasElements (form_of q.body)) }
    ensures points { IfOk result (λ q. points (form_of q.body)
        ≡ raw_points (raw_form_of raw.body)) }
{
    let fault = match fault_over(alloc, &raw, db) {
        Ok(fault) => fault,
        Err(Memory { .. }) => return Err(QueryRead::Memory),
    };
    if let Some(fault) = fault {
        return Err(QueryRead::Fault { fault });
    }
    match sorted_query(alloc, raw) {
        Ok(query) => Ok(query),
        Err(Memory { .. }) => Err(QueryRead::Memory),
    }
}
