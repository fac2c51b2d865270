// What is found in a database, and in a query over it.
ghost use Rattle.std.specs.Prelude.{◌≡◌, IfOk, option_map};
ghost use Rattle.lrp_model.specs.RawQueries.{raw_question_of};
ghost use Rattle.lrp_lint.specs.Listed.{AreFindings, AreQueryFindings, AreEachOnce, query_order};
ghost use Rattle.lrp_lint.specs.Mentions.{query_findings};

use crate::fault::LintFault;
use crate::flaws::{QueryFinding, RowFinding};
use crate::listed::query_in_order;
use crate::queries::findings_of;
use crate::report::LintReport;
use crate::rows::row_findings;
use lrp_database::Database;
use lrp_model::{List, Memory, RawQuery};
use std::alloc::Global;

/// What is wrong with the rows of a database, and with what a query names.
#[derive(Drop)]
pub struct Findings {
    pub rows: List<RowFinding>,
    pub query: List<QueryFinding>,
}

/// What is found in a database, and in a query over it where there is one, with the database.
pub fn lint(
    alloc: Global,
    database: Database,
    query: Option<&RawQuery>,
) -> Result<LintReport, LintFault>
    ensures database { IfOk result (λ made. made.database ≡ database) }
    ensures findings { IfOk result (λ made. AreFindings database
        (option_map (λ q. raw_question_of q.now) query.entry) made.findings) }
{
    let rows = row_findings(alloc, &database)?;
    let query = query_findings(alloc, &database, query)?;
    let findings = Findings { rows, query };
    Ok(LintReport { database, findings })
}

// What is wrong with what a query names, where there is one.
fn query_findings(
    alloc: Global,
    database: &Database,
    query: Option<&RawQuery>,
) -> Result<List<QueryFinding>, Memory>
    ensures { IfOk result (AreQueryFindings database.now
        (option_map (λ q. raw_question_of q.now) query.entry)) }
{
    match query {
        Some(query) => listed_findings(alloc, database, query),
        None => Ok(List::new(alloc)),
    }
}

// What is wrong with what a query names, in order.
fn listed_findings(
    alloc: Global,
    database: &Database,
    query: &RawQuery,
) -> Result<List<QueryFinding>, Memory>
    ensures { IfOk result (AreEachOnce query_order
        (query_findings database.now (raw_question_of query.now))) }
{
    let found = findings_of(alloc, database, query)?;
    Ok(query_in_order(found))
}
