// Least answers, one after the other, while edits are made.
ghost use Rattle.std.specs.Prelude.{◌≡◌, IfErr, IfOk, OnOk};
ghost use Rattle.lrp_model.specs.Formulas.{question_of};
ghost use Rattle.lrp_keep.specs.Keeps.{CanBeKept, opened as opened_by, IsPastLimit, StaysWithinLimits};
ghost use Rattle.lrp_watch.specs.Edits.{IsEditMade, IsPassedAfter, IsRefusedEdit};
ghost use Rattle.lrp_watch.specs.Faults.{IsFaultAt, IsFaultBy};
ghost use Rattle.lrp_watch.specs.LeastAnswers.{AreDone, CanBeMade, CanGoOn, HasFewColumns, IsLeastOver, IsOverHead, IsTold};
ghost use Rattle.lrp_outputs.specs.Outputs.{least_answers_text};
ghost use Rattle.lrp_watch.specs.Watching.{CanBeWatched, IsPassed, TellsLeasts};

use crate::domains::constants_of;
use crate::faults::WatchFault;
use lrp_answers::Answer;
use lrp_database::Database;
use lrp_edits::Edit;
use lrp_keep::{Keep, KeepFault};
use lrp_model::{Copies, Domain, List, Memory, Query, Spot, texts_in_order};
use lrp_outputs::{LeastAnswers, spots_stand_for_tuples};
use lrp_steps::{head_vars, store_over};
use std::alloc::Global;

/// The least answers of a query over a database as it is read, and after each of some edits.
///
/// # Errors
///
/// The first limit that is passed, by the number of the edit at which it is.
pub fn least_answers(
    alloc: Global,
    database: &Database,
    query: &Query,
    edits: &[Edit],
    cap: u32,
) -> Result<LeastAnswers, WatchFault>
    requires { CanBeWatched database.now (question_of query.now) edits.now }
    ensures told { IfOk result (λ made. TellsLeasts database.now
        (question_of query.now) edits.now cap (least_answers_text made)) }
    ensures fault { IfErr result (IsFaultBy (IsPassed database.now
        (question_of query.now) edits.now cap)) }
{
    let domain = constants_of(alloc, database, query, edits)?;
    database.relations();
    texts_in_order();
    let mut keep = opened(alloc, database, query, &domain, cap)?;
    let spots = spots_of(alloc, &mut keep, edits)?;
    let answer = no_answers(alloc, query, domain)?;
    Ok(LeastAnswers { answer, spots })
}

/// No answers of a query: its head and the constants, by which spots are told, so that no zone is made beside those kept.
pub(crate) fn no_answers(alloc: Global, query: &Query, domain: Domain) -> Result<Answer, Memory>
    requires { HasFewColumns query.now.head.columns }
    ensures { IfOk result (IsOverHead query.now domain) }
{
    let vars = head_vars(alloc, &query.head)?;
    let store = store_over(alloc, &vars, 1);
    Ok(Answer {
        head: query.head.copy(alloc)?,
        period: 1,
        domain,
        store,
    })
}

// What is kept of the query over the database as it is read.
fn opened<'a>(
    alloc: Global,
    database: &Database,
    query: &'a Query,
    domain: &Domain,
    cap: u32,
) -> Result<Keep<'a>, WatchFault>
    requires { CanBeKept (question_of query.now) database.now domain.now }
    ensures view { IfOk result (λ made. made ≡ opened_by query.now database.now domain.now cap) }
    ensures limits { OnOk result (StaysWithinLimits
        (opened_by query.now database.now domain.now cap)) }
    ensures fault { IfErr result (IsFaultBy (IsFaultAt 0
        (IsPastLimit (opened_by query.now database.now domain.now cap)))) }
{
    match Keep::open(alloc, query, database, domain, cap) {
        Ok(keep) => Ok(keep),
        Err(fault) => Err(WatchFault::at(0, fault)),
    }
}

// The least answers over the rows that are held, and over those after each of the edits.
fn spots_of(
    alloc: Global,
    keep: &mut Keep<'_>,
    edits: &[Edit],
) -> Result<List<Option<Spot>>, WatchFault>
    requires { CanGoOn keep.old edits.now }
    ensures done { IfOk result (AreDone edits.now keep.old keep.new) }
    ensures fault { IfErr result (IsFaultBy (IsPassedAfter edits.now keep.old)) }
{
    let mut spots = List::new(alloc);
    tell(keep, &mut spots)?;
    for (i, edit) in edits.iter().enumerate() {
        make(keep, edit, i as u64 + 1)?;
        tell(keep, &mut spots)?;
    }
    Ok(spots)
}

// Makes the edit of this number.
fn make(keep: &mut Keep<'_>, edit: &Edit, number: u64) -> Result<(), WatchFault>
    requires { CanBeMade keep.old edit.now }
    ensures made { OnOk result (IsEditMade edit.now keep.old keep.new) }
    ensures fault { IfErr result (IsFaultBy (IsFaultAt number (IsRefusedEdit edit.now keep.old))) }
{
    if !edit.add {
        keep.remove(&edit.relation, &edit.row);
        return Ok(());
    }
    match keep.add(&edit.relation, &edit.row) {
        Ok(()) => Ok(()),
        Err(fault) => Err(WatchFault::at(number, fault)),
    }
}

// The least answer over the rows that are held, after those before it.
fn tell(keep: &Keep<'_>, spots: &mut List<Option<Spot>>) -> Result<(), Memory>
    ensures { OnOk result (IsTold keep.now spots.old spots.new) }
{
    spots.push(least_of(keep))
}

// The least answer over the rows that are held.
fn least_of(keep: &Keep<'_>) -> Option<Spot>
    ensures { IsLeastOver (question_of keep.now.query) keep.now.domain keep.now.relations result }
{
    spots_stand_for_tuples();
    keep.least()
}
