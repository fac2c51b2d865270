// Least answers of a query that is decided anew after each edit.
ghost use Rattle.std.specs.Prelude.{◌≡◌, ◌<◌, IfErr, IfOk, List as ListOf, OnOk, length, option_copied};
ghost use Rattle.lrp_model.specs.Domains.{constants};
ghost use Rattle.lrp_model.specs.Formulas.{question_of};
ghost use Rattle.lrp_eval.specs.Answered.{IsAnswerOf};
ghost use Rattle.lrp_eval.specs.Planned.{IsPlanOf};
ghost use Rattle.lrp_model.specs.Tuples.{text_at};
ghost use Rattle.lrp_model.specs.declared.relations.Relation.{Relation};
ghost use Rattle.lrp_plan_laws.specs.GuardedPlans.{plan_by as steps_by};
ghost use Rattle.lrp_store.specs.Least.{HasRoom};
ghost use Rattle.lrp_watch.specs.Anew.{CanBeDecidedAnew, IsPassedAnew, IsPastPlan, IsWithinPlan, TellsLeastsAnew};
ghost use Rattle.lrp_watch.specs.Changes.{IsToldOver};
ghost use Rattle.lrp_watch.specs.Decided.{AreDecided, CanBeDecided, HasAllTexts, HasEachText, IsAnsweredOver, IsRenumbered};
ghost use Rattle.lrp_watch.specs.Faults.{IsFaultAt, IsFaultBy};
ghost use Rattle.lrp_watch.specs.Keeping.{IsKeptBefore, IsKeptOver};
ghost use Rattle.lrp_watch.specs.LeastAnswers.{IsLeastOver};
ghost use Rattle.lrp_outputs.specs.Outputs.{least_answers_text};
ghost use Rattle.lrp_outputs.specs.Spots.{HasKnownTexts};

use crate::domains::constants_of;
use crate::edited::edited;
use crate::faults::WatchFault;
use crate::keeping::{Kept, asked_for, kept_for, still_known};
use crate::watching::no_answers;
use lrp_answers::Answer;
use lrp_database::Database;
use lrp_edits::Edit;
use lrp_eval::{AnswerFrom, EvalFault, Known, answer_from};
use lrp_guarded::plan_by;
use lrp_model::{Domain, List, Memory, Plan, Planning, Query, Spot};
use lrp_outputs::{LeastAnswers, small_answers_have_room, spots_stand_for_tuples};
use lrp_plan::{PlanFault, kept_queries_have_periods};
use lrp_plan_laws::sorted_queries_are_settled;
use std::alloc::Global;

/// How a query is planned, and the greatest number of cells that a step of its plan may have.
#[derive(Clone, Copy)]
pub struct Anew {
    pub planning: Planning,
    pub cap: u32,
}

/// The least answers of a query over a database as it is read, and after each of some edits; it is planned and evaluated
/// again over the rows that are then held. Tables of parts that don't read the edited relation are kept from edit to edit.
///
/// # Errors
///
/// The first limit that a plan or its evaluation passes, by the number of the edit at which it is.
pub fn least_answers_anew(
    alloc: Global,
    database: &Database,
    query: &Query,
    edits: &[Edit],
    anew: Anew,
) -> Result<LeastAnswers, WatchFault>
    requires { CanBeDecidedAnew database.now (question_of query.now) edits.now }
    ensures told { IfOk result (λ made. TellsLeastsAnew anew.planning database.now
        (question_of query.now) edits.now anew.cap (least_answers_text made)) }
    ensures fault { IfErr result (IsFaultBy (IsPassedAnew anew.planning database.now
        (question_of query.now) edits.now anew.cap)) }
{
    let domain = constants_of(alloc, database, query, edits)?;
    database.relations();
    let renewed = Renewed {
        alloc,
        query,
        domain: &domain,
        anew,
    };
    let spots = renewed.spots(database, edits)?;
    let answer = no_answers(alloc, query, domain)?;
    Ok(LeastAnswers { answer, spots })
}

// A query that is decided anew, and the constants by whose numbers the texts of its least answers are told.
#[derive(Clone, Copy)]
struct Renewed<'a> {
    alloc: Global,
    query: &'a Query,
    domain: &'a Domain,
    anew: Anew,
}

// A database, the number of the edit after which it stands, and the next edit.
#[derive(Clone, Copy)]
struct Turn<'a> {
    database: &'a Database,
    edit: u64,
    next: Option<&'a Edit>,
}

// All answers over a database, and what is kept for the next edit.
#[derive(Drop)]
struct Renewal {
    answer: Answer,
    kept: Option<Kept>,
}

impl<'a> Renewed<'a> {
    // The least answers over a database, and after each of the edits.
    fn spots(&self, database: &Database, edits: &[Edit]) -> Result<List<Option<Spot>>, WatchFault>
        requires can { CanBeDecidedAnew database.now (question_of self.now.query.now) edits.now }
        requires texts { HasAllTexts self.now.domain.now (question_of self.now.query.now) edits.now
            database.now }
        ensures done { IfOk result (AreDecided self.now.anew.planning
            (question_of self.now.query.now) self.now.anew.cap self.now.domain.now edits.now
            database.now) }
        ensures fault { IfErr result (IsFaultBy (IsPassedAnew self.now.anew.planning database.now
            (question_of self.now.query.now) edits.now self.now.anew.cap)) }
    {
        let mut held = database.copy(self.alloc)?;
        let mut spots = List::new(self.alloc);
        let turn = Turn {
            database: &held,
            edit: 0,
            next: edits.first(),
        };
        let mut kept = self.tell(&turn, None, &mut spots)?;
        for (i, edit) in edits.iter().enumerate() {
            let next = edited(self.alloc, &held, edit)?;
            let turn = Turn {
                database: &next,
                edit: i as u64 + 1,
                next: edits.get(i + 1),
            };
            kept = self.tell(&turn, kept, &mut spots)?;
            held = next;
        }
        Ok(spots)
    }

    // The least answer over a database, after those before it, and what is kept for the next edit.
    fn tell(
        &self,
        turn: &Turn<'_>,
        kept: Option<Kept>,
        spots: &mut List<Option<Spot>>,
    ) -> Result<Option<Kept>, WatchFault>
        requires can { CanBeDecided turn.now.database.now (question_of self.now.query.now) }
        requires texts { HasEachText self.now.domain.now (constants turn.now.database.now
            (question_of self.now.query.now)) }
        requires kept { IsKeptBefore self.now.anew.cap turn.now.database.now kept }
        ensures told { OnOk result (IsToldOver (question_of self.now.query.now)
            self.now.domain.now turn.now.database.now spots.old spots.new) }
        ensures within { OnOk result (IsWithinPlan self.now.anew.planning
            (question_of self.now.query.now) self.now.anew.cap turn.now.database.now) }
        ensures kept { IfOk result (IsKeptOver self.now.anew.cap turn.now.database.now
            (option_copied turn.now.next)) }
        ensures fault { IfErr result (IsFaultBy (IsFaultAt turn.now.edit
            (IsPastPlan self.now.anew.planning (question_of self.now.query.now)
            self.now.anew.cap turn.now.database.now))) }
    {
        let made = self.renewal(turn, kept)?;
        let Renewal { answer, kept } = made;
        spots.push(self.least(&answer))?;
        Ok(kept)
    }

    // The least of some answers.
    fn least(&self, answer: &Answer) -> Option<Spot>
        requires room { HasRoom answer.now.store }
        requires texts { HasEachText self.now.domain.now answer.now.domain }
        ensures { (db : ListOf Relation)
            → IsAnsweredOver db (question_of self.now.query.now) answer.now
            → IsLeastOver (question_of self.now.query.now) self.now.domain.now db result }
    {
        spots_stand_for_tuples();
        match answer.least() {
            Some(spot) => Some(renumbered(answer, self.domain, &spot)),
            None => None,
        }
    }

    // All answers over a database, and what is kept for the next edit.
    fn renewal(&self, turn: &Turn<'_>, kept: Option<Kept>) -> Result<Renewal, WatchFault>
        requires can { CanBeDecided turn.now.database.now (question_of self.now.query.now) }
        requires kept { IsKeptBefore self.now.anew.cap turn.now.database.now kept }
        ensures answer { IfOk result (λ made. IsAnswerOf (steps_by self.now.anew.planning
            turn.now.database.now (question_of self.now.query.now)) turn.now.database.now
            (question_of self.now.query.now) self.now.anew.cap made.answer) }
        ensures room { IfOk result (λ made. HasRoom made.answer.store) }
        ensures within { OnOk result (IsWithinPlan self.now.anew.planning
            (question_of self.now.query.now) self.now.anew.cap turn.now.database.now) }
        ensures kept { IfOk result (λ made. IsKeptOver self.now.anew.cap turn.now.database.now
            (option_copied turn.now.next) made.kept) }
        ensures fault { IfErr result (IsFaultBy (IsFaultAt turn.now.edit
            (IsPastPlan self.now.anew.planning (question_of self.now.query.now)
            self.now.anew.cap turn.now.database.now))) }
    {
        let plan = self.plan(turn.database, turn.edit)?;
        let known = still_known(self.alloc, kept, &plan)?;
        let asked = asked_for(self.alloc, &plan, known.as_slice(), turn.next)?;
        let known_to = Known {
            tables: known.as_slice(),
            asked: asked.as_slice(),
        };
        match answer_from(self.alloc, &plan, turn.database, self.anew.cap, &known_to) {
            Ok(made) => {
                small_answers_have_room();
                let AnswerFrom { answer, tables } = made;
                let kept = kept_for(self.alloc, plan, known, tables, turn.next)?;
                Ok(Renewal { answer, kept })
            }
            Err(EvalFault::TooManyCells { .. }) => Err(WatchFault::TooManyCells {
                edit: turn.edit,
            }),
            Err(EvalFault::Memory) => Err(WatchFault::Memory),
        }
    }

    // The plan over a database, after the edit of this number.
    fn plan(&self, database: &Database, edit: u64) -> Result<Plan, WatchFault>
        requires { CanBeDecided database.now (question_of self.now.query.now) }
        ensures plan { IfOk result (IsPlanOf (steps_by self.now.anew.planning database.now
            (question_of self.now.query.now)) database.now (question_of self.now.query.now)) }
        ensures fault { IfErr result (IsFaultBy (IsFaultAt edit
            (IsPastPlan self.now.anew.planning (question_of self.now.query.now)
            self.now.anew.cap database.now))) }
    {
        kept_queries_have_periods();
        sorted_queries_are_settled();
        database.relations();
        match plan_by(self.alloc, self.query, database, self.anew.planning) {
            Ok(plan) => Ok(plan),
            Err(PlanFault::PeriodLimit) => Err(WatchFault::PeriodLimit { edit }),
            Err(PlanFault::BoundLimit) => Err(WatchFault::BoundLimit { edit }),
            Err(PlanFault::Memory) => Err(WatchFault::Memory),
        }
    }
}

// The same spot, with the numbers that its texts have in another domain.
fn renumbered(answer: &Answer, domain: &Domain, spot: &Spot) -> Spot
    requires known { HasKnownTexts answer.now spot.now }
    requires texts { HasEachText domain.now answer.now.domain }
    requires size { length spot.now.texts ≡ 8 }
    ensures { IsRenumbered answer.now domain.now spot.now result }
{
    let shape = answer.store.shape();
    let mut texts = [0; 8];
    for place in 0..usize::from(shape.texts) {
        let number = number_in(answer, domain, spot.texts[place]);
        texts[place] = number;
    }
    Spot {
        times: spot.times,
        texts,
    }
}

// The number in another domain of the text that has this number in the answer's.
fn number_in(answer: &Answer, domain: &Domain, number: u32) -> u32
    requires number { number < length answer.now.domain }
    requires texts { HasEachText domain.now answer.now.domain }
    ensures same { text_at domain.now result ≡ text_at answer.now.domain number }
    ensures known { result < length domain.now }
{
    match domain.find(answer.domain.text(number)) {
        Some(other) => other,
        None => unreachable!(),
    }
}
