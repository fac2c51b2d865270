// The rows that are held for a query, and what is derived from them.

ghost use Rattle.std.specs.Prelude.{◌≡◌, ◌⊎◌, ◌<◌, ◌≤◌, ◌^◌, ℕ, [], Some, Err, IfErr, IfOk, OnErr, OnOk, false, true, flat_map, length};
ghost use Rattle.std.specs.List.{AllByRecursion};
ghost use Rattle.lrp_limits.specs.Multiples.{IsPeriodOf};
ghost use Rattle.lrp_parts.specs.Derivations.{IsLastKey, ground_of};
ghost use Rattle.lrp_kept.specs.Keys.{keys_of};
ghost use Rattle.lrp_kept.specs.Keyed.{AreHeldRows, HasNoEqualRow, IsEmptyOf};
ghost use Rattle.lrp_kept.specs.Limits.{relation_bound};
ghost use Rattle.lrp_model.specs.Periods.{row_periods};
ghost use Rattle.lrp_kept.specs.Sizes.{period_number};
ghost use Rattle.lrp_keep.specs.Keeps.{IsPastLimit, StaysWithinLimits};
ghost use Rattle.lrp_keep.specs.States.{AreAllHeld, AreHeldAlso, CanBeAddedAt, CanBeHeldIn, AreDerivedIn, AreDerivedInBut, RemainInWithout, CanAllBeSketched, CanBeOpened, CanDeriveAt, CanDeriveEach, HasLargePartAt, HasSomeLargePart, IsAddedAt, IsAddingCause, IsAnswerOfState, IsDerivedAt, IsDerivedWithout, IsHeldAt, IsHoldingCause, IsKeeper, IsKeeping, IsLetGoFrom, IsRelationMarked, IsPeriodWith, IsRaisedBy, AreMarkedBy, IsRemoved, IsStillState, IsUndone, ground_at, levels_of, opened_with, periods_at, scaled_at, keeper_view, whole_periods};
ghost use Rattle.lrp_kept.specs.Sketches.{CanBeSketched};
ghost use Rattle.lrp_packed.specs.Leading.{IsNotLater};
ghost use Rattle.lrp_parts.specs.Firsts.{IsFirstOfHeld};
ghost use Rattle.lrp_keep.specs.Unions.{HoldsAmong};

use crate::faults::{KeepFault, of_step};
use crate::kept_query::KeptQuery;
use crate::unions::add_derived;
use lrp_answers::Answer;
use lrp_database::Database;
use lrp_kept::{HeldRows, is_read, scaled_reach, tested_period, with_bounds, with_periods};
use lrp_limits::facts::with_row;
use lrp_limits::periods::Period;
use lrp_model::{Copies, LIMIT, Memory, Relation, Row, Spot};
use lrp_packed::is_not_later;
use lrp_parts::{DerivationSetting, Derived};
use lrp_steps::{head_vars, store_over};
use lrp_tables::StepFault;

/// The rows that are held, the kept period, and by disjuncts what is derived from the rows in cells of this period.
#[derive(Drop)]
pub(crate) struct State {
    pub(crate) rows: HeldRows,
    pub(crate) period: Period,
    pub(crate) derived: Vec<Derived>,
}

impl State {
    /// The rows of a database are held in its relations, of which none is held yet.
    pub(crate) fn of(
        of: &KeptQuery<'_>,
        database: &Database,
        relations: HeldRows,
    ) -> Result<State, KeepFault>
        requires { CanBeOpened of.now database.now relations }
        ensures keeper { IfOk result (IsKeeper of.now) }
        ensures view { IfOk result (λ s. keeper_view of.now s ≡ opened_with of.now database.now) }
        ensures limits { OnOk result (StaysWithinLimits (opened_with of.now database.now)) }
        ensures fault { IfErr result (IsPastLimit (opened_with of.now database.now)) }
    {
        let Some(period) = whole_period(of, database) else {
            return Err(KeepFault::PeriodLimit);
        };
        let mut rows = relations;
        mark_all(database, &mut rows);
        if is_above(of, &rows, period) {
            return Err(KeepFault::BoundLimit);
        }
        hold_each(of, database, &mut rows)?;
        match of.derive_all(&rows, period) {
            Ok(derived) => Ok(State {
                rows,
                period,
                derived,
            }),
            Err(fault) => Err(of_step(fault)),
        }
    }

    /// Adds a row to a relation. A refusal changes nothing.
    pub(crate) fn add(
        &mut self,
        of: &KeptQuery<'_>,
        relation: usize,
        row: &Row,
    ) -> Result<(), KeepFault>
        requires keeper { IsKeeper of.now self.old }
        requires row { CanBeAddedAt of.now self.old relation row.now }
        ensures keeper { IsKeeper of.now self.new }
        ensures view { OnOk result (IsAddedAt of.now relation row.now self.old self.new) }
        ensures limits { OnOk result (StaysWithinLimits (keeper_view of.now self.new)) }
        ensures fault { IfErr result (IsAddingCause of.now self.old relation row.now) }
        ensures same { OnErr result (keeper_view of.now self.new ≡ keeper_view of.now self.old) }
    {
        let Some(period) = self.raised_period(of, relation, row) else {
            return Err(KeepFault::PeriodLimit);
        };
        let most = self.rows.relations[relation].most;
        mark(&mut self.rows, relation, with_bounds(most, row));
        match self.add_within(of, relation, row, period) {
            Ok(()) => Ok(()),
            Err(fault) => {
                mark(&mut self.rows, relation, most);
                Err(fault)
            }
        }
    }

    // The kept period with the periods of a row, where some atom reads its relation.
    fn raised_period(&self, of: &KeptQuery<'_>, relation: usize, row: &Row) -> Option<Period>
        requires { AllByRecursion (λ k. 1 ≤ k) (row_periods row.now) }
        ensures { IsPeriodWith of.now self.now relation row.now result }
    {
        if is_read(&of.disjuncts, relation) {
            with_periods(self.period, row)
        } else {
            Some(self.period)
        }
    }

    // Adds a row of a relation whose greatest bound is raised already.
    fn add_within(
        &mut self,
        of: &KeptQuery<'_>,
        relation: usize,
        row: &Row,
        period: Period,
    ) -> Result<(), KeepFault>
        requires keeping { IsKeeping of.now self.old }
        requires row { CanBeHeldIn of.now self.old relation row.now period.number }
        ensures keeper { OnOk result (IsKeeper of.now self.new) }
        ensures view { OnOk result (IsHeldAt of.now relation row.now period.number self.old
            self.new) }
        ensures limits { OnOk result (StaysWithinLimits (keeper_view of.now self.new)) }
        ensures fault { IfErr result (IsHoldingCause of.now self.old relation row.now
            period.number) }
        ensures same { OnErr result (IsStillState of.now self.old self.new) }
    {
        if is_above(of, &self.rows, period) {
            return Err(KeepFault::BoundLimit);
        }
        let source = of.source(relation, row)?;
        let key = self.rows.hold(source)?;
        match self.derive(of, relation, key, period) {
            Ok(()) => Ok(()),
            Err(fault) => {
                let last = self.rows.relations[relation].keys.len() - 1;
                self.let_go(relation, last);
                Err(of_step(fault))
            }
        }
    }

    // Derives what the last row of a relation makes, or all again where the period has grown.
    fn derive(
        &mut self,
        of: &KeptQuery<'_>,
        relation: usize,
        key: usize,
        period: Period,
    ) -> Result<(), StepFault>
        requires can { CanDeriveAt of.now self.old.rows period.number }
        requires last { IsLastKey (ground_at of.now self.old.rows period.number) relation key }
        requires old { IsDerivedWithout of.now key self.old }
        ensures rows { self.new.rows ≡ self.old.rows }
        ensures period { OnOk result (self.new.period ≡ period) }
        ensures derived { OnOk result (IsDerivedAt of.now self.old.rows period.number self.new) }
        ensures undone { OnErr result (IsUndone of.now key self.old self.new) }
        ensures many { result ≡ Err StepFault.TooManyCells
            → HasLargePartAt of.now self.old.rows period.number }
    {
        if period.number != self.period.number {
            return self.derive_anew(of, period);
        }
        let setting = of.setting(&self.rows, period);
        add_each(of, &setting, relation, key, &mut self.derived)
    }

    // Derives all again, in cells of another period.
    fn derive_anew(&mut self, of: &KeptQuery<'_>, period: Period) -> Result<(), StepFault>
        requires { CanDeriveAt of.now self.old.rows period.number }
        ensures rows { self.new.rows ≡ self.old.rows }
        ensures period { OnOk result (self.new.period ≡ period) }
        ensures derived { OnOk result (IsDerivedAt of.now self.old.rows period.number self.new) }
        ensures same { OnErr result (self.new ≡ self.old) }
        ensures many { result ≡ Err StepFault.TooManyCells
            → HasLargePartAt of.now self.old.rows period.number }
    {
        match of.derive_all(&self.rows, period) {
            Ok(derived) => {
                self.derived = derived;
                self.period = period;
                Ok(())
            }
            Err(fault) => Err(fault),
        }
    }

    /// Removes the first row of a relation that is equal to this one. Whether there is one.
    pub(crate) fn remove(&mut self, relation: usize, row: &Row) -> bool
        requires { relation < length self.old.rows.relations.items }
        ensures taken { result ≡ true → IsRemoved relation row.now self.old self.new }
        ensures none { result ≡ false → HasNoEqualRow self.old.rows relation row.now }
        ensures same { result ≡ false → self.new ≡ self.old }
    {
        match self.rows.place_of(relation, row) {
            Some(place) => {
                self.let_go(relation, place);
                true
            }
            None => false,
        }
    }

    // Lets go a row, and all that it helped to derive.
    fn let_go(&mut self, relation: usize, place: usize)
        requires relation { relation < length self.old.rows.relations.items }
        requires place { place < length (keys_of self.old.rows relation) }
        ensures { IsLetGoFrom relation place self.old self.new }
    {
        let key = self.rows.let_go(relation, place);
        for number in 0..self.derived.len() {
            self.derived[number].release(key);
        }
    }

    /// The first answer of all choices, if there is one.
    pub(crate) fn first(&self) -> Option<Spot>
        ensures { IsFirstOfHeld (HoldsAmong (levels_of self.now) (length (levels_of self.now)))
            result }
    {
        let mut first = None;
        for derived in &self.derived {
            first = nearer(first, derived.first());
        }
        first
    }

    /// The answers of all choices.
    pub(crate) fn answer(&self, of: &KeptQuery<'_>) -> Result<Answer, Memory>
        requires { IsKeeping of.now self.now }
        ensures { IfOk result (IsAnswerOfState of.now self.now) }
    {
        let vars = head_vars(of.alloc, &of.query.head)?;
        let period = self.period.number as i64;
        let mut store = store_over(of.alloc, &vars, period);
        for derived in &self.derived {
            add_derived(derived, &mut store)?;
        }
        Ok(Answer {
            head: of.query.head.copy(of.alloc)?,
            period,
            domain: of.domain.copy(of.alloc)?,
            store,
        })
    }
}

// Of two spots, if there are any, the nearer.
fn nearer(one: Option<Spot>, other: Option<Spot>) -> Option<Spot>
    ensures is { (result ≡ one) ⊎ (result ≡ other) }
    ensures one { IsNotLater result one }
    ensures other { IsNotLater result other }
{
    if is_not_later(one, other) { one } else { other }
}

// Derives what the last row of a relation makes, in each disjunct.
fn add_each(
    of: &KeptQuery<'_>,
    setting: &DerivationSetting<'_>,
    relation: usize,
    key: usize,
    derived: &mut Vec<Derived>,
) -> Result<(), StepFault>
    requires can { CanDeriveEach (ground_of setting.now) of.now.disjuncts.items }
    requires last { IsLastKey (ground_of setting.now) relation key }
    requires old { AreDerivedInBut setting.now of.now key derived.old.items }
    ensures derived { OnOk result (AreDerivedIn setting.now of.now derived.new.items) }
    ensures others { OnErr result (RemainInWithout setting.now of.now key derived.new.items) }
    ensures many { result ≡ Err StepFault.TooManyCells
        → HasSomeLargePart (ground_of setting.now) of.now.disjuncts.items }
{
    for number in 0..of.disjuncts.len() {
        match derived[number].add(setting, &of.disjuncts[number], relation, key) {
            Ok(()) => {}
            Err(fault) => return Err(fault),
        }
    }
    Ok(())
}

// Puts another number beside a relation.
fn mark(rows: &mut HeldRows, relation: usize, most: u64)
    requires { relation < length rows.old.relations.items }
    ensures { IsRelationMarked relation most rows.old rows.new }
{
    rows.relations[relation].most = most;
}

// Puts the greatest magnitude of a bound in the rows of each relation of a database beside it.
fn mark_all(database: &Database, rows: &mut HeldRows)
    requires { IsEmptyOf database.now rows.old }
    ensures { AreMarkedBy database.now (length database.now) rows.old rows.new }
{
    for i in 0..database.relations() {
        mark(rows, i, greatest_bound(database.at(i)));
    }
}

// The greatest magnitude of a bound in the rows of a relation; 0 where there is none.
fn greatest_bound(relation: &Relation) -> u64
    ensures { result ≡ relation_bound relation.now }
{
    let mut most = 0;
    for row in relation.rows.as_slice() {
        most = with_bounds(most, row);
    }
    most
}

// Holds all rows of a database.
fn hold_each(of: &KeptQuery<'_>, database: &Database, rows: &mut HeldRows) -> Result<(), Memory>
    requires held { AreHeldRows rows.old }
    requires none { (i : ℕ) → keys_of rows.old i ≡ [] }
    requires size { length rows.old.relations.items ≡ length database.now }
    requires can { CanAllBeSketched of.now database.now }
    ensures { OnOk result (AreAllHeld of.now database.now (length database.now) rows.old rows.new) }
{
    for i in 0..database.relations() {
        hold_all(of, database.at(i), i, rows)?;
    }
    Ok(())
}

// Holds all rows of a relation.
fn hold_all(
    of: &KeptQuery<'_>,
    relation: &Relation,
    number: usize,
    rows: &mut HeldRows,
) -> Result<(), Memory>
    requires number { number < length rows.old.relations.items }
    requires held { AreHeldRows rows.old }
    requires can { AllByRecursion (CanBeSketched of.now.disjuncts.items number) relation.now.rows }
    ensures { OnOk result (AreHeldAlso of.now number relation.now.rows rows.old rows.new) }
{
    for row in relation.rows.as_slice() {
        rows.hold(of.source(number, row)?)?;
    }
    Ok(())
}

// The least common multiple of the periods in tests, and in the rows of the relations that some atom reads; `None` where it
// is above 2^62.
fn whole_period(of: &KeptQuery<'_>, database: &Database) -> Option<Period>
    ensures { IsPeriodOf (whole_periods of.now database.now) (period_number result) }
{
    let mut period = tested_period(&of.disjuncts);
    for i in 0..database.relations() {
        period = with_relation(of, period, database.at(i), i);
    }
    period
}

// A period with those of all rows of the relation of this number, where some atom reads it; `None` where it is above 2^62.
fn with_relation(
    of: &KeptQuery<'_>,
    period: Option<Period>,
    relation: &Relation,
    number: usize,
) -> Option<Period>
    ensures { IsRaisedBy (periods_at of.now.disjuncts.items number (Some relation.now)) period
        result }
{
    if is_read(&of.disjuncts, number) {
        with_all_periods(period, relation)
    } else {
        period
    }
}

// A period with those of all rows of a relation; `None` where it is above 2^62.
fn with_all_periods(period: Option<Period>, relation: &Relation) -> Option<Period>
    ensures { IsRaisedBy (flat_map row_periods relation.now.rows) period result }
{
    let mut all = period;
    for row in relation.rows.as_slice() {
        all = with_row(all, row);
    }
    all
}

// Whether the kept reach, doubled once and once more for each time column of the head, is above 2^62.
fn is_above(of: &KeptQuery<'_>, rows: &HeldRows, period: Period) -> bool
    ensures above { result ≡ true → 2 ^ 62 < scaled_at of.now rows.now period.number }
    ensures within { result ≡ false → scaled_at of.now rows.now period.number ≤ 2 ^ 62 }
{
    let head = of.query.head.columns.as_slice();
    scaled_reach(&of.disjuncts, &rows.relations, head, period) > LIMIT as u64
}
