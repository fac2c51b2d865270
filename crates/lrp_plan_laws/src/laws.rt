// What holds of core forms, plans and periods: each law is the contract of a function that does nothing.
ghost use Rattle.std.specs.Prelude.{◌≡◌, ◌↔◌, ◌≤◌, ◌+◌, ◌-◌, ℕ, List, ◌++◌, Bool, true, false, length, Contains, Some, nat_abs};
ghost use Rattle.std.specs.List.{AllByRecursion};
ghost use Rattle.lrp_model.specs.Rows.{Datum, texts_of};
ghost use Rattle.lrp_model.specs.Formulas.{Form, Question};
ghost use Rattle.lrp_model.specs.Variables.{free, head_variables};
ghost use Rattle.lrp_model.specs.RawQueries.{RawQuestion};
ghost use Rattle.lrp_model.specs.Sorting.{IsWellSorted};
ghost use Rattle.lrp_model.specs.Checked.{plain_question};
ghost use Rattle.lrp_model.specs.Domains.{all_texts, constants};
ghost use Rattle.lrp_model.specs.Sorts.{is_data};
ghost use Rattle.lrp_model.specs.Satisfaction.{Structure, Assignment, Satisfies, IsAnswer, structure, assignment, HasShape, HaveDistinctNames};
ghost use Rattle.lrp_model.specs.Core.{positive, negative, core_form, guarded, has_named_sort, HasElements};
ghost use Rattle.lrp_theory.specs.Divides.{IsLeastMultiple};
ghost use Rattle.lrp_model.specs.Periods.{lcm_all, period};
ghost use Rattle.lrp_model.specs.Reach.{step_reach};
ghost use Rattle.lrp_model.specs.Steps.{PlanStep, step_at, formula_at};
ghost use Rattle.lrp_model.specs.Plans.{core_steps, plan, HasNoNamedSorts};
ghost use Rattle.lrp_model.specs.declared.relations.Relation.{Relation};
ghost use Rattle.lrp_model.specs.declared.plans.Planning.{Planning};
ghost use Rattle.lrp_model.specs.declared.plans.StepKind.{StepKind};
ghost use Rattle.lrp_model.specs.declared.plans.StepKind.TheVariants.{Extend};
ghost use Rattle.lrp_plan_laws.specs.Guards.{BindsPlainly};
ghost use Rattle.lrp_plan_laws.specs.GuardedPlans.{guarded_plan, plan_by};
ghost use Rattle.lrp_plan_laws.specs.Made.{AreAmong, operands, IsMade, head_step};
ghost use Rattle.lrp_model.specs.TestPoints.{points};
ghost use Rattle.lrp_plan_laws.specs.Points.{step_points};
ghost use Rattle.lrp_plan_laws.specs.Rising.{HasPeriods, IsRising, period_at, database_periods};
ghost use Rattle.lrp_plan_laws.specs.Settled.{HasSortedTexts, IsTextDrop, EndsWithHead, IsSettled, IsSoundPlan};
ghost use Rattle.lrp_plan_laws.specs.Scopes.{EachScope, IsNarrow, IsNarrowStep};

/// The core form of a formula says what the formula says, and the core form of its negation denies it.
pub fn core_form_is_sound()
    ensures keeps { (f : Form) (named : Bool) (M : Structure) (env : Assignment)
        → Satisfies (positive f named) M env ↔ Satisfies f M env }
    ensures denies { (f : Form) (named : Bool) (M : Structure) (env : Assignment)
        → Satisfies (negative f named) M env ↔ (Satisfies f M env → ⊥) }
    ensures query { (named : Bool) (q : Question) (M : Structure) (env : Assignment)
        → Satisfies (core_form named q) M env ↔ Satisfies (guarded named q.head q.body) M env }
{}

/// The step before `head` says what `head` says. The formula of the last step holds for exactly the answers, among the
/// tuples of the head's shape whose texts are constants.
pub fn plan_is_sound()
    ensures steps { (db : List Relation) (q : Question) → HasElements q.body → (env : Assignment)
        → Satisfies (formula_at (core_steps db q) (length (core_steps db q))) (structure db q) env
        ↔ Satisfies (guarded (has_named_sort db) q.head q.body) (structure db q) env }
    ensures last { (way : Planning) (db : List Relation) (q : Question) (tuple : List Datum)
        → (has_named_sort db ≡ false → HasNoNamedSorts db q) → HaveDistinctNames q.head
        → HasShape q.head tuple → AllByRecursion (Contains (constants db q)) (texts_of tuple)
        → Satisfies (formula_at (plan_by way db q) (length (plan_by way db q))) (structure db q)
        (assignment q.head tuple) ↔ IsAnswer db q tuple }
{}

/// The period is the least common multiple of the periods, where each of them is at least 1; and each is, where those
/// in the rows and in the `in` points are.
pub fn periods_are_least()
    ensures least { (ks : List ℕ) → AllByRecursion (λ k. 1 ≤ k) ks
        → IsLeastMultiple ks (lcm_all ks) }
    ensures sources { (db : List Relation) (q : Question)
        → AllByRecursion (λ k. 1 ≤ k) (database_periods db)
        → AllByRecursion (λ at. 1 ≤ nat_abs at.period) (points q.body) → HasPeriods db q }
{}

/// Along the steps of a query's plan, by either way of planning, periods and reaches rise, up to those of the query. The
/// last step has the period of the query, and a step's reach is no less where those of the steps that it reads are no less.
pub fn plan_rises()
    ensures steps { (way : Planning) (db : List Relation) (q : Question) → HasElements q.body
        → HasPeriods db q → (s : ℕ) (step : PlanStep) → step_at (plan_by way db q) s ≡ Some step
        → IsRising (plan_by way db q) db q s step }
    ensures last { (way : Planning) (db : List Relation) (q : Question)
        → period_at (plan_by way db q) (length (plan_by way db q)) ≡ period db q.body }
    ensures grows { (db : List Relation) (at more : ℕ → ℕ) (K : ℕ) (kind : StepKind)
        → AllByRecursion (λ l. at l ≤ more l) (operands kind)
        → step_reach db at K kind ≤ step_reach db more K kind }
{}

/// Each step of a query's plan, by either way of planning, is made of earlier ones by the rule of its kind, with the
/// variables that the rule relies on, and the points of its tests are the query's. The last one and no other is `head`,
/// and it reads the step before it.
pub fn steps_are_made()
    ensures steps { (way : Planning) (db : List Relation) (q : Question) → HasElements q.body
        → (s : ℕ) (step : PlanStep) → step_at (plan_by way db q) s ≡ Some step
        → IsMade (structure db q) (head_step (plan_by way db q) db q) (plan_by way db q) s step }
    ensures points { (way : Planning) (db : List Relation) (q : Question) → HasElements q.body
        → (s : ℕ) (step : PlanStep) → step_at (plan_by way db q) s ≡ Some step
        → AllByRecursion (Contains (points q.body)) (step_points step.kind) }
    ensures last { (way : Planning) (db : List Relation) (q : Question)
        → EndsWithHead (plan_by way db q) db q }
    ensures other { (way : Planning) (db : List Relation) (q : Question) → HasElements q.body
        → (s : ℕ) (step : PlanStep) → step_at (plan_by way db q) s ≡ Some step
        → (of : ℕ) → step.kind ≡ Extend of → s ≡ length (plan_by way db q) }
    ensures count { (db : List Relation) (q : Question)
        → length (plan db q) ≡ length (core_steps db q) + 1 }
{}

/// The variables of a step, and those of the steps that it reads together, are at most eight of each kind, and none has
/// the name of one of the other kind, where this is so in each part of the query. Where the head has all variables of
/// the body, it has all of the last two steps' too.
pub fn steps_are_narrow()
    ensures steps { (way : Planning) (db : List Relation) (q : Question) → HasElements q.body
        → IsNarrow (head_variables q.head ++ free q.body) → EachScope IsNarrow q.body
        → (s : ℕ) (step : PlanStep) → step_at (plan_by way db q) s ≡ Some step
        → IsNarrowStep (plan_by way db q) q step }
    ensures last { (way : Planning) (db : List Relation) (q : Question)
        → AreAmong (free q.body) (head_variables q.head)
        → AreAmong (free (formula_at (plan_by way db q) (length (plan_by way db q))))
        (head_variables q.head) }
    ensures core { (way : Planning) (db : List Relation) (q : Question)
        → AreAmong (free q.body) (head_variables q.head) → HasElements q.body
        → AreAmong (free (formula_at (plan_by way db q) (length (plan_by way db q) - 1)))
        (head_variables q.head) }
{}

/// Where a step drops a data variable, an assignment satisfies it exactly where some constant completes it in what the
/// step reads. In a plan as it is written the core form has a sort element beside each quantifier where sorts are named,
/// and else there is one sort; in one under guards the step is for some text of whatever sort.
pub fn drops_are_guarded()
    ensures written { (db : List Relation) (q : Question) → HasElements q.body
        → (has_named_sort db ≡ false → HasNoNamedSorts db q × BindsPlainly q.body)
        → (s : ℕ) (step : PlanStep) → step_at (plan db q) s ≡ Some step
        → IsTextDrop (plan db q) db q step }
    ensures guarded { (db : List Relation) (q : Question) → HasElements q.body
        → AllByRecursion (λ entry. is_data entry.0 ≡ true) (all_texts db q)
        → (s : ℕ) (step : PlanStep) → step_at (guarded_plan db q) s ≡ Some step
        → IsTextDrop (guarded_plan db q) db q step }
{}

/// A well-sorted query over a database is settled, where each `and` and `or` of it has an element, each period is at
/// least 1 and each text of the database stands in a data column.
pub fn sorted_queries_are_settled()
    ensures { (db : List Relation) (q : RawQuestion) → IsWellSorted db q → HasSortedTexts db
        → HasElements (plain_question q).body → HasPeriods db (plain_question q)
        → IsSettled db (plain_question q) }
{}

/// All that the laws above say of the plan of a settled query, by either way of planning; and its last two steps say the
/// same.
pub fn settled_queries_have_sound_plans()
    ensures { (way : Planning) (db : List Relation) (q : Question) → IsSettled db q
        → IsSoundPlan (plan_by way db q) db q }
{}
