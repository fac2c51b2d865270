// What each operator stands for, by quantifiers over time.
//
// A formula is moved as rarely as can be: it stands in a box as soon as it is made, and what can fail is done before its
// parts are put together.
ghost use Rattle.std.specs.Prelude.{◌≡◌, IfOk};
ghost use Rattle.lrp_model.specs.RawQueries.{raw_kind, raw_form_of, raw_forms_of, raw_and, raw_not, raw_group, raw_exists, raw_implies};
ghost use Rattle.lrp_model.specs.declared.raw.Ranged.TheVariants.{Once, Always};
ghost use Rattle.lrp_model.specs.declared.raw.Paired.TheVariants.{Since, Until};
ghost use Rattle.lrp_tense.specs.Expanding.{time_binder as time_column, name_term, moved_term, both_forms, all_three};
ghost use Rattle.lrp_tense.specs.Written.{form_inside, each_there, term_of_bound, bounded, joined_form, quantified_form, range_at, pair_at};

use lrp_model::{
    Memory, Name, Op, Place, RawColumn, RawFormula, RawKind, RawTerm, RawTermKind, Sort,
};
use std::alloc::Global;

/// Where an operator stands: the place of its first token, and that of its variable's name.
#[derive(Clone, Copy)]
pub struct OperatorPlaces {
    pub place: Place,
    pub name_place: Place,
}

/// A formula, expanded, and the name of the variable that it stands inside.
#[derive(Drop)]
pub struct Inside {
    pub name: Name,
    pub of: Box<RawFormula>,
}

/// How several formulas are joined.
#[derive(Clone, Copy)]
pub enum Connective {
    And,
    Or,
}

/// Which quantifier.
#[derive(Clone, Copy)]
pub enum QuantifierKind {
    Exists,
    Forall,
}

/// What a variable is compared with: how, with which variable, and what is added to that.
#[derive(Clone, Copy)]
pub struct Comparand<'a> {
    pub op: Op,
    pub name: &'a Name,
    pub place: Place,
    pub plus: Option<i64>,
}

// The names on both sides of a comparison.
#[derive(Drop)]
struct Sides {
    left: Name,
    right: Name,
}

/// A formula in a box.
pub fn boxed(alloc: Global, place: Place, kind: RawKind) -> Result<Box<RawFormula>, Memory>
    ensures { IfOk result (λ made. raw_form_of made.value ≡ raw_kind kind place) }
{
    Ok(Box::new(alloc, RawFormula { kind, place })?)
}

pub fn denied(alloc: Global, place: Place, of: Box<RawFormula>) -> Result<Box<RawFormula>, Memory>
    ensures { IfOk result (λ made. raw_form_of made.value ≡ raw_not place (raw_form_of of.value)) }
{
    boxed(alloc, place, RawKind::Not { of })
}

pub fn grouped(alloc: Global, place: Place, of: Box<RawFormula>) -> Result<Box<RawFormula>, Memory>
    ensures { IfOk result (λ made. raw_form_of made.value
        ≡ raw_group place (raw_form_of of.value)) }
{
    boxed(alloc, place, RawKind::Group { of })
}

pub fn implied(
    alloc: Global,
    place: Place,
    left: Box<RawFormula>,
    right: Box<RawFormula>,
) -> Result<Box<RawFormula>, Memory>
    ensures { IfOk result (λ made. raw_form_of made.value
        ≡ raw_implies place (raw_form_of left.value) (raw_form_of right.value)) }
{
    boxed(alloc, place, RawKind::Implies { left, right })
}

pub fn quantified(
    alloc: Global,
    place: Place,
    quantifier: QuantifierKind,
    binder: RawColumn,
    of: Box<RawFormula>,
) -> Result<Box<RawFormula>, Memory>
    ensures { IfOk result (λ made. raw_form_of made.value
        ≡ quantified_form quantifier place binder (raw_form_of of.value)) }
{
    match quantifier {
        QuantifierKind::Exists => boxed(alloc, place, RawKind::Exists { binder, of }),
        QuantifierKind::Forall => boxed(alloc, place, RawKind::Forall { binder, of }),
    }
}

pub fn joined(
    alloc: Global,
    place: Place,
    connective: Connective,
    of: Vec<RawFormula>,
) -> Result<Box<RawFormula>, Memory>
    ensures { IfOk result (λ made. raw_form_of made.value
        ≡ joined_form connective place (raw_forms_of of.items)) }
{
    match connective {
        Connective::And => boxed(alloc, place, RawKind::And { of }),
        Connective::Or => boxed(alloc, place, RawKind::Or { of }),
    }
}

fn time_binder(place: Place, name: Name) -> RawColumn
    ensures { result ≡ time_column place name }
{
    RawColumn {
        name,
        place,
        sort: Sort::Time,
        sort_place: place,
    }
}

// The names of a variable and of what it is compared with.
fn copied(alloc: Global, name: &Name, bound: &Comparand<'_>) -> Result<Sides, Memory>
    ensures { IfOk result (λ made. made ≡ record { left = name.now; right = bound.now.name.now }) }
{
    let left = name.copy(alloc)?;
    let right = bound.name.copy(alloc)?;
    Ok(Sides { left, right })
}

impl OperatorPlaces {
    // Compared with the operator's variable.
    fn present<'a>(&self, op: Op, name: &'a Name) -> Comparand<'a>
        ensures op { result.op ≡ op }
        ensures term { term_of_bound result ≡ name_term self.now.name_place name.now }
    {
        Comparand {
            op,
            name,
            place: self.name_place,
            plus: None,
        }
    }

    // Compared with the operator's variable plus an end of its interval.
    fn end<'a>(&self, op: Op, name: &'a Name, plus: i64) -> Comparand<'a>
        ensures op { result.op ≡ op }
        ensures term { term_of_bound result ≡ moved_term self.now.name_place name.now plus }
    {
        Comparand {
            op,
            name,
            place: self.name_place,
            plus: Some(plus),
        }
    }

    // Compared with the variable of the operator's moment.
    fn moment<'a>(&self, op: Op, name: &'a Name) -> Comparand<'a>
        ensures op { result.op ≡ op }
        ensures term { term_of_bound result ≡ name_term self.now.place name.now }
    {
        Comparand {
            op,
            name,
            place: self.place,
            plus: None,
        }
    }

    // The comparison with a bound, of these names.
    fn compared(&self, bound: &Comparand<'_>, sides: Sides) -> RawFormula
        requires { sides.right ≡ bound.now.name.now }
        ensures { raw_form_of result ≡ bounded self.now sides.left bound.now }
    {
        let Sides { left, right: name } = sides;
        let left = RawTermKind::Var { name: left };
        let right = match bound.plus {
            None => RawTermKind::Var { name },
            Some(plus) => RawTermKind::Shifted { name, plus },
        };
        RawFormula {
            kind: RawKind::Compare {
                left: RawTerm {
                    kind: left,
                    place: self.place,
                },
                op: bound.op,
                right: RawTerm {
                    kind: right,
                    place: bound.place,
                },
            },
            place: self.place,
        }
    }

    // Some moment for which all hold.
    fn some_moment(
        &self,
        alloc: Global,
        name: Name,
        all: Vec<RawFormula>,
    ) -> Result<Box<RawFormula>, Memory>
        ensures { IfOk result (λ made. raw_form_of made.value
            ≡ raw_exists self.now.place (time_column self.now.place name)
            (raw_and self.now.place (raw_forms_of all.items))) }
    {
        let all = joined(alloc, self.place, Connective::And, all)?;
        let binder = time_binder(self.place, name);
        quantified(alloc, self.place, QuantifierKind::Exists, binder, all)
    }

    // Where the variable is within both bounds, the formula inside it holds.
    fn limited(
        &self,
        alloc: Global,
        low: &Comparand<'_>,
        high: &Comparand<'_>,
        inside: Inside,
    ) -> Result<Inside, Memory>
        ensures name { IfOk result (λ made. made.name ≡ inside.name) }
        ensures tree { IfOk result (λ made. form_inside made
            ≡ raw_implies self.now.place (both_forms self.now.place
            (bounded self.now inside.name low.now) (bounded self.now inside.name high.now))
            (form_inside inside)) }
    {
        let lower = copied(alloc, &inside.name, low)?;
        let upper = copied(alloc, &inside.name, high)?;
        let mut both = Vec::with_capacity(alloc, 2)?;
        both.push_reserved(self.compared(low, lower));
        both.push_reserved(self.compared(high, upper));
        let Inside { name, of } = inside;
        let within = joined(alloc, self.place, Connective::And, both)?;
        let of = implied(alloc, self.place, within, of)?;
        Ok(Inside { name, of })
    }

    // Each value of the variable satisfies the formula.
    fn each_value(&self, inside: Inside) -> RawFormula
        ensures { raw_form_of result ≡ each_there self.now inside }
    {
        let Inside { name, of } = inside;
        let binder = time_binder(self.place, name);
        RawFormula {
            kind: RawKind::Forall { binder, of },
            place: self.place,
        }
    }

    // exists x: time (x within the bound and g and forall y: time each)
    fn far_end(
        &self,
        alloc: Global,
        bound: &Comparand<'_>,
        inside: Inside,
        each: Inside,
    ) -> Result<Box<RawFormula>, Memory>
        ensures { IfOk result (λ made. raw_form_of made.value
            ≡ raw_exists self.now.place (time_column self.now.place inside.name)
            (all_three self.now.place (bounded self.now inside.name bound.now)
            (form_inside inside) (each_there self.now each))) }
    {
        let first = copied(alloc, &inside.name, bound)?;
        let mut all = Vec::with_capacity(alloc, 3)?;
        let Inside { name, of } = inside;
        all.push_reserved(self.compared(bound, first));
        all.push_reserved(Box::into_inner(of));
        all.push_reserved(self.each_value(each));
        self.some_moment(alloc, name, all)
    }

    /// exists x: time (x >= v + from and x <= v + to and f)
    pub fn once(
        &self,
        alloc: Global,
        v: &Name,
        ends: (i64, i64),
        inside: Inside,
    ) -> Result<Box<RawFormula>, Memory>
        ensures { IfOk result (λ made. raw_form_of made.value
            ≡ range_at Once self.now v.now ends.0 ends.1 inside) }
    {
        let low = self.end(Op::Ge, v, ends.0);
        let high = self.end(Op::Le, v, ends.1);
        let lower = copied(alloc, &inside.name, &low)?;
        let upper = copied(alloc, &inside.name, &high)?;
        let mut all = Vec::with_capacity(alloc, 3)?;
        let Inside { name, of } = inside;
        all.push_reserved(self.compared(&low, lower));
        all.push_reserved(self.compared(&high, upper));
        all.push_reserved(Box::into_inner(of));
        self.some_moment(alloc, name, all)
    }

    /// forall x: time ((x >= v + from and x <= v + to) implies f)
    pub fn always(
        &self,
        alloc: Global,
        v: &Name,
        ends: (i64, i64),
        inside: Inside,
    ) -> Result<Box<RawFormula>, Memory>
        ensures { IfOk result (λ made. raw_form_of made.value
            ≡ range_at Always self.now v.now ends.0 ends.1 inside) }
    {
        let low = self.end(Op::Ge, v, ends.0);
        let high = self.end(Op::Le, v, ends.1);
        let limited = self.limited(alloc, &low, &high, inside)?;
        let Inside { name, of } = limited;
        let binder = time_binder(self.place, name);
        quantified(alloc, self.place, QuantifierKind::Forall, binder, of)
    }

    /// exists x: time (x <= v and g and forall y: time ((y > x and y <= v) implies f))
    pub fn since(
        &self,
        alloc: Global,
        v: &Name,
        between: Inside,
        inside: Inside,
    ) -> Result<Box<RawFormula>, Memory>
        ensures { IfOk result (λ made. raw_form_of made.value
            ≡ pair_at Since self.now v.now between inside) }
    {
        let moment = self.moment(Op::Gt, &inside.name);
        let present = self.present(Op::Le, v);
        let each = self.limited(alloc, &moment, &present, between)?;
        self.far_end(alloc, &present, inside, each)
    }

    /// exists x: time (x >= v and g and forall y: time ((y >= v and y < x) implies f))
    pub fn until(
        &self,
        alloc: Global,
        v: &Name,
        between: Inside,
        inside: Inside,
    ) -> Result<Box<RawFormula>, Memory>
        ensures { IfOk result (λ made. raw_form_of made.value
            ≡ pair_at Until self.now v.now between inside) }
    {
        let present = self.present(Op::Ge, v);
        let moment = self.moment(Op::Lt, &inside.name);
        let each = self.limited(alloc, &present, &moment, between)?;
        self.far_end(alloc, &present, inside, each)
    }
}
