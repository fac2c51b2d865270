// The sorts of terms, and the faults of terms, atoms and comparisons.
ghost use Rattle.std.specs.Prelude.{◌≡◌, ◌++◌, option_map};
ghost use Rattle.lrp_model.specs.Faults.{earliest, fault_if};
ghost use Rattle.lrp_model.specs.Sorting.{Binders, query_standing, query_fault, term_sort as sort_by, is_data_term, differs, unlike, term_faults, time_faults, compare_faults};
ghost use Rattle.lrp_sorts.specs.Scopes.{binders};
ghost use Rattle.lrp_sorts.specs.Terms.{sort_told, told_faults, sort_kept, IsSeen, misfits, atom_head_faults};

use crate::earliest::{fault_where, sooner_of};
use crate::scope::Scope;
use lrp_model::{Column, Op, Place, QueryFault, QueryKind, RawTerm, RawTermKind, Relation, Sort};

/// The sort of a term, found by one look at its binder: a name alone is `Of` its binder's sort, a name with an offset
/// is `Shifted`, of which the binder's sort is kept, an integer is an `Instant`, and a variable without a binder is
/// `Unbound`.
#[derive(Clone, Copy)]
pub enum Sorted<'a> {
    Of { sort: &'a Sort },
    Shifted { sort: &'a Sort },
    Instant,
    Text,
    Unbound,
}

impl<'a> Sorted<'a> {
    // Whether the term is of a data sort.
    pub fn is_data(&self) -> bool
        ensures { result ≡ is_data_term (sort_told self.now) }
    {
        match self {
            Sorted::Of { sort } => !sort.is_time(),
            Sorted::Text => true,
            Sorted::Shifted { .. } | Sorted::Instant | Sorted::Unbound => false,
        }
    }

    // The sort of the variable's binder, where the term has a variable and it a binder.
    pub fn bound(&self) -> Option<&'a Sort>
        ensures { option_map (λ s. s.now) result ≡ sort_kept self.now }
    {
        match self {
            Sorted::Of { sort } | Sorted::Shifted { sort } => Some(*sort),
            Sorted::Instant | Sorted::Text | Sorted::Unbound => None,
        }
    }

    // A variable without a binder, or an offset on one of a data sort, at the term's place.
    pub fn fault(&self, place: Place) -> Option<QueryFault>
        ensures { result ≡ earliest query_standing (told_faults self.now place) }
    {
        match self {
            Sorted::Shifted { sort } => fault_where(!sort.is_time(), QueryKind::Sort, place),
            Sorted::Unbound => fault_where(true, QueryKind::Unbound, place),
            Sorted::Of { .. } | Sorted::Instant | Sorted::Text => None,
        }
    }

    // A term whose sort is not that of the column beside it, where one stands there, at the term's place.
    pub fn misfit(&self, place: Place, column: Option<&Column>) -> Option<QueryFault>
        ensures { result ≡ earliest query_standing
            (misfits (sort_told self.now) place (option_map (λ c. c.now) column.entry)) }
    {
        match column {
            Some(column) => fault_where(self.differs(&column.sort), QueryKind::Sort, place),
            None => None,
        }
    }

    // A term of a data sort where a time term is wanted, at its place.
    fn time_fault(&self, place: Place) -> Option<QueryFault>
        ensures { result ≡ earliest query_standing
            (fault_if (is_data_term (sort_told self.now)) (query_fault QueryKind.Sort place)) }
    {
        fault_where(self.is_data(), QueryKind::Sort, place)
    }

    // Whether the sort is another one than a column's.
    fn differs(&self, column: &Sort) -> bool
        ensures { result ≡ differs (sort_told self.now) column.now }
    {
        match self {
            Sorted::Of { sort } => !sort.is_same(column),
            Sorted::Shifted { .. } | Sorted::Instant => !column.is_time(),
            Sorted::Text => column.is_time(),
            Sorted::Unbound => false,
        }
    }

    // Whether two terms have different sorts.
    fn is_unlike(&self, other: &Sorted<'_>) -> bool
        ensures { result ≡ unlike (sort_told self.now) (sort_told other.now) }
    {
        match (self, other) {
            (Sorted::Of { sort }, _) => other.differs(sort),
            (Sorted::Shifted { .. } | Sorted::Instant, _) => other.differs(&Sort::Time),
            (Sorted::Text, Sorted::Of { sort }) => sort.is_time(),
            (Sorted::Text, Sorted::Shifted { .. } | Sorted::Instant) => true,
            (Sorted::Text | Sorted::Unbound, _) => false,
        }
    }
}

// The sort of a term among the binders around it.
pub fn term_sort<'a>(scope: &Scope<'a>, term: &RawTerm) -> Sorted<'a>
    ensures { IsSeen (binders scope.now) term.now result }
{
    match &term.kind {
        RawTermKind::Int { .. } => Sorted::Instant,
        RawTermKind::Text { .. } => Sorted::Text,
        RawTermKind::Var { name } => match scope.sort_of(name) {
            Some(sort) => Sorted::Of { sort },
            None => Sorted::Unbound,
        },
        RawTermKind::Shifted { name, .. } => match scope.sort_of(name) {
            Some(sort) => Sorted::Shifted { sort },
            None => Sorted::Unbound,
        },
    }
}

// An atom of no relation, or of another number of terms than the relation has columns.
pub fn relation_fault(place: Place, terms: usize, relation: Option<&Relation>) -> Option<QueryFault>
    ensures { result ≡ earliest query_standing
        (atom_head_faults place terms (option_map (λ r. r.now) relation.entry)) }
{
    match relation {
        Some(relation) => {
            let arity = terms != relation.columns.len();
            fault_where(arity, QueryKind::Arity, place)
        }
        None => fault_where(true, QueryKind::UnknownRelation, place),
    }
}

// Sides of a comparison that do not go together, from the sorts of both.
#[tactic(auto, using(lrp_model::proofs::FirstFault::first_of_both))]
pub fn sides_fault(
    left: &RawTerm,
    one: Sorted<'_>,
    op: Op,
    right: &RawTerm,
    other: Sorted<'_>,
) -> Option<QueryFault>
    ensures { (bs : Binders) → sort_told one.entry ≡ sort_by bs left.now
        → sort_told other.entry ≡ sort_by bs right.now
        → result ≡ earliest query_standing (compare_faults bs left.now op right.now) }
{
    match op {
        Op::Eq => {
            let unlike = one.is_unlike(&other);
            fault_where(unlike, QueryKind::Sort, right.place)
        }
        Op::Le | Op::Lt | Op::Ge | Op::Gt => {
            sooner_of(one.time_fault(left.place), other.time_fault(right.place))
        }
    }
}

// The first fault of a comparison, from the sorts of its sides.
#[tactic(auto, using(lrp_model::proofs::FirstFault::first_of_both))]
pub fn compare_fault(
    left: &RawTerm,
    one: Sorted<'_>,
    op: Op,
    right: &RawTerm,
    other: Sorted<'_>,
) -> Option<QueryFault>
    ensures { (bs : Binders) → IsSeen bs left.now one.entry → IsSeen bs right.now other.entry
        → result ≡ earliest query_standing
        (term_faults bs left.now ++ term_faults bs right.now
        ++ compare_faults bs left.now op right.now) }
{
    let terms = sooner_of(one.fault(left.place), other.fault(right.place));
    sooner_of(terms, sides_fault(left, one, op, right, other))
}

// The first fault of a term in a point, from its sort.
#[tactic(auto, using(lrp_model::proofs::FirstFault::first_of_both))]
pub fn member_fault(term: &RawTerm, sorted: Sorted<'_>) -> Option<QueryFault>
    ensures { (bs : Binders) → IsSeen bs term.now sorted.entry
        → result ≡ earliest query_standing (term_faults bs term.now ++ time_faults bs term.now) }
{
    sooner_of(sorted.fault(term.place), sorted.time_fault(term.place))
}
