// How large the expanded query of a file is, counted before any of it is made.
ghost use Rattle.std.specs.Prelude.{◌≡◌, ℕ, ℤ, List as ListOf, not};
ghost use Rattle.lrp_model.specs.RawQueries.{Operator, RawForm, raw_atom, raw_form_of, raw_forms_of};
ghost use Rattle.lrp_model.specs.Rows.{columns_in, relation_named};
ghost use Rattle.lrp_model.specs.Texts.{Identifier};
ghost use Rattle.lrp_model.specs.declared.raw.RawTerm.{RawTerm as RawTermOf};
ghost use Rattle.lrp_model.specs.declared.tokens.Place.{Place as PlaceOf};
ghost use Rattle.lrp_tense.specs.Expanding.{form_of_pair, form_of_range};
ghost use Rattle.lrp_wide.specs.Inlining.{Known, UseSetting as SettingOf, star_total, use_form};
ghost use Rattle.lrp_wide.specs.Sizes.{AreTermsCounted, AreMeasured, IsKnownSize, IsSizeIn, IsSizeInEach, IsSizeOf, is_compared};

use crate::names::is_star;
use crate::narrow::has_no_star;
use lrp_model::{Column, Name, Paired, Ranged, RawFormula, RawKind, RawTerm, RawTermKind};
use lrp_sorts::Definitions;

/// How many formulas stand in a formula, itself among them, and how deep it is; counts stop at 2^64.
#[derive(Clone, Copy)]
pub struct Size {
    pub formulas: u64,
    pub depth: u64,
}

impl Size {
    ghost use Rattle.std.specs.Prelude.{◌+◌, ℕ, max, min};
    ghost use Rattle.lrp_wide.specs.Sizes.{IsSize};

    // A formula without parts.
    fn leaf() -> Size
        ensures { IsSize result 1 1 }
    {
        Size {
            formulas: 1,
            depth: 1,
        }
    }

    // No formula.
    fn none() -> Size
        ensures { IsSize result 0 0 }
    {
        Size {
            formulas: 0,
            depth: 0,
        }
    }

    // Both beside each other.
    fn beside(self, other: Size) -> Size
        ensures { (f d g e : ℕ) → IsSize self f d → IsSize other g e
            → IsSize result (f + g) (max d e) }
    {
        Size {
            formulas: self.formulas.saturating_add(other.formulas),
            depth: self.depth.max(other.depth),
        }
    }

    // Under this many formulas more, each of which takes the next.
    fn under(self, formulas: u64) -> Size
        ensures { (f d : ℕ) → IsSize self f d → IsSize result (f + formulas) (d + formulas) }
    {
        Size {
            formulas: self.formulas.saturating_add(formulas),
            depth: self.depth.saturating_add(formulas),
        }
    }

    // So many formulas without parts beside it.
    fn with_leaves(self, leaves: u64) -> Size
        ensures { (f d : ℕ) → IsSize self f d
            → IsSize result (f + leaves) (max d (min leaves 1)) }
    {
        if leaves == 0 {
            return self;
        }
        self.beside(Size {
            formulas: leaves,
            depth: 1,
        })
    }
}

/// The terms of an atom that have a column: how many are `*`, and how many are compared with a variable of their column.
#[derive(Clone, Copy)]
pub struct Terms {
    pub stars: u64,
    pub compared: u64,
}

impl Terms {
    ghost use Rattle.std.specs.Prelude.{◌≡◌, ◌<◌, ◌+◌, ◌-◌, ◌^◌, cond};
    ghost use Rattle.lrp_wide.specs.Meaning.{is_star as is_star_of};
    ghost use Rattle.lrp_wide.specs.Sizes.{is_compared};

    // These and a term more.
    fn with(self, term: &RawTerm) -> Terms
        requires { self.stars + self.compared < 2 ^ 64 - 1 }
        ensures stars { result.stars ≡ self.stars + cond (is_star_of term.now) 1 0 }
        ensures compared { result.compared ≡ self.compared + cond (is_compared term.now) 1 0 }
    {
        Terms {
            stars: self.stars + u64::from(is_star(term)),
            compared: self.compared + u64::from(!is_variable(term)),
        }
    }
}

/// The terms of an atom that has these columns.
pub fn terms_of(columns: &[Column], terms: &[RawTerm]) -> Terms
    ensures { AreTermsCounted result columns.now terms.now }
{
    let mut found = Terms {
        stars: 0,
        compared: 0,
    };
    let beside = &terms[..terms.len().min(columns.len())];
    for term in beside {
        found = found.with(term);
    }
    found
}

/// Whether a term is a variable without an offset.
pub fn is_variable(term: &RawTerm) -> bool
    ensures { result ≡ not (is_compared term.now) }
{
    match &term.kind {
        RawTermKind::Var { .. } => true,
        RawTermKind::Int { .. } | RawTermKind::Text { .. } | RawTermKind::Shifted { .. } => false,
    }
}

/// The size of a formula, where those of the definitions before are known.
#[cycle(measuring)]
pub fn size_of(definitions: &Definitions<'_>, known: &[Size], f: &RawFormula) -> Size
    ensures { (ks : ListOf Known) → AreMeasured ks definitions.now.definitions known.now
        → IsSizeIn definitions.now.relations ks result (raw_form_of f.now) }
{
    match &f.kind {
        RawKind::Atom { relation, terms } => atom_size(
            definitions,
            known,
            relation,
            terms.as_slice(),
        ),
        RawKind::Compare { .. } => Size::leaf(),
        RawKind::Member { .. } => Size::leaf(),
        RawKind::Not { of } => size_of(definitions, known, of).under(1),
        RawKind::Group { of } => size_of(definitions, known, of).under(1),
        RawKind::Exists { of, .. } => size_of(definitions, known, of).under(1),
        RawKind::Forall { of, .. } => size_of(definitions, known, of).under(1),
        RawKind::And { of } => sizes_of(definitions, known, of).under(1),
        RawKind::Or { of } => sizes_of(definitions, known, of).under(1),
        RawKind::Implies { left, right } => {
            let left = size_of(definitions, known, left);
            left.beside(size_of(definitions, known, right)).under(1)
        }
        RawKind::Ranged { word, of, .. } => range_size(*word, size_of(definitions, known, of)),
        RawKind::Paired {
            word,
            left,
            right,
            ..
        } => {
            let left = size_of(definitions, known, left);
            pair_size(*word, left, size_of(definitions, known, right))
        }
    }
}

// The size of several formulas beside each other.
#[cycle(measuring)]
fn sizes_of(definitions: &Definitions<'_>, known: &[Size], fs: &[RawFormula]) -> Size
    ensures { (ks : ListOf Known) → AreMeasured ks definitions.now.definitions known.now
        → IsSizeInEach definitions.now.relations ks result (raw_forms_of fs.now) }
{
    let mut all = Size::none();
    for f in fs {
        all = all.beside(size_of(definitions, known, f));
    }
    all
}

// An atom of a relation, or of a definition.
fn atom_size(definitions: &Definitions<'_>, known: &[Size], name: &Name, terms: &[RawTerm]) -> Size
    ensures { (ks : ListOf Known) → AreMeasured ks definitions.now.definitions known.now
        → (place : PlaceOf) → IsSizeIn definitions.now.relations ks result
        (raw_atom place name.now terms.now) }
{
    if let Some(number) = definitions.number(name, known.len()) {
        let found = terms_of(definitions.at(number).columns.as_slice(), terms);
        return use_size(found, known[number]);
    }
    Size::leaf().under(stars_of(definitions, name, terms))
}

/// How many terms of an atom of a relation are `*`.
pub fn stars_of(definitions: &Definitions<'_>, name: &Name, terms: &[RawTerm]) -> u64
    ensures { result
        ≡ star_total (columns_in (relation_named definitions.now.relations name.now)) terms.now }
{
    // Only where there are some is the relation looked up.
    if has_no_star(terms) {
        return 0;
    }
    terms_of(columns_of(definitions, name), terms).stars
}

// The columns of the relation that has a name; a name that has none is told apart.
fn columns_of<'a>(definitions: &'a Definitions<'_>, name: &Name) -> &'a [Column]
    ensures { result.now ≡ columns_in (relation_named definitions.now.relations name.now) }
{
    match definitions.database().relation(name) {
        Some(relation) => relation.columns.as_slice(),
        None => &[],
    }
}

// A use of a definition whose formula has this size.
fn use_size(terms: Terms, inner: Size) -> Size
    ensures { (d : Known) (ts : ListOf RawTermOf) → AreTermsCounted terms d.columns ts
        → IsKnownSize d inner → (s : SettingOf) (p : PlaceOf) (k : ℕ)
        → IsSizeOf result (use_form s p k d ts) }
{
    if terms.compared == 0 {
        return inner.under(terms.stars);
    }
    let joined = inner.with_leaves(terms.compared).under(1);
    joined.under(terms.compared).under(terms.stars)
}

// What `once` and `always` stand for over a formula.
fn range_size(word: Ranged, of: Size) -> Size
    ensures { (o : Operator) (x v : Identifier) (from to : ℤ) (f : RawForm) → IsSizeOf of f
        → IsSizeOf result (form_of_range word o x v from to f) }
{
    match word {
        // exists x: time (x >= v + from and x <= v + to and f)
        Ranged::Once => of.with_leaves(2).under(2),
        // forall x: time ((x >= v + from and x <= v + to) implies f)
        Ranged::Always => of.beside(Size::none().with_leaves(2).under(1)).under(2),
    }
}

// What `since` and `until` stand for: exists x: time (x <= v and g and forall y: time ((y > x and y <= v) implies f))
fn pair_size(_word: Paired, between: Size, end: Size) -> Size
    ensures { (o : Operator) (x y v : Identifier) (f g : RawForm) → IsSizeOf between f
        → IsSizeOf end g → IsSizeOf result (form_of_pair _word o x y v f g) }
{
    let limited = between
        .beside(Size::none().with_leaves(2).under(1))
        .under(2);
    end.beside(limited).with_leaves(1).under(2)
}
