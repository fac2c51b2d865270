// Formulas, read from their tokens.
ghost use Rattle.std.specs.Prelude.{◌≡◌, ◌<◌, ◌≤◌, ℕ, [], ◌∷◌, ◌++◌, true, false, map, length, IfOk};
ghost use Rattle.lrp_text.specs.Parsers.{separated_from};
ghost use Rattle.lrp_text.specs.Taking.{is_word};
ghost use Rattle.lrp_query.specs.Reading.{ReadsAs, ReadsEach};
ghost use Rattle.lrp_query.specs.Rules.{named, negated, after_first, alone, implying, conjoined, disjoined};
ghost use Rattle.lrp_query.specs.OperatorRules.{closed_by, ranged_parts, paired_parts};
ghost use Rattle.lrp_query.specs.Grammars.{meant, operators_in, after_at, existing_at, holding_at, enclosed_at, formula_in, formulas_in, part_in, whole_in, joined_of, quantified_by};
ghost use Rattle.lrp_query.specs.Rules.{both, either, chained, member_of, quantified, closed_whole};
ghost use Rattle.lrp_model.specs.RawQueries.{raw_form_of};

use crate::atoms::{read_after_name, read_unnamed};
use crate::binders::{deeper, read_binders};
use crate::grammar::Grammar;
use crate::operators::{read_ends, read_variable};
use crate::starts::{Start, start_of, too_deep};
use crate::trees::{self, Quantifier};
use crate::words::{Leading, Opening};
use lrp_model::{Fault, Memory, Name, Paired, Place, Ranged, RawFormula, Symbol, Word};
use lrp_text::{TokenCursor, column};
use std::alloc::Global;

// One formula that stands alone.
fn alone(formula: RawFormula) -> Joined
    ensures { joined_of result ≡ record { formula = raw_form_of formula; bare = false } }
{
    Joined {
        formula,
        bare: false,
    }
}

// Several, without parentheses of their own.
fn bare(formula: RawFormula) -> Joined
    ensures { joined_of result ≡ record { formula = raw_form_of formula; bare = true } }
{
    Joined {
        formula,
        bare: true,
    }
}

// A formula alone in parentheses, of which the last one is read.
fn read_group(
    alloc: Global,
    tokens: &mut TokenCursor<'_>,
    place: Place,
    of: RawFormula,
) -> Result<RawFormula, Fault>
    ensures value { ReadsAs raw_form_of (alone meant place (raw_form_of of) tokens.old)
        result tokens.new }
    ensures fewer { IfOk result (λ _. length tokens.new < length tokens.old) }
{
    tokens.expect(Symbol::Close)?;
    Ok(trees::grouped(alloc, place, of)?)
}

// The first member, with room for a second one.
fn members_from(alloc: Global, first: RawFormula) -> Result<Vec<RawFormula>, Memory>
    ensures { IfOk result (λ made. map raw_form_of made.items ≡ raw_form_of first ∷ []) }
{
    let mut all = Vec::with_capacity(alloc, 2)?;
    all.push(first)?;
    Ok(all)
}

// One more member after the others.
fn add(all: &mut Vec<RawFormula>, one: RawFormula) -> Result<(), Memory>
    ensures { IfOk result (λ _. map raw_form_of all.new.items ≡ map raw_form_of all.old.items
        ++ raw_form_of one ∷ []) }
{
    Ok(all.push(one)?)
}

// These members, with no room for more.
fn exact(members: Vec<RawFormula>) -> Vec<RawFormula>
    ensures { result.items ≡ members.items }
{
    let mut items = members;
    items.shrink_to_fit();
    items
}

/// Reads a formula that is at most so deep.
#[cycle(reading)]
pub fn read_formula<G: Grammar>(
    alloc: Global,
    tokens: &mut TokenCursor<'_>,
    depth: u32,
) -> Result<RawFormula, Fault>
    ensures value { (turns : ℕ) → length tokens.old < turns
        → ReadsAs raw_form_of (formula_in G.language depth turns tokens.old) result tokens.new }
    ensures fewer { IfOk result (λ _. length tokens.new < length tokens.old) }
{
    if depth == 0 {
        return Err(too_deep(tokens));
    }
    let inner = depth - 1;
    let place = tokens.place();
    match start_of(tokens) {
        Start::Not => read_negation::<G>(alloc, tokens, inner, place),
        Start::Exists => read_existential::<G>(alloc, tokens, inner, place),
        Start::Forall => read_universal::<G>(alloc, tokens, inner, place),
        Start::Open => read_enclosed::<G>(alloc, tokens, inner, place),
        Start::Name => read_named::<G>(alloc, tokens, inner),
        Start::Term => read_unnamed(alloc, tokens, G::is_wide(), place),
    }
}

#[cycle(reading)]
#[tactic(auto, unfolding(crate::specs::Rules::negated))]
fn read_negation<G: Grammar>(
    alloc: Global,
    tokens: &mut TokenCursor<'_>,
    depth: u32,
    place: Place,
) -> Result<RawFormula, Fault>
    ensures value { (turns : ℕ) → length tokens.old < turns
        → ReadsAs raw_form_of (negated meant (formula_in G.language depth turns) place
        tokens.old) result tokens.new }
    ensures fewer { IfOk result (λ _. length tokens.new < length tokens.old) }
{
    tokens.expect_word(Word::Not)?;
    let of = read_formula::<G>(alloc, tokens, depth)?;
    Ok(trees::denied(alloc, place, of)?)
}

#[cycle(reading)]
#[tactic(auto, unfolding(crate::specs::Rules::existing))]
fn read_existential<G: Grammar>(
    alloc: Global,
    tokens: &mut TokenCursor<'_>,
    depth: u32,
    place: Place,
) -> Result<RawFormula, Fault>
    ensures value { (turns : ℕ) → length tokens.old < turns
        → ReadsAs raw_form_of (existing_at G.language depth turns place tokens.old) result
        tokens.new }
    ensures fewer { IfOk result (λ _. length tokens.new < length tokens.old) }
{
    tokens.expect_word(Word::Exists)?;
    if G::is_wide() {
        return read_quantified::<G>(alloc, tokens, depth, Quantifier::Existential, place);
    }
    let binder = column(alloc, tokens)?;
    let of = read_formula::<G>(alloc, tokens, depth)?;
    Ok(trees::some(alloc, place, binder, of)?)
}

#[cycle(reading)]
#[tactic(auto, unfolding(crate::specs::Rules::holding))]
fn read_universal<G: Grammar>(
    alloc: Global,
    tokens: &mut TokenCursor<'_>,
    depth: u32,
    place: Place,
) -> Result<RawFormula, Fault>
    ensures value { (turns : ℕ) → length tokens.old < turns
        → ReadsAs raw_form_of (holding_at G.language depth turns place tokens.old) result
        tokens.new }
    ensures fewer { IfOk result (λ _. length tokens.new < length tokens.old) }
{
    tokens.expect_word(Word::Forall)?;
    if G::is_wide() {
        return read_quantified::<G>(alloc, tokens, depth, Quantifier::Universal, place);
    }
    let binder = column(alloc, tokens)?;
    let of = read_formula::<G>(alloc, tokens, depth)?;
    Ok(trees::every(alloc, place, binder, of)?)
}

#[cycle(reading)]
#[tactic(auto, unfolding(crate::specs::Rules::enclosed))]
fn read_enclosed<G: Grammar>(
    alloc: Global,
    tokens: &mut TokenCursor<'_>,
    depth: u32,
    place: Place,
) -> Result<RawFormula, Fault>
    ensures value { (turns : ℕ) → length tokens.old < turns
        → ReadsAs raw_form_of (enclosed_at G.language depth turns place tokens.old) result
        tokens.new }
    ensures fewer { IfOk result (λ _. length tokens.new < length tokens.old) }
{
    tokens.expect(Symbol::Open)?;
    if G::is_wide() {
        return read_closed_whole::<G>(alloc, tokens, depth, place);
    }
    let first = read_formula::<G>(alloc, tokens, depth)?;
    read_after_first::<G>(alloc, tokens, depth, place, first)
}

// What stands after a parenthesis and a formula.
#[cycle(reading)]
#[tactic(auto, unfolding(crate::specs::Rules::after_first))]
fn read_after_first<G: Grammar>(
    alloc: Global,
    tokens: &mut TokenCursor<'_>,
    depth: u32,
    place: Place,
    first: RawFormula,
) -> Result<RawFormula, Fault>
    ensures value { (turns : ℕ) → length tokens.old < turns
        → ReadsAs raw_form_of (after_first meant (formula_in G.language depth turns)
        turns place (raw_form_of first) tokens.old) result tokens.new }
    ensures fewer { IfOk result (λ _. length tokens.new < length tokens.old) }
{
    if tokens.eat_word(Word::Implies) {
        return read_implication::<G>(alloc, tokens, depth, place, first);
    }
    if tokens.eat_word(Word::And) {
        return read_conjunction::<G>(alloc, tokens, depth, place, first);
    }
    if tokens.eat_word(Word::Or) {
        return read_disjunction::<G>(alloc, tokens, depth, place, first);
    }
    read_group(alloc, tokens, place, first)
}

#[cycle(reading)]
#[tactic(auto, unfolding(crate::specs::Rules::implying))]
fn read_implication<G: Grammar>(
    alloc: Global,
    tokens: &mut TokenCursor<'_>,
    depth: u32,
    place: Place,
    first: RawFormula,
) -> Result<RawFormula, Fault>
    ensures value { (turns : ℕ) → length tokens.old < turns
        → ReadsAs raw_form_of (implying meant (formula_in G.language depth turns) place
        (raw_form_of first) tokens.old) result tokens.new }
    ensures fewer { IfOk result (λ _. length tokens.new < length tokens.old) }
{
    let second = read_formula::<G>(alloc, tokens, depth)?;
    tokens.expect(Symbol::Close)?;
    Ok(trees::implied(alloc, place, first, second)?)
}

#[cycle(reading)]
#[tactic(auto, unfolding(crate::specs::Rules::conjoined))]
fn read_conjunction<G: Grammar>(
    alloc: Global,
    tokens: &mut TokenCursor<'_>,
    depth: u32,
    place: Place,
    first: RawFormula,
) -> Result<RawFormula, Fault>
    ensures value { (turns : ℕ) → length tokens.old < turns
        → ReadsAs raw_form_of (conjoined meant (formula_in G.language depth turns) turns
        place (raw_form_of first) tokens.old) result tokens.new }
    ensures fewer { IfOk result (λ _. length tokens.new < length tokens.old) }
{
    let of = read_members::<G>(alloc, tokens, depth, Word::And, first)?;
    tokens.expect(Symbol::Close)?;
    Ok(trees::conjunction(place, of))
}

#[cycle(reading)]
#[tactic(auto, unfolding(crate::specs::Rules::disjoined))]
fn read_disjunction<G: Grammar>(
    alloc: Global,
    tokens: &mut TokenCursor<'_>,
    depth: u32,
    place: Place,
    first: RawFormula,
) -> Result<RawFormula, Fault>
    ensures value { (turns : ℕ) → length tokens.old < turns
        → ReadsAs raw_form_of (disjoined meant (formula_in G.language depth turns) turns
        place (raw_form_of first) tokens.old) result tokens.new }
    ensures fewer { IfOk result (λ _. length tokens.new < length tokens.old) }
{
    let of = read_members::<G>(alloc, tokens, depth, Word::Or, first)?;
    tokens.expect(Symbol::Close)?;
    Ok(trees::disjunction(place, of))
}

// The members after a reserved word that stands between them, and the first one before these.
#[cycle(reading)]
fn read_members<G: Grammar>(
    alloc: Global,
    tokens: &mut TokenCursor<'_>,
    depth: u32,
    word: Word,
    first: RawFormula,
) -> Result<Vec<RawFormula>, Fault>
    ensures value { (turns more : ℕ) → length tokens.old < turns → length tokens.old < more
        → ReadsEach raw_form_of (separated_from (formula_in G.language depth turns) (is_word word)
        more (raw_form_of first ∷ []) tokens.old) result tokens.new }
    ensures shorter { IfOk result (λ _. length tokens.new ≤ length tokens.old) }
{
    let mut found = members_from(alloc, first)?;
    loop {
        let next = read_formula::<G>(alloc, tokens, depth)?;
        add(&mut found, next)?;
        if !tokens.eat_word(word) {
            return Ok(exact(found));
        }
    }
}

// A formula that begins with a name.
#[cycle(reading)]
#[tactic(auto, unfolding(crate::specs::Rules::named))]
fn read_named<G: Grammar>(
    alloc: Global,
    tokens: &mut TokenCursor<'_>,
    depth: u32,
) -> Result<RawFormula, Fault>
    ensures value { (turns : ℕ) → length tokens.old < turns
        → ReadsAs raw_form_of (named (after_at G.language depth turns) tokens.old) result
        tokens.new }
    ensures fewer { IfOk result (λ _. length tokens.new < length tokens.old) }
{
    let (name, place) = tokens.name(alloc)?;
    read_after::<G>(alloc, tokens, depth, name, place)
}

// What stands after a name that begins a formula: an operator where another name follows.
#[cycle(reading)]
fn read_after<G: Grammar>(
    alloc: Global,
    tokens: &mut TokenCursor<'_>,
    depth: u32,
    name: Name,
    place: Place,
) -> Result<RawFormula, Fault>
    ensures value { (turns : ℕ) → length tokens.old < turns
        → ReadsAs raw_form_of (after_at G.language depth turns name place tokens.old) result
        tokens.new }
    ensures shorter { IfOk result (λ _. length tokens.new ≤ length tokens.old) }
{
    if !tokens.sees_name() {
        return read_after_name(alloc, tokens, G::is_wide(), name, place);
    }
    match G::word_of(&name) {
        Some(Leading::OfRange(word)) => read_ranged::<G>(alloc, tokens, depth, word, place),
        Some(Leading::OfPair(word)) => read_paired::<G>(alloc, tokens, depth, word, place),
        None => Err(Fault::Syntax),
    }
}

// An operator with an interval, after its first word.
#[cycle(reading)]
#[tactic(auto, unfolding(crate::specs::OperatorRules::ranged_parts))]
fn read_ranged<G: Grammar>(
    alloc: Global,
    tokens: &mut TokenCursor<'_>,
    depth: u32,
    word: Ranged,
    place: Place,
) -> Result<RawFormula, Fault>
    ensures value { (turns : ℕ) → length tokens.old < turns
        → ReadsAs raw_form_of (ranged_parts (operators_in G.language)
        (formula_in G.language depth turns) word place tokens.old) result tokens.new }
    ensures fewer { IfOk result (λ _. length tokens.new < length tokens.old) }
{
    let (name, name_place) = read_variable(alloc, tokens)?;
    let ends = read_ends(tokens)?;
    let of = read_formula::<G>(alloc, tokens, depth)?;
    let opening = Opening {
        place,
        name,
        name_place,
    };
    Ok(trees::ranged(alloc, word, opening, ends, of)?)
}

// An operator over two formulas, after its first word.
#[cycle(reading)]
#[tactic(auto, unfolding(crate::specs::OperatorRules::paired_parts))]
fn read_paired<G: Grammar>(
    alloc: Global,
    tokens: &mut TokenCursor<'_>,
    depth: u32,
    word: Paired,
    place: Place,
) -> Result<RawFormula, Fault>
    ensures value { (turns : ℕ) → length tokens.old < turns
        → ReadsAs raw_form_of (paired_parts (operators_in G.language)
        (part_in G.language depth turns) word place tokens.old) result tokens.new }
    ensures fewer { IfOk result (λ _. length tokens.new < length tokens.old) }
{
    let (name, name_place) = read_variable(alloc, tokens)?;
    let left = read_closed::<G>(alloc, tokens, depth, Symbol::Comma)?;
    let right = read_closed::<G>(alloc, tokens, depth, Symbol::Close)?;
    let opening = Opening {
        place,
        name,
        name_place,
    };
    Ok(trees::paired(alloc, word, opening, left, right)?)
}

// A formula and the symbol after it.
#[cycle(reading)]
#[tactic(auto, unfolding(crate::specs::OperatorRules::closed_by))]
fn read_closed<G: Grammar>(
    alloc: Global,
    tokens: &mut TokenCursor<'_>,
    depth: u32,
    after: Symbol,
) -> Result<RawFormula, Fault>
    ensures value { (turns : ℕ) → length tokens.old < turns
        → ReadsAs raw_form_of (closed_by (part_in G.language depth turns) after tokens.old) result
        tokens.new }
    ensures fewer { IfOk result (λ _. length tokens.new < length tokens.old) }
{
    let of = read_part::<G>(alloc, tokens, depth)?;
    tokens.expect(after)?;
    Ok(of)
}

/// Reads any formula, whose parts are at most so deep: in the wide language it may go on without parentheses.
#[cycle(reading)]
pub fn read_part<G: Grammar>(
    alloc: Global,
    tokens: &mut TokenCursor<'_>,
    depth: u32,
) -> Result<RawFormula, Fault>
    ensures value { (turns : ℕ) → length tokens.old < turns
        → ReadsAs raw_form_of (part_in G.language depth turns tokens.old) result tokens.new }
    ensures fewer { IfOk result (λ _. length tokens.new < length tokens.old) }
{
    if !G::is_wide() {
        return read_formula::<G>(alloc, tokens, depth);
    }
    let Joined { formula, .. } = read_whole::<G>(alloc, tokens, depth)?;
    Ok(formula)
}

// A formula after a parenthesis, and the one that ends it: a list or an implication has their place.
#[cycle(reading)]
#[tactic(auto, unfolding(crate::specs::Rules::enclosed_whole))]
fn read_closed_whole<G: Grammar>(
    alloc: Global,
    tokens: &mut TokenCursor<'_>,
    depth: u32,
    place: Place,
) -> Result<RawFormula, Fault>
    ensures value { (turns : ℕ) → length tokens.old < turns
        → ReadsAs raw_form_of (closed_whole meant (whole_in G.language depth turns) place
        tokens.old) result tokens.new }
    ensures fewer { IfOk result (λ _. length tokens.new < length tokens.old) }
{
    let Joined { formula, bare } = read_whole::<G>(alloc, tokens, depth)?;
    tokens.expect(Symbol::Close)?;
    if bare {
        return Ok(trees::moved(place, formula));
    }
    Ok(trees::grouped(alloc, place, formula)?)
}

// A formula, and whether it is an `and`, `or` or `implies` that has no parentheses of its own.
#[derive(Drop)]
pub struct Joined {
    pub formula: RawFormula,
    pub bare: bool,
}

// One formula that stands alone, or several with `and` between.
#[cycle(reading)]
#[tactic(auto, unfolding(crate::specs::Rules::both))]
fn read_both<G: Grammar>(
    alloc: Global,
    tokens: &mut TokenCursor<'_>,
    depth: u32,
) -> Result<Joined, Fault>
    ensures value { (turns more : ℕ) → length tokens.old < turns → length tokens.old ≤ more
        → ReadsAs joined_of (both meant (formula_in G.language depth turns) more tokens.old)
        result tokens.new }
    ensures fewer { IfOk result (λ _. length tokens.new < length tokens.old) }
{
    let first = read_formula::<G>(alloc, tokens, depth)?;
    if !tokens.eat_word(Word::And) {
        return Ok(alone(first));
    }
    let place = first.place;
    let of = read_members::<G>(alloc, tokens, depth, Word::And, first)?;
    Ok(bare(trees::conjunction(place, of)))
}

// One of these, or several with `or` between.
#[cycle(reading)]
#[tactic(auto, unfolding(crate::specs::Rules::either))]
fn read_either<G: Grammar>(
    alloc: Global,
    tokens: &mut TokenCursor<'_>,
    depth: u32,
) -> Result<Joined, Fault>
    ensures value { (turns more : ℕ) → length tokens.old < turns → length tokens.old ≤ more
        → ReadsAs joined_of (either meant (formula_in G.language depth turns) more tokens.old)
        result tokens.new }
    ensures fewer { IfOk result (λ _. length tokens.new < length tokens.old) }
{
    let first = read_both::<G>(alloc, tokens, depth)?;
    if !tokens.eat_word(Word::Or) {
        return Ok(first);
    }
    let place = first.formula.place;
    let of = read_alternatives::<G>(alloc, tokens, depth, first)?;
    Ok(bare(trees::disjunction(place, of)))
}

// The members after the first `or`, and the first one before these.
#[cycle(reading)]
fn read_alternatives<G: Grammar>(
    alloc: Global,
    tokens: &mut TokenCursor<'_>,
    depth: u32,
    first: Joined,
) -> Result<Vec<RawFormula>, Fault>
    ensures value { (turns more : ℕ) → length tokens.old < turns → length tokens.old < more
        → ReadsEach raw_form_of (separated_from
        (member_of (both meant (formula_in G.language depth turns) more)) (is_word Word.Or) more
        (raw_form_of first.formula ∷ []) tokens.old) result tokens.new }
    ensures shorter { IfOk result (λ _. length tokens.new ≤ length tokens.old) }
{
    let Joined { formula, .. } = first;
    let mut found = members_from(alloc, formula)?;
    loop {
        let Joined { formula, .. } = read_both::<G>(alloc, tokens, depth)?;
        add(&mut found, formula)?;
        if !tokens.eat_word(Word::Or) {
            return Ok(exact(found));
        }
    }
}

// One of these, or what it implies after it.
#[cycle(reading)]
#[tactic(auto, unfolding(crate::specs::Rules::whole))]
fn read_whole<G: Grammar>(
    alloc: Global,
    tokens: &mut TokenCursor<'_>,
    depth: u32,
) -> Result<Joined, Fault>
    ensures value { (turns : ℕ) → length tokens.old < turns
        → ReadsAs joined_of (whole_in G.language depth turns tokens.old) result tokens.new }
    ensures fewer { IfOk result (λ _. length tokens.new < length tokens.old) }
{
    let first = read_either::<G>(alloc, tokens, depth)?;
    if !tokens.eat_word(Word::Implies) {
        return Ok(first);
    }
    let Joined { formula, .. } = first;
    Ok(bare(read_chain::<G>(alloc, tokens, depth, formula)?))
}

// What a formula implies in turn, after an `implies`; after each further one the depth is one more.
#[cycle(reading)]
#[tactic(auto, unfolding(crate::specs::Rules::chained))]
fn read_chain<G: Grammar>(
    alloc: Global,
    tokens: &mut TokenCursor<'_>,
    depth: u32,
    left: RawFormula,
) -> Result<RawFormula, Fault>
    ensures value { (turns more : ℕ) → length tokens.old < turns → length tokens.old < more
        → ReadsAs raw_form_of (chained meant (formulas_in G.language turns) depth more
        (raw_form_of left) tokens.old) result tokens.new }
    ensures fewer { IfOk result (λ _. length tokens.new < length tokens.old) }
{
    if depth == 0 {
        return Err(too_deep(tokens));
    }
    let place = left.place;
    let Joined { formula: next, .. } = read_either::<G>(alloc, tokens, depth)?;
    if !tokens.eat_word(Word::Implies) {
        return Ok(trees::implied(alloc, place, left, next)?);
    }
    let right = read_chain::<G>(alloc, tokens, depth - 1, next)?;
    Ok(trees::implied(alloc, place, left, right)?)
}

// A quantifier after its word: its names, their sort, and its formula. Each name counts for the depth, one of them already.
#[cycle(reading)]
#[tactic(auto, unfolding(crate::specs::Rules::quantified))]
fn read_quantified<G: Grammar>(
    alloc: Global,
    tokens: &mut TokenCursor<'_>,
    depth: u32,
    quantifier: Quantifier,
    place: Place,
) -> Result<RawFormula, Fault>
    ensures value { (turns : ℕ) → length tokens.old < turns
        → ReadsAs raw_form_of (quantified (quantified_by quantifier) (formulas_in G.language turns)
        depth turns place tokens.old) result tokens.new }
    ensures fewer { IfOk result (λ _. length tokens.new < length tokens.old) }
{
    let binders = read_binders(alloc, tokens)?;
    let inner = deeper(depth, binders.len() - 1);
    let of = read_formula::<G>(alloc, tokens, inner)?;
    Ok(trees::bound(alloc, place, quantifier, binders, of)?)
}
