// Terms, read from their tokens.
ghost use Rattle.std.specs.Prelude.{◌≡◌, ◌≤◌, ◌<◌, ℕ, [], ◌∷◌, length, IfOk};
ghost use Rattle.lrp_model.specs.Limits.{greatest_number};
ghost use Rattle.lrp_model.specs.DatabaseMeaning.{signed as signed_number};
ghost use Rattle.lrp_text.specs.Parsers.{Reads, separated_from, listed};
ghost use Rattle.lrp_text.specs.Taking.{is_symbol};
ghost use Rattle.lrp_query.specs.Rules.{raw_terms, named_term, unnamed_term, bare_term, term, argument};

use lrp_model::{Fault, List, Memory, Name, RawTerm, RawTermKind, Symbol};
use lrp_text::{TokenCursor, integer};
use std::alloc::Global;

/// The number of this size, negative with the flag.
pub fn signed(negative: bool, size: u64) -> i64
    requires { size ≤ greatest_number }
    ensures { result ≡ signed_number negative size }
{
    let size = size as i64;
    if negative { -size } else { size }
}

/// A name, alone or with an offset.
#[tactic(auto, unfolding(crate::specs::Rules::named_term, lrp_text::specs::OffsetRule::offset))]
pub fn read_named_term(name: Name, tokens: &mut TokenCursor<'_>) -> Result<RawTermKind, Fault>
    ensures value { Reads (named_term raw_terms name tokens.old) result tokens.new }
    ensures shorter { IfOk result (λ _. length tokens.new ≤ length tokens.old) }
{
    if tokens.eat(Symbol::Plus) {
        let plus = signed(false, tokens.number()?);
        return Ok(RawTermKind::Shifted { name, plus });
    }
    if tokens.eat(Symbol::Minus) {
        let plus = signed(true, tokens.number()?);
        return Ok(RawTermKind::Shifted { name, plus });
    }
    Ok(RawTermKind::Var { name })
}

/// A text or an integer.
#[tactic(auto, unfolding(crate::specs::Rules::unnamed_term))]
pub fn read_unnamed_term(alloc: Global, tokens: &mut TokenCursor<'_>) -> Result<RawTermKind, Fault>
    ensures value { Reads (unnamed_term raw_terms tokens.old) result tokens.new }
    ensures fewer { IfOk result (λ _. length tokens.new < length tokens.old) }
{
    if tokens.sees_text() {
        let text = tokens.text(alloc)?;
        return Ok(RawTermKind::Text { text });
    }
    let read = integer(tokens)?;
    let value = signed(read.negative, read.size);
    Ok(RawTermKind::Int { value })
}

#[tactic(auto, unfolding(crate::specs::Rules::bare_term))]
fn read_bare_term(alloc: Global, tokens: &mut TokenCursor<'_>) -> Result<RawTermKind, Fault>
    ensures value { Reads (bare_term raw_terms tokens.old) result tokens.new }
    ensures fewer { IfOk result (λ _. length tokens.new < length tokens.old) }
{
    if tokens.sees_name() {
        let (name, _) = tokens.name(alloc)?;
        read_named_term(name, tokens)
    } else {
        read_unnamed_term(alloc, tokens)
    }
}

/// A term, with the place of its first token.
#[tactic(auto, unfolding(crate::specs::Rules::term))]
pub fn read_term(alloc: Global, tokens: &mut TokenCursor<'_>) -> Result<RawTerm, Fault>
    ensures value { Reads (term raw_terms tokens.old) result tokens.new }
    ensures fewer { IfOk result (λ _. length tokens.new < length tokens.old) }
{
    let place = tokens.place();
    let kind = read_bare_term(alloc, tokens)?;
    Ok(RawTerm { kind, place })
}

/// The name of a `*`, which no text spells.
pub const STAR: &str = "*";

// What an atom has for a column: a term, or where the flag is set a `*`.
#[tactic(auto, unfolding(crate::specs::Rules::star_or_term))]
fn read_argument(alloc: Global, tokens: &mut TokenCursor<'_>, wide: bool) -> Result<RawTerm, Fault>
    ensures value { Reads (argument wide raw_terms tokens.old) result tokens.new }
    ensures fewer { IfOk result (λ _. length tokens.new < length tokens.old) }
{
    let place = tokens.place();
    if wide && tokens.eat(Symbol::Star) {
        let name = Name::new(alloc, STAR)?;
        let kind = RawTermKind::Var { name };
        return Ok(RawTerm { kind, place });
    }
    read_term(alloc, tokens)
}

// These terms, with no room for more.
fn exact(terms: List<RawTerm>) -> List<RawTerm>
    ensures { result ≡ terms }
{
    let mut items = terms.into_vec();
    items.shrink_to_fit();
    List::from_vec(items)
}

// One term, with room for the number of terms that are to come.
fn terms_from(alloc: Global, first: RawTerm, room: usize) -> Result<List<RawTerm>, Memory>
    ensures { IfOk result (λ made. made ≡ first ∷ []) }
{
    let mut found = List::from_vec(Vec::with_capacity(alloc, room)?);
    found.push(first)?;
    Ok(found)
}

// The terms after a comma, and the first one before these.
fn read_more_terms(
    alloc: Global,
    tokens: &mut TokenCursor<'_>,
    wide: bool,
    first: RawTerm,
) -> Result<List<RawTerm>, Fault>
    ensures value { (n : ℕ) → length tokens.old < n
        → Reads (separated_from (argument wide raw_terms) (is_symbol Symbol.Comma) n
        (first ∷ []) tokens.old) result tokens.new }
    ensures shorter { IfOk result (λ _. length tokens.new ≤ length tokens.old) }
{
    let mut found = terms_from(alloc, first, 2)?;
    loop {
        let term = read_argument(alloc, tokens, wide)?;
        found.push(term)?;
        if !tokens.eat(Symbol::Comma) {
            return Ok(exact(found));
        }
    }
}

// One term or more, with commas between. A term alone takes room for one: to give room back costs more than the atom.
fn read_some_terms(
    alloc: Global,
    tokens: &mut TokenCursor<'_>,
    wide: bool,
) -> Result<List<RawTerm>, Fault>
    ensures value { (n : ℕ) → length tokens.old < n
        → Reads (separated_from (argument wide raw_terms) (is_symbol Symbol.Comma) n [] tokens.old) result
        tokens.new }
    ensures shorter { IfOk result (λ _. length tokens.new ≤ length tokens.old) }
{
    let first = read_argument(alloc, tokens, wide)?;
    if tokens.eat(Symbol::Comma) {
        return read_more_terms(alloc, tokens, wide, first);
    }
    Ok(terms_from(alloc, first, 1)?)
}

/// The terms of an atom, up to the parenthesis that ends them; where the flag is set, a `*` may stand for one.
#[tactic(auto, unfolding(lrp_text::specs::Parsers::listed))]
pub fn read_terms(
    alloc: Global,
    tokens: &mut TokenCursor<'_>,
    wide: bool,
) -> Result<List<RawTerm>, Fault>
    ensures value { (n : ℕ) → length tokens.old < n
        → Reads (listed (argument wide raw_terms) (is_symbol Symbol.Comma)
        (is_symbol Symbol.Close) n tokens.old) result tokens.new }
    ensures shorter { IfOk result (λ _. length tokens.new ≤ length tokens.old) }
{
    if tokens.sees(Symbol::Close) {
        return Ok(List::new(alloc));
    }
    read_some_terms(alloc, tokens, wide)
}
