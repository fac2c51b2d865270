// Databases, read from the tokens of a text: a written row is dropped as soon as what it means is kept.
ghost use Rattle.std.specs.Prelude.{◌≡◌, ◌<◌, ◌≤◌, ℕ, length, IfOk, []};
ghost use Rattle.lrp_model.specs.Databases.{FitsRow};
ghost use Rattle.lrp_text.specs.Parsers.{Reads, left_after, accept, separated_from, listed, until_from};
ghost use Rattle.lrp_text.specs.Taking.{is_symbol, is_end, located};
ghost use Rattle.lrp_rel.specs.Gathered.{ReadsInto, IsHeading, IsBodyOf, IsMeaningOf, AreRelationsGathered};
ghost use Rattle.lrp_rel.specs.Rules.{label, numeric, bare_value, value, named_side, side, bound_op_of, bound, bounds, row, relation, database};

use crate::gathering::{Body, Gathered, Heading, Meaning};
use lrp_model::{
    BoundOp, Fault, List, Located, Name, RawBound, RawRow, Side, Symbol, Word, WrittenValue,
};
use lrp_text::{TokenCursor, columns, integer};
use std::alloc::Global;

/// A name that is no reserved word, with its place.
#[tactic(auto, unfolding(crate::specs::Rules::label))]
pub fn read_label(alloc: Global, tokens: &mut TokenCursor<'_>) -> Result<Located<Name>, Fault>
    ensures value { Reads (label tokens.old) result tokens.new }
    ensures fewer { IfOk result (λ _. length tokens.new < length tokens.old) }
{
    let (item, place) = tokens.name(alloc)?;
    Ok(Located { place, item })
}

#[tactic(auto, unfolding(crate::specs::Rules::numeric))]
fn read_numeric(tokens: &mut TokenCursor<'_>) -> Result<WrittenValue, Fault>
    ensures value { Reads (numeric tokens.old) result tokens.new }
    ensures fewer { IfOk result (λ _. length tokens.new < length tokens.old) }
{
    let at = integer(tokens)?;
    if !tokens.eat(Symbol::Plus) {
        return Ok(WrittenValue::Instant { at });
    }
    let period = tokens.period()?;
    tokens.expect_word(Word::Letter)?;
    Ok(WrittenValue::Point { at, period })
}

#[tactic(auto, unfolding(crate::specs::Rules::bare_value))]
fn read_bare_value(alloc: Global, tokens: &mut TokenCursor<'_>) -> Result<WrittenValue, Fault>
    ensures value { Reads (bare_value tokens.old) result tokens.new }
    ensures fewer { IfOk result (λ _. length tokens.new < length tokens.old) }
{
    if tokens.sees_text() {
        let text = tokens.text(alloc)?;
        Ok(WrittenValue::Constant { text })
    } else {
        read_numeric(tokens)
    }
}

fn read_value(alloc: Global, tokens: &mut TokenCursor<'_>) -> Result<Located<WrittenValue>, Fault>
    ensures value { Reads (value tokens.old) result tokens.new }
    ensures fewer { IfOk result (λ _. length tokens.new < length tokens.old) }
{
    let place = tokens.place();
    let item = read_bare_value(alloc, tokens)?;
    Ok(Located { place, item })
}

#[tactic(auto, unfolding(crate::specs::Rules::named_side, lrp_text::specs::OffsetRule::offset))]
fn read_named_side(alloc: Global, tokens: &mut TokenCursor<'_>) -> Result<Side, Fault>
    ensures value { Reads (named_side tokens.old) result tokens.new }
    ensures fewer { IfOk result (λ _. length tokens.new < length tokens.old) }
{
    let name = read_label(alloc, tokens)?;
    if tokens.eat(Symbol::Plus) {
        let by = tokens.number()?;
        return Ok(Side::Shifted {
            name,
            down: false,
            by,
        });
    }
    if tokens.eat(Symbol::Minus) {
        let by = tokens.number()?;
        return Ok(Side::Shifted {
            name,
            down: true,
            by,
        });
    }
    Ok(Side::Column { name })
}

#[tactic(auto, unfolding(crate::specs::Rules::side))]
fn read_side(alloc: Global, tokens: &mut TokenCursor<'_>) -> Result<Side, Fault>
    ensures value { Reads (side tokens.old) result tokens.new }
    ensures fewer { IfOk result (λ _. length tokens.new < length tokens.old) }
{
    if tokens.sees_name() {
        read_named_side(alloc, tokens)
    } else {
        let value = integer(tokens)?;
        Ok(Side::Alone { value })
    }
}

// The comparison of a bound.
fn read_op(tokens: &mut TokenCursor<'_>) -> Result<BoundOp, Fault>
    ensures value { Reads (accept (λ t. bound_op_of t.token) tokens.old) result tokens.new }
    ensures fewer { IfOk result (λ _. length tokens.new < length tokens.old) }
{
    if tokens.eat(Symbol::Le) {
        return Ok(BoundOp::AtMost);
    }
    if tokens.eat(Symbol::Ge) {
        return Ok(BoundOp::AtLeast);
    }
    if tokens.eat(Symbol::Equals) {
        return Ok(BoundOp::Equal);
    }
    Err(Fault::Syntax)
}

#[tactic(auto, unfolding(crate::specs::Rules::bound))]
fn read_bound(alloc: Global, tokens: &mut TokenCursor<'_>) -> Result<RawBound, Fault>
    ensures value { Reads (bound tokens.old) result tokens.new }
    ensures fewer { IfOk result (λ _. length tokens.new < length tokens.old) }
{
    let left = read_label(alloc, tokens)?;
    let op = read_op(tokens)?;
    let side = read_side(alloc, tokens)?;
    Ok(RawBound { left, op, side })
}

// One value or more, with commas between.
fn read_some_values(
    alloc: Global,
    tokens: &mut TokenCursor<'_>,
) -> Result<List<Located<WrittenValue>>, Fault>
    ensures value { (n : ℕ) → length tokens.old < n
        → Reads (separated_from value (is_symbol Symbol.Comma) n [] tokens.old) result tokens.new }
    ensures shorter { IfOk result (λ _. length tokens.new ≤ length tokens.old) }
{
    let mut found = List::new(alloc);
    loop {
        let value = read_value(alloc, tokens)?;
        found.push(value)?;
        if !tokens.eat(Symbol::Comma) {
            return Ok(found);
        }
    }
}

// The values of a row, up to the parenthesis that ends them.
#[tactic(auto, unfolding(lrp_text::specs::Parsers::listed))]
fn read_values(
    alloc: Global,
    tokens: &mut TokenCursor<'_>,
) -> Result<List<Located<WrittenValue>>, Fault>
    ensures value { (n : ℕ) → length tokens.old < n
        → Reads (listed value (is_symbol Symbol.Comma) (is_symbol Symbol.Close) n tokens.old) result
        tokens.new }
    ensures shorter { IfOk result (λ _. length tokens.new ≤ length tokens.old) }
{
    if tokens.sees(Symbol::Close) {
        return Ok(List::new(alloc));
    }
    read_some_values(alloc, tokens)
}

// One bound or more, with commas between.
fn read_some_bounds(alloc: Global, tokens: &mut TokenCursor<'_>) -> Result<List<RawBound>, Fault>
    ensures value { (n : ℕ) → length tokens.old < n
        → Reads (separated_from bound (is_symbol Symbol.Comma) n [] tokens.old) result tokens.new }
    ensures shorter { IfOk result (λ _. length tokens.new ≤ length tokens.old) }
{
    let mut found = List::new(alloc);
    loop {
        let bound = read_bound(alloc, tokens)?;
        found.push(bound)?;
        if !tokens.eat(Symbol::Comma) {
            return Ok(found);
        }
    }
}

// The bounds of a row, if there are any.
#[tactic(auto, unfolding(crate::specs::Rules::bounds))]
fn read_bounds(alloc: Global, tokens: &mut TokenCursor<'_>) -> Result<List<RawBound>, Fault>
    ensures value { (n : ℕ) → length tokens.old < n
        → Reads (bounds n tokens.old) result tokens.new }
    ensures shorter { IfOk result (λ _. length tokens.new ≤ length tokens.old) }
{
    if !tokens.eat_word(Word::Where) {
        return Ok(List::new(alloc));
    }
    read_some_bounds(alloc, tokens)
}

#[tactic(auto, unfolding(crate::specs::Rules::row))]
fn read_row(alloc: Global, tokens: &mut TokenCursor<'_>) -> Result<RawRow, Fault>
    ensures value { (n : ℕ) → length tokens.old < n → Reads (row n tokens.old) result tokens.new }
    ensures fewer { IfOk result (λ _. length tokens.new < length tokens.old) }
{
    tokens.expect(Symbol::Open)?;
    let values = read_values(alloc, tokens)?;
    tokens.expect(Symbol::Close)?;
    let bounds = read_bounds(alloc, tokens)?;
    tokens.expect(Symbol::Semicolon)?;
    Ok(RawRow { values, bounds })
}

/// A written row, with the place of its parenthesis.
pub fn read_placed_row(
    alloc: Global,
    tokens: &mut TokenCursor<'_>,
) -> Result<Located<RawRow>, Fault>
    ensures value { (n : ℕ) → length tokens.old < n
        → Reads (located (row n) tokens.old) result tokens.new }
    ensures fits { IfOk result (λ row. FitsRow row.item) }
    ensures fewer { IfOk result (λ _. length tokens.new < length tokens.old) }
{
    let place = tokens.place();
    let item = read_row(alloc, tokens)?;
    Ok(Located { place, item })
}

// The rows of a relation, up to the brace that ends them.
fn read_rows(alloc: Global, heading: &Heading, tokens: &mut TokenCursor<'_>) -> Result<Body, Fault>
    requires { IsHeading heading.now }
    ensures value { (n : ℕ) → length tokens.old < n
        → ReadsInto (IsBodyOf heading.now)
        (until_from (located (row n)) (is_symbol Symbol.CloseBrace) n [] tokens.old) result
        tokens.new }
    ensures shorter { IfOk result (λ _. length tokens.new ≤ length tokens.old) }
{
    let mut body = Body::new(alloc);
    'rows: loop {
        if tokens.sees(Symbol::CloseBrace) {
            return Ok(body);
        }
        let row = read_placed_row(alloc, tokens)?;
        body.keep(alloc, heading, row)?;
    }
}

#[tactic(auto, unfolding(crate::specs::Rules::relation))]
fn read_relation(alloc: Global, tokens: &mut TokenCursor<'_>) -> Result<Meaning, Fault>
    ensures value { (n : ℕ) → length tokens.old < n
        → ReadsInto IsMeaningOf (relation n tokens.old) result tokens.new }
    ensures fewer { IfOk result (λ _. length tokens.new < length tokens.old) }
{
    tokens.expect_word(Word::Relation)?;
    let name = read_label(alloc, tokens)?;
    tokens.expect(Symbol::Open)?;
    let columns = columns(alloc, tokens, Symbol::Close)?;
    tokens.expect(Symbol::Close)?;
    tokens.expect(Symbol::OpenBrace)?;
    let heading = Heading::of(alloc, columns)?;
    let body = read_rows(alloc, &heading, tokens)?;
    tokens.expect(Symbol::CloseBrace)?;
    Ok(Meaning::of(alloc, name, heading, body)?)
}

// The relations of a database, up to the end.
fn read_relations(alloc: Global, tokens: &mut TokenCursor<'_>) -> Result<Gathered, Fault>
    ensures { (n : ℕ) → length tokens.old < n
        → ReadsInto AreRelationsGathered
        (until_from (relation n) is_end n [] tokens.old) result tokens.new }
{
    let mut gathered = Gathered::new(alloc);
    'relations: loop {
        if tokens.sees_end() {
            return Ok(gathered);
        }
        let meaning = read_relation(alloc, tokens)?;
        gathered.keep(alloc, meaning)?;
    }
}

// The relations, and the end after them.
#[tactic(auto, unfolding(crate::specs::Rules::database))]
pub fn read_relations_to_end(alloc: Global, tokens: &mut TokenCursor<'_>) -> Result<Gathered, Fault>
    ensures { (n : ℕ) → length tokens.old < n
        → ReadsInto AreRelationsGathered (database n tokens.old) result
        (left_after result tokens.new) }
{
    let gathered = read_relations(alloc, tokens)?;
    tokens.expect_end()?;
    Ok(gathered)
}
