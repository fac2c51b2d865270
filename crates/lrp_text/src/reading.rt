// The readers of what databases and queries share.
ghost use Rattle.std.specs.Prelude.{◌≢◌, ◌≤◌, ◌<◌, ℕ, [], length, Err, IfOk};
ghost use Rattle.lrp_text.specs.Parsers.{separated_from, listed, Reads, IsResultOrMemory};
ghost use Rattle.lrp_text.specs.Taking.{is_symbol};
ghost use Rattle.lrp_model.specs.Limits.{greatest_number};
ghost use Rattle.lrp_text.specs.ColumnRule.{shown_sort, sort as sort_rule, column as column_rule};
ghost use Rattle.lrp_text.specs.IntegerRule.{integer as integer_rule};

use crate::cursor::TokenCursor;
use crate::lexemes::{Found, Lexeme};
use lrp_model::{Fault, Integer, List, Name, Place, RawColumn, Sort, Symbol, Word};
use std::alloc::Global;

/// Reads an integer: a number of at most 2^62, which may have a minus before it.
#[tactic(auto, unfolding(crate::specs::IntegerRule::integer))]
pub fn integer(tokens: &mut TokenCursor<'_>) -> Result<Integer, Fault>
    ensures value { Reads (integer_rule tokens.old) result tokens.new }
    ensures fewer { IfOk result (λ _. length tokens.new < length tokens.old) }
    ensures takes_no_memory { result ≢ Err Fault.Memory }
    ensures fits { IfOk result (λ i. i.size ≤ greatest_number) }
{
    let negative = tokens.eat(Symbol::Minus);
    let size = tokens.number()?;
    Ok(Integer { negative, size })
}

// The sort that stands there.
fn sort_of(alloc: Global, found: Found<'_>) -> Result<Sort, Fault>
    ensures { IsResultOrMemory (shown_sort found.entry.lexeme found.entry.slice.now) result }
{
    match found.lexeme {
        Lexeme::Word(Word::Time) => Ok(Sort::Time),
        Lexeme::Word(Word::Data) => Ok(Sort::Data),
        Lexeme::Name => Ok(Sort::Named {
            name: Name::new(alloc, found.slice)?,
        }),
        _ => Err(Fault::Syntax),
    }
}

/// Reads a sort, and tells its place.
pub fn sort(alloc: Global, tokens: &mut TokenCursor<'_>) -> Result<(Sort, Place), Fault>
    ensures value { Reads (sort_rule tokens.old) result tokens.new }
    ensures shorter { length tokens.new ≤ length tokens.old }
    ensures fewer { IfOk result (λ _. length tokens.new < length tokens.old) }
{
    let next = tokens.peek();
    let sort = sort_of(alloc, next)?;
    tokens.advance();
    Ok((sort, next.place))
}

/// Reads a column: a name, a colon and a sort.
#[tactic(auto, unfolding(crate::specs::ColumnRule::column))]
pub fn column(alloc: Global, tokens: &mut TokenCursor<'_>) -> Result<RawColumn, Fault>
    ensures value { Reads (column_rule tokens.old) result tokens.new }
    ensures shorter { length tokens.new ≤ length tokens.old }
    ensures fewer { IfOk result (λ _. length tokens.new < length tokens.old) }
{
    let (name, place) = tokens.name(alloc)?;
    tokens.expect(Symbol::Colon)?;
    let (sort, sort_place) = sort(alloc, tokens)?;
    Ok(RawColumn {
        name,
        place,
        sort,
        sort_place,
    })
}

// Reads one column or more, with commas between.
fn some_columns(alloc: Global, tokens: &mut TokenCursor<'_>) -> Result<List<RawColumn>, Fault>
    ensures value { (n : ℕ) → length tokens.old < n
        → Reads (separated_from column_rule (is_symbol Symbol.Comma) n [] tokens.old) result
        tokens.new }
    ensures shorter { length tokens.new ≤ length tokens.old }
{
    let mut found = List::new(alloc);
    loop {
        let column = column(alloc, tokens)?;
        found.push(column)?;
        if !tokens.eat(Symbol::Comma) {
            found.shrink_to_fit();
            return Ok(found);
        }
    }
}

/// Reads the columns up to a symbol that ends them and is left, with commas between; there may be none.
#[tactic(auto, unfolding(crate::specs::Parsers::listed))]
pub fn columns(
    alloc: Global,
    tokens: &mut TokenCursor<'_>,
    stop: Symbol,
) -> Result<List<RawColumn>, Fault>
    ensures value { (n : ℕ) → length tokens.old < n
        → Reads (listed column_rule (is_symbol Symbol.Comma) (is_symbol stop) n tokens.old) result
        tokens.new }
    ensures shorter { length tokens.new ≤ length tokens.old }
{
    if tokens.sees(stop) {
        return Ok(List::new(alloc));
    }
    some_columns(alloc, tokens)
}
