// Formulas with no others inside, read from their tokens.
ghost use Rattle.std.specs.Prelude.{◌≡◌, ◌≤◌, ◌<◌, ℕ, length, IfOk};
ghost use Rattle.lrp_text.specs.Parsers.{Reads, accept};
ghost use Rattle.lrp_query.specs.Reading.{ReadsAs, shown_op};
ghost use Rattle.lrp_query.specs.Rules.{op_of as op_rule, point, comparing, differing, tested, atom_terms, after_name, unnamed};
ghost use Rattle.lrp_query.specs.Grammars.{meant};
ghost use Rattle.lrp_model.specs.RawQueries.{raw_form_of};

use crate::terms::{read_named_term, read_term, read_terms, read_unnamed_term, signed};
use crate::trees;
use lrp_model::{Fault, Name, Op, Place, RawFormula, RawTerm, RowPoint, Symbol, Word};
use lrp_text::{Lexeme, TokenCursor, integer};
use std::alloc::Global;

// The comparison that a symbol stands for.
fn op_of(lexeme: Lexeme) -> Result<Op, Fault>
    ensures { result ≡ shown_op lexeme }
{
    match lexeme {
        Lexeme::Symbol(Symbol::Le) => Ok(Op::Le),
        Lexeme::Symbol(Symbol::Lt) => Ok(Op::Lt),
        Lexeme::Symbol(Symbol::Ge) => Ok(Op::Ge),
        Lexeme::Symbol(Symbol::Gt) => Ok(Op::Gt),
        Lexeme::Symbol(Symbol::Equals) => Ok(Op::Eq),
        _ => Err(Fault::Syntax),
    }
}

fn read_op(tokens: &mut TokenCursor<'_>) -> Result<Op, Fault>
    ensures value { Reads (accept (λ t. op_rule t.token) tokens.old) result tokens.new }
    ensures fewer { IfOk result (λ _. length tokens.new < length tokens.old) }
{
    let op = op_of(tokens.peek().lexeme)?;
    tokens.advance();
    Ok(op)
}

// The point after a term and `in`.
#[tactic(auto, unfolding(crate::specs::Rules::point))]
fn read_point(tokens: &mut TokenCursor<'_>, term: RawTerm) -> Result<RawFormula, Fault>
    ensures value { ReadsAs raw_form_of (point meant term tokens.old) result
        tokens.new }
    ensures fewer { IfOk result (λ _. length tokens.new < length tokens.old) }
{
    let offset = integer(tokens)?;
    tokens.expect(Symbol::Plus)?;
    let period = tokens.period()?;
    tokens.expect_word(Word::Letter)?;
    let point = RowPoint {
        offset: signed(offset.negative, offset.size),
        period: signed(false, period),
    };
    Ok(trees::membership(term, point))
}

// The comparison after a term.
#[tactic(auto, unfolding(crate::specs::Rules::comparing))]
fn read_comparison(
    alloc: Global,
    tokens: &mut TokenCursor<'_>,
    left: RawTerm,
) -> Result<RawFormula, Fault>
    ensures value { ReadsAs raw_form_of (comparing meant left tokens.old) result
        tokens.new }
    ensures fewer { IfOk result (λ _. length tokens.new < length tokens.old) }
{
    let op = read_op(tokens)?;
    let right = read_term(alloc, tokens)?;
    Ok(trees::comparison(left, op, right))
}

// The `!=` after a term, of which the sign is read.
#[tactic(auto, unfolding(crate::specs::Rules::differing))]
fn read_difference(
    alloc: Global,
    tokens: &mut TokenCursor<'_>,
    left: RawTerm,
) -> Result<RawFormula, Fault>
    ensures value { ReadsAs raw_form_of (differing meant left tokens.old) result
        tokens.new }
    ensures fewer { IfOk result (λ _. length tokens.new < length tokens.old) }
{
    let right = read_term(alloc, tokens)?;
    Ok(trees::difference(alloc, left, right)?)
}

// What stands after the first term of a comparison or of an `in`; where the flag is set, a `!=` may.
#[tactic(auto, unfolding(crate::specs::Rules::tested))]
fn read_test(
    alloc: Global,
    tokens: &mut TokenCursor<'_>,
    wide: bool,
    left: RawTerm,
) -> Result<RawFormula, Fault>
    ensures value { ReadsAs raw_form_of (tested wide meant left tokens.old) result
        tokens.new }
    ensures fewer { IfOk result (λ _. length tokens.new < length tokens.old) }
{
    if tokens.eat_word(Word::In) {
        return read_point(tokens, left);
    }
    if wide && tokens.eat(Symbol::Differs) {
        return read_difference(alloc, tokens, left);
    }
    read_comparison(alloc, tokens, left)
}

// The terms of an atom and its parenthesis, after its name and the first parenthesis.
#[tactic(auto, unfolding(crate::specs::Rules::atom_terms))]
fn read_atom(
    alloc: Global,
    tokens: &mut TokenCursor<'_>,
    wide: bool,
    relation: Name,
    place: Place,
) -> Result<RawFormula, Fault>
    ensures value { (n : ℕ) → length tokens.old < n
        → ReadsAs raw_form_of (atom_terms wide meant n relation place tokens.old) result
        tokens.new }
    ensures fewer { IfOk result (λ _. length tokens.new < length tokens.old) }
{
    let terms = read_terms(alloc, tokens, wide)?;
    tokens.expect(Symbol::Close)?;
    Ok(trees::atom(place, relation, terms))
}

/// Reads what stands after a name that begins a formula, the name being given: an atom, a comparison or an `in`.
#[tactic(auto, unfolding(crate::specs::Rules::after_name))]
pub fn read_after_name(
    alloc: Global,
    tokens: &mut TokenCursor<'_>,
    wide: bool,
    name: Name,
    place: Place,
) -> Result<RawFormula, Fault>
    ensures value { (n : ℕ) → length tokens.old < n
        → ReadsAs raw_form_of (after_name wide meant n name place tokens.old) result
        tokens.new }
    ensures shorter { IfOk result (λ _. length tokens.new ≤ length tokens.old) }
{
    if tokens.eat(Symbol::Open) {
        return read_atom(alloc, tokens, wide, name, place);
    }
    let kind = read_named_term(name, tokens)?;
    read_test(alloc, tokens, wide, RawTerm { kind, place })
}

/// Reads a comparison or an `in` that begins with a text or an integer, at its place.
#[tactic(auto, unfolding(crate::specs::Rules::unnamed))]
pub fn read_unnamed(
    alloc: Global,
    tokens: &mut TokenCursor<'_>,
    wide: bool,
    place: Place,
) -> Result<RawFormula, Fault>
    ensures value { ReadsAs raw_form_of (unnamed wide meant place tokens.old) result
        tokens.new }
    ensures fewer { IfOk result (λ _. length tokens.new < length tokens.old) }
{
    let kind = read_unnamed_term(alloc, tokens)?;
    read_test(alloc, tokens, wide, RawTerm { kind, place })
}
