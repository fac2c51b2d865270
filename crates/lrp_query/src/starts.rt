// How a formula begins, and what is told where one would be too deep.
ghost use Rattle.std.specs.Prelude.{◌≡◌, ◌≢◌, false, Ok, Err};
ghost use Rattle.lrp_text.specs.Parsers.{look};
ghost use Rattle.lrp_query.specs.Reading.{shown_start, shown_too_deep};
ghost use Rattle.lrp_query.specs.Rules.{start_of as start_rule, too_deep as too_deep_rule, is_hole_token};

use lrp_model::{Fault, Symbol, Word};
use lrp_text::{Lexeme, TokenCursor};

/// By what a formula begins: a reserved word, a parenthesis, a name, or another term.
#[derive(Clone, Copy, PartialEq, Eq)]
pub enum Start {
    Not,
    Exists,
    Forall,
    Open,
    Name,
    Term,
}

fn shown(lexeme: Lexeme) -> Start
    ensures { result ≡ shown_start lexeme }
{
    match lexeme {
        Lexeme::Word(Word::Not) => Start::Not,
        Lexeme::Word(Word::Exists) => Start::Exists,
        Lexeme::Word(Word::Forall) => Start::Forall,
        Lexeme::Symbol(Symbol::Open) => Start::Open,
        Lexeme::Name => Start::Name,
        _ => Start::Term,
    }
}

fn told(lexeme: Lexeme) -> Fault
    ensures value { result ≡ shown_too_deep lexeme }
    ensures takes_no_memory { result ≢ Fault.Memory }
{
    match lexeme {
        Lexeme::LargeNumber => Fault::Number,
        Lexeme::Name | Lexeme::Number(_) | Lexeme::Text | Lexeme::LongText => Fault::Deep,
        Lexeme::Word(Word::Not | Word::Exists | Word::Forall) => Fault::Deep,
        Lexeme::Symbol(Symbol::Open | Symbol::Minus) => Fault::Deep,
        _ => Fault::Syntax,
    }
}

/// By what the formula begins that stands next.
pub fn start_of(tokens: &TokenCursor<'_>) -> Start
    ensures value { look Start.Term (λ t. start_rule t.token) tokens.now ≡ Ok (result, tokens.now) }
    ensures no_hole { look false (λ t. is_hole_token t.token) tokens.now ≡ Ok (false, tokens.now) }
{
    shown(tokens.peek().lexeme)
}

/// The fault at the next token, where a formula would be too deep.
pub fn too_deep(tokens: &TokenCursor<'_>) -> Fault
    ensures value { look Fault.Syntax (λ t. too_deep_rule t.token) tokens.now
        ≡ Ok (result, tokens.now) }
    ensures no_hole { look false (λ t. is_hole_token t.token) tokens.now ≡ Ok (false, tokens.now) }
    ensures takes_no_memory { result ≢ Fault.Memory }
{
    told(tokens.peek().lexeme)
}
