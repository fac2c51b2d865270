// The token that bytes begin with.
ghost use Rattle.std.specs.Prelude.{◌≡◌, ◌<◌, [], ◌∷◌, MatchOption, IfSome, length};
ghost use Rattle.std.specs.Option.{option_map};
ghost use Rattle.std.specs.Str.Parse.{digits_value};
ghost use Rattle.lrp_model.specs.Lexing.{symbol_in, word_or_name, run, after_run, is_name_byte, scan_in as scan_rule};
ghost use Rattle.std.specs.Char.{is_ascii_digit as is_digit_byte};
ghost use Rattle.lrp_model.specs.Tokens.Token.{symbol_token};
ghost use Rattle.lrp_text.specs.Lexemes.{IsLexeme, IsNamed, IsNumberLexeme, bad_symbol, text_read, after_bytes, ended};

use crate::bytes::{after_name, is_digit, is_forbidden, is_letter, number};
use crate::lexemes::Lexeme;
use lrp_model::{LIMIT, Symbol, Word};

// The symbol that a byte and those after it begin with, and what follows it.
#[tactic(auto, unfolding(lrp_model::specs::Lexing::symbol_in))]
fn symbol(wide: bool, first: u8, rest: &[u8]) -> Option<(Symbol, &[u8])>
    ensures { MatchOption result (symbol_in wide first rest.now ≡ bad_symbol first rest.now)
        (λ r. ((symbol_in wide first rest.now).token ≡ symbol_token r.0)
        × ((symbol_in wide first rest.now).left ≡ r.1.now)) }
{
    let one = match first {
        b'(' => Symbol::Open,
        b')' => Symbol::Close,
        b'{' => Symbol::OpenBrace,
        b'}' => Symbol::CloseBrace,
        b',' => Symbol::Comma,
        b':' => Symbol::Colon,
        b';' => Symbol::Semicolon,
        b'|' => Symbol::Bar,
        b'+' => Symbol::Plus,
        b'-' => Symbol::Minus,
        b'=' => Symbol::Equals,
        b'<' => match rest {
            [b'=', tail @ ..] => return Some((Symbol::Le, tail)),
            _ => Symbol::Lt,
        },
        b'>' => match rest {
            [b'=', tail @ ..] => return Some((Symbol::Ge, tail)),
            _ => Symbol::Gt,
        },
        b'*' if wide => Symbol::Star,
        b'!' if wide => match rest {
            [b'=', tail @ ..] => return Some((Symbol::Differs, tail)),
            _ => return None,
        },
        _ => return None,
    };
    Some((one, rest))
}

// A reserved word, or a name.
#[tactic(auto, unfolding(lrp_model::specs::Lexing::word_or_name))]
fn word(name: &[u8]) -> Lexeme
    ensures { IsNamed result name.now }
{
    let word = match name {
        b"relation" => Word::Relation,
        b"where" => Word::Where,
        b"time" => Word::Time,
        b"data" => Word::Data,
        b"n" => Word::Letter,
        b"exists" => Word::Exists,
        b"forall" => Word::Forall,
        b"not" => Word::Not,
        b"and" => Word::And,
        b"or" => Word::Or,
        b"implies" => Word::Implies,
        b"in" => Word::In,
        _ => return Lexeme::Name,
    };
    Lexeme::Word(word)
}

// The name or the reserved word that letters, digits and underscores make, and what stands after it.
#[tactic(auto, using(crate::proofs::Runs::run_taken))]
fn name(bytes: &[u8]) -> (Lexeme, &[u8])
    ensures lexeme { IsNamed result.0 (run is_name_byte bytes.now) }
    ensures rest { result.1.now ≡ after_run is_name_byte bytes.now }
{
    let rest = after_name(bytes);
    (word(&bytes[..bytes.len() - rest.len()]), rest)
}

// The number that digits make, and what stands after it.
fn limited_number(bytes: &[u8]) -> (Lexeme, &[u8])
    ensures lexeme { IsNumberLexeme result.0 (digits_value 10 (run is_digit_byte bytes.now)) }
    ensures rest { result.1.now ≡ after_run is_digit_byte bytes.now }
{
    let (value, rest) = number(bytes);
    if value > LIMIT as u64 {
        (Lexeme::LargeNumber, rest)
    } else {
        (Lexeme::Number(value), rest)
    }
}

// The next byte of a text without its escape, and what stands after it; none at a quote, and at what may not stand in a text.
#[tactic(auto, unfolding(lrp_model::specs::Lexing::text_from))]
pub fn character(bytes: &[u8]) -> Option<(u8, &[u8])>
    ensures text { MatchOption result (text_read bytes.now ≡ ended bytes.now)
        (λ r. text_read bytes.now ≡ after_bytes (r.0 ∷ []) (text_read r.1.now)) }
    ensures shorter { IfSome result (λ r. length r.1.now < length bytes.now) }
{
    match bytes {
        [b'"', ..] => None,
        [b'\\', tail @ ..] => match tail {
            [b, rest @ ..] if *b == b'"' || *b == b'\\' => Some((*b, rest)),
            _ => None,
        },
        [b, rest @ ..] if !is_forbidden(*b) => Some((*b, rest)),
        _ => None,
    }
}

// The length of the text after an opening quote, without its escapes, and what stands after the closing one; none
// where a byte may not stand there, and the bytes from it on.
fn text(bytes: &[u8]) -> (Option<usize>, &[u8])
    ensures length { result.0 ≡ option_map length (text_read bytes.now).0 }
    ensures left { result.1.now ≡ (text_read bytes.now).1 }
{
    let mut length = 0;
    let mut rest = bytes;
    while let Some((_, tail)) = character(rest) {
        length += 1;
        rest = tail;
    }
    match rest {
        [b'"', tail @ ..] => (Some(length), tail),
        _ => (None, rest),
    }
}

// The token that the bytes begin with, and the bytes after it; at a byte that begins none, the bytes from it on. The flag
// says that the symbols of the wide language are among the tokens.
#[tactic(auto, unfolding(lrp_model::specs::Lexing::scan_in))]
pub fn scan(wide: bool, bytes: &[u8]) -> (Lexeme, &[u8])
    ensures lexeme { IsLexeme result.0 (scan_rule wide bytes.now) }
    ensures left { result.1.now ≡ (scan_rule wide bytes.now).left }
{
    match bytes {
        [] => (Lexeme::End, bytes),
        [b, ..] if is_letter(*b) => name(bytes),
        [b, ..] if is_digit(*b) => limited_number(bytes),
        [b'"', tail @ ..] => match text(tail) {
            (Some(length), rest) if length <= 255 => (Lexeme::Text, rest),
            (Some(_), rest) => (Lexeme::LongText, rest),
            (None, rest) => (Lexeme::Bad, rest),
        },
        [b, tail @ ..] => match symbol(wide, *b, tail) {
            Some((symbol, rest)) => (Lexeme::Symbol(symbol), rest),
            None => (Lexeme::Bad, bytes),
        },
    }
}
