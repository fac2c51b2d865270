// Where tokens begin and end. Their places, which the lexer counts at each byte, are not needed here.
ghost use Rattle.std.specs.Prelude.{◌≡◌, ◌≤◌, ◌<◌, IfSome, length, false};
ghost use Rattle.std.specs.Option.{option_map};
ghost use Rattle.lrp_model.specs.Lexing.{after_run, is_blank as is_blank_byte, is_forbidden as is_forbidden_byte, is_letter as is_letter_byte, is_name_byte as is_byte_of_names, text_from};
ghost use Rattle.std.specs.Char.{is_ascii_digit};
ghost use Rattle.lrp_civil.specs.Tokens.{FindsCharacter, FindsSymbol, FindsToken, after_blanks as after_blanks_of, after_equals as after_equals_of, after_quoted as after_text_of};

fn is_letter(b: u8) -> bool
    ensures { result ≡ is_letter_byte b }
{
    b.is_ascii_alphabetic() || b == b'_'
}

fn is_name_byte(b: u8) -> bool
    ensures { result ≡ is_byte_of_names b }
{
    is_letter(b) || b.is_ascii_digit()
}

fn is_blank(b: u8) -> bool
    ensures { result ≡ is_blank_byte b }
{
    matches!(b, b' ' | b'\t' | b'\r' | b'\n')
}

fn is_forbidden(b: u8) -> bool
    ensures { result ≡ is_forbidden_byte b }
{
    b <= 31 || b == 127
}

/// What stands after the blanks and comments that come first.
#[tactic(auto, unfolding(lrp_model::specs::Lexing::skip), using(crate::proofs::TokenLemmas::skip_place))]
pub fn after_blanks(bytes: &[u8]) -> &[u8]
    ensures rest { result.now ≡ after_blanks_of bytes.now }
    ensures shorter { length result.now ≤ length bytes.now }
{
    let mut rest = bytes;
    let mut comment = false;
    while let [b, tail @ ..] = rest {
        if comment {
            comment = *b != b'\n';
        } else if *b == b'#' {
            comment = true;
        } else if !is_blank(*b) {
            return rest;
        }
        rest = tail;
    }
    rest
}

// What stands after the letters, digits and underscores that come first.
#[tactic(auto, unfolding(lrp_model::specs::Lexing::after_run))]
fn after_name(bytes: &[u8]) -> &[u8]
    ensures { result.now ≡ after_run is_byte_of_names bytes.now }
{
    let mut rest = bytes;
    while let [b, tail @ ..] = rest {
        if !is_name_byte(*b) {
            return rest;
        }
        rest = tail;
    }
    rest
}

/// What stands after the digits that come first.
#[tactic(auto, unfolding(lrp_model::specs::Lexing::after_run))]
pub fn after_digits(bytes: &[u8]) -> &[u8]
    ensures { result.now ≡ after_run is_ascii_digit bytes.now }
{
    let mut rest = bytes;
    while let [b, tail @ ..] = rest {
        if !b.is_ascii_digit() {
            return rest;
        }
        rest = tail;
    }
    rest
}

// What stands after the next byte of a text; none at a quote, and at what may not stand in a text.
#[tactic(auto, unfolding(lrp_model::specs::Lexing::text_from))]
fn after_character(bytes: &[u8]) -> Option<&[u8]>
    ensures text { FindsCharacter bytes.now result }
    ensures shorter { IfSome result (λ tail. length tail.now < length bytes.now) }
{
    match bytes {
        [b'"', ..] => None,
        [b'\\', tail @ ..] => match tail {
            [b, rest @ ..] if *b == b'"' || *b == b'\\' => Some(rest),
            _ => None,
        },
        [b, rest @ ..] if !is_forbidden(*b) => Some(rest),
        _ => None,
    }
}

// What stands after the rest of a text and its closing quote; none where it has no such end.
fn after_text(bytes: &[u8]) -> Option<&[u8]>
    ensures { option_map (λ after. after.now) result
        ≡ after_text_of (text_from false bytes.now) }
{
    let mut rest = bytes;
    while let Some(tail) = after_character(rest) {
        rest = tail;
    }
    match rest {
        [b'"', tail @ ..] => Some(tail),
        _ => None,
    }
}

// What stands after the symbol that a byte and those after it begin with.
#[tactic(auto, unfolding(lrp_model::specs::Lexing::symbol_in))]
fn after_symbol(wide: bool, first: u8, rest: &[u8]) -> Option<&[u8]>
    ensures { FindsSymbol wide first rest.now result }
{
    match first {
        b'<' | b'>' => Some(after_equals(rest)),
        b'(' | b')' | b'{' | b'}' | b',' | b':' | b';' | b'|' | b'+' | b'-' | b'=' => Some(rest),
        b'*' if wide => Some(rest),
        b'!' if wide => match rest {
            [b'=', tail @ ..] => Some(tail),
            _ => None,
        },
        _ => None,
    }
}

// What stands after an equals sign, if one comes first.
fn after_equals(bytes: &[u8]) -> &[u8]
    ensures { result.now ≡ after_equals_of bytes.now }
{
    match bytes {
        [b'=', tail @ ..] => tail,
        _ => bytes,
    }
}

/// What stands after the token that the bytes begin with; none at the end and at a byte that begins no token. The flag says
/// that the symbols of the wide language are among the tokens.
#[tactic(auto, unfolding(lrp_model::specs::Lexing::scan_in))]
pub fn after_token(wide: bool, bytes: &[u8]) -> Option<&[u8]>
    ensures { FindsToken wide bytes.now result }
{
    match bytes {
        [] => None,
        [b, ..] if is_letter(*b) => Some(after_name(bytes)),
        [b, ..] if b.is_ascii_digit() => Some(after_digits(bytes)),
        [b'"', tail @ ..] => after_text(tail),
        [b, tail @ ..] => after_symbol(wide, *b, tail),
    }
}
