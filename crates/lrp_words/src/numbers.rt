// Whole numbers in words.
ghost use Rattle.std.specs.Prelude.{◌≡◌, ◌≤◌, ◌≤ℤ◌, ◌^◌, pos, neg_ℤ, option_map, Some, IfSome};
ghost use Rattle.std.specs.Char.{is_ascii_digit};
ghost use Rattle.std.specs.List.{list_all};
ghost use Rattle.lrp_words.specs.Numbers.{integer_up_to as integer_by, is_numeral as is_numeral_by, natural, within as within_by};

use lrp_model::LIMIT;

/// Whether the bytes are `0`, or digits of which the first is not 0.
fn is_numeral(bytes: &[u8]) -> bool
    ensures { result ≡ is_numeral_by bytes.now }
{
    let Some((first, rest)) = bytes.split_first() else {
        return false;
    };
    if *first == b'0' {
        rest.is_empty()
    } else {
        are_digits(bytes)
    }
}

/// Whether all bytes are digits.
fn are_digits(bytes: &[u8]) -> bool
    ensures { result ≡ list_all is_ascii_digit bytes.now }
{
    bytes.iter().all(|byte| byte.is_ascii_digit())
}

/// The number that a text spells, where it is one from low to high.
pub fn within(text: &str, low: u64, high: u64) -> Option<u64>
    ensures value { result ≡ within_by low high (natural text.now) }
    ensures range { IfSome result (λ n. (low ≤ n) × (n ≤ high)) }
{
    if !is_numeral(text.as_bytes()) {
        return None;
    }
    match text.parse::<u64>() {
        Ok(number) => between(number, low, high),
        Err(_) => None,
    }
}

/// The number, where it is one from low to high.
fn between(number: u64, low: u64, high: u64) -> Option<u64>
    ensures value { result ≡ within_by low high (Some number) }
    ensures range { IfSome result (λ n. (low ≤ n) × (n ≤ high)) }
{
    if low <= number && number <= high {
        Some(number)
    } else {
        None
    }
}

/// The integer that a text spells, with a `-` where it is negative, where its magnitude is at most 2^62.
pub fn integer(text: &str) -> Option<i64>
    ensures value { result ≡ integer_by (2 ^ 62) text.now }
    ensures low { IfSome result (λ x. neg_ℤ (pos (2 ^ 62)) ≤ℤ x) }
    ensures high { IfSome result (λ x. x ≤ℤ pos (2 ^ 62)) }
{
    match text.strip_prefix('-') {
        Some(digits) => negative(within(digits, 1, LIMIT as u64)),
        None => positive(within(text, 0, LIMIT as u64)),
    }
}

/// The number as an integer.
fn positive(number: Option<u64>) -> Option<i64>
    requires { IfSome number (λ n. n ≤ 2 ^ 62) }
    ensures value { result ≡ option_map (λ n. pos n) number }
    ensures low { IfSome result (λ x. neg_ℤ (pos (2 ^ 62)) ≤ℤ x) }
    ensures high { IfSome result (λ x. x ≤ℤ pos (2 ^ 62)) }
{
    match number {
        Some(n) => Some(n as i64),
        None => None,
    }
}

/// Its negative.
fn negative(number: Option<u64>) -> Option<i64>
    requires { IfSome number (λ n. n ≤ 2 ^ 62) }
    ensures value { result ≡ option_map (λ n. neg_ℤ (pos n)) number }
    ensures low { IfSome result (λ x. neg_ℤ (pos (2 ^ 62)) ≤ℤ x) }
    ensures high { IfSome result (λ x. x ≤ℤ pos (2 ^ 62)) }
{
    match number {
        Some(n) => Some(-(n as i64)),
        None => None,
    }
}
