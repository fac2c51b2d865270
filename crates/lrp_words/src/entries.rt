// Words of the form `key=value`.
ghost use Rattle.std.specs.Prelude.{◌≡◌, map, count_by, nat_le, string_bytes};
ghost use Rattle.std.specs.List.{list_all, list_any};
ghost use Rattle.lrp_words.specs.Commands.{after_text};
ghost use Rattle.lrp_words.specs.Entries.{are_given as are_given_by, given as given_by, gives as gives_by, value_for as value_by};

use crate::keys::Key;

/// The value that a word gives a key. The word is cut at its first `=`.
fn given(key: Key, word: &str) -> Option<&str>
    ensures { after_text result ≡ given_by key word.now }
{
    let (name, value) = word.split_once('=')?;
    if name == key.name() {
        Some(value)
    } else {
        None
    }
}

/// Whether a word gives a key a value.
fn gives(key: Key, word: &String) -> bool
    ensures { result ≡ gives_by key (string_bytes word.now) }
{
    given(key, word.as_str()).is_some()
}

/// The value of a key.
pub fn value(key: Key, words: &[String]) -> Option<&str>
    ensures { after_text result ≡ value_by key (map string_bytes words.now) }
{
    for word in words {
        let value = given(key, word.as_str());
        if value.is_some() {
            return value;
        }
    }
    None
}

/// Whether each word gives one of the keys a value, and no two words give one key values.
pub fn are_given(keys: &[Key], words: &[String]) -> bool
    ensures { result ≡ are_given_by keys.now (map string_bytes words.now) }
{
    are_known(keys, words) && are_single(keys, words)
}

/// Whether each word gives one of the keys a value.
fn are_known(keys: &[Key], words: &[String]) -> bool
    ensures { result ≡ list_all (λ word. list_any
        (λ key. gives_by key (string_bytes word)) keys.now) words.now }
{
    words.iter().all(|word| is_of(keys, word))
}

/// Whether no two words give one key values.
fn are_single(keys: &[Key], words: &[String]) -> bool
    ensures { result ≡ list_all (λ key. nat_le
        (count_by (λ word. gives_by key (string_bytes word)) words.now) 1) keys.now }
{
    keys.iter().all(|key| count(*key, words) <= 1)
}

/// Whether a word gives one of the keys a value.
fn is_of(keys: &[Key], word: &String) -> bool
    ensures { result ≡ list_any (λ key. gives_by key (string_bytes word.now)) keys.now }
{
    keys.iter().any(|key| gives(*key, word))
}

/// How many words give a key a value.
fn count(key: Key, words: &[String]) -> usize
    ensures { result ≡ count_by (λ word. gives_by key (string_bytes word)) words.now }
{
    words.iter().filter(|word| gives(key, word)).count()
}
