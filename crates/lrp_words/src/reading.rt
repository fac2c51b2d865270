// Words as a command: its name, and then the values of its keys.
ghost use Rattle.std.specs.Prelude.{◌≡◌, ◌<◌, ◌≤◌, ◌^◌, [], ◌∷◌, map, string_bytes, option_map, Some, None, IfOk, IfSome, MatchResult, true};
ghost use Rattle.lrp_model.specs.Names.{IsName};
ghost use Rattle.lrp_words.specs.Commands.{HasCivilOfFiles, ask_keys, ask_of, auto_of, canon_of, cap_of, check_keys, check_of, civil_of, command, count_keys, counting_of, dates_of, decide_keys, decide_of, end_of, explain_keys, explain_of, flag_of, file as file_by, asked_files, files_in, files_to_lint, json_of as is_json_by, limit_of, lint_keys, lint_of, linted_files, list_keys, list_of, number_in as number_by, number_or as number_or_by, optional_file as optional_file_by, over, planning_in, ranges_keys, ranges_of, sample_keys, sample_of, task_of, tasks_of, tense_flag, after_text, watch_keys, watch_of, wide_flag, relation_name_of, is_name_of};
ghost use Rattle.lrp_words.specs.Entries.{value_for as value_by};
ghost use Rattle.lrp_words.specs.Ranges.{IsInRange, IsEnd};

use crate::command::{Command, LintFiles, QuestionFiles, Usage};
use crate::entries::{are_given, value};
use crate::keys::Key;
use crate::numbers::{integer, within};
use crate::purpose::{Asked, Counting, Paging, Purpose, Ranging};
use lrp_calendar::minute_of;
use lrp_model::Planning;
use lrp_text::TokenCursor;

/// How long a relation's name may be.
const MOST_NAME: usize = 16_777_216;

/// The command that the words after the program's name spell, or `Usage` where they spell none.
///
/// The first word is the command's name. Every other is `key=value`, cut at its first `=`, in any order; each key is
/// one of the command's, and stands at most once.
pub fn read_words(words: &[String]) -> Result<Command<'_>, Usage>
    ensures command { MatchResult result (λ found. command (map string_bytes words.now)
        ≡ Some (task_of found)) (λ _. command (map string_bytes words.now) ≡ None) }
    ensures range { IfOk result (λ found. IsInRange (task_of found)) }
    ensures civil { IfOk result HasCivilOfFiles }
{
    let [name, words @ ..] = words else {
        return Err(Usage);
    };
    match named(name.as_str(), words) {
        Some(command) => Ok(command),
        None => Err(Usage),
    }
}

/// The command of a name from the words after it.
fn named<'a>(name: &str, words: &'a [String]) -> Option<Command<'a>>
    ensures task { tasks_of result ≡ command (name.now ∷ map string_bytes words.now) }
    ensures range { IfSome result (λ found. IsInRange (task_of found)) }
    ensures civil { IfSome result HasCivilOfFiles }
{
    match name {
        "ask" => ask(words),
        "decide" => decide(words),
        "list" => list(words),
        "count" => count(words),
        "ranges" => ranges(words),
        "explain" => explain(words),
        "check" => check(words),
        "lint" => lint(words),
        "watch" => watch(words),
        "sample" => sample(words),
        _ => None,
    }
}

fn ask(words: &[String]) -> Option<Command<'_>>
    ensures task { tasks_of result ≡ over ask_keys (map string_bytes words.now)
        (ask_of (map string_bytes words.now)) }
    ensures range { IfSome result (λ found. IsInRange (task_of found)) }
    ensures civil { IfSome result HasCivilOfFiles }
{
    let keys = [
        Key::Db,
        Key::Query,
        Key::Cap,
        Key::Plan,
        Key::Tense,
        Key::Wide,
        Key::Canon,
        Key::As,
        Key::Civil,
    ];
    if !are_given(&keys, words) {
        return None;
    }
    let files = files(words)?;
    let purpose = Purpose::Answer {
        cap: cap(words)?,
        canon: canon(words)?,
        name: relation_name(words)?,
    };
    Some(question(files, purpose))
}

fn decide(words: &[String]) -> Option<Command<'_>>
    ensures task { tasks_of result ≡ over decide_keys (map string_bytes words.now)
        (decide_of (map string_bytes words.now)) }
    ensures range { IfSome result (λ found. IsInRange (task_of found)) }
    ensures civil { IfSome result HasCivilOfFiles }
{
    if !are_given(
        &[
            Key::Db,
            Key::Query,
            Key::Cap,
            Key::Plan,
            Key::Tense,
            Key::Wide,
            Key::Civil,
            Key::Show,
        ],
        words,
    ) {
        return None;
    }
    let files = files(words)?;
    let purpose = Purpose::Witness {
        cap: cap(words)?,
        dates: dates(files.civil, words)?,
    };
    Some(question(files, purpose))
}

fn list(words: &[String]) -> Option<Command<'_>>
    ensures task { tasks_of result ≡ over list_keys (map string_bytes words.now)
        (list_of (map string_bytes words.now)) }
    ensures range { IfSome result (λ found. IsInRange (task_of found)) }
    ensures civil { IfSome result HasCivilOfFiles }
{
    let keys = [
        Key::Db,
        Key::Query,
        Key::From,
        Key::To,
        Key::Limit,
        Key::After,
        Key::Form,
        Key::Cap,
        Key::Plan,
        Key::Tense,
        Key::Wide,
        Key::Civil,
    ];
    if !are_given(&keys, words) {
        return None;
    }
    let files = files(words)?;
    let paging = Paging {
        from: end(Key::From, files.civil, words)?,
        to: end(Key::To, files.civil, words)?,
        limit: limit(words)?,
        after: value(Key::After, words),
        json: is_json(words)?,
        cap: cap(words)?,
        civil: files.civil,
    };
    Some(question(files, Purpose::Page { paging }))
}

fn count(words: &[String]) -> Option<Command<'_>>
    ensures task { tasks_of result ≡ over count_keys (map string_bytes words.now)
        (counting_of (map string_bytes words.now)) }
    ensures range { IfSome result (λ found. IsInRange (task_of found)) }
    ensures civil { IfSome result HasCivilOfFiles }
{
    let keys = [
        Key::Db,
        Key::Query,
        Key::From,
        Key::To,
        Key::Cap,
        Key::Plan,
        Key::Tense,
        Key::Wide,
        Key::Civil,
    ];
    if !are_given(&keys, words) {
        return None;
    }
    let files = files(words)?;
    let counting = Counting {
        from: end(Key::From, files.civil, words)?,
        to: end(Key::To, files.civil, words)?,
        cap: cap(words)?,
        civil: files.civil,
    };
    Some(question(files, Purpose::Count { counting }))
}

fn ranges(words: &[String]) -> Option<Command<'_>>
    ensures task { tasks_of result ≡ over ranges_keys (map string_bytes words.now)
        (ranges_of (map string_bytes words.now)) }
    ensures range { IfSome result (λ found. IsInRange (task_of found)) }
    ensures civil { IfSome result HasCivilOfFiles }
{
    let keys = [
        Key::Db,
        Key::Query,
        Key::From,
        Key::To,
        Key::Limit,
        Key::Form,
        Key::Cap,
        Key::Plan,
        Key::Tense,
        Key::Wide,
        Key::Civil,
    ];
    if !are_given(&keys, words) {
        return None;
    }
    let files = files(words)?;
    let ranging = Ranging {
        from: end(Key::From, files.civil, words)?,
        to: end(Key::To, files.civil, words)?,
        limit: limit(words)?,
        json: is_json(words)?,
        cap: cap(words)?,
        civil: files.civil,
    };
    Some(question(files, Purpose::Ranges { ranging }))
}

fn explain(words: &[String]) -> Option<Command<'_>>
    ensures task { tasks_of result ≡ over explain_keys (map string_bytes words.now)
        (explain_of (map string_bytes words.now)) }
    ensures range { IfSome result (λ found. IsInRange (task_of found)) }
    ensures civil { IfSome result HasCivilOfFiles }
{
    if !are_given(
        &[
            Key::Db,
            Key::Query,
            Key::Plan,
            Key::Tense,
            Key::Wide,
            Key::Civil,
        ],
        words,
    ) {
        return None;
    }
    Some(question(files(words)?, Purpose::Plan))
}

fn check(words: &[String]) -> Option<Command<'_>>
    ensures task { tasks_of result ≡ over check_keys (map string_bytes words.now)
        (check_of (map string_bytes words.now)) }
    ensures range { IfSome result (λ found. IsInRange (task_of found)) }
    ensures civil { IfSome result HasCivilOfFiles }
{
    if !are_given(&[Key::Db, Key::Civil], words) {
        return None;
    }
    Some(Command::Check {
        db: file(Key::Db, words)?,
        civil: civil(words)?,
    })
}

fn lint(words: &[String]) -> Option<Command<'_>>
    ensures task { tasks_of result ≡ over lint_keys (map string_bytes words.now)
        (lint_of (map string_bytes words.now)) }
    ensures range { IfSome result (λ found. IsInRange (task_of found)) }
    ensures civil { IfSome result HasCivilOfFiles }
{
    if !are_given(&[Key::Db, Key::Query, Key::Tense, Key::Civil], words) {
        return None;
    }
    Some(Command::Lint {
        files: lint_files(words)?,
    })
}

fn watch(words: &[String]) -> Option<Command<'_>>
    ensures task { tasks_of result ≡ over watch_keys (map string_bytes words.now)
        (watch_of (map string_bytes words.now)) }
    ensures range { IfSome result (λ found. IsInRange (task_of found)) }
    ensures civil { IfSome result HasCivilOfFiles }
{
    let keys = [
        Key::Db,
        Key::Query,
        Key::Edits,
        Key::Cap,
        Key::Kept,
        Key::Plan,
    ];
    if !are_given(&keys, words) {
        return None;
    }
    Some(Command::Watch {
        db: file(Key::Db, words)?,
        query: file(Key::Query, words)?,
        edits: file(Key::Edits, words)?,
        cap: cap(words)?,
        planning: planning(words)?,
        auto: is_auto(words)?,
    })
}

fn sample(words: &[String]) -> Option<Command<'_>>
    ensures task { tasks_of result ≡ over sample_keys (map string_bytes words.now)
        (sample_of (map string_bytes words.now)) }
    ensures range { IfSome result (λ found. IsInRange (task_of found)) }
    ensures civil { IfSome result HasCivilOfFiles }
{
    if !are_given(&[Key::Seed, Key::Size], words) {
        return None;
    }
    Some(Command::Sample {
        seed: number(Key::Seed, words, 0, 1_000_000)?,
        size: number(Key::Size, words, 1, 500)?,
    })
}

/// The command that asks a question of files for a purpose.
fn question<'a>(files: QuestionFiles<'a>, purpose: Purpose<'a>) -> Command<'a>
    ensures { result ≡ Command.Question (record { files = files.entry; purpose = purpose.entry }) }
{
    let asked = Asked { files, purpose };
    Command::Question { asked }
}

/// What each question of files has.
fn files(words: &[String]) -> Option<QuestionFiles<'_>>
    ensures { option_map asked_files result ≡ files_in (map string_bytes words.now) }
{
    Some(QuestionFiles {
        database: file(Key::Db, words)?,
        query: file(Key::Query, words)?,
        planning: planning(words)?,
        tense: tense(words)?,
        wide: wide(words)?,
        civil: civil(words)?,
    })
}

/// What is looked over.
fn lint_files(words: &[String]) -> Option<LintFiles<'_>>
    ensures { option_map linted_files result ≡ files_to_lint (map string_bytes words.now) }
{
    Some(LintFiles {
        database: file(Key::Db, words)?,
        query: optional_file(Key::Query, words)?,
        tense: tense(words)?,
        civil: civil(words)?,
    })
}

/// The name of a file, which is not empty.
fn file(key: Key, words: &[String]) -> Option<&str>
    ensures { after_text result ≡ file_by (value_by key (map string_bytes words.now)) }
{
    let name = value(key, words)?;
    if name.is_empty() { None } else { Some(name) }
}

/// The name of a file that may be left out, and is not empty.
fn optional_file(key: Key, words: &[String]) -> Option<Option<&str>>
    ensures { option_map after_text result
        ≡ optional_file_by (value_by key (map string_bytes words.now)) }
{
    match value(key, words) {
        None => Some(None),
        Some(name) if name.is_empty() => None,
        Some(name) => Some(Some(name)),
    }
}

/// A number from low to high.
fn number(key: Key, words: &[String], low: u32, high: u32) -> Option<u32>
    ensures value { result ≡ number_by low high (value_by key (map string_bytes words.now)) }
    ensures range { IfSome result (λ n. (low ≤ n) × (n ≤ high)) }
{
    let text = value(key, words)?;
    let number = within(text, u64::from(low), u64::from(high))?;
    Some(number as u32)
}

/// The same, with a default where the key is not given.
fn number_or(key: Key, words: &[String], default: u32, low: u32, high: u32) -> Option<u32>
    ensures { result ≡ number_or_by default low high (value_by key (map string_bytes words.now)) }
{
    match value(key, words) {
        Some(_) => number(key, words, low, high),
        None => Some(default),
    }
}

/// The most cells of a step.
fn cap(words: &[String]) -> Option<u32>
    ensures { result ≡ cap_of (map string_bytes words.now) }
{
    number_or(Key::Cap, words, 1_000_000, 1, 1_000_000_000)
}

/// The most lines of a page.
fn limit(words: &[String]) -> Option<u32>
    ensures { result ≡ limit_of (map string_bytes words.now) }
{
    number_or(Key::Limit, words, 1000, 1, 1_000_000)
}

/// An end of the window: a number, or a date where times are civil ones.
fn end(key: Key, civil: bool, words: &[String]) -> Option<i64>
    ensures value { result ≡ end_of civil (value_by key (map string_bytes words.now)) }
    ensures end { IfSome result (IsEnd civil) }
{
    let text = value(key, words)?;
    if civil {
        minute_of(text)
    } else {
        integer(text)
    }
}

/// How the query is planned.
fn planning(words: &[String]) -> Option<Planning>
    ensures { result ≡ planning_in (map string_bytes words.now) }
{
    match value(Key::Plan, words) {
        None => Some(Planning::Written),
        Some("written") => Some(Planning::Written),
        Some("guarded") => Some(Planning::Guarded),
        Some(_) => None,
    }
}

/// Whether the query may have temporal operators.
fn tense(words: &[String]) -> Option<bool>
    ensures { result ≡ tense_flag (map string_bytes words.now) }
{
    flag(Key::Tense, words)
}

/// Whether the query is in the wide language.
fn wide(words: &[String]) -> Option<bool>
    ensures { result ≡ wide_flag (map string_bytes words.now) }
{
    flag(Key::Wide, words)
}

/// Whether the canonical answer is told.
fn canon(words: &[String]) -> Option<bool>
    ensures { result ≡ canon_of (map string_bytes words.now) }
{
    flag(Key::Canon, words)
}

/// The name of the answer's relation.
fn relation_name(words: &[String]) -> Option<&str>
    ensures value { after_text result ≡ relation_name_of (map string_bytes words.now) }
    ensures name { IfSome result (λ name. IsName name.now) }
{
    match value(Key::As, words) {
        None => Some("answer"),
        Some(text) if is_name(text) => Some(text),
        Some(_) => None,
    }
}

/// Whether a text is a name of the grammar, which no reserved word is.
fn is_name(text: &str) -> bool
    ensures value { result ≡ is_name_of text.now }
    ensures name { result ≡ true → IsName text.now }
{
    text.len() <= MOST_NAME && TokenCursor::new(text).sees_named(text)
}

/// Whether times are civil ones.
fn civil(words: &[String]) -> Option<bool>
    ensures { result ≡ civil_of (map string_bytes words.now) }
{
    flag(Key::Civil, words)
}

/// Whether the value of a key is `yes`.
fn flag(key: Key, words: &[String]) -> Option<bool>
    ensures { result ≡ flag_of (value_by key (map string_bytes words.now)) }
{
    match value(key, words) {
        None => Some(false),
        Some("no") => Some(false),
        Some("yes") => Some(true),
        Some(_) => None,
    }
}

/// Whether times are shown as dates, which they are only where they are civil ones.
fn dates(civil: bool, words: &[String]) -> Option<bool>
    ensures { result ≡ dates_of civil (value_by Key.Show (map string_bytes words.now)) }
{
    match value(Key::Show, words) {
        None => Some(false),
        Some("minutes") => Some(false),
        Some("dates") if civil => Some(true),
        Some(_) => None,
    }
}

/// Whether a query that isn't in kept form is watched too.
fn is_auto(words: &[String]) -> Option<bool>
    ensures { result ≡ auto_of (value_by Key.Kept (map string_bytes words.now)) }
{
    match value(Key::Kept, words) {
        None => Some(false),
        Some("yes") => Some(false),
        Some("auto") => Some(true),
        Some(_) => None,
    }
}

/// Whether the page is to be in JSON.
fn is_json(words: &[String]) -> Option<bool>
    ensures { result ≡ is_json_by (value_by Key.Form (map string_bytes words.now)) }
{
    match value(Key::Form, words) {
        None => Some(false),
        Some("plain") => Some(false),
        Some("json") => Some(true),
        Some(_) => None,
    }
}
