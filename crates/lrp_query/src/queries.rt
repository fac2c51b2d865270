// The query of a text, read from its bytes, or the fault of the bytes or of the grammar.
ghost use Rattle.std.specs.Prelude.{◌≡◌, ◌≢◌, ◌≤◌, ◌<◌, ◌+◌, ◌∷◌, ◌++◌, ℕ, [], true, length, take, IfOk, IfErr, OnOk};
ghost use Rattle.lrp_model.specs.declared.faults.QueryFault.{QueryFault as FaultOf};
ghost use Rattle.lrp_model.specs.RawQueries.{HasNoOperator, RawFileView, RawQuestion, raw_file_of, raw_form_of, raw_question_of};
ghost use Rattle.lrp_model.specs.QueryReading.{IsFile, IsFileFault, IsQuery, IsQueryFault};
ghost use Rattle.lrp_model.specs.Lexing.{after, start};
ghost use Rattle.lrp_model.specs.declared.faults.QueryKind.TheVariants.{Utf8};
ghost use Rattle.lrp_model.specs.declared.faults.QueryRead.TheVariants.{Fault as fault_read};
ghost use Rattle.lrp_query.specs.Lawful.{IsLawful};
ghost use Rattle.lrp_query.specs.Grammars.{query_in, file_in, meant, wide_after, read_definition_of, IsTextRead, IsTextUnread};
ghost use Rattle.lrp_query.specs.Rules.{definition_with, definitions_from};
ghost use Rattle.lrp_model.specs.Queries.{is_wide};
ghost use Rattle.lrp_text.specs.Parsers.{left_after};
ghost use Rattle.lrp_query.specs.Reading.{ReadsAs, ReadsEach, refusal_of, IsUnread, IsFileUnread};
ghost use Rattle.lrp_model.specs.Outcomes.{IsQueryOrMemory, IsFaultOrMemory};
ghost use Rattle.lrp_model.specs.Limits.{most_bytes};

use crate::formulas::read_part;
use crate::grammar::{Grammar, Plain, Wide};
use lrp_model::{
    Fault, Memory, Place, QueryFault, QueryKind, QueryRead, RawDefinition, RawFile, RawQuery,
    Symbol,
};
use lrp_text::{TokenCursor, columns, place_after};
use std::alloc::Global;
use std::str::from_utf8;

// How deep formulas may stand; the body has depth 1.
const DEPTH: u32 = 64;

// The words of a definition, which are no reserved words.
const DEFINE: &str = "define";

const AS: &str = "as";

// The fault of a text, from what was met at a place.
fn refusal(kind: Fault, place: Place) -> QueryRead
    ensures { result ≡ refusal_of kind place }
{
    let kind = match kind {
        Fault::Syntax => QueryKind::Syntax,
        Fault::Number => QueryKind::Number,
        Fault::TextTooLong => QueryKind::TextTooLong,
        Fault::Period => QueryKind::Period,
        Fault::Deep => QueryKind::Deep,
        Fault::Memory => return QueryRead::Memory,
    };
    QueryRead::Fault {
        fault: QueryFault { kind, place },
    }
}

// The query of some tokens, and the end after it.
#[tactic(auto, unfolding(crate::specs::Rules::query_over))]
fn read_tokens<G: Grammar>(alloc: Global, tokens: &mut TokenCursor<'_>) -> Result<RawQuery, Fault>
    ensures { (turns : ℕ) → length tokens.old < turns → ReadsAs raw_question_of
        (query_in G.language turns tokens.old) result (left_after result tokens.new) }
{
    tokens.expect(Symbol::OpenBrace)?;
    let head = columns(alloc, tokens, Symbol::Bar)?;
    tokens.expect(Symbol::Bar)?;
    let body = read_part::<G>(alloc, tokens, DEPTH)?;
    tokens.expect(Symbol::CloseBrace)?;
    tokens.expect_end()?;
    Ok(RawQuery { head, body })
}

// The query of a text.
fn read_text<G: Grammar>(alloc: Global, text: &str) -> Result<RawQuery, QueryRead>
    requires { length text.now ≤ most_bytes }
    ensures query { IfOk result (λ q. IsTextRead (is_wide G.language) (query_in G.language) text.now (raw_question_of q)) }
    ensures refused { IfErr result (IsTextUnread (is_wide G.language) (query_in G.language) text.now) }
{
    let mut tokens = TokenCursor::of(text, G::is_wide());
    match read_tokens::<G>(alloc, &mut tokens) {
        Ok(query) => Ok(query),
        Err(fault) => Err(refusal(fault, tokens.peek().place)),
    }
}

// The fault of bytes that are UTF-8 up to a number of them.
fn not_utf8(bytes: &[u8], valid: usize) -> QueryRead
    requires few { length bytes.now ≤ most_bytes }
    requires valid { valid ≤ length bytes.now }
    ensures { result ≡ fault_read (record {
      kind = Utf8;
      place = after start (take valid bytes.now);
    }) }
{
    let place = place_after(&bytes[..valid]);
    QueryRead::Fault {
        fault: QueryFault {
            kind: QueryKind::Utf8,
            place,
        },
    }
}

/// The query of bytes, where they are UTF-8 and a text of the grammar.
pub fn read_bytes<G: Grammar>(alloc: Global, bytes: &[u8]) -> Result<RawQuery, QueryRead>
    requires { length bytes.now ≤ most_bytes }
    ensures query { IfOk result (λ q. IsTextRead (is_wide G.language) (query_in G.language) bytes.now
        (raw_question_of q)) }
    ensures refused { IfErr result (IsTextUnread (is_wide G.language) (query_in G.language) bytes.now) }
{
    match from_utf8(bytes) {
        Ok(text) => read_text::<G>(alloc, text),
        Err(error) => Err(not_utf8(bytes, error.valid_up_to())),
    }
}

// A definition, which `define` begins.
#[tactic(auto, unfolding(crate::specs::Rules::definition_with))]
fn read_definition(alloc: Global, tokens: &mut TokenCursor<'_>) -> Result<RawDefinition, Fault>
    ensures value { (turns : ℕ) → length tokens.old < turns → ReadsAs read_definition_of
        (definition_with meant wide_after turns tokens.old) result tokens.new }
    ensures fewer { IfOk result (λ _. length tokens.new < length tokens.old) }
{
    tokens.expect_named(DEFINE)?;
    let (name, place) = tokens.name(alloc)?;
    tokens.expect(Symbol::Open)?;
    let columns = columns(alloc, tokens, Symbol::Close)?;
    tokens.expect(Symbol::Close)?;
    tokens.expect_named(AS)?;
    let body = read_part::<Wide>(alloc, tokens, DEPTH)?;
    tokens.expect(Symbol::Semicolon)?;
    Ok(RawDefinition {
        name,
        place,
        columns,
        body,
    })
}

// One more definition after the others.
fn add(definitions: &mut Vec<RawDefinition>, one: RawDefinition) -> Result<(), Memory>
    ensures { OnOk result (definitions.new.items ≡ definitions.old.items ++ one ∷ []) }
{
    Ok(definitions.push(one)?)
}

// The definitions that come first.
fn read_definitions(
    alloc: Global,
    tokens: &mut TokenCursor<'_>,
) -> Result<Vec<RawDefinition>, Fault>
    ensures value { (turns : ℕ) → length tokens.old < turns → ReadsEach read_definition_of
        (definitions_from meant wide_after turns turns [] tokens.old) result tokens.new }
    ensures shorter { IfOk result (λ _. length tokens.new ≤ length tokens.old) }
{
    let mut found = Vec::new(alloc);
    while tokens.sees_named(DEFINE) {
        let definition = read_definition(alloc, tokens)?;
        add(&mut found, definition)?;
    }
    Ok(found)
}

// The definitions and the query of some tokens, and the end after them.
#[tactic(auto, unfolding(crate::specs::Rules::file_with))]
fn read_file_tokens(alloc: Global, tokens: &mut TokenCursor<'_>) -> Result<RawFile, Fault>
    ensures { (turns : ℕ) → length tokens.old < turns → ReadsAs raw_file_of
        (file_in turns tokens.old) result (left_after result tokens.new) }
{
    let definitions = read_definitions(alloc, tokens)?;
    let query = read_tokens::<Wide>(alloc, tokens)?;
    Ok(RawFile { definitions, query })
}

// The file of a text.
fn read_file_text(alloc: Global, text: &str) -> Result<RawFile, QueryRead>
    requires { length text.now ≤ most_bytes }
    ensures file { IfOk result (λ f. IsTextRead true file_in text.now (raw_file_of f)) }
    ensures refused { IfErr result (IsTextUnread true file_in text.now) }
{
    let mut tokens = TokenCursor::of(text, true);
    match read_file_tokens(alloc, &mut tokens) {
        Ok(file) => Ok(file),
        Err(fault) => Err(refusal(fault, tokens.peek().place)),
    }
}

// The file of bytes, where they are UTF-8 and a text of the grammar.
fn read_file_bytes(alloc: Global, bytes: &[u8]) -> Result<RawFile, QueryRead>
    requires { length bytes.now ≤ most_bytes }
    ensures file { IfOk result (λ f. IsTextRead true file_in bytes.now (raw_file_of f)) }
    ensures refused { IfErr result (IsTextUnread true file_in bytes.now) }
{
    match from_utf8(bytes) {
        Ok(text) => read_file_text(alloc, text),
        Err(error) => Err(not_utf8(bytes, error.valid_up_to())),
    }
}

/// The definitions and the query of a text of at most 16,777,216 bytes, in the wide language.
/// Its faults are those of the bytes and of the grammar: `Utf8`, `Syntax`, `Number`, `Period`, `Deep` and `TextTooLong`.
pub fn read_file(alloc: Global, bytes: &[u8]) -> Result<RawFile, QueryRead>
    requires { length bytes.now ≤ most_bytes }
    ensures file { IfOk result (λ f. IsFile bytes.now (raw_file_of f)) }
    ensures refused { IfErr result (IsFileUnread bytes.now) }

    // Each text of the grammar is read, and each other one is refused for its one fault.
    ensures every_file { (f : RawFileView) → IsFile bytes.now f
        → IsQueryOrMemory raw_file_of f result }
    ensures every_fault { (fault : FaultOf) → IsFileFault bytes.now fault
        → IsFaultOrMemory fault result }
{
    read_file_bytes(alloc, bytes)
}

/// The query of a text of at most 16,777,216 bytes, with the place of each name, term and formula.
/// Its faults are those of the bytes and of the grammar: `Utf8`, `Syntax`, `Number`, `Period`, `Deep` and `TextTooLong`.
pub fn read_query(alloc: Global, bytes: &[u8]) -> Result<RawQuery, QueryRead>
    requires { length bytes.now ≤ most_bytes }
    ensures query { IfOk result (λ q. IsQuery bytes.now (raw_question_of q)) }
    ensures refused { IfErr result (IsUnread bytes.now) }

    ensures lawful { IfOk result (λ q. IsLawful (raw_question_of q)) }
    ensures plain { IfOk result (λ q. HasNoOperator (raw_form_of q.body)) }

    // Each text of the grammar is read, and each other one is refused for its one fault.
    ensures every_query { (q : RawQuestion) → IsQuery bytes.now q
        → IsQueryOrMemory raw_question_of q result }
    ensures every_fault { (fault : FaultOf) → IsQueryFault bytes.now fault
        → IsFaultOrMemory fault result }
{
    read_bytes::<Plain>(alloc, bytes)
}
