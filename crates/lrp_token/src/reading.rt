// Tokens as they are read: a version, with the second one a digest, and the times and texts of a tuple.
ghost use Rattle.std.specs.Prelude.{◌≡◌, ◌↔◌, ◌⊎◌, ℕ, ℤ, List as ListOf, Option as OptionOf, IsTrue, MatchResult};
ghost use Rattle.std.specs.Fmt.{signed_decimal};
ghost use Rattle.lrp_model.specs.Texts.{Text};
ghost use Rattle.lrp_model.specs.DataTexts.{IsDataText};
ghost use Rattle.lrp_model.specs.PrintedPages.{IsToken, text_part, IsSmall};
ghost use Rattle.lrp_token.specs.Parts.{IsPartRead, HasDigest, IsListOf, IsTuple};
ghost use Rattle.lrp_token.specs.Reading.{HasCounts, IsNoToken, Tells};

use crate::parts::{digest_of, text_of, time_of};
use crate::{Resume, TokenFault};
use lrp_model::{DataText, List, Shape, Tuple};
use std::alloc::Global;

/// What a token of this shape spells.
///
/// Errors: `Form` where the text is no token, `Shape` where it is one with other counts of times or texts, `Memory` where
/// memory was refused.
pub fn read_token(alloc: Global, text: &str, shape: Shape) -> Result<Resume, TokenFault>
    ensures tells { Tells text.now shape result }
    ensures token { (digest : OptionOf (ListOf ℕ)) (times : ListOf ℤ) (texts : ListOf Text)
        → IsToken text.now digest times texts → HasCounts shape times texts
        → MatchResult result (λ resume. (resume.digest ≡ digest) × (resume.tuple.times ≡ times)
        × (resume.tuple.texts ≡ texts)) (λ fault. fault ≡ TokenFault.Memory) }
    ensures other { (digest : OptionOf (ListOf ℕ)) (times : ListOf ℤ) (texts : ListOf Text)
        → IsToken text.now digest times texts → (HasCounts shape times texts → ⊥)
        → MatchResult result (λ resume. ⊥)
        (λ fault. (fault ≡ TokenFault.Shape) ⊎ (fault ≡ TokenFault.Memory)) }
    ensures none { IsNoToken text.now → MatchResult result (λ resume. ⊥)
        (λ fault. (fault ≡ TokenFault.Form) ⊎ (fault ≡ TokenFault.Memory)) }
{
    let resume = read_any(alloc, text)?;
    if has_counts(&resume.tuple, shape) {
        Ok(resume)
    } else {
        Err(TokenFault::Shape)
    }
}

// Whether there are as many times and texts as the shape says.
fn has_counts(tuple: &Tuple, shape: Shape) -> bool
    ensures { IsTrue result ↔ HasCounts shape tuple.now.times tuple.now.texts }
{
    tuple.times.len() == usize::from(shape.times) && tuple.texts.len() == usize::from(shape.texts)
}

// What a token of any shape spells.
fn read_any(alloc: Global, text: &str) -> Result<Resume, TokenFault>
    ensures { IsPartRead (λ r. IsToken text.now r.digest r.tuple.times r.tuple.texts) result }
{
    let Some((version, rest)) = text.split_once('/') else {
        return Err(TokenFault::Form);
    };
    match version {
        "T1" => read_alone(alloc, rest),
        "T2" => read_both(alloc, rest),
        _ => Err(TokenFault::Form),
    }
}

// A tuple alone.
fn read_alone(alloc: Global, text: &str) -> Result<Resume, TokenFault>
    ensures { IsPartRead (λ r. (r.digest ≡ None) × IsTuple text.now r.tuple.times r.tuple.texts)
        result }
{
    let tuple = read_tuple(alloc, text)?;
    Ok(Resume {
        tuple,
        digest: None,
    })
}

// A digest, a slash, and a tuple.
fn read_both(alloc: Global, text: &str) -> Result<Resume, TokenFault>
    ensures { IsPartRead (λ r. HasDigest text.now r.digest r.tuple.times r.tuple.texts) result }
{
    let Some((digits, rest)) = text.split_once('/') else {
        return Err(TokenFault::Form);
    };
    let Some(digest) = digest_of(digits) else {
        return Err(TokenFault::Form);
    };
    let tuple = read_tuple(alloc, rest)?;
    Ok(Resume {
        tuple,
        digest: Some(digest),
    })
}

// Times, a slash, and texts.
fn read_tuple(alloc: Global, text: &str) -> Result<Tuple, TokenFault>
    ensures { IsPartRead (λ t. IsTuple text.now t.times t.texts) result }
{
    let Some((times, texts)) = text.split_once('/') else {
        return Err(TokenFault::Form);
    };
    let times = read_times(alloc, times)?;
    let texts = read_texts(alloc, texts)?;
    Ok(Tuple { times, texts })
}

// Times with commas between.
fn read_times(alloc: Global, text: &str) -> Result<List<i64>, TokenFault>
    ensures { IsPartRead (IsListOf IsSmall signed_decimal text.now) result }
{
    let mut times = List::new(alloc);
    if text.is_empty() {
        return Ok(times);
    }
    for part in text.split(',') {
        let Some(time) = time_of(part) else {
            return Err(TokenFault::Form);
        };
        times.push(time)?;
    }
    Ok(times)
}

// Data texts with commas between.
fn read_texts(alloc: Global, text: &str) -> Result<List<DataText>, TokenFault>
    ensures { IsPartRead (IsListOf IsDataText text_part text.now) result }
{
    let mut texts = List::new(alloc);
    if text.is_empty() {
        return Ok(texts);
    }
    for part in text.split(',') {
        texts.push(text_of(alloc, part)?)?;
    }
    Ok(texts)
}
