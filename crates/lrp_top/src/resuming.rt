// Where a page begins: after the tuple of a token, where there is one.
ghost use Rattle.std.specs.Prelude.{◌≡◌, ◌≤◌, IfOk, IfSome};
ghost use Rattle.lrp_answers.specs.Listing.{HasShapeOf};
ghost use Rattle.lrp_model.specs.Sorts.{time_count, text_count};
ghost use Rattle.lrp_words.specs.Commands.{after_text};
ghost use Rattle.lrp_top.specs.Questions.{resumed_as};
ghost use Rattle.lrp_top.specs.Resuming.{IsResumed, shape_of as shape_of_head};

use lrp_model::{Column, Shape, Tuple};
use lrp_outputs::Refusal;
use lrp_token::read_token;
use std::alloc::Global;

/// The tuple of a token for this head and the files of this digest, or why the token is refused.
pub fn resumed(
    alloc: Global,
    after: Option<&str>,
    digest: &[u8; 32],
    head: &[Column],
) -> Result<Option<Tuple>, Refusal>
    requires times { time_count head.now ≤ 8 }
    requires texts { text_count head.now ≤ 8 }
    ensures shape { IfOk result (λ tuple. IfSome tuple (HasShapeOf (shape_of_head head.now))) }
    ensures resumed { IsResumed digest.now head.now (after_text after.entry)
        (resumed_as head.now result) }
{
    let Some(token) = after else {
        return Ok(None);
    };
    let resume = read_token(alloc, token, shape_of(head))?;
    match resume.digest {
        Some(told) if told != *digest => Err(Refusal::TokenStale),
        _ => Ok(Some(resume.tuple)),
    }
}

/// How many time columns and how many data columns a head has.
fn shape_of(head: &[Column]) -> Shape
    requires times { time_count head.now ≤ 8 }
    requires texts { text_count head.now ≤ 8 }
    ensures { result ≡ shape_of_head head.now }
{
    let times = times_of(head);
    let texts = texts_of(head);
    Shape {
        times: times as u8,
        texts: texts as u8,
    }
}

/// How many time columns a head has.
pub fn times_of(head: &[Column]) -> usize
    ensures { result ≡ time_count head.now }
{
    head.iter().filter(|column| column.sort.is_time()).count()
}

/// How many data columns a head has.
fn texts_of(head: &[Column]) -> usize
    ensures { result ≡ text_count head.now }
{
    head.iter().filter(|column| !column.sort.is_time()).count()
}
