// The least answer of answers in parts.
ghost use Rattle.std.specs.Prelude.{◌≡◌, ◌⊎◌, ◌<◌, Contains, IfNone, IfSome, length};
ghost use Rattle.std.specs.List.{AllByRecursion};
ghost use Rattle.lrp_model.specs.DataTexts.{IsDomain};
ghost use Rattle.lrp_model.specs.Rows.{Tuple};
ghost use Rattle.lrp_store.specs.Least.{HasRoom};
ghost use Rattle.lrp_answers.specs.Parts.{AreAlike, IsInSomePart};
ghost use Rattle.lrp_packed.specs.Leading.{IsNotLater};
ghost use Rattle.lrp_outputs.specs.PartLeasts.{IsLeastOfParts, IsLeastUpTo};

use crate::witness::Witness;
use lrp_answers::Answer;
use lrp_model::{List, Spot};
use lrp_packed::is_not_later;

/// A part by its place among others, and the least answer that it has, if any.
#[derive(Clone, Copy)]
pub struct PartLeast {
    pub part: usize,
    pub least: Option<Spot>,
}

/// The least of the answers of all parts, with the part that has it. With `dates` its times are shown as dates.
pub fn least_of_parts(parts: List<Answer>, dates: bool) -> Witness
    requires some { 0 < length parts }
    requires alike { AreAlike parts }
    requires domains { AllByRecursion (λ part. IsDomain part.domain) parts }
    requires room { AllByRecursion (λ part. HasRoom part.store) parts }
    ensures dates { result.dates ≡ dates }
    ensures part { Contains parts result.answer }
    ensures none { IfNone result.least ((tuple : Tuple) → IsInSomePart parts tuple → ⊥) }
    ensures some { IfSome result.least (IsLeastOfParts parts result.answer) }
{
    let found = least_part(parts.as_slice());
    let answer = parts.into_vec().swap_remove(found.part);
    Witness {
        answer,
        least: found.least,
        dates,
    }
}

/// The part that has the least answer.
fn least_part(parts: &[Answer]) -> PartLeast
    requires some { 0 < length parts.now }
    requires alike { AreAlike parts.now }
    requires domains { AllByRecursion (λ part. IsDomain part.domain) parts.now }
    requires room { AllByRecursion (λ part. HasRoom part.store) parts.now }
    ensures place { result.part < length parts.now }
    ensures least { IsLeastUpTo parts.now (length parts.now) result }
{
    let mut found = PartLeast {
        part: 0,
        least: None,
    };
    for part in 0..parts.len() {
        let own = PartLeast {
            part,
            least: parts[part].least(),
        };
        found = nearer(found, own);
    }
    found
}

/// Of two parts the one whose least answer doesn't come after the other's.
fn nearer(a: PartLeast, b: PartLeast) -> PartLeast
    ensures one { (result ≡ a) ⊎ (result ≡ b) }
    ensures first { IsNotLater result.least a.least }
    ensures second { IsNotLater result.least b.least }
{
    if is_not_later(a.least, b.least) { a } else { b }
}
