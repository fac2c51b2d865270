// What a question's head needs for what it is asked for.
ghost use Rattle.std.specs.Prelude.{◌≡◌};
ghost use Rattle.lrp_top.specs.Heads.{canon_need};
ghost use Rattle.lrp_top.specs.Questions.{need_of};

use lrp_outputs::HeadNeed;
use lrp_words::Purpose;

/// What the head needs for a purpose, where it needs something.
pub fn head_need(purpose: &Purpose<'_>) -> Option<HeadNeed>
    ensures { result ≡ need_of purpose.now }
{
    match purpose {
        Purpose::Answer { canon, .. } => needed_by(*canon),
        Purpose::Count { .. } => Some(HeadNeed::Count),
        Purpose::Ranges { .. } => Some(HeadNeed::Ranges),
        Purpose::Plan | Purpose::Witness { .. } | Purpose::Page { .. } => None,
    }
}

/// What the head needs for all answers, which may be told in canonical form.
fn needed_by(canon: bool) -> Option<HeadNeed>
    ensures { result ≡ canon_need canon }
{
    if canon { Some(HeadNeed::Canon) } else { None }
}
