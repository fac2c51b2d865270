// Minutes that words spell.
ghost use Rattle.std.specs.Prelude.{◌≡◌, ℤ, IfNone, IfSome, MatchOption};
ghost use Rattle.lrp_calendar.specs.Minutes.{SpellsMinute, minute_by};
ghost use Rattle.lrp_calendar.specs.Moments.{IsCivilMinute};

use crate::moments::minute_at;
use crate::parts::{after_byte, date_at, time_at};

/// The minute that a text of the form `YYYY-MM-DDTHH:MM` spells. No other text spells one, nor a date that the calendar
/// does not have.
pub fn minute_of(date: &str) -> Option<i64>
    ensures value { result ≡ minute_by date.now }
    ensures spelled { IfSome result (SpellsMinute date.now) }
    ensures none { IfNone result ((x : ℤ) → SpellsMinute date.now x → ⊥) }
    ensures range { IfSome result IsCivilMinute }
{
    spelled_by(date.as_bytes())
}

// The same of the text's bytes.
fn spelled_by(word: &[u8]) -> Option<i64>
    ensures spelled { MatchOption result ((x : ℤ) → SpellsMinute word.now x → ⊥)
        (SpellsMinute word.now) }
    ensures range { IfSome result IsCivilMinute }
{
    let (date, rest) = date_at(word)?;
    let rest = after_byte(rest, b'T')?;
    let (time, rest) = time_at(rest)?;
    if rest.is_empty() {
        Some(minute_at(date, time))
    } else {
        None
    }
}
