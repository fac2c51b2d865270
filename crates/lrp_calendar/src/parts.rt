// Times of day and dates at the front of some bytes, and the bytes after them.
ghost use Rattle.std.specs.Prelude.{[], ◌∷◌};
ghost use Rattle.lrp_calendar.specs.Dates.{is_date};
ghost use Rattle.lrp_calendar.specs.Moments.{clock_bytes, date_bytes, is_time_of_day};
ghost use Rattle.lrp_calendar.specs.Parts.{Finds, FindsAfter};

use crate::clocks::spelled_time;
use crate::dates::{Date, spelled_date};

/// What stands after a byte.
pub fn after_byte(bytes: &[u8], byte: u8) -> Option<&[u8]>
    ensures { FindsAfter (byte ∷ []) bytes.now result }
{
    match bytes {
        [first, rest @ ..] if *first == byte => Some(rest),
        _ => None,
    }
}

/// `HH:MM`, in minutes from midnight.
pub fn time_at(bytes: &[u8]) -> Option<(u16, &[u8])>
    ensures { Finds is_time_of_day clock_bytes bytes.now result }
{
    let (text, rest) = bytes.split_at_checked(5)?;
    let time = spelled_time(text)?;
    Some((time, rest))
}

/// `YYYY-MM-DD`.
pub fn date_at(bytes: &[u8]) -> Option<(Date, &[u8])>
    ensures { Finds is_date date_bytes bytes.now result }
{
    let (text, rest) = bytes.split_at_checked(10)?;
    let date = spelled_date(text)?;
    Some((date, rest))
}
