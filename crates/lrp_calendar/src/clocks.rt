// Times of day, as `jiff` reads and prints them, but without seconds.
ghost use Rattle.std.specs.Prelude.{◌≡◌, ◌+◌, ◌*◌, ◌↔◌, IfSome, IsTrue, true};
ghost use Rattle.lrp_calendar.specs.Moments.{IsClock, clock_bytes, is_time_of_day};
ghost use Rattle.lrp_calendar.specs.Parts.{MaySpell, SpellsValue};

use jiff::civil;
use jiff::fmt::temporal::DateTimePrinter;
use std::str::from_utf8;

/// A time of day, in minutes from midnight, as one of the calendar.
pub fn civil_time(time: u16) -> jiff_core::civil::Time
    requires { IsTrue (is_time_of_day time) }
    ensures { IsClock time result }
{
    jiff_core::civil::Time {
        hour: (time / 60) as u8,
        minute: (time % 60) as u8,
        second: 0,
        subsec_nanosecond: 0,
    }
}

/// The time of day, in minutes from midnight, that a text of the form `HH:MM` spells.
pub fn spelled_time(text: &[u8]) -> Option<u16>
    ensures { SpellsValue is_time_of_day clock_bytes text.now result }
{
    let time = read_time(text)?;
    if is_printed(time, text) {
        Some(time)
    } else {
        None
    }
}

// The only time of day that a text may spell. `jiff` reads other forms of a time too.
fn read_time(text: &[u8]) -> Option<u16>
    ensures spells { MaySpell is_time_of_day clock_bytes text.now result }
    ensures real { IfSome result (λ time. is_time_of_day time ≡ true) }
{
    match from_utf8(text) {
        Ok(text) => parsed_time(text),
        Err(_) => None,
    }
}

fn parsed_time(text: &str) -> Option<u16>
    ensures spells { MaySpell is_time_of_day clock_bytes text.now result }
    ensures real { IfSome result (λ time. is_time_of_day time ≡ true) }
{
    match text.parse::<civil::Time>() {
        Ok(time) => Some(minutes(time)),
        Err(_) => None,
    }
}

// The minutes of a time from midnight.
fn minutes(time: civil::Time) -> u16
    ensures value { result ≡ 60 * time.hour + time.minute }
    ensures real { is_time_of_day result ≡ true }
{
    let time = time.to_plain();
    60 * u16::from(time.hour) + u16::from(time.minute)
}

// Whether a text is what `jiff` prints of a time of day before the seconds.
fn is_printed(time: u16, text: &[u8]) -> bool
    requires { IsTrue (is_time_of_day time) }
    ensures { IsTrue result ↔ (text.now ≡ clock_bytes time) }
{
    let printed = DateTimePrinter::new().time_text(civil_time(time));
    &printed.as_str().as_bytes()[..5] == text
}
