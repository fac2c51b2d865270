// Dates of the proleptic Gregorian calendar, as `jiff` computes, reads and prints them.
ghost use Rattle.std.specs.Prelude.{◌≡◌, ◌↔◌, IsTrue, MatchOption, false};
ghost use Rattle.jiff_fmt.specs.Text.{date_text};
ghost use Rattle.lrp_calendar.specs.Dates.{IsCivil, IsCivilDay, date_of, day_number, is_date, date_numbers};
ghost use Rattle.lrp_calendar.specs.Moments.{date_bytes};
ghost use Rattle.lrp_calendar.specs.Parts.{MaySpell, SpellsValue};

use jiff::civil;
use jiff::fmt::temporal::DateTimePrinter;
use std::str::from_utf8;

/// A year, a month and a day, by their numbers. Not every one is a date of the calendar.
#[derive(Clone, Copy, PartialEq, Eq)]
pub struct Date {
    pub year: u16,
    pub month: u8,
    pub day: u8,
}

impl Date {
    // The date as the calendar has it, where its year is one of 1 to 9999.
    fn civil(self) -> Option<civil::Date>
        ensures { MatchOption result (is_date self ≡ false) (IsCivil self) }
    {
        if self.year == 0 || self.year > 9999 || self.month > 12 || self.day > 31 {
            return None;
        }
        civil::Date::new(self.year as i16, self.month as i8, self.day as i8).ok()
    }

    /// The days from 1970-01-01 on, negative before it.
    pub fn day_number(self) -> i64
        requires { IsTrue (is_date self) }
        ensures value { result ≡ day_number self }
        ensures range { IsCivilDay result }
    {
        match self.civil() {
            Some(date) => i64::from(date.to_plain().to_unix_epoch_day()),
            None => unreachable!(),
        }
    }
}

/// The date of a day number, from 0001-01-01 to 9999-12-31.
pub fn civil_date(day: i64) -> jiff_core::civil::Date
    requires { IsCivilDay day }
    ensures { IsCivil (date_of day) result }
{
    match jiff_core::civil::Date::from_unix_epoch_day(day) {
        Ok(date) => date,
        Err(_) => unreachable!(),
    }
}

/// The date that a text of the form `YYYY-MM-DD` spells.
pub fn spelled_date(text: &[u8]) -> Option<Date>
    ensures { SpellsValue is_date date_bytes text.now result }
{
    let date = read_date(text)?;
    let civil = date.civil()?;
    if is_printed(civil, text) {
        Some(date)
    } else {
        None
    }
}

// The one date that a text may spell. `jiff` reads other forms of a date too.
fn read_date(text: &[u8]) -> Option<Date>
    ensures { MaySpell is_date date_bytes text.now result }
{
    match from_utf8(text) {
        Ok(text) => parsed_date(text),
        Err(_) => None,
    }
}

fn parsed_date(text: &str) -> Option<Date>
    ensures { MaySpell is_date date_bytes text.now result }
{
    match text.parse::<civil::Date>() {
        Ok(date) => Some(numbers(date)),
        Err(_) => None,
    }
}

// The numbers of a date, without the sign of its year.
fn numbers(date: civil::Date) -> Date
    ensures { result ≡ date_numbers date }
{
    let date = date.to_plain();
    Date {
        year: date.year.unsigned_abs(),
        month: date.month,
        day: date.day,
    }
}

// Whether a text is what `jiff` prints of a date.
fn is_printed(date: civil::Date, text: &[u8]) -> bool
    ensures { IsTrue result ↔ (text.now ≡ date_text date) }
{
    let printed = DateTimePrinter::new().date_text(date.to_plain());
    printed.as_str().as_bytes() == text
}
