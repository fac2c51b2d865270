// Civil values as they are spelled.
ghost use Rattle.std.specs.Prelude.{◌≡◌, ◌<◌, ◌≤◌, ◌++◌, ◌^◌, ℕ, List, IsTrue, MatchOption, length, true};
ghost use Rattle.std.specs.Char.{is_ascii_digit};
ghost use Rattle.std.specs.List.{list_all};
ghost use Rattle.std.specs.Str.Parse.{digits_value};
ghost use Rattle.lrp_civil.specs.declared.values.Unit.{Unit as UnitOf};
ghost use Rattle.lrp_civil.specs.CivilValues.{is_pace, pace_bytes, unit_name};
ghost use Rattle.lrp_calendar.specs.Moments.{clock_bytes, is_time_of_day};
ghost use Rattle.lrp_calendar.specs.Parts.{Finds, FindsAfter, FindsLast, FindsNumber};

use crate::days::weekday_at;
use crate::tokens::after_digits;
use itoa::Buffer;
use lrp_calendar::{Date, after_byte, date_at, time_at};
use lrp_model::LIMIT;
use std::str::from_utf8;

/// A civil value: each day, each week on a day (from 0 for Monday), or once, at a time in minutes from midnight; or a pace
/// apart from each other, one of them at a date and a time.
#[derive(Clone, Copy, PartialEq, Eq)]
pub enum CivilValue {
    Daily { time: u16 },
    Weekly { day: u8, time: u16 },
    On { date: Date, time: u16 },
    Every { pace: Pace, date: Date, time: u16 },
}

/// A unit of a pace.
#[derive(Clone, Copy, PartialEq, Eq)]
pub enum Unit {
    Minutes,
    Hours,
    Days,
    Weeks,
}

/// A number of units, one or more, in minutes at most 2^62.
#[derive(Clone, Copy, PartialEq, Eq)]
pub struct Pace {
    pub number: u64,
    pub unit: Unit,
}

/// Which civil values a text has: a database the usual ones, in the wide language each, and a query there the usual ones
/// among the tokens of that language.
#[derive(Clone, Copy, PartialEq, Eq)]
pub enum CivilText {
    Database,
    WideDatabase,
    WideQuery,
}

impl CivilText {
    ghost use Rattle.std.specs.Prelude.{◌≡◌};
    ghost use Rattle.lrp_civil.specs.CivilValues.{has_paces};
    ghost use Rattle.lrp_civil.specs.PlainText.{signs_of};

    // Whether such texts have values of paces.
    fn takes_paces(self) -> bool
        ensures { result ≡ has_paces self }
    {
        matches!(self, CivilText::WideDatabase)
    }

    /// Whether the symbols of the wide language are among their tokens.
    pub fn has_signs(self) -> bool
        ensures { result ≡ signs_of self }
    {
        matches!(self, CivilText::WideQuery)
    }
}

impl Unit {
    ghost use Rattle.std.specs.Prelude.{◌≡◌};
    ghost use Rattle.lrp_civil.specs.CivilValues.{unit_minutes, unit_name};

    // How the unit is spelled.
    fn name(self) -> &'static [u8]
        ensures { result.now ≡ unit_name self }
    {
        match self {
            Unit::Minutes => b"minutes",
            Unit::Hours => b"hours",
            Unit::Days => b"days",
            Unit::Weeks => b"weeks",
        }
    }

    // Its minutes.
    fn minutes(self) -> u64
        ensures { result ≡ unit_minutes self }
    {
        match self {
            Unit::Minutes => 1,
            Unit::Hours => 60,
            Unit::Days => 1440,
            Unit::Weeks => 10080,
        }
    }
}

impl Pace {
    ghost use Rattle.std.specs.Prelude.{◌≡◌, IsTrue, MatchOption, false, length};
    ghost use Rattle.lrp_civil.specs.CivilValues.{is_pace, pace_bytes, pace_minutes};

    /// The pace in minutes.
    pub fn minutes(&self) -> u64
        requires { IsTrue (is_pace self.now) }
        ensures { result ≡ pace_minutes self.now }
    {
        self.number * self.unit.minutes()
    }

    // The pace of a number and a unit, where it is one.
    fn of(number: u64, unit: Unit) -> Option<Pace>
        ensures { MatchOption result (is_pace (record { number = number; unit = unit }) ≡ false)
            (λ pace. (pace ≡ record { number = number; unit = unit }) × IsTrue (is_pace pace)) }
    {
        let minutes = number.checked_mul(unit.minutes())?;
        if 0 < number && minutes <= LIMIT as u64 {
            Some(Pace { number, unit })
        } else {
            None
        }
    }

    // How many bytes it is spelled with.
    fn len(&self) -> usize
        ensures { result ≡ length (pace_bytes self.now) }
    {
        Buffer::new().format(self.number).len() + 1 + self.unit.name().len()
    }
}

impl CivilValue {
    ghost use Rattle.lrp_civil.specs.CivilValues.{is_civil, is_value_in, spelled};
    ghost use Rattle.lrp_civil.specs.PlainText.{FindsDaily, FindsEvery, FindsOn, FindsPaced, FindsWeekly};

    /// The civil value of a text of some kind that the bytes begin with, where no number goes on after it.
    pub fn at(kind: CivilText, bytes: &[u8]) -> Option<CivilValue>
        ensures { FindsLast (is_value_in kind) spelled bytes.now result }
    {
        match bytes {
            [b'd', ..] => CivilValue::daily(bytes),
            [b'w', ..] => CivilValue::weekly(bytes),
            [b'o', ..] => CivilValue::on(bytes),
            [b'e', ..] => CivilValue::paced(kind, bytes),
            _ => None,
        }
    }

    // The value of a pace, where texts of the kind have such values.
    fn paced(kind: CivilText, bytes: &[u8]) -> Option<CivilValue>
        ensures { FindsPaced kind bytes.now result }
    {
        if kind.takes_paces() {
            CivilValue::every(bytes)
        } else {
            None
        }
    }

    // `every N UNIT from YYYY-MM-DD HH:MM`
    fn every(bytes: &[u8]) -> Option<CivilValue>
        ensures { FindsEvery bytes.now result }
    {
        let rest = after_prefix(bytes, b"every ")?;
        let (pace, rest) = pace_at(rest)?;
        let rest = after_prefix(rest, b" from ")?;
        let (date, rest) = date_at(rest)?;
        let rest = after_byte(rest, b' ')?;
        let time = last_time_at(rest)?;
        Some(CivilValue::Every { pace, date, time })
    }

    // `daily HH:MM`
    fn daily(bytes: &[u8]) -> Option<CivilValue>
        ensures { FindsDaily bytes.now result }
    {
        let rest = after_prefix(bytes, b"daily ")?;
        let time = last_time_at(rest)?;
        Some(CivilValue::Daily { time })
    }

    // `weekly DAY HH:MM`
    fn weekly(bytes: &[u8]) -> Option<CivilValue>
        ensures { FindsWeekly bytes.now result }
    {
        let rest = after_prefix(bytes, b"weekly ")?;
        let (day, rest) = weekday_at(rest)?;
        let rest = after_byte(rest, b' ')?;
        let time = last_time_at(rest)?;
        Some(CivilValue::Weekly { day, time })
    }

    // `on YYYY-MM-DD HH:MM`
    fn on(bytes: &[u8]) -> Option<CivilValue>
        ensures { FindsOn bytes.now result }
    {
        let rest = after_prefix(bytes, b"on ")?;
        let (date, rest) = date_at(rest)?;
        let rest = after_byte(rest, b' ')?;
        let time = last_time_at(rest)?;
        Some(CivilValue::On { date, time })
    }

    /// How many bytes it is spelled with.
    pub fn len(&self) -> usize
        requires { IsTrue (is_civil self.now) }
        ensures { result ≡ length (spelled self.now) }
    {
        match self {
            CivilValue::Daily { .. } => 11,
            CivilValue::Weekly { .. } => 16,
            CivilValue::On { .. } => 19,
            CivilValue::Every { pace, .. } => 28 + pace.len(),
        }
    }
}

// A number below 2^64 that doesn't begin with 0, and what stands after it.
fn number_at(bytes: &[u8]) -> Option<(u64, &[u8])>
    ensures { FindsNumber bytes.now result }
{
    let rest = after_digits(bytes);
    let digits = &bytes[..bytes.len() - rest.len()];
    let (first, _) = digits.split_first()?;
    if *first == b'0' {
        return None;
    }
    Some((written(digits)?, rest))
}

// The number that digits write, where it is below 2^64.
fn written(digits: &[u8]) -> Option<u64>
    requires digits { list_all is_ascii_digit digits.now ≡ true }
    requires some { 0 < length digits.now }
    ensures { MatchOption result (2 ^ 64 ≤ digits_value 10 digits.now)
        (λ n. (n ≡ digits_value 10 digits.now) × (n < 2 ^ 64)) }
{
    match from_utf8(digits) {
        Ok(text) => parsed(text),
        Err(_) => None,
    }
}

// The same of a text of digits.
fn parsed(digits: &str) -> Option<u64>
    requires digits { list_all is_ascii_digit digits.now ≡ true }
    requires some { 0 < length digits.now }
    ensures { MatchOption result (2 ^ 64 ≤ digits_value 10 digits.now)
        (λ n. (n ≡ digits_value 10 digits.now) × (n < 2 ^ 64)) }
{
    match digits.parse::<u64>() {
        Ok(number) => Some(number),
        Err(_) => None,
    }
}

// A unit, and what stands after it.
fn unit_at(bytes: &[u8]) -> Option<(Unit, &[u8])>
    ensures { Finds (λ _. true) unit_name bytes.now result }
{
    let unit = likely_unit(bytes)?;
    let rest = after_prefix(bytes, unit.name())?;
    Some((unit, rest))
}

// The one unit whose name may stand first, by its first letter.
fn likely_unit(bytes: &[u8]) -> Option<Unit>
    ensures { MatchOption result ((unit : UnitOf) (rest : List ℕ) → bytes.now
        ≡ unit_name unit ++ rest → ⊥) (λ likely. (unit : UnitOf) (rest : List ℕ) → bytes.now
        ≡ unit_name unit ++ rest → unit ≡ likely) }
{
    match bytes {
        [b'm', ..] => Some(Unit::Minutes),
        [b'h', ..] => Some(Unit::Hours),
        [b'd', ..] => Some(Unit::Days),
        [b'w', ..] => Some(Unit::Weeks),
        _ => None,
    }
}

// `N UNIT`
fn pace_at(bytes: &[u8]) -> Option<(Pace, &[u8])>
    ensures { Finds is_pace pace_bytes bytes.now result }
{
    let (number, rest) = number_at(bytes)?;
    let rest = after_byte(rest, b' ')?;
    let (unit, rest) = unit_at(rest)?;
    Some((Pace::of(number, unit)?, rest))
}

// What stands after a prefix.
fn after_prefix<'a>(bytes: &'a [u8], prefix: &[u8]) -> Option<&'a [u8]>
    ensures { FindsAfter prefix.now bytes.now result }
{
    bytes.strip_prefix(prefix)
}

// `HH:MM`, where no number goes on after it.
fn last_time_at(bytes: &[u8]) -> Option<u16>
    ensures { FindsLast is_time_of_day clock_bytes bytes.now result }
{
    let (time, rest) = time_at(bytes)?;
    match rest {
        [b, ..] if b.is_ascii_digit() => None,
        _ => Some(time),
    }
}
