// Minutes from 1970-01-01 00:00 on.
ghost use Rattle.std.specs.Prelude.{◌≡◌, IsTrue};
ghost use Rattle.lrp_io.specs.Causes.{HasCause};
ghost use Rattle.lrp_io.specs.Pieces.{IsWritten};
ghost use Rattle.lrp_calendar.specs.Dates.{is_date};
ghost use Rattle.lrp_calendar.specs.Moments.{IsCivilMinute, IsMoment, minute_at as minute_by, moment_bytes, is_time_of_day};

use crate::clocks::civil_time;
use crate::dates::{Date, civil_date};
use jiff::fmt::temporal::DateTimePrinter;
use jiff_core::civil::DateTime;
use lrp_io::{Failed, Sink};
use lrp_print::write_bytes;

const MINUTES_PER_DAY: i64 = 1440;

/// The minute of a date and a time of day.
pub fn minute_at(date: Date, time: u16) -> i64
    requires real { IsTrue (is_date date) }
    requires time { IsTrue (is_time_of_day time) }
    ensures value { result ≡ minute_by date time }
    ensures range { IsCivilMinute result }
{
    date.day_number() * MINUTES_PER_DAY + i64::from(time)
}

/// Writes a minute, from 0001-01-01 00:00 to 9999-12-31 23:59, as `YYYY-MM-DD HH:MM`, which is what `jiff` prints before the
/// seconds. After a failure a front of it was written.
pub fn write_moment<S: Sink>(out: &mut S, minute: &i64) -> Result<(), Failed>
    requires { IsCivilMinute minute.now }
    ensures text { IsWritten (S.written out.old) (S.written out.new) (moment_bytes minute.now)
        result }
    ensures cause { HasCause (S.faults out.old) (S.faults out.new) result }
{
    let printed = DateTimePrinter::new()
        .separator(b' ')
        .datetime_text(moment(minute));
    write_bytes(out, &printed.as_str().as_bytes()[..16])
}

// The date and the time of day of a minute.
fn moment(minute: &i64) -> DateTime
    requires { IsCivilMinute minute.now }
    ensures { IsMoment minute.now result }
{
    DateTime {
        date: civil_date(minute.div_euclid(MINUTES_PER_DAY)),
        time: civil_time(minute.rem_euclid(MINUTES_PER_DAY) as u16),
    }
}
