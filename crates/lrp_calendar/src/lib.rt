//! The calendar: dates and times of day as `jiff` has them, the minutes from 1970-01-01 00:00 on that they stand for, and their texts.
#![tactic(auto)]

mod clocks;
mod dates;
mod minutes;
mod moments;
mod parts;

pub use dates::Date;
pub use minutes::minute_of;
pub use moments::{minute_at, write_moment};
pub use parts::{after_byte, date_at, time_at};
