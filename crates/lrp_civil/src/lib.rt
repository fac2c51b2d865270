//! Civil times: minutes from 1970-01-01 00:00 on as dates and times of day, in databases, in words and in lines.
#![tactic(auto)]

mod days;
mod lines;
mod plain;
mod times;
mod tokens;
mod values;

pub use lines::write_civil_line;
pub use lrp_calendar::minute_of;
pub use plain::plain_text_of;
pub use times::{write_civil_time, write_dated_line};
pub use values::CivilText;
