// The ranges of a window as they are written.
ghost use Rattle.std.specs.Prelude.{◌++◌, codes};
ghost use Rattle.std.specs.List.{AllByRecursion};
ghost use Rattle.lrp_io.specs.Causes.{HasCause};
ghost use Rattle.lrp_io.specs.Pieces.{IsWritten};
ghost use Rattle.lrp_model.specs.Printed.{joined_by};
ghost use Rattle.lrp_outputs.specs.Carried.{ends_prop};
ghost use Rattle.lrp_outputs.specs.RangeLines.{HasEndsAs, IsDatedWhere, end_bytes, range_ends, last_line, range_line};

use lrp_civil::write_civil_time;
use lrp_count::{Range, Ranges};
use lrp_io::{Failed, Sink, Text};
use lrp_print::{Notation, write_bytes, write_each, write_integer, write_joined};

/// The answers of a window as ranges, and whether they are written as JSON. With `civil` their ends are shown as dates.
#[derive(Drop)]
pub struct RangeLines {
    pub found: Ranges,
    pub json: bool,
    pub civil: bool,
    ghost dates: { AllByRecursion (HasEndsAs civil) found.ranges } by { ends_prop civil found.ranges },
}

impl Text for RangeLines {
    ghost use Rattle.lrp_outputs.specs.Outputs.{ranges_text};

    ghost text = { λ lines. ranges_text lines };

    fn write_to<S: Sink>(&self, out: &mut S) -> Result<(), Failed> {
        let lines = Lines {
            json: self.json,
            civil: self.civil,
        };
        write_each(out, &lines, self.found.ranges.as_slice())?;
        write_last(out, self.json, self.found.more)
    }
}

/// The line after those of the ranges: whether a further one is left.
fn write_last<S: Sink>(out: &mut S, json: bool, more: bool) -> Result<(), Failed>
    ensures text { IsWritten (S.written out.old) (S.written out.new) (last_line json more) result }
    ensures cause { HasCause (S.faults out.old) (S.faults out.new) result }
{
    match (json, more) {
        (false, false) => write_bytes(out, b"end\n"),
        (false, true) => write_bytes(out, b"more\n"),
        (true, false) => write_bytes(out, b"{\"more\":false}\n"),
        (true, true) => write_bytes(out, b"{\"more\":true}\n"),
    }
}

// Ranges as lines.
#[derive(Clone, Copy)]
struct Lines {
    json: bool,
    civil: bool,
}

impl Notation for Lines {
    type Item = Range;

    ghost spells = { λ s range. HasEndsAs s.civil range };

    ghost bytes = { λ s range. range_line s.civil s.json range };

    fn write<S: Sink>(&self, out: &mut S, range: &Range) -> Result<(), Failed> {
        let ends = Ends {
            json: self.json,
            civil: self.civil,
        };
        if self.json {
            write_json(out, &ends, range)
        } else {
            write_plain(out, &ends, range)
        }
    }
}

/// The line of a range in brackets.
fn write_json<S: Sink>(out: &mut S, ends: &Ends, range: &Range) -> Result<(), Failed>
    requires { HasEndsAs ends.now.civil range.now }
    ensures text { IsWritten (S.written out.old) (S.written out.new)
        (codes "[" ++ (joined_by (codes ",") (end_bytes ends.now.civil ends.now.json)
        (range_ends range.now) ++ codes "]\n")) result }
    ensures cause { HasCause (S.faults out.old) (S.faults out.new) result }
{
    write_bytes(out, b"[")?;
    write_joined(out, ends, b",", &[range.from, range.to])?;
    write_bytes(out, b"]\n")
}

/// The line of a range without them.
fn write_plain<S: Sink>(out: &mut S, ends: &Ends, range: &Range) -> Result<(), Failed>
    requires { HasEndsAs ends.now.civil range.now }
    ensures text { IsWritten (S.written out.old) (S.written out.new)
        (joined_by (codes ", ") (end_bytes ends.now.civil ends.now.json) (range_ends range.now)
        ++ codes "\n") result }
    ensures cause { HasCause (S.faults out.old) (S.faults out.new) result }
{
    write_joined(out, ends, b", ", &[range.from, range.to])?;
    write_bytes(out, b"\n")
}

// The ends of ranges, as dates where they are civil ones, which stand in quotes in JSON.
#[derive(Clone, Copy)]
struct Ends {
    json: bool,
    civil: bool,
}

impl Notation for Ends {
    type Item = i64;

    ghost spells = { λ s end. IsDatedWhere s.civil end };

    ghost bytes = { λ s end. end_bytes s.civil s.json end };

    fn write<S: Sink>(&self, out: &mut S, end: &i64) -> Result<(), Failed> {
        if self.civil {
            write_civil_time(out, end, self.json)
        } else {
            write_integer(out, end)
        }
    }
}
