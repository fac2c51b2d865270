// The text of an outcome, piece by piece: no memory is taken.
ghost use Rattle.std.specs.List.{flat_map};
ghost use Rattle.lrp_io.specs.Causes.{HasCause};
ghost use Rattle.lrp_io.specs.Pieces.{IsWritten};
ghost use Rattle.lrp_outputs.specs.Outcomes.{cells_line, edit_line, fault_line, head_line, line_of, rows_line, watch_line, written_of};
ghost use Rattle.lrp_outputs.specs.Outputs.{told};
ghost use Rattle.lrp_outputs.specs.RangeLines.{count_line};

use crate::head::HeadNeed;
use crate::output::Output;
use crate::refusal::Refusal;
use crate::watch_refusal::WatchRefusal;
use itoa::Buffer;
use lrp_database::Database;
use lrp_io::{Failed, Sink, Text, write_buffered};
use lrp_model::Place;
use lrp_print::write_bytes;
use lrp_rel::write_database;

/// Writes an outcome's text, or a front of it where the sink fails.
pub fn write_outcome<S: Sink>(out: &mut S, outcome: &Result<Output, Refusal>) -> Result<(), Failed>
    ensures text { IsWritten (S.written out.old) (S.written out.new)
        (written_of (told outcome.now)) result }
    ensures cause { HasCause (S.faults out.old) (S.faults out.new) result }
{
    match outcome {
        Ok(Output::Answer(answer)) => write_buffered(out, answer),
        Ok(Output::Relations(database)) => write_buffered(out, &DatabaseText { database }),
        Ok(Output::Plan(plan)) => write_buffered(out, plan),
        Ok(Output::Witness(witness)) => write_buffered(out, witness),
        Ok(Output::Page(page)) => write_buffered(out, page),
        Ok(Output::Count(number)) => write_number(out, *number),
        Ok(Output::Ranges(lines)) => write_buffered(out, lines),
        Ok(Output::LeastAnswers(leasts)) => write_buffered(out, leasts),
        Ok(Output::Lint(lint)) => write_buffered(out, lint),
        Ok(Output::Sample(report)) => write_buffered(out, report),
        Err(refusal) => write_refusal(out, refusal),
    }
}

/// The text of a database, which is made of many small pieces.
#[derive(Drop)]
struct DatabaseText<'a> {
    database: &'a Database,
}

impl Text for DatabaseText<'_> {
    ghost use Rattle.lrp_model.specs.Printed.{database_bytes};

    ghost text = { λ s. database_bytes s.database.now };

    fn write_to<S: Sink>(&self, out: &mut S) -> Result<(), Failed> {
        write_database(out, self.database)
    }
}

/// Writes a refusal's line.
fn write_refusal<S: Sink>(out: &mut S, refusal: &Refusal) -> Result<(), Failed>
    ensures text { IsWritten (S.written out.old) (S.written out.new) (line_of refusal.now) result }
    ensures cause { HasCause (S.faults out.old) (S.faults out.new) result }
{
    match refusal {
        Refusal::Usage => write_bytes(out, b"refused: usage\n"),
        Refusal::ReadDatabase => write_bytes(out, b"refused: read of database\n"),
        Refusal::LongDatabase => {
            write_bytes(out, b"refused: database longer than 16777216 bytes\n")
        }
        Refusal::Database(fault) => {
            write_fault(out, b"refused: database ", fault.kind.word(), fault.place)
        }
        Refusal::ReadQuery => write_bytes(out, b"refused: read of query\n"),
        Refusal::LongQuery => write_bytes(out, b"refused: query longer than 16777216 bytes\n"),
        Refusal::Query(fault) => {
            write_fault(out, b"refused: query ", fault.kind.word(), fault.place)
        }
        Refusal::Formulas => write_bytes(out, b"refused: more than 1000000 formulas\n"),
        Refusal::Depth => write_bytes(out, b"refused: deeper than 400 formulas\n"),
        Refusal::PeriodLimit => write_bytes(out, b"refused: period above 4611686018427387904\n"),
        Refusal::BoundLimit => write_bytes(out, b"refused: bound above 4611686018427387904\n"),
        Refusal::TokenForm => write_bytes(out, b"refused: token form\n"),
        Refusal::TokenShape => write_bytes(out, b"refused: token shape\n"),
        Refusal::TokenStale => write_bytes(out, b"refused: token stale\n"),
        Refusal::Cells { cap, step } => {
            write_cells(out, *cap, b" cells at step ", u64::from(*step))
        }
        Refusal::Head(need) => write_head(out, *need),
        Refusal::CanonRows { cap } => write_rows(out, *cap),
        Refusal::Watch(refusal) => write_watch_refusal(out, refusal),
        Refusal::Memory => write_bytes(out, b"refused: memory\n"),
    }
}

/// Writes the line of a head with which something is not told.
fn write_head<S: Sink>(out: &mut S, need: HeadNeed) -> Result<(), Failed>
    ensures text { IsWritten (S.written out.old) (S.written out.new) (head_line need) result }
    ensures cause { HasCause (S.faults out.old) (S.faults out.new) result }
{
    match need {
        HeadNeed::Canon => write_bytes(out, b"refused: canon needs one time column\n"),
        HeadNeed::Count => write_bytes(out, b"refused: count needs at most one time column\n"),
        HeadNeed::Ranges => write_bytes(out, b"refused: ranges needs one time column\n"),
    }
}

/// Writes the line of a number of answers.
fn write_number<S: Sink>(out: &mut S, number: u128) -> Result<(), Failed>
    ensures text { IsWritten (S.written out.old) (S.written out.new) (count_line number) result }
    ensures cause { HasCause (S.faults out.old) (S.faults out.new) result }
{
    let mut spelled = Buffer::new();
    let pieces = [spelled.format(number).as_bytes(), b"\n".as_slice()];
    write_pieces(out, &pieces)
}

/// Writes the line of a refusal of a watch.
fn write_watch_refusal<S: Sink>(out: &mut S, refusal: &WatchRefusal) -> Result<(), Failed>
    ensures text { IsWritten (S.written out.old) (S.written out.new)
        (watch_line refusal.now) result }
    ensures cause { HasCause (S.faults out.old) (S.faults out.new) result }
{
    match refusal {
        WatchRefusal::NotKept => write_bytes(out, b"refused: query not kept\n"),
        WatchRefusal::Read => write_bytes(out, b"refused: read of edits\n"),
        WatchRefusal::Long => write_bytes(out, b"refused: edits longer than 16777216 bytes\n"),
        WatchRefusal::Edits(fault) => {
            write_fault(out, b"refused: edits ", fault.kind.word(), fault.place)
        }
        WatchRefusal::PeriodLimit { edit } => {
            write_edit(
                out,
                b"refused: period above 4611686018427387904 at edit ",
                *edit,
            )
        }
        WatchRefusal::BoundLimit { edit } => {
            write_edit(
                out,
                b"refused: bound above 4611686018427387904 at edit ",
                *edit,
            )
        }
        WatchRefusal::Cells { cap, edit } => write_cells(out, *cap, b" cells at edit ", *edit),
    }
}

/// Writes the line of an edit at which a limit is passed.
fn write_edit<S: Sink>(out: &mut S, limit: &[u8], edit: u64) -> Result<(), Failed>
    ensures text { IsWritten (S.written out.old) (S.written out.new)
        (edit_line limit.now edit) result }
    ensures cause { HasCause (S.faults out.old) (S.faults out.new) result }
{
    let mut number = Buffer::new();
    let pieces = [limit, number.format(edit).as_bytes(), b"\n".as_slice()];
    write_pieces(out, &pieces)
}

/// Writes the line of a fault of a file's text.
fn write_fault<S: Sink>(out: &mut S, whose: &[u8], kind: &str, place: Place) -> Result<(), Failed>
    ensures text { IsWritten (S.written out.old) (S.written out.new)
        (fault_line whose.now kind.now place) result }
    ensures cause { HasCause (S.faults out.old) (S.faults out.new) result }
{
    let mut line = Buffer::new();
    let mut column = Buffer::new();
    let pieces = [
        whose,
        kind.as_bytes(),
        b" at ".as_slice(),
        line.format(place.line).as_bytes(),
        b":".as_slice(),
        column.format(place.column).as_bytes(),
        b"\n".as_slice(),
    ];
    write_pieces(out, &pieces)
}

/// Writes the line of too many cells at a place of this number.
fn write_cells<S: Sink>(out: &mut S, cap: u32, place: &[u8], number: u64) -> Result<(), Failed>
    ensures text { IsWritten (S.written out.old) (S.written out.new)
        (cells_line cap place.now number) result }
    ensures cause { HasCause (S.faults out.old) (S.faults out.new) result }
{
    let mut most = Buffer::new();
    let mut spelled = Buffer::new();
    let pieces = [
        b"refused: more than ".as_slice(),
        most.format(cap).as_bytes(),
        place,
        spelled.format(number).as_bytes(),
        b"\n".as_slice(),
    ];
    write_pieces(out, &pieces)
}

/// Writes the line of a canonical answer with too many rows.
fn write_rows<S: Sink>(out: &mut S, cap: u32) -> Result<(), Failed>
    ensures text { IsWritten (S.written out.old) (S.written out.new) (rows_line cap) result }
    ensures cause { HasCause (S.faults out.old) (S.faults out.new) result }
{
    let mut most = Buffer::new();
    let pieces = [
        b"refused: more than ".as_slice(),
        most.format(cap).as_bytes(),
        b" canonical rows\n".as_slice(),
    ];
    write_pieces(out, &pieces)
}

/// Writes pieces, one after the other.
pub fn write_pieces<S: Sink>(out: &mut S, pieces: &[&[u8]]) -> Result<(), Failed>
    ensures text { IsWritten (S.written out.old) (S.written out.new)
        (flat_map (λ piece. piece.now) pieces.now) result }
    ensures cause { HasCause (S.faults out.old) (S.faults out.new) result }
{
    for piece in pieces {
        write_bytes(out, piece)?;
    }
    Ok(())
}
