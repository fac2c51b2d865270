// What is told of the sample as it is written.
ghost use Rattle.lrp_io.specs.Causes.{HasCause};
ghost use Rattle.lrp_io.specs.Pieces.{IsWritten};
ghost use Rattle.lrp_outputs.specs.Outputs.{least_of};
ghost use Rattle.lrp_outputs.specs.SampleLines.{counts_text, window_line};
ghost use Rattle.lrp_outputs.specs.First.{first_line};

use crate::witness::Witness;
use crate::writing::write_pieces;
use itoa::Buffer;
use lrp_io::{Failed, Sink, Text};

/// How many rows the sample has, how many cells its last step inhabits, its least answer, and how many answers its window has.
#[derive(Drop)]
pub struct Report {
    pub rows: u32,
    pub cells: u32,
    pub first: Witness,
    pub window: u64,
}

impl Text for Report {
    ghost use Rattle.lrp_outputs.specs.Outputs.{sample_text};

    ghost text = { λ report. sample_text report };

    fn write_to<S: Sink>(&self, out: &mut S) -> Result<(), Failed> {
        write_counts(out, self.rows, self.cells)?;
        write_first(out, &self.first)?;
        write_window(out, self.window)
    }
}

/// The numbers of rows and of cells.
fn write_counts<S: Sink>(out: &mut S, rows: u32, cells: u32) -> Result<(), Failed>
    ensures text { IsWritten (S.written out.old) (S.written out.new)
        (counts_text rows cells) result }
    ensures cause { HasCause (S.faults out.old) (S.faults out.new) result }
{
    let mut of_rows = Buffer::new();
    let mut of_cells = Buffer::new();
    let pieces = [
        b"rows ".as_slice(),
        of_rows.format(rows).as_bytes(),
        b"\ncells ".as_slice(),
        of_cells.format(cells).as_bytes(),
        b"\nfirst ".as_slice(),
    ];
    write_pieces(out, &pieces)
}

/// The line of the least answer.
fn write_first<S: Sink>(out: &mut S, first: &Witness) -> Result<(), Failed>
    ensures text { IsWritten (S.written out.old) (S.written out.new)
        (first_line (least_of first.now)) result }
    ensures cause { HasCause (S.faults out.old) (S.faults out.new) result }
{
    crate::first::write_first(out, &first.answer, &first.least)
}

/// The number of answers in the window.
fn write_window<S: Sink>(out: &mut S, count: u64) -> Result<(), Failed>
    ensures text { IsWritten (S.written out.old) (S.written out.new) (window_line count) result }
    ensures cause { HasCause (S.faults out.old) (S.faults out.new) result }
{
    let mut number = Buffer::new();
    let pieces = [
        b"window ".as_slice(),
        number.format(count).as_bytes(),
        b"\n".as_slice(),
    ];
    write_pieces(out, &pieces)
}
