// The text of a whole answer.
ghost use Rattle.std.specs.Prelude.{◌≡◌, ◌≤ℤ◌, ◌++◌, ℕ, pos, codes};
ghost use Rattle.std.specs.List.{flat_map};
ghost use Rattle.lrp_io.specs.Causes.{HasCause};
ghost use Rattle.lrp_io.specs.Pieces.{IsWritten};
ghost use Rattle.lrp_model.specs.Printed.{joined_by, row_line, value_bytes};
ghost use Rattle.lrp_store.specs.Least.{HasRoom, IsRoom};
ghost use Rattle.lrp_store.specs.Stores.{zones_at};
ghost use Rattle.lrp_answer_text.specs.AnswerText.{named_answer_text, cell_rows, cell_values, closed_bounds, residue_point, answer_rows};
ghost use Rattle.lrp_answers.specs.Spots.{IsOfTexts};

use crate::closures::closed_bounds;
use crate::values::{Spelling, Values, write_values};
use lrp_answers::Answer;
use lrp_io::{Failed, Sink};
use lrp_model::{Cell, RowPoint};
use lrp_print::{Notation, write_bytes, write_columns, write_conditions, write_point};
use lrp_store::Zones;
use lrp_zone::Zone;

/// Writes the text of a whole answer: a relation of this name, or the line `Empty` where nothing is held.
///
/// A row has the points and the texts of a cell, and the closed bounds of one of its zones. No memory is taken. After a
/// failure a front of the text was written.
pub fn write_answer<S: Sink>(out: &mut S, answer: &Answer, name: &[u8]) -> Result<(), Failed>
    requires room { HasRoom answer.now.store }
    ensures text { IsWritten (S.written out.old) (S.written out.new)
        (named_answer_text name.now answer.now) result }
    ensures cause { HasCause (S.faults out.old) (S.faults out.new) result }
{
    if answer.store.len() == 0 {
        return write_bytes(out, b"Empty\n");
    }
    write_opening(out, name)?;
    write_columns(out, answer.head.columns.as_slice())?;
    write_bytes(out, b") {\n")?;
    write_cells(out, answer)?;
    write_bytes(out, b"}\n")
}

// `relation NAME(`
fn write_opening<S: Sink>(out: &mut S, name: &[u8]) -> Result<(), Failed>
    ensures text { IsWritten (S.written out.old) (S.written out.new)
        (codes "relation " ++ (name.now ++ codes "(")) result }
    ensures cause { HasCause (S.faults out.old) (S.faults out.new) result }
{
    write_bytes(out, b"relation ")?;
    write_bytes(out, name)?;
    write_bytes(out, b"(")
}

// The lines of all cells. No cell is looked up.
fn write_cells<S: Sink>(out: &mut S, answer: &Answer) -> Result<(), Failed>
    requires room { HasRoom answer.now.store }
    ensures text { IsWritten (S.written out.old) (S.written out.new)
        (flat_map (row_line answer.now.head.columns)
        (answer_rows answer.now.head.columns answer.now.domain answer.now.store)) result }
    ensures cause { HasCause (S.faults out.old) (S.faults out.new) result }
{
    for (cell, zones) in answer.store.entries() {
        write_cell(out, answer, &cell, zones)?;
    }
    Ok(())
}

// The lines of the zones of a cell.
fn write_cell<S: Sink>(
    out: &mut S,
    answer: &Answer,
    cell: &Cell,
    zones: Zones<'_>,
) -> Result<(), Failed>
    requires room { HasRoom answer.now.store }
    requires zones { zones ≡ zones_at answer.now.store cell.now }
    ensures text { IsWritten (S.written out.old) (S.written out.new)
        (flat_map (row_line answer.now.head.columns)
        (cell_rows answer.now.head.columns answer.now.domain answer.now.store cell.now)) result }
    ensures cause { HasCause (S.faults out.old) (S.faults out.new) result }
{
    for zone in zones {
        write_row(out, answer, cell, &zone)?;
    }
    Ok(())
}

// The line of a zone.
fn write_row<S: Sink>(out: &mut S, answer: &Answer, cell: &Cell, zone: &Zone) -> Result<(), Failed>
    requires room { (h : ℕ) × IsRoom zone.now h }
    requires known { IsOfTexts answer.now cell.now.texts }
    ensures text { IsWritten (S.written out.old) (S.written out.new)
        (row_line answer.now.head.columns
        (record {
          values = cell_values answer.now.head.columns answer.now.domain answer.now.store
              cell.now;
          bounds = closed_bounds zone.now;
        })) result }
    ensures cause { HasCause (S.faults out.old) (S.faults out.new) result }
{
    let bounds = closed_bounds(zone);
    write_bytes(out, b"  (")?;
    write_cell_values(out, answer, cell)?;
    write_bytes(out, b")")?;
    write_conditions(out, answer.head.columns.as_slice(), bounds.as_slice())?;
    write_bytes(out, b";\n")
}

// The points and the texts of a cell, in head order.
fn write_cell_values<S: Sink>(out: &mut S, answer: &Answer, cell: &Cell) -> Result<(), Failed>
    requires known { IsOfTexts answer.now cell.now.texts }
    ensures text { IsWritten (S.written out.old) (S.written out.new)
        (joined_by (codes ", ") value_bytes
        (cell_values answer.now.head.columns answer.now.domain answer.now.store cell.now)) result }
    ensures cause { HasCause (S.faults out.old) (S.faults out.new) result }
{
    let shape = answer.store.shape();
    let points = Points {
        period: answer.store.period(),
    };
    let spelling = Spelling {
        times: &points,
        texts: None,
    };
    let values = Values {
        columns: answer.head.columns.as_slice(),
        domain: &answer.domain,
        times: &cell.residues[..shape.times as usize],
        numbers: &cell.texts[..shape.texts as usize],
    };
    write_values(out, &spelling, b"", b", ", values)
}

// Residues as points of a period.
#[derive(Clone, Copy)]
struct Points {
    period: i64,
}

impl Notation for Points {
    type Item = i64;

    ghost spells = { λ s _. pos 1 ≤ℤ s.period };

    ghost bytes = { λ s residue. residue_point s.period residue };

    fn write<S: Sink>(&self, out: &mut S, residue: &i64) -> Result<(), Failed> {
        let point = RowPoint {
            offset: *residue,
            period: self.period,
        };
        write_point(out, &point)
    }
}
