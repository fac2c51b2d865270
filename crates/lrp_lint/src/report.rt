// The lines of what is found.
ghost use Rattle.std.specs.Prelude.{⊤, ◌≡◌};
ghost use Rattle.std.specs.List.{flat_map};
ghost use Rattle.lrp_io.specs.Causes.{HasCause};
ghost use Rattle.lrp_io.specs.Pieces.{IsWritten};
ghost use Rattle.lrp_lint.specs.Reports.{flaw_line, query_finding_line, query_flaw_word, relation_name, row_finding_line, row_flaw_word};

use crate::findings::Findings;
use crate::flaws::{QueryFinding, QueryFlaw, RowFinding, RowFlaw};
use itoa::Buffer;
use lrp_database::Database;
use lrp_io::{Failed, Sink, Text};
use lrp_model::Relation;
use lrp_print::{Notation, write_bytes, write_each};

/// A database, and what is found in it and in a query over it.
#[derive(Drop)]
pub struct LintReport {
    pub database: Database,
    pub findings: Findings,
}

impl Text for LintReport {
    ghost use Rattle.lrp_lint.specs.Reports.{report_text};

    ghost text = { λ report. report_text report };

    fn write_to<S: Sink>(&self, out: &mut S) -> Result<(), Failed> {
        let relations = self.database.as_slice();
        write_each(out, &RowLines { relations }, self.findings.rows.as_slice())?;
        write_each(out, &QueryLines, self.findings.query.as_slice())?;
        write_bytes(out, b"end\n")
    }
}

impl RowFlaw {
    // The word for it.
    fn word(self) -> &'static [u8]
        ensures { result.now ≡ row_flaw_word self }
    {
        match self {
            RowFlaw::EmptyRow => b"EmptyRow",
            RowFlaw::UntiedTimes => b"UntiedTimes",
            RowFlaw::RowLimit => b"RowLimit",
        }
    }
}

impl QueryFlaw {
    // The word for it.
    fn word(self) -> &'static [u8]
        ensures { result.now ≡ query_flaw_word self }
    {
        match self {
            QueryFlaw::UnknownText => b"UnknownText",
            QueryFlaw::EmptyRelation => b"EmptyRelation",
        }
    }
}

// The lines of rows, each told by its number in its relation, from 1.
#[derive(Clone, Copy)]
struct RowLines<'a> {
    relations: &'a [Relation],
}

impl Notation for RowLines<'_> {
    type Item = RowFinding;

    ghost spells = { λ _ _. ⊤ };

    ghost bytes = { λ s finding. row_finding_line s.relations.now finding };

    fn write<S: Sink>(&self, out: &mut S, finding: &RowFinding) -> Result<(), Failed> {
        let name = name_at(self.relations, finding.relation);
        write_row(out, finding.flaw.word(), name, finding.row)
    }
}

// The line of a flaw of a row, by the name of its relation.
fn write_row<S: Sink>(out: &mut S, flaw: &[u8], name: &[u8], row: usize) -> Result<(), Failed>
    ensures text { IsWritten (S.written out.old) (S.written out.new)
        (flaw_line flaw.now name.now row) result }
    ensures cause { HasCause (S.faults out.old) (S.faults out.new) result }
{
    let mut number = Buffer::new();
    let pieces = [
        b"database ".as_slice(),
        flaw,
        b" ".as_slice(),
        name,
        b" ".as_slice(),
        number.format(row as u128 + 1).as_bytes(),
        b"\n".as_slice(),
    ];
    write_pieces(out, &pieces)
}

// The name of a relation, by its number.
fn name_at(relations: &[Relation], number: usize) -> &[u8]
    ensures { result.now ≡ relation_name relations.now number }
{
    match relations.get(number) {
        Some(relation) => relation.name.as_bytes(),
        None => &[],
    }
}

// The lines of places in a query.
#[derive(Clone, Copy)]
struct QueryLines;

impl Notation for QueryLines {
    type Item = QueryFinding;

    ghost spells = { λ _ _. ⊤ };

    ghost bytes = { λ _ finding. query_finding_line finding };

    fn write<S: Sink>(&self, out: &mut S, finding: &QueryFinding) -> Result<(), Failed> {
        let mut line = Buffer::new();
        let mut column = Buffer::new();
        let pieces = [
            b"query ".as_slice(),
            finding.flaw.word(),
            b" at ".as_slice(),
            line.format(finding.line).as_bytes(),
            b":".as_slice(),
            column.format(finding.column).as_bytes(),
            b"\n".as_slice(),
        ];
        write_pieces(out, &pieces)
    }
}

// Pieces, one after the other.
fn write_pieces<S: Sink>(out: &mut S, pieces: &[&[u8]]) -> Result<(), Failed>
    ensures text { IsWritten (S.written out.old) (S.written out.new)
        (flat_map (λ piece. piece.now) pieces.now) result }
    ensures cause { HasCause (S.faults out.old) (S.faults out.new) result }
{
    for piece in pieces {
        write_bytes(out, piece)?;
    }
    Ok(())
}
