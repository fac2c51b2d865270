// The step `head` where the table before it has the head's columns already.
ghost use Rattle.std.specs.Prelude.{◌≡◌, IsTrue};
ghost use Rattle.lrp_tables.specs.Columns.{head_times, head_texts};
ghost use Rattle.lrp_eval.specs.Running.{StandsAtHead};

use crate::running::operand;
use lrp_model::{Column, Head, Name, Step, StepKind};
use lrp_tables::Table;

/// Whether a step is the step `head` of the last table, which has the head's columns in order. Then that table is the step's.
pub(crate) fn is_headed(tables: &[Table], head: &Head, step: &Step) -> bool
    ensures { IsTrue result → StandsAtHead head.now.columns tables.now step.now.kind }
{
    let StepKind::Extend { of } = &step.kind else {
        return false;
    };
    if *of == 0 || *of as usize != tables.len() {
        return false;
    }
    let table = operand(tables, *of);
    let (times, texts) = (table.vars.times.as_slice(), table.vars.texts.as_slice());
    has_columns(head.columns.as_slice(), times, texts)
}

/// Whether these are the names of the time columns and of the data columns, in order.
pub(crate) fn has_columns(columns: &[Column], times: &[Name], texts: &[Name]) -> bool
    ensures times { IsTrue result → times.now ≡ head_times columns.now }
    ensures texts { IsTrue result → texts.now ≡ head_texts columns.now }
{
    let [column, columns @ ..] = columns else {
        return times.is_empty() && texts.is_empty();
    };
    if column.sort.is_time() {
        let [time, times @ ..] = times else {
            return false;
        };
        column.name == *time && has_columns(columns, times, texts)
    } else {
        let [text, texts @ ..] = texts else {
            return false;
        };
        column.name == *text && has_columns(columns, times, texts)
    }
}
