// The sides of a comparison, by their columns.
ghost use Rattle.std.specs.Prelude.{◌≡◌, ◌≤◌, ◌++◌, ◌∷◌, [], map, length, Contains, IfOk};
ghost use Rattle.lrp_model.specs.Reach.{term_offset};
ghost use Rattle.lrp_model.specs.Satisfaction.{Assignment, time_value};
ghost use Rattle.lrp_tables.specs.Columns.{IsPlace, names_of_time};
ghost use Rattle.lrp_tables.specs.Tables.{AreNamesAmong};
ghost use Rattle.lrp_steps.specs.Comparisons.{side_value};

use crate::comparisons::ShiftedColumn;
use lrp_model::{List, Name, TimeTerm};
use lrp_tables::place_of;

/// The value of a time term of these variables.
pub fn side_of(term: &TimeTerm, names: &List<Name>) -> ShiftedColumn
    requires few { length names.now ≤ 8 }
    requires names { AreNamesAmong (names_of_time term.now) names.now }
    ensures value { (env : Assignment) → side_value result (map env.times names.now)
        ≡ time_value env term.now }
    ensures column { result.column ≤ length names.now }
    ensures plus { result.plus ≡ term_offset term.now }
{
    match term {
        TimeTerm::Var { name, plus } => ShiftedColumn {
            column: column_among(names, name),
            plus: *plus,
        },
        TimeTerm::Int { value } => ShiftedColumn {
            column: 0,
            plus: *value,
        },
    }
}

/// The number of the column with this name, from 1.
pub fn column_among(names: &List<Name>, name: &Name) -> usize
    requires few { length names.now ≤ 8 }
    requires name { Contains names.now name.now }
    ensures place { IsPlace names.now result name.now }
    ensures high { result ≤ length names.now }
{
    match place_of(names, name) {
        Some(place) => place + 1,
        None => unreachable!(),
    }
}
