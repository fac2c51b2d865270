// The texts of a sort.
ghost use Rattle.std.specs.Prelude.{◌≡◌, ◌∷◌, [], IfOk, map};
ghost use Rattle.lrp_model.specs.declared.formulas.DataTerm.TheVariants.{Var as data_var};
ghost use Rattle.lrp_model.specs.declared.formulas.Term.TheVariants.{Data as data_term};
ghost use Rattle.lrp_eval.specs.Running.{IsSomeSort, IsSortResult, text_column, text_row};

use lrp_algebra::scan;
use lrp_model::{
    Column, Copies, DataTerm, DataText, List, Memory, Name, Relation, Row, Sort, Term, Value,
};
use lrp_tables::{Setting, StepFault, Table};
use std::alloc::Global;

/// The table of the texts of a sort, which are the rows of a relation of one column.
pub(crate) fn sort_step(
    setting: &Setting<'_>,
    name: &Name,
    texts: &List<DataText>,
) -> Result<Table, StepFault>
    requires { IsSomeSort setting.now.cap setting.now.domain.now name.now texts.now }
    ensures { IsSortResult setting.now.cap setting.now.domain.now name.now texts.now result }
{
    let relation = relation_of(setting.alloc, name, texts)?;
    let terms = variable(setting.alloc, name)?;
    scan(setting, &relation, &terms, 1)
}

// The relation of one data column whose rows are these texts.
fn relation_of(alloc: Global, name: &Name, texts: &List<DataText>) -> Result<Relation, Memory>
    ensures columns { IfOk result (λ made. made.columns ≡ text_column name.now ∷ []) }
    ensures rows { IfOk result (λ made. made.rows ≡ map text_row texts.now) }
{
    let mut columns = List::new(alloc);
    columns.push(Column {
        name: name.copy(alloc)?,
        sort: Sort::Data,
    })?;
    let mut rows = List::new(alloc);
    for text in texts.as_slice() {
        let row = row_of(alloc, text)?;
        rows.push(row)?;
    }
    Ok(Relation {
        name: name.copy(alloc)?,
        columns,
        rows,
    })
}

// The row of one text.
fn row_of(alloc: Global, text: &DataText) -> Result<Row, Memory>
    ensures { IfOk result (λ made. made ≡ text_row text.now) }
{
    let mut values = List::new(alloc);
    values.push(Value::Const {
        text: text.copy(alloc)?,
    })?;
    Ok(Row {
        values,
        bounds: List::new(alloc),
    })
}

// The term that is a data variable.
fn variable(alloc: Global, name: &Name) -> Result<List<Term>, Memory>
    ensures { IfOk result (λ made. made ≡ data_term (data_var name.now) ∷ []) }
{
    let mut terms = List::new(alloc);
    terms.push(Term::Data {
        term: DataTerm::Var {
            name: name.copy(alloc)?,
        },
    })?;
    Ok(terms)
}
