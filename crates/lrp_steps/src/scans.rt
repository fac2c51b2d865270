// Scans: the assignments for which a relation holds the values of an atom's terms.
ghost use Rattle.lrp_tables.specs.Steps.{CanScan, IsScanResult};

use crate::asked::{asked_texts, has_another};
use crate::columns::{scan_vars, store_over};
use crate::filling::add_pattern;
use crate::layout::Wanted;
use crate::rows::pattern_of_row;
use lrp_model::{List, Relation, Term};
use lrp_store::StoreFault;
use lrp_tables::{Setting, StepFault, Table};

/// The assignments for which some row of the relation has the values of the terms as a member.
///
/// `TooManyCells` comes exactly where they inhabit more than the setting's number of cells of the period.
pub fn scan(
    setting: &Setting<'_>,
    relation: &Relation,
    terms: &List<Term>,
    period: i64,
) -> Result<Table, StepFault>
    requires { CanScan setting.now.domain.now period relation.now terms.now }
    ensures { IsScanResult setting.now.cap setting.now.domain.now period relation.now terms.now
        result }
{
    let mut table = match scan_rows(setting, relation, terms, period) {
        Ok(table) => table,
        Err(fault) => return Err(fault),
    };

    // Rows mostly don't come in the order of their cells.
    match table.store.compact() {
        Ok(()) => Ok(table),
        Err(memory) => Err(StepFault::from(memory)),
    }
}

// The same, with the cells as the rows bring them.
fn scan_rows(
    setting: &Setting<'_>,
    relation: &Relation,
    terms: &List<Term>,
    period: i64,
) -> Result<Table, StepFault>
    requires { CanScan setting.now.domain.now period relation.now terms.now }
    ensures { IsScanResult setting.now.cap setting.now.domain.now period relation.now terms.now
        result }
{
    let (alloc, domain) = (setting.alloc, setting.domain);
    let size = domain.len();
    let vars = scan_vars(alloc, terms)?;
    let asked = asked_texts(alloc, terms)?;
    let mut out = store_over(alloc, &vars, period);
    for row in relation.rows.as_slice() {
        if has_another(&row.values, asked.as_slice()) {
            continue;
        }
        let Some(pattern) = pattern_of_row(alloc, row, terms, &vars, domain)? else {
            continue;
        };
        let wanted = Wanted {
            pattern: &pattern,
            size,
            cap: setting.cap,
        };
        match add_pattern(wanted, &mut out) {
            Ok(()) => {}
            Err(StoreFault::TooManyCells) => return Err(StepFault::TooManyCells),
            Err(StoreFault::Memory) => return Err(StepFault::Memory),
        }
    }
    Ok(Table { vars, store: out })
}
