// Complements of tables.
ghost use Rattle.std.specs.Prelude.{IfOk};
ghost use Rattle.lrp_store.specs.Stores.{IsStore};
ghost use Rattle.lrp_tables.specs.Steps.{CanComplement, IsComplementResult};
ghost use Rattle.lrp_minus.specs.Counts.{HasFewAbsences};

use crate::absences::{Absences, fill_texts};
use lrp_model::Copies;
use lrp_store::{Store, StoreFault};
use lrp_tables::{Setting, StepFault, Table, Vars};

/// The assignments of integers and texts of the domain to the table's variables that are none of the table.
///
/// `TooManyCells` comes exactly where they inhabit more than the setting's number of cells of the table's period.
pub fn complement(setting: &Setting<'_>, table: &Table) -> Result<Table, StepFault>
    requires { CanComplement table.now }
    ensures complement { IsComplementResult setting.now.cap setting.now.domain.now table.now
        result }
    ensures valid { IfOk result (λ made. IsStore made.store) }
    ensures few { IfOk result (λ made. HasFewAbsences table.now.store made.store) }
{
    let alloc = setting.alloc;
    let vars = Vars {
        times: table.vars.times.copy(alloc)?,
        texts: table.vars.texts.copy(alloc)?,
    };
    let mut out = Store::new(alloc, table.store.shape(), table.store.period());
    let absences = Absences {
        store: &table.store,
        size: setting.domain.len(),
        cap: setting.cap,
    };
    match fill_texts(&absences, &[0; 8], 0, &mut out) {
        Ok(()) => Ok(Table { vars, store: out }),
        Err(StoreFault::TooManyCells) => Err(StepFault::TooManyCells),
        Err(StoreFault::Memory) => Err(StepFault::Memory),
    }
}
