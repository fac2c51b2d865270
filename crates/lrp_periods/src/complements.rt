// Complements of parts: what none of the parts has.
ghost use Rattle.std.specs.Prelude.{◌≡◌, length, IfOk};
ghost use Rattle.lrp_tables.specs.Tables.{IsComplement};
ghost use Rattle.lrp_periods.specs.Operations.{AreOperand, CanBePart};
ghost use Rattle.lrp_periods.specs.Parts.{ArePartsOf, HasSome, IsPartOfSet, part_times, part_texts};
ghost use Rattle.lrp_periods.specs.Sets.{IsComplementOf};

use crate::parts::{PartsFault, small};
use crate::sieves::{can_be_sifted, sifted};
use lrp_minus::complement;
use lrp_model::List;
use lrp_tables::{Setting, Table};

/// The assignments of integers and texts of the domain to the table's variables that are none of the table.
///
/// Several parts are only gone through where they have one time column and no other, and all numbers of each cell.
pub fn complement_in_parts(
    setting: &Setting<'_>,
    of: &[Table],
    period: i64,
) -> Result<List<Table>, PartsFault>
    requires { AreOperand setting.now.domain.now period of.now }
    ensures { IfOk result (ArePartsOf setting.now.domain.now (part_times of.now)
        (part_texts of.now) period
        (IsComplementOf setting.now.domain.now (part_texts of.now)
        (HasSome setting.now.domain.now of.now))) }
{
    let mut parts = List::new(setting.alloc);
    let made = left_by_all(setting, of, period)?;
    parts.push(made)?;
    Ok(parts)
}

// What none of the parts has: one part's complement in its own period, and that of several by a sieve.
fn left_by_all(setting: &Setting<'_>, of: &[Table], period: i64) -> Result<Table, PartsFault>
    requires { AreOperand setting.now.domain.now period of.now }
    ensures { IfOk result (IsPartOfSet setting.now.domain.now (part_times of.now)
        (part_texts of.now) period
        (IsComplementOf setting.now.domain.now (part_texts of.now)
        (HasSome setting.now.domain.now of.now))) }
{
    if of.len() == 1 {
        return lacked_by_one(setting, of, period);
    }
    if !can_be_sifted(of) {
        return Err(PartsFault::GivenUp);
    }
    let made = sifted(setting, of, period)?;
    Ok(made)
}

// What the one part of a table lacks.
fn lacked_by_one(setting: &Setting<'_>, of: &[Table], period: i64) -> Result<Table, PartsFault>
    requires operand { AreOperand setting.now.domain.now period of.now }
    requires one { length of.now ≡ 1 }
    ensures { IfOk result (IsPartOfSet setting.now.domain.now (part_times of.now)
        (part_texts of.now) period
        (IsComplementOf setting.now.domain.now (part_texts of.now)
        (HasSome setting.now.domain.now of.now))) }
{
    let made = outside_of(setting, &of[0], period)?;
    Ok(made)
}

// What one part lacks, in its own period.
fn outside_of(setting: &Setting<'_>, part: &Table, period: i64) -> Result<Table, PartsFault>
    requires { CanBePart setting.now.domain.now period part.now }
    ensures { IfOk result (IsPartOfSet setting.now.domain.now part.now.vars.times
        part.now.vars.texts period (IsComplement setting.now.domain.now part.now)) }
{
    let made = complement(setting, part)?;
    small(made)
}
