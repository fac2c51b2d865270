// Unions of parts: those of both tables side by side.
ghost use Rattle.std.specs.Prelude.{◌≡◌, ◌≤◌, ◌≤ℤ◌, ◌^◌, ℤ, pos, nat_abs, IfOk};
ghost use Rattle.lrp_store.specs.Stores.{IsStore};
ghost use Rattle.lrp_tables.specs.Columns.{joint};
ghost use Rattle.lrp_tables.specs.Tables.{HasAssignment};
ghost use Rattle.lrp_periods.specs.Combining.{CanStandBeside, IsNothingOver};
ghost use Rattle.lrp_periods.specs.Operations.{CanCombineInParts};
ghost use Rattle.lrp_periods.specs.Parts.{ArePartsOf, HasSome, IsPartOfSet, part_times, part_texts};
ghost use Rattle.lrp_periods.specs.Sets.{IsExtensionOf, IsUnionOf};

use crate::parts::{PartsFault, add_part, small, some};
use lrp_algebra::union;
use lrp_model::{Copies, List, Memory};
use lrp_store::Store;
use lrp_tables::{Setting, Table};

/// The assignments of one table or the other, over the variables of both: those that a table does not have are free.
pub fn union_in_parts(
    setting: &Setting<'_>,
    lefts: &[Table],
    rights: &[Table],
    period: i64,
) -> Result<List<Table>, PartsFault>
    requires { CanCombineInParts setting.now.domain.now period lefts.now rights.now }
    ensures { IfOk result (ArePartsOf setting.now.domain.now
        (joint (part_times lefts.now) (part_times rights.now))
        (joint (part_texts lefts.now) (part_texts rights.now)) period
        (IsUnionOf setting.now.domain.now (joint (part_texts lefts.now) (part_texts rights.now))
        (HasSome setting.now.domain.now lefts.now) (HasSome setting.now.domain.now rights.now))) }
{
    let mut parts = List::new(setting.alloc);
    for left in lefts {
        let made = left_beside(setting, left, &rights[0])?;
        let more = add_part(setting, parts, made)?;
        parts = more;
    }
    for right in rights {
        let beside = right_beside(setting, &lefts[0], right)?;
        let both = add_part(setting, parts, beside)?;
        parts = both;
    }
    some(parts)
}

// The assignments of the left table over the variables of both.
fn left_beside(setting: &Setting<'_>, left: &Table, right: &Table) -> Result<Table, PartsFault>
    requires { (period : ℤ) × CanStandBeside setting.now.domain.now period left.now right.now }
    ensures { IfOk result (λ made. (period : ℤ)
        → CanStandBeside setting.now.domain.now period left.now right.now
        → IsPartOfSet setting.now.domain.now (joint left.now.vars.times right.now.vars.times)
        (joint left.now.vars.texts right.now.vars.texts) period
        (IsExtensionOf setting.now.domain.now (joint left.now.vars.texts right.now.vars.texts)
        (HasAssignment left.now setting.now.domain.now)) made) }
{
    let nothing = nothing_over(setting, right, 1)?;
    let made = union(setting, left, &nothing, left.store.period())?;
    small(made)
}

// The assignments of the right table over the variables of both.
fn right_beside(setting: &Setting<'_>, left: &Table, right: &Table) -> Result<Table, PartsFault>
    requires { (period : ℤ) × CanStandBeside setting.now.domain.now period left.now right.now }
    ensures { IfOk result (λ made. (period : ℤ)
        → CanStandBeside setting.now.domain.now period left.now right.now
        → IsPartOfSet setting.now.domain.now (joint left.now.vars.times right.now.vars.times)
        (joint left.now.vars.texts right.now.vars.texts) period
        (IsExtensionOf setting.now.domain.now (joint left.now.vars.texts right.now.vars.texts)
        (HasAssignment right.now setting.now.domain.now)) made) }
{
    let nothing = nothing_over(setting, left, 1)?;
    let made = union(setting, &nothing, right, right.store.period())?;
    small(made)
}

/// A table of this period over the variables of another one that has no assignment.
pub(crate) fn nothing_over(
    setting: &Setting<'_>,
    table: &Table,
    period: i64,
) -> Result<Table, Memory>
    requires low { pos 1 ≤ℤ period }
    requires high { period ≤ℤ pos (2 ^ 62) }
    ensures made { IfOk result (IsNothingOver table.now (nat_abs period)) }
    ensures valid { IfOk result (λ made. IsStore made.store) }
{
    let vars = table.vars.copy(setting.alloc)?;
    let store = Store::new(setting.alloc, table.store.shape(), period);
    store.shape();
    Ok(Table { vars, store })
}
