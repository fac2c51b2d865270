// Steps on small tables of times, with results that were worked out by hand.
ghost use Rattle.std.specs.Prelude.{◌≡◌, ◌∷◌, ◌^◌, ◌≤◌, ◌≤ℤ◌, [], codes, nat_abs, pos};
ghost use Rattle.lrp_store.specs.Stores.{HasReach};
ghost use Rattle.lrp_store.specs.Tables.{AreNumbered};
ghost use Rattle.lrp_table_tests.specs.Times.{IsOfTimes, soon};

use crate::parts::cell;
use lrp_algebra::{drop_time, join, leaf, select, union};
use lrp_minus::{complement, minus};
use lrp_model::{Domain, List, Memory, Name, Op, RowPoint, Test, TimeTerm};
use lrp_tables::{Setting, StepFault, Table};
use std::alloc::Global;
use std::process::Abort;

fn t(rt: &impl Abort, alloc: Global) -> Name
    ensures { result ≡ codes "t" }
{
    Name::new(alloc, "t").expect(rt, "memory")
}

fn x(rt: &impl Abort, alloc: Global) -> Name
    ensures { result ≡ codes "x" }
{
    Name::new(alloc, "x").expect(rt, "memory")
}

fn y(rt: &impl Abort, alloc: Global) -> Name
    ensures { result ≡ codes "y" }
{
    Name::new(alloc, "y").expect(rt, "memory")
}

fn no_texts(rt: &impl Abort, alloc: Global) -> Domain {
    Domain::new(List::new(alloc)).expect(rt, "memory")
}

// Stops the test unless a period is small.
fn check_period(rt: &impl Abort, period: i64)
    ensures low { pos 1 ≤ℤ period }
    ensures high { nat_abs period ≤ 1000 }
{
    assert!(rt; 1 <= period);
    assert!(rt; period.unsigned_abs() <= 1000);
}

// The times of a residue modulo a small period, as `t`.
fn points(rt: &impl Abort, setting: &Setting<'_>, offset: i64, period: i64) -> Table
    ensures times { IsOfTimes (codes "t" ∷ []) (nat_abs period) 1000 result }
    ensures numbered { AreNumbered setting.now.domain.now result.store }
{
    check_period(rt, period);
    let name = t(rt, setting.alloc);
    let term = TimeTerm::Var { name, plus: 0 };
    let point = RowPoint { offset, period };
    leaf(setting, &Test::Member { term, point }).expect(rt, "a table")
}

// The instant 3, as `t`.
fn three(rt: &impl Abort, setting: &Setting<'_>) -> Table
    ensures times { IsOfTimes (codes "t" ∷ []) 1 1000 result }
    ensures numbered { AreNumbered setting.now.domain.now result.store }
{
    let name = t(rt, setting.alloc);
    let left = TimeTerm::Var { name, plus: 0 };
    let right = TimeTerm::Int { value: 3 };
    let op = Op::Eq;
    leaf(setting, &Test::Compare { left, op, right }).expect(rt, "a table")
}

// What two tables of periods 6 and 9 both have.
fn joined(setting: &Setting<'_>, left: &Table, right: &Table) -> Result<Table, StepFault>
    requires left { IsOfTimes (codes "t" ∷ []) 6 1000 left.now }
    requires right { IsOfTimes (codes "t" ∷ []) 9 1000 right.now }
{
    join(setting, left, right, &List::new(setting.alloc), 18)
}

// What the first of two such tables has and the second has not.
fn less(setting: &Setting<'_>, left: &Table, right: &Table) -> Result<Table, StepFault>
    requires left { IsOfTimes (codes "t" ∷ []) 6 1000 left.now }
    requires right { IsOfTimes (codes "t" ∷ []) 9 1000 right.now }
{
    minus(setting, left, right, 18)
}

// What one of two tables of periods 2 and 1 has.
fn united(setting: &Setting<'_>, left: &Table, right: &Table) -> Result<Table, StepFault>
    requires left { IsOfTimes (codes "t" ∷ []) 2 1000 left.now }
    requires right { IsOfTimes (codes "t" ∷ []) 1 1000 right.now }
    requires left_numbered { AreNumbered setting.now.domain.now left.now.store }
    requires right_numbered { AreNumbered setting.now.domain.now right.now.store }
{
    union(setting, left, right, 2)
}

// What a table of period 2 has not.
fn others(setting: &Setting<'_>, table: &Table) -> Result<Table, StepFault>
    requires { IsOfTimes (codes "t" ∷ []) 2 1000 table.now }
{
    complement(setting, table)
}

// The multiples of 4, as `x`.
fn fourths(rt: &impl Abort, setting: &Setting<'_>) -> Table
    ensures { IsOfTimes (codes "x" ∷ []) 4 1000 result }
{
    let name = x(rt, setting.alloc);
    let term = TimeTerm::Var { name, plus: 0 };
    let point = RowPoint {
        offset: 0,
        period: 4,
    };
    leaf(setting, &Test::Member { term, point }).expect(rt, "a table")
}

// What `y` is 1 or more after `x`.
fn later(rt: &impl Abort, setting: &Setting<'_>) -> Table
    ensures { IsOfTimes (codes "x" ∷ codes "y" ∷ []) 1 1000 result }
{
    let (before, after) = (x(rt, setting.alloc), y(rt, setting.alloc));
    let left = TimeTerm::Var {
        name: before,
        plus: 1,
    };
    let right = TimeTerm::Var {
        name: after,
        plus: 0,
    };
    let op = Op::Le;
    leaf(setting, &Test::Compare { left, op, right }).expect(rt, "a table")
}

// What `y` is 1 or more after a multiple of 4.
fn after_fourths(rt: &impl Abort, setting: &Setting<'_>) -> Table
    ensures { IsOfTimes (codes "x" ∷ codes "y" ∷ []) 4 1004 result }
{
    let (left, right) = (fourths(rt, setting), later(rt, setting));
    join(setting, &left, &right, &List::new(setting.alloc), 4).expect(rt, "four cells")
}

// The test that `y` is at most 2 after `x`.
fn within_two(rt: &impl Abort, alloc: Global) -> Test
    ensures { result ≡ soon }
{
    let (before, after) = (x(rt, alloc), y(rt, alloc));
    let left = TimeTerm::Var {
        name: after,
        plus: 0,
    };
    let right = TimeTerm::Var {
        name: before,
        plus: 2,
    };
    let op = Op::Le;
    Test::Compare { left, op, right }
}

// What of a table of `x` and `y` is at most 2 after `x`.
fn soon_after(rt: &impl Abort, setting: &Setting<'_>, table: &Table) -> Table
    requires { IsOfTimes (codes "x" ∷ codes "y" ∷ []) 4 1004 table.now }
    ensures { HasReach result.store (2 ^ 61) }
{
    let test = within_two(rt, setting.alloc);
    select(setting, table, &test, 4).expect(rt, "two cells")
}

// The table without a time.
fn without(alloc: Global, table: &Table, name: &Name) -> Result<Table, Memory>
    requires { HasReach table.now.store (2 ^ 61) }
{
    drop_time(alloc, table, name)
}

#[test]
fn sixths_and_ninths_meet_where_they_agree_modulo_three(rt: HostRuntime) {
    let alloc = rt.alloc();
    let domain = no_texts(&rt, alloc);
    let setting = Setting {
        alloc,
        domain: &domain,
        cap: 1,
    };
    let sixths = points(&rt, &setting, 0, 6);
    let both = joined(&setting, &sixths, &points(&rt, &setting, 3, 9)).expect(&rt, "a cell");
    assert!(rt; both.store.len() == 1 && both.store.is_whole(&cell(0, 12)));
    let none = joined(&setting, &sixths, &points(&rt, &setting, 1, 9)).expect(&rt, "no cell");
    assert!(rt; none.store.is_empty());
}

#[test]
fn sixths_less_ninths_are_two_cells(rt: HostRuntime) {
    let alloc = rt.alloc();
    let domain = no_texts(&rt, alloc);
    let setting = Setting {
        alloc,
        domain: &domain,
        cap: 2,
    };
    let sixths = points(&rt, &setting, 0, 6);
    let left = less(&setting, &sixths, &points(&rt, &setting, 3, 9)).expect(&rt, "two cells");
    assert!(rt; left.store.len() == 2);
    assert!(rt; left.store.is_whole(&cell(0, 0)) && left.store.is_whole(&cell(0, 6)));
}

#[test]
fn an_instant_beside_even_times_is_a_cell_of_its_own(rt: HostRuntime) {
    let alloc = rt.alloc();
    let domain = no_texts(&rt, alloc);
    let setting = Setting {
        alloc,
        domain: &domain,
        cap: 2,
    };
    let evens = points(&rt, &setting, 0, 2);
    let made = united(&setting, &evens, &three(&rt, &setting)).expect(&rt, "two cells");
    assert!(rt; made.store.len() == 2);
    assert!(rt; made.store.is_whole(&cell(0, 0)) && made.store.count(&cell(0, 1)) == 1);
    let odd = others(&setting, &evens).expect(&rt, "a cell");
    assert!(rt; odd.store.len() == 1 && odd.store.is_whole(&cell(0, 1)));
}

#[test]
fn what_is_soon_after_fourths_is_two_cells(rt: HostRuntime) {
    // Of the numbers 1 or 2 after a multiple of 4 the residues modulo 4 are 1 and 2.
    let alloc = rt.alloc();
    let domain = no_texts(&rt, alloc);
    let setting = Setting {
        alloc,
        domain: &domain,
        cap: 4,
    };
    let soon = soon_after(&rt, &setting, &after_fourths(&rt, &setting));
    assert!(rt; soon.store.len() == 2);
    let rest = without(alloc, &soon, &x(&rt, alloc)).expect(&rt, "memory");
    assert!(rt; rest.store.len() == 2);
    assert!(rt; rest.store.is_whole(&cell(0, 1)) && rest.store.is_whole(&cell(0, 2)));
}
