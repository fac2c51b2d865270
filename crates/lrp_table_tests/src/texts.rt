// Steps on a table of times beside two texts, with results that were worked out by hand.
ghost use Rattle.std.specs.Prelude.{◌≡◌, ◌∷◌, [], codes};
ghost use Rattle.lrp_store.specs.Tables.{AreNumbered};
ghost use Rattle.lrp_table_tests.specs.Times.{IsOfTimes};
ghost use Rattle.lrp_table_tests.specs.Evens.{evens, t_alone, time_and_text};

use crate::parts::{cell, list};
use lrp_algebra::{drop_data, extend, scan};
use lrp_model::{
    Column, DataText, Domain, Head, List, Name, Relation, Row, RowPoint, Sort, Term, TimeTerm,
    Value,
};
use lrp_tables::{Setting, StepFault, Table};
use std::alloc::Global;
use std::process::Abort;

fn t(rt: &impl Abort, alloc: Global) -> Name
    ensures { result ≡ codes "t" }
{
    Name::new(alloc, "t").expect(rt, "memory")
}

fn d(rt: &impl Abort, alloc: Global) -> Name
    ensures { result ≡ codes "d" }
{
    Name::new(alloc, "d").expect(rt, "memory")
}

// The texts `a` and `b`.
fn two_texts(rt: &impl Abort, alloc: Global) -> Domain {
    assert!(rt; DataText::fits("a") && DataText::fits("b"));
    let mut texts = list(rt, alloc, DataText::new(alloc, "b").expect(rt, "memory"));
    texts
        .push(DataText::new(alloc, "a").expect(rt, "memory"))
        .expect(rt, "memory");
    assert!(rt; texts.len() == 2);
    Domain::new(texts).expect(rt, "memory")
}

// The relation of the even times.
fn even_times(rt: &impl Abort, alloc: Global) -> Relation
    ensures { result ≡ evens }
{
    let column = Column {
        name: t(rt, alloc),
        sort: Sort::Time,
    };
    let at = RowPoint {
        offset: 0,
        period: 2,
    };
    let row = Row {
        values: list(rt, alloc, Value::Point { at }),
        bounds: List::new(alloc),
    };
    Relation {
        name: t(rt, alloc),
        columns: list(rt, alloc, column),
        rows: list(rt, alloc, row),
    }
}

// The variable `t`.
fn terms(rt: &impl Abort, alloc: Global) -> List<Term>
    ensures { result ≡ t_alone }
{
    let name = t(rt, alloc);
    let term = TimeTerm::Var { name, plus: 0 };
    list(rt, alloc, Term::Time { term })
}

// The even times, as `t`.
fn even(rt: &impl Abort, setting: &Setting<'_>) -> Table
    ensures times { IsOfTimes (codes "t" ∷ []) 2 1000 result }
    ensures numbered { AreNumbered setting.now.domain.now result.store }
{
    let terms = terms(rt, setting.alloc);
    scan(setting, &even_times(rt, setting.alloc), &terms, 2).expect(rt, "a cell")
}

// A head of the time `t` and the text `d`.
fn head(rt: &impl Abort, alloc: Global) -> Head
    ensures { result.columns ≡ time_and_text }
{
    let time = Column {
        name: t(rt, alloc),
        sort: Sort::Time,
    };
    let text = Column {
        name: d(rt, alloc),
        sort: Sort::Data,
    };
    let mut columns = list(rt, alloc, time);
    columns.push(text).expect(rt, "memory");
    Head { columns }
}

// The times of a table beside each text.
fn beside_texts(rt: &impl Abort, setting: &Setting<'_>, table: &Table) -> Result<Table, StepFault>
    requires times { IsOfTimes (codes "t" ∷ []) 2 1000 table.now }
    requires numbered { AreNumbered setting.now.domain.now table.now.store }
{
    extend(setting, table, &head(rt, setting.alloc))
}

#[test]
fn even_times_stand_beside_each_text(rt: HostRuntime) {
    let alloc = rt.alloc();
    let domain = two_texts(&rt, alloc);
    let setting = Setting {
        alloc,
        domain: &domain,
        cap: 2,
    };
    let wide = beside_texts(&rt, &setting, &even(&rt, &setting)).expect(&rt, "two cells");
    assert!(rt; wide.store.len() == 2);
    assert!(rt; wide.store.is_whole(&cell(0, 0)) && wide.store.is_whole(&cell(1, 0)));
    let times = drop_data(alloc, &wide, &d(&rt, alloc), &domain).expect(&rt, "memory");
    assert!(rt; times.store.len() == 1 && times.store.is_whole(&cell(0, 0)));
}
