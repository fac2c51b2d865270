// Copies of tables, answers and forms succeed. That one that succeeds is equal is a clause.
use crate::parts::{answer, list, name, sixths};
use lrp_answer_text::{Form, JsonTexts};
use lrp_model::{Copies, DataText, Domain, List};
use lrp_tables::{Table, Vars};
use std::alloc::Global;
use std::process::Abort;

// The multiples of 6 as a table.
fn table(rt: &impl Abort, alloc: Global) -> Table {
    let times = list(rt, alloc, name(rt, alloc));
    let texts = List::new(alloc);
    let store = sixths(rt, alloc);
    Table {
        vars: Vars { times, texts },
        store,
    }
}

#[test]
fn a_table_is_copied(rt: HostRuntime) {
    let alloc = rt.alloc();
    assert!(rt; table(&rt, alloc).copy(alloc).is_ok());
}

#[test]
fn an_answer_is_copied(rt: HostRuntime) {
    let alloc = rt.alloc();
    assert!(rt; answer(&rt, alloc).copy(alloc).is_ok());
}

#[test]
fn a_form_is_copied(rt: HostRuntime) {
    let alloc = rt.alloc();
    assert!(rt; DataText::fits("7"));
    let seven = DataText::new(alloc, "7").expect(&rt, "memory");
    let domain = Domain::new(list(&rt, alloc, seven)).expect(&rt, "memory");
    let texts = JsonTexts::new(alloc, &domain).expect(&rt, "memory");
    let form = Form::Json { texts };
    assert!(rt; form.copy(alloc).is_ok());
}
