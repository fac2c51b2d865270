// Copies succeed, and have what was copied. Queries are never let go: to prove how a formula is dropped takes longer than all
// the rest.
use crate::parts::{PLACE, columns, head, list, member, name, raw_column, seven};
use lrp_edits::Edit;
use lrp_io::{File, MemShelf, MemSink, Sink};
use lrp_model::*;
use lrp_sample::Texts;
use lrp_token::Resume;
use std::alloc::Global;
use std::mem::forget;
use std::process::Abort;

fn row(rt: &impl Abort, alloc: Global) -> Row {
    let text = seven(rt, alloc);
    let bound = Bound {
        left: 1,
        right: 0,
        most: 100,
    };
    Row {
        values: list(rt, alloc, Value::Const { text }),
        bounds: list(rt, alloc, bound),
    }
}

#[test]
fn relations_are_copied(rt: HostRuntime) {
    let alloc = rt.alloc();
    let relation = Relation {
        name: name(&rt, alloc, "bus"),
        columns: columns(&rt, alloc),
        rows: list(&rt, alloc, row(&rt, alloc)),
    };
    let copy = relation.copy(alloc).expect(&rt, "memory");
    assert!(rt; copy.name == relation.name);
    assert!(rt; copy.columns.len() == 1 && copy.rows.len() == 1);
}

fn located<T>(item: T) -> Located<T> {
    Located { place: PLACE, item }
}

fn raw_row(rt: &impl Abort, alloc: Global) -> RawRow {
    let at = Integer {
        negative: true,
        size: 3,
    };
    let point = WrittenValue::Point { at, period: 60 };
    let bound = RawBound {
        left: located(name(rt, alloc, "t")),
        op: BoundOp::AtLeast,
        side: Side::Alone { value: at },
    };
    RawRow {
        values: list(rt, alloc, located(point)),
        bounds: list(rt, alloc, bound),
    }
}

#[test]
fn written_relations_are_copied(rt: HostRuntime) {
    let alloc = rt.alloc();
    let relation = RawRelation {
        name: located(name(&rt, alloc, "bus")),
        columns: list(&rt, alloc, raw_column(&rt, alloc)),
        rows: list(&rt, alloc, located(raw_row(&rt, alloc))),
    };
    let copy = relation.copy(alloc).expect(&rt, "memory");
    assert!(rt; copy.name.place == PLACE && copy.name.item == relation.name.item);
    assert!(rt; copy.columns.len() == 1 && copy.rows.len() == 1);
}

fn denied(rt: &impl Abort, alloc: Global) -> RawFormula {
    let term = RawTerm {
        kind: RawTermKind::Int { value: 3 },
        place: PLACE,
    };
    let point = RowPoint {
        offset: 1,
        period: 4,
    };
    let kind = RawKind::Member { term, point };
    let of = Box::new(alloc, RawFormula { kind, place: PLACE }).expect(rt, "memory");
    RawFormula {
        kind: RawKind::Not { of },
        place: PLACE,
    }
}

#[test]
fn queries_are_copied(rt: HostRuntime) {
    let alloc = rt.alloc();
    let query = Query {
        head: head(&rt, alloc),
        body: denied(&rt, alloc),
    };
    let copy = query.copy(alloc).expect(&rt, "memory");
    assert!(rt; copy.body.place == PLACE);
    let body = query.body.copy(alloc).expect(&rt, "memory");
    assert!(rt; body.place == PLACE);
    forget(copy);
    forget(body);
    forget(query);
}

fn raw_denied(rt: &impl Abort, alloc: Global) -> RawFormula {
    let term = RawTerm {
        kind: RawTermKind::Int { value: 3 },
        place: PLACE,
    };
    let kind = RawKind::Atom {
        relation: name(rt, alloc, "bus"),
        terms: list(rt, alloc, term),
    };
    let of = Box::new(alloc, RawFormula { kind, place: PLACE }).expect(rt, "memory");
    RawFormula {
        kind: RawKind::Not { of },
        place: PLACE,
    }
}

#[test]
fn raw_queries_are_copied(rt: HostRuntime) {
    let alloc = rt.alloc();
    let query = RawQuery {
        head: list(&rt, alloc, raw_column(&rt, alloc)),
        body: raw_denied(&rt, alloc),
    };
    let copy = query.copy(alloc).expect(&rt, "memory");
    assert!(rt; copy.body.place == PLACE);
    let body = query.body.copy(alloc).expect(&rt, "memory");
    assert!(rt; body.place == PLACE);
    forget(copy);
    forget(body);
    forget(query);
}

fn since(rt: &impl Abort, alloc: Global) -> RawFormula {
    let point = RowPoint {
        offset: 1,
        period: 4,
    };
    let term = RawTerm {
        kind: RawTermKind::Int { value: 3 },
        place: PLACE,
    };
    let kind = RawKind::Member { term, point };
    let left = Box::new(alloc, RawFormula { kind, place: PLACE }).expect(rt, "memory");
    let kind = RawKind::And {
        of: Vec::new(alloc),
    };
    let right = Box::new(alloc, RawFormula { kind, place: PLACE }).expect(rt, "memory");
    let kind = RawKind::Paired {
        word: Paired::Since,
        name: name(rt, alloc, "t"),
        name_place: PLACE,
        left,
        right,
    };
    RawFormula { kind, place: PLACE }
}

#[test]
fn queries_with_operators_are_copied(rt: HostRuntime) {
    let alloc = rt.alloc();
    let query = RawQuery {
        head: list(&rt, alloc, raw_column(&rt, alloc)),
        body: since(&rt, alloc),
    };
    let copy = query.copy(alloc).expect(&rt, "memory");
    assert!(rt; copy.body.place == PLACE);
    let body = query.body.copy(alloc).expect(&rt, "memory");
    assert!(rt; body.place == PLACE);
    forget(copy);
    forget(body);
    forget(query);
}

fn step(rt: &impl Abort, alloc: Global) -> Step {
    let kind = StepKind::Join {
        left: 1,
        right: 2,
        tests: list(rt, alloc, member()),
    };
    Step {
        kind,
        period: 4,
        reach: 16,
    }
}

fn domain(rt: &impl Abort, alloc: Global) -> Domain {
    let texts = list(rt, alloc, seven(rt, alloc));
    assert!(rt; texts.len() == 1);
    Domain::new(texts).expect(rt, "memory")
}

#[test]
fn plans_are_copied(rt: HostRuntime) {
    let alloc = rt.alloc();
    let plan = Plan {
        steps: list(&rt, alloc, step(&rt, alloc)),
        head: head(&rt, alloc),
        domain: domain(&rt, alloc),
    };
    let copy = plan.copy(alloc).expect(&rt, "memory");
    assert!(rt; copy.steps.len() == 1 && copy.domain.len() == 1);
}

#[test]
fn edits_are_copied(rt: HostRuntime) {
    let alloc = rt.alloc();
    let edit = Edit {
        add: true,
        relation: name(&rt, alloc, "bus"),
        row: row(&rt, alloc),
    };
    let copy = edit.copy(alloc).expect(&rt, "memory");
    assert!(rt; copy.add && copy.relation == edit.relation);
    assert!(rt; copy.row.values.len() == 1 && copy.row.bounds.len() == 1);
}

#[test]
fn texts_of_the_sample_are_copied(rt: HostRuntime) {
    let alloc = rt.alloc();
    let texts = Texts {
        database: list(&rt, alloc, b'd'),
        query: list(&rt, alloc, b'q'),
    };
    let copy = texts.copy(alloc).expect(&rt, "memory");
    assert!(rt; copy.database.as_slice() == b"d".as_slice());
    assert!(rt; copy.query.as_slice() == b"q".as_slice());
}

#[test]
fn places_in_a_listing_are_copied(rt: HostRuntime) {
    let alloc = rt.alloc();
    let tuple = Tuple {
        times: list(&rt, alloc, -65),
        texts: list(&rt, alloc, seven(&rt, alloc)),
    };
    let resume = Resume {
        tuple,
        digest: Some([7; 32]),
    };
    let copy = resume.copy(alloc).expect(&rt, "memory");
    assert!(rt; copy.digest == resume.digest);
    assert!(rt; copy.tuple.times.as_slice() == [-65].as_slice());
    assert!(rt; copy.tuple.texts.len() == 1);
}

#[test]
fn shelves_and_sinks_are_copied(rt: HostRuntime) {
    let alloc = rt.alloc();
    let file = File {
        name: name(&rt, alloc, "d"),
        bytes: list(&rt, alloc, b'a'),
    };
    let shelf = MemShelf::new(list(&rt, alloc, file), list(&rt, alloc, 2));
    let copy = shelf.copy(alloc).expect(&rt, "memory");
    assert!(rt; copy.faults() == 0);
    let mut sink = MemSink::stop_after(alloc, 7, 4).expect(&rt, "memory");
    assert!(rt; sink.write(b"ab") == Ok(2));
    let copy = sink.copy(alloc).expect(&rt, "memory");
    assert!(rt; copy.written() == b"ab".as_slice());
}
