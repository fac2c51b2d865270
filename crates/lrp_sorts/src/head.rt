// The head of a query: its binders, and their faults.
ghost use Rattle.std.specs.Prelude.{◌≡◌, ◌<◌, ◌+◌, ◌==◌, [], IfOk, if◌then◌else◌};
ghost use Rattle.lrp_model.specs.Sorts.{is_time};
ghost use Rattle.lrp_model.specs.Faults.{earliest, ninth};
ghost use Rattle.lrp_model.specs.Sorting.{query_standing, query_fault, head_faults};
ghost use Rattle.lrp_model.specs.declared.faults.QueryKind.TheVariants.{Wide as wide};

use crate::catalog::Catalog;
use crate::earliest::{fault_where, sooner_of};
use crate::finding::binder_fault;
use crate::scope::{Scope, last_sort};
use crate::width::MOST;
use lrp_model::{Memory, QueryFault, QueryKind, RawColumn, Sort};
use std::alloc::Global;
use std::collections::HashMap;

/// The binders of a head, and the first fault of one of them.
#[derive(Drop)]
pub struct OpenedHead<'a> {
    pub fault: Option<QueryFault>,
    pub scope: Scope<'a>,
}

// The binders of a head, each among those before it.
pub fn open<'a>(
    alloc: Global,
    catalog: &Catalog<'_>,
    columns: &'a [RawColumn],
) -> Result<OpenedHead<'a>, Memory>
    ensures fault { IfOk result (λ made. made.fault
        ≡ earliest query_standing (head_faults catalog.now [] columns.now)) }
    ensures scope { IfOk result (λ made. made.scope
        ≡ record { quantifiers = []; head = columns.now }) }
{
    if columns.len() > MOST {
        return open_long(alloc, catalog, columns);
    }
    Ok(OpenedHead {
        fault: short_fault(catalog, columns),
        scope: Scope::short(alloc, columns),
    })
}

// The first fault of a binder of a head of few columns.
fn short_fault(catalog: &Catalog<'_>, columns: &[RawColumn]) -> Option<QueryFault>
    ensures { result ≡ earliest query_standing (head_faults catalog.now [] columns.now) }
{
    let mut found = None;
    for i in 0..columns.len() {
        let column = &columns[i];
        let bound = last_sort(&columns[..i], &column.name).is_some();
        found = sooner_of(found, binder_fault(catalog, bound, column));
    }
    found
}

// The binders of a long head. A map from names keeps it linear in the number of columns.
fn open_long<'a>(
    alloc: Global,
    catalog: &Catalog<'_>,
    columns: &'a [RawColumn],
) -> Result<OpenedHead<'a>, Memory>
    ensures fault { IfOk result (λ made. made.fault
        ≡ earliest query_standing (head_faults catalog.now [] columns.now)) }
    ensures scope { IfOk result (λ made. made.scope
        ≡ record { quantifiers = []; head = columns.now }) }
{
    let mut sorts: HashMap<&'a [u8], &'a Sort> = HashMap::new(alloc);
    let mut found = None;
    for column in columns {
        let bound = sorts.contains_key(column.name.as_bytes());
        found = sooner_of(found, binder_fault(catalog, bound, column));
        sorts.insert(column.name.as_bytes(), &column.sort)?;
    }
    Ok(OpenedHead {
        fault: found,
        scope: Scope::of(alloc, columns, sorts),
    })
}

// How many columns of each kind stand before a column.
#[derive(Clone, Copy)]
struct Before {
    times: usize,
    texts: usize,
}

impl Before {
    // Whether as many as may be stand before a column of this sort.
    fn is_full(self, sort: &Sort) -> bool
        ensures { result ≡ (if is_time sort.now then self.times == 8 else self.texts == 8) }
    {
        if sort.is_time() {
            self.times == MOST
        } else {
            self.texts == MOST
        }
    }

    // One column of this sort more.
    fn and(self, sort: &Sort) -> Before
        requires { self.times + self.texts < usize.MAX }
        ensures { result ≡ (if is_time sort.now then record self { times = self.times + 1 } else
            record self { texts = self.texts + 1 }) }
    {
        if sort.is_time() {
            Before {
                times: self.times + 1,
                ..self
            }
        } else {
            Before {
                texts: self.texts + 1,
                ..self
            }
        }
    }
}

// A ninth time column, or a ninth column among those of all data sorts.
pub fn head_width(columns: &[RawColumn]) -> Option<QueryFault>
    ensures { result ≡ earliest query_standing (ninth (query_fault wide) 0 0 columns.now) }
{
    let mut found = None;
    let mut before = Before { times: 0, texts: 0 };
    for column in columns {
        let full = before.is_full(&column.sort);
        found = sooner_of(found, fault_where(full, QueryKind::Wide, column.place));
        before = before.and(&column.sort);
    }
    found
}
