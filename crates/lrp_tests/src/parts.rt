// What the tests copy is made of. A test stops where memory is refused, since each way out of a function is proved.

use lrp_model::{
    Column, DataText, Head, List, Name, Place, RawColumn, RowPoint, Sort, Test, TimeTerm,
};
use std::alloc::Global;
use std::process::Abort;

/// A name.
pub fn name(rt: &impl Abort, alloc: Global, text: &str) -> Name {
    Name::new(alloc, text).expect(rt, "memory")
}

/// The text `7`.
pub fn seven(rt: &impl Abort, alloc: Global) -> DataText {
    assert!(rt; DataText::fits("7"));
    DataText::new(alloc, "7").expect(rt, "memory")
}

/// A list of one value.
pub fn list<T: Drop>(rt: &impl Abort, alloc: Global, x: T) -> List<T> {
    let mut xs = List::new(alloc);
    xs.push(x).expect(rt, "memory");
    xs
}

/// The place of a token.
pub const PLACE: Place = Place { line: 3, column: 7 };

/// One column.
pub fn columns(rt: &impl Abort, alloc: Global) -> List<Column> {
    let column = Column {
        name: name(rt, alloc, "l"),
        sort: Sort::Data,
    };
    list(rt, alloc, column)
}

/// A head of one column.
pub fn head(rt: &impl Abort, alloc: Global) -> Head {
    Head {
        columns: columns(rt, alloc),
    }
}

/// A column as it is written.
pub fn raw_column(rt: &impl Abort, alloc: Global) -> RawColumn {
    RawColumn {
        name: name(rt, alloc, "t"),
        place: PLACE,
        sort: Sort::Time,
        sort_place: PLACE,
    }
}

/// The test `7 in 1+4n`.
pub fn member() -> Test {
    Test::Member {
        term: TimeTerm::Int { value: 7 },
        point: RowPoint {
            offset: 1,
            period: 4,
        },
    }
}
