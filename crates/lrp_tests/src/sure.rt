// A shelf and a sink that never fail.
use crate::parts::{list, name};
use lrp_io::{File, Shelf, Sink, SureShelf, SureSink, load};
use lrp_model::Copies;

#[test]
fn a_shelf_that_never_fails_gives_its_files(rt: HostRuntime) {
    let alloc = rt.alloc();
    let file = File {
        name: name(&rt, alloc, "d"),
        bytes: list(&rt, alloc, b'a'),
    };
    let mut shelf = SureShelf::new(list(&rt, alloc, file));
    assert!(rt; shelf.copy(alloc).is_ok());
    let bytes = load(alloc, &mut shelf, "d").expect(&rt, "a file");
    assert!(rt; bytes.as_slice() == b"a".as_slice());
    let none = load(alloc, &mut shelf, "e").expect(&rt, "an empty file");
    assert!(rt; none.len() == 0);
}

#[test]
fn a_sink_that_never_fails_takes_all(rt: HostRuntime) {
    let mut out = SureSink::new();
    assert!(rt; out.write(b"ab") == Ok(2));
}
