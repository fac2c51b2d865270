// A database is copied, of which no command has need. That a copy is equal is a clause.
use lrp_rel::read_database;

#[test]
fn a_database_is_copied(rt: HostRuntime) {
    let alloc = rt.alloc();
    let database = read_database(alloc, b"relation r(s: stop) { (\"a\"); }").expect(
        &rt,
        "a database",
    );
    assert!(rt; database.copy(alloc).is_ok());
}
