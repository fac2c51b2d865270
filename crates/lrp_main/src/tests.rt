// Each call of a shelf that fails, reads of one byte, and sinks that fail or are short. A test stops where memory is
// refused, since each way out of a function is proved.
use lrp_io::{File, MemShelf, MemSink};
use lrp_model::{List, Name};
use lrp_top::{Status, run};
use std::alloc::Global;
use std::process::Abort;

const BUS: &[u8] = b"relation bus(t: time) { (5+60n); }\n";

const DEPARTURES: &[u8] = b"{ t: time | bus(t) }\n";

const ASK: [&str; 3] = ["ask", "db=d", "query=q"];

const ANSWER: &[u8] = b"relation answer(t: time) {\n  (5+60n);\n}\n";

const LIST: [&str; 5] = ["list", "db=d", "query=q", "from=0", "to=130"];

const LISTED: &[u8] = b"5\n65\n125\nend\n";

// A file in memory.
fn file(rt: &impl Abort, alloc: Global, name: &str, text: &[u8]) -> File {
    let bytes = text.to_vec(alloc).expect(rt, "memory");
    File {
        name: Name::new(alloc, name).expect(rt, "memory"),
        bytes: List::from_vec(bytes),
    }
}

// A list of one number.
fn only(rt: &impl Abort, alloc: Global, number: u32) -> List<u32> {
    let mut numbers = List::new(alloc);
    numbers.push(number).expect(rt, "memory");
    numbers
}

// The database d and the query q on a shelf that gives a byte in a read, and fails at this call.
fn shelf(rt: &impl Abort, alloc: Global, failing: u32) -> MemShelf {
    let mut files = List::new(alloc);
    files.push(file(rt, alloc, "d", BUS)).expect(rt, "memory");
    files
        .push(file(rt, alloc, "q", DEPARTURES))
        .expect(rt, "memory");
    MemShelf::in_pieces(files, only(rt, alloc, failing), 1)
}

// The words of a command.
fn words_of(rt: &impl Abort, alloc: Global, command: &[&str]) -> Vec<String> {
    let mut words = Vec::new(alloc);
    for word in command {
        let word = String::from_str(alloc, word).expect(rt, "memory");
        words.push(word).expect(rt, "memory");
    }
    words
}

// How a command ends, and the sink that it wrote to.
fn ended(alloc: Global, words: &[String], shelf: MemShelf, sink: MemSink) -> (Status, MemSink) {
    let mut shelf = shelf;
    let mut out = sink;
    let status = run(alloc, words, &mut shelf, &mut out);
    (status, out)
}

// Stops the test unless a sink with room for so many bytes has these of the list.
fn check_room(rt: &impl Abort, alloc: Global, words: &[String], room: u8) {
    let bytes = usize::from(room);
    let sink = MemSink::stop_after(alloc, bytes, 4).expect(rt, "memory");
    let (status, out) = ended(alloc, words, shelf(rt, alloc, 0), sink);
    assert!(rt; (status == Status::Done) == (bytes == LISTED.len()));
    assert!(rt; status == Status::Done || status == Status::Write);
    assert!(rt; out.written().len() == bytes && LISTED.starts_with(out.written()));
}

#[test]
fn a_short_sink_holds_a_front(rt: HostRuntime) {
    let words = words_of(&rt, rt.alloc(), &LIST);
    for room in 0..14 {
        check_room(&rt, rt.alloc(), words.as_slice(), room);
    }
}

#[test]
fn a_sink_that_fails_once_has_what_came_before(rt: HostRuntime) {
    let alloc = rt.alloc();
    let words = words_of(&rt, alloc, &ASK);
    let sink = MemSink::new(alloc, only(&rt, alloc, 2), 4).expect(&rt, "memory");
    let (status, out) = ended(alloc, words.as_slice(), shelf(&rt, alloc, 0), sink);
    assert!(rt; status == Status::Write);
    assert!(rt; out.written() == b"rela".as_slice());
}

// Stops the test unless the command ends so, with this text, where a call of the shelf fails.
fn check_call(
    rt: &impl Abort,
    alloc: Global,
    words: &[String],
    call: u32,
    wanted: (Status, &[u8]),
) {
    let sink = MemSink::stop_after(alloc, 100, 4).expect(rt, "memory");
    let (status, out) = ended(alloc, words, shelf(rt, alloc, call), sink);
    assert!(rt; status == wanted.0);
    assert!(rt; out.written() == wanted.1);
}

#[test]
fn a_read_that_fails_names_its_file(rt: HostRuntime) {
    // For each file there is a start, a read of each byte, and one that finds the end.
    let alloc = rt.alloc();
    let words = words_of(&rt, alloc, &ASK);
    for call in 1..38 {
        let told = (Status::Read, b"refused: read of database\n".as_slice());
        check_call(&rt, alloc, words.as_slice(), call, told);
    }
    for call in 38..61 {
        let told = (Status::Read, b"refused: read of query\n".as_slice());
        check_call(&rt, alloc, words.as_slice(), call, told);
    }
    check_call(&rt, alloc, words.as_slice(), 61, (Status::Done, ANSWER));
}
