// A token at the limits of its times, written and read.
use lrp_io::MemSink;
use lrp_model::{Domain, LIMIT, List, Shape, Spot};
use lrp_token::{TokenFault, read_token, write_token};

const TOKEN: &str =
    "T2/0707070707070707070707070707070707070707070707070707070707070707/4611686018427387904,-4611686018427387904/";

const BEYOND: &str = "T1/4611686018427387905,0/";

#[test]
fn times_at_the_limits_stand_in_a_token(rt: HostRuntime) {
    let alloc = rt.alloc();
    let spot = Spot {
        times: [LIMIT, -LIMIT, 0, 0, 0, 0, 0, 0],
        texts: [0; 8],
    };
    let shape = Shape { times: 2, texts: 0 };
    let domain = Domain::new(List::new(alloc)).expect(&rt, "memory");
    let mut out = MemSink::stop_after(alloc, 200, 200).expect(&rt, "memory");
    assert!(rt; write_token(&mut out, &spot, shape, &domain, &[7; 32]).is_ok());
    assert!(rt; out.written() == TOKEN.as_bytes());
}

#[test]
fn a_token_at_the_limits_is_read(rt: HostRuntime) {
    let alloc = rt.alloc();
    let shape = Shape { times: 2, texts: 0 };
    let resume = read_token(alloc, TOKEN, shape).expect(&rt, "a token");
    assert!(rt; resume.digest == Some([7; 32]));
    assert!(rt; resume.tuple.times.as_slice() == [LIMIT, -LIMIT].as_slice());
    assert!(rt; resume.tuple.texts.len() == 0);
    let beyond = read_token(alloc, BEYOND, shape);
    assert!(rt; beyond.err() == Some(TokenFault::Form));
    let other = Shape { times: 1, texts: 0 };
    assert!(rt; read_token(alloc, TOKEN, other).err() == Some(TokenFault::Shape));
}
