// A text without its escapes, and the texts of the sample.
use lrp_model::TokenKind;
use lrp_sample::sample_texts;
use lrp_text::{Lexer, text_of};

#[test]
fn a_text_is_given_without_its_escapes(rt: HostRuntime) {
    let mut lexer = Lexer::new("\"a\\\"b\"");
    let token = lexer.next().expect(&rt, "a token");
    assert!(rt; token.kind == TokenKind::Text);
    let text = text_of(rt.alloc(), token.slice).expect(&rt, "memory");
    assert!(rt; text.as_bytes() == b"a\"b".as_slice());
    let end = lexer.next().expect(&rt, "the end");
    assert!(rt; end.kind == TokenKind::End);
}

const DATABASE: &str =
    "relation trip(dep: time, arr: time, line: data) {\n  (0+1440n, 10+1440n, \"L0\") where arr = dep + 10;\n}\n";

const QUERY: &str =
    "{ t: time, l: data | exists u: time (trip(t, u, l) and not exists v: time exists w: time exists k: data (trip(v, w, k) and v >= u and v <= u + 15)) }\n";

#[test]
fn the_sample_of_one_row_is_these_texts(rt: HostRuntime) {
    let texts = sample_texts(rt.alloc(), 0, 1).expect(&rt, "memory");
    assert!(rt; texts.database.as_slice() == DATABASE.as_bytes());
    assert!(rt; texts.query.as_slice() == QUERY.as_bytes());
}
