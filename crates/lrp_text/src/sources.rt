// What is left of a text, and what stands next in it.
ghost use Rattle.std.specs.Prelude.{◌≡◌, ◌+◌, length, false};
ghost use Rattle.lrp_model.specs.Lexing.{skip as skip_rule, scan_in as scan_rule};
ghost use Rattle.lrp_text.specs.Lexemes.{IsLexeme};
ghost use Rattle.lrp_text.specs.Sources.{at_of, next_at, IsFoundLexeme, HasPlacesInRange};

use crate::bytes::skip;
use crate::lexemes::{Found, Lexeme};
use crate::scanning::scan;
use lrp_model::Place;

/// The rest of a text, the place where it begins, and whether its symbols are those of the wide language.
#[derive(Clone, Copy)]
pub struct Source<'a> {
    pub place: Place,
    pub rest: &'a str,
    pub wide: bool,
}

// Goes after the blanks and comments that come first.
#[tactic(auto, using(crate::proofs::Cuts::skip_cut, crate::proofs::Cuts::skip_rest, crate::proofs::Cuts::skip_shorter))]
fn after_blanks(source: Source<'_>) -> Source<'_>
    requires { HasPlacesInRange (at_of source) }
    ensures next { at_of result ≡ next_at (at_of source.entry) }
    ensures signs { result.wide ≡ source.entry.wide }
    ensures range { HasPlacesInRange (at_of result) }
{
    let text = source.rest;
    let (place, rest) = skip(source.place, text.as_bytes());
    Source {
        place,
        rest: &text[text.len() - rest.len()..],
        wide: source.wide,
    }
}

// Takes the token that the text begins with; at a bad byte, the bytes before it.
#[tactic(auto, using(crate::proofs::Cuts::scan_cut_in, crate::proofs::Cuts::scan_slice, crate::proofs::Cuts::scan_rest_in, crate::proofs::Cuts::scan_shorter, crate::proofs::Cuts::scan_size))]
fn first(wide: bool, text: &str) -> (Lexeme, &str, &str)
    ensures lexeme { IsLexeme result.0 (scan_rule wide text.now) }
    ensures slice { result.1.now ≡ (scan_rule wide text.now).taken }
    ensures rest { result.2.now ≡ (scan_rule wide text.now).left }
    ensures size { length result.1.now + length result.2.now ≡ length text.now }
{
    let (lexeme, left) = scan(wide, text.as_bytes());
    let end = text.len() - left.len();
    (lexeme, &text[..end], &text[end..])
}

// What stands next, with its slice and its place, and where the source goes on: after it, or at a bad byte where it was.
pub fn step(source: Source<'_>) -> (Found<'_>, Source<'_>)
    requires { HasPlacesInRange (at_of source) }
    ensures found { IsFoundLexeme source.entry.wide (at_of source.entry) result.0.lexeme result.0.slice.now
        result.0.place
        (at_of result.1) }
    ensures signs { result.1.wide ≡ source.entry.wide }
    ensures range { HasPlacesInRange (at_of result.1) }
{
    let Source {
        place,
        rest: text,
        wide,
    } = after_blanks(source);
    let (lexeme, slice, rest) = first(wide, text);
    let end = Place {
        line: place.line,
        column: place.column + slice.len() as u32,
    };
    if let Lexeme::Bad = lexeme {
        let found = Found {
            lexeme,
            slice,
            place: end,
        };
        return (found, source);
    }
    let found = Found {
        lexeme,
        slice,
        place,
    };
    (
        found,
        Source {
            place: end,
            rest,
            wide,
        },
    )
}
