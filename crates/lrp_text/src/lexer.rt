// The lexer: the tokens of a text, one at a time.
use crate::lexemes::Found;
use crate::sources::{Source, step};
use lrp_model::{LexFault, Place, Token, TokenKind};
use std::marker::Model;

/// The rest of a text, and the place where it begins.
#[derive(Drop)]
pub struct Lexer<'a> {
    source: Source<'a>,
}

impl<'a> Model for Lexer<'a> {
    ghost use Rattle.std.specs.Prelude.{◌≡◌, false};
    ghost use Rattle.lrp_model.specs.Lexing.{Remainder};
    ghost use Rattle.lrp_text.specs.Sources.{at_of, HasPlacesInRange};

    ghost Value = { Remainder };

    ghost view = { λ l. at_of l.source };

    ghost invariant = { λ l. (l.source.wide ≡ false) × HasPlacesInRange (at_of l.source) };
}

impl<'a> Lexer<'a> {
    ghost use Rattle.std.specs.Prelude.{◌≡◌, ◌≤◌, false, length, IfOk};
    ghost use Rattle.lrp_model.specs.Lexing.{start};
    ghost use Rattle.lrp_text.specs.Sources.{IsFoundLexeme, tokens_left};
    ghost use Rattle.lrp_text.specs.Stream.{GivesNext, IsNextToken, IsSliceOf, IsNextText};
    ghost use Rattle.lrp_model.specs.Limits.{most_bytes};

    /// The lexer of a text of at most 16,777,216 bytes.
    pub fn new(text: &'a str) -> Self
        requires { length text.now ≤ most_bytes }
        ensures { result ≡ record { place = start; bytes = text.now } }
    {
        Lexer {
            source: Source {
                place: Place { line: 1, column: 1 },
                rest: text,
                wide: false,
            },
        }
    }

    // What stands next, with its slice and its place.
    fn found(&mut self) -> Found<'a>
        ensures { IsFoundLexeme false self.old result.lexeme result.slice.now result.place self.new }
    {
        let (found, source) = step(self.source);
        self.source = source;
        found
    }

    /// The next token. `LexKind::Number` is a number above 2^62, at its first digit, and `LexKind::TextTooLong` a text
    /// of more than 255 bytes without its escapes, at its opening quote; the lexer goes on after them.
    /// `LexKind::BadByte` stands at a character that begins no token, at one that may not stand in a text, or at the
    /// end inside a text, and comes again for ever, as the end does.
    ///
    /// For callers that want tokens alone. The parsers read by `TokenCursor`, which also knows the wide language's tokens.
    pub fn next(&mut self) -> Result<Token<'a>, LexFault>
        ensures step { GivesNext self.old self.new result }
        ensures order { IsNextToken result (tokens_left false self.old) (tokens_left false self.new) }
        ensures slice { IfOk result (λ t. IsSliceOf self.old t.slice.now t.place self.new) }
        // What the slice of a text means is what `text_of` gives of it.
        ensures text { IfOk result (λ t. t.kind ≡ TokenKind.Text
            → IsNextText self.old t.slice.now) }
    {
        let found = self.found();
        match found.lexeme.kind() {
            Ok(kind) => Ok(Token {
                kind,
                slice: found.slice,
                place: found.place,
            }),
            Err(kind) => Err(LexFault {
                kind,
                place: found.place,
            }),
        }
    }
}
