// The text that a text token means.
ghost use Rattle.std.specs.Prelude.{◌≡◌, drop, IfOk};
ghost use Rattle.lrp_model.specs.Tokens.Token.{text_token};
ghost use Rattle.lrp_model.specs.Lexing.{scan};
ghost use Rattle.lrp_text.specs.Stream.{IsTextSlice};

use crate::scanning::character;
use lrp_model::{DataText, Memory};
use std::alloc::Global;
use std::str::from_utf8;

// The bytes after the first one.
fn after_first(text: &str) -> &[u8]
    ensures { result.now ≡ drop 1 text.now }
{
    match text.as_bytes() {
        [_, tail @ ..] => tail,
        none => none,
    }
}

/// The text of a text token's slice, as a lexer gave it, without its quotes and escapes.
pub fn text_of(alloc: Global, slice: &str) -> Result<DataText, Memory>
    requires { IsTextSlice slice.now }
    ensures { IfOk result (λ made. (scan slice.now).token ≡ text_token made) }
{
    let mut made = Vec::new(alloc);
    let mut rest = after_first(slice);
    while let Some((b, tail)) = character(rest) {
        made.push(b)?;
        rest = tail;
    }
    match from_utf8(&made) {
        Ok(text) => DataText::new(alloc, text),
        Err(_) => unreachable!(),
    }
}
