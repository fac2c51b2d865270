// Tokens of database and query texts, the places where they stand, and the faults that reading can meet.
ghost use Rattle.std.specs.Prelude.{◌≡◌};

use thiserror::Error;

/// A line and a column, both from 1; the column counts bytes.
#[derive(Clone, Copy, Debug, PartialEq, Eq)]
pub struct Place {
    pub line: u32,
    pub column: u32,
}

/// The symbols; `Le` is `<=`, `Ge` is `>=`, and `Bar` is `|`. `Star`, `*`, and `Differs`, `!=`, are symbols of the wide language alone.
#[derive(Clone, Copy, PartialEq, Eq)]
pub enum Symbol {
    Open,
    Close,
    OpenBrace,
    CloseBrace,
    Comma,
    Colon,
    Semicolon,
    Bar,
    Plus,
    Minus,
    Le,
    Ge,
    Lt,
    Gt,
    Equals,
    Star,
    Differs,
}

/// The reserved words, which are no names; `Letter` is the `n` of a point `c+kn`.
#[derive(Clone, Copy, PartialEq, Eq)]
pub enum Word {
    Relation,
    Where,
    Time,
    Data,
    Letter,
    Exists,
    Forall,
    Not,
    And,
    Or,
    Implies,
    In,
}

/// What kind of token a slice of the source is; a `Word` is a reserved word.
#[derive(Clone, Copy, PartialEq, Eq)]
pub enum TokenKind {
    Name,
    Word,
    Number,
    Text,
    Symbol,
    End,
}

/// A token as it stands in the source.
#[derive(Clone, Copy, PartialEq, Eq)]
pub struct Token<'a> {
    pub kind: TokenKind,
    pub slice: &'a str,
    pub place: Place,
}

/// Why a lexer gives no token: a number above the limit, a text of more than 255 bytes, or a character that begins no token.
#[derive(Clone, Copy, Debug, PartialEq, Eq)]
pub enum LexKind {
    Number,
    TextTooLong,
    BadByte,
}

/// A fault of a token, and where it stands.
#[derive(Clone, Copy, Debug, PartialEq, Eq, Error)]
#[error("{:?} at {}:{}", .kind, .place.line, .place.column)]
pub struct LexFault {
    pub kind: LexKind,
    pub place: Place,
}

/// Why a text is refused while it is read from left to right, or want of memory.
#[derive(Clone, Copy, Debug, PartialEq, Eq, Error)]
pub enum Fault {
    #[error("Syntax")]
    Syntax,
    #[error("Number")]
    Number,
    #[error("TextTooLong")]
    TextTooLong,
    #[error("Period")]
    Period,
    #[error("Deep")]
    Deep,
    #[error("memory")]
    Memory,
}

impl From<crate::Memory> for Fault {
    ghost use Rattle.std.specs.Prelude.{◌≡◌};
    ghost use Rattle.lrp_model.specs.declared.tokens.Fault.TheVariants.{Memory as memory};

    ghost from_gives = { λ _ e. e ≡ memory };

    fn from(_: crate::Memory) -> Self {
        Fault::Memory
    }
}
