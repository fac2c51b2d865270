//! Tokens of database and query texts, and the parsers that read them.
#![tactic(auto)]

mod bytes;
mod cursor;
mod lexemes;
mod lexer;
mod places;
mod reading;
mod scanning;
mod sources;
mod texts;

pub use cursor::TokenCursor;
pub use lexemes::{Found, Lexeme};
pub use lexer::Lexer;
pub use lrp_model::{LexFault, LexKind, Token, TokenKind};
pub use places::place_after;
pub use reading::{column, columns, integer, sort};
pub use texts::text_of;
