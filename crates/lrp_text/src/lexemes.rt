// What a slice of the source says.
ghost use Rattle.std.specs.Prelude.{◌≡◌, ◌≢◌, Err};
ghost use Rattle.lrp_text.specs.Lexemes.{shows_symbol, shows_word, shows_name, shows_text, shows_end, shown_number, shown_period};
ghost use Rattle.lrp_text.specs.Stream.{kind_of};

use lrp_model::{Fault, LexKind, Place, Symbol, TokenKind, Word};

/// A token, as it is read: a number or a text that is lawful, or one that isn't, or a byte that begins no token.
#[derive(Clone, Copy, PartialEq, Eq)]
pub enum Lexeme {
    Name,
    Word(Word),
    Number(u64),
    LargeNumber,
    Text,
    LongText,
    Symbol(Symbol),
    End,
    Bad,
}

/// A lexeme of a source, with its slice and the place where it stands; a bad byte has no slice.
#[derive(Clone, Copy)]
pub struct Found<'a> {
    pub lexeme: Lexeme,
    pub slice: &'a str,
    pub place: Place,
}

impl Lexeme {
    // The kind of the token that it is, or its fault.
    pub fn kind(self) -> Result<TokenKind, LexKind>
        ensures { result ≡ kind_of self }
    {
        match self {
            Lexeme::Name => Ok(TokenKind::Name),
            Lexeme::Word(_) => Ok(TokenKind::Word),
            Lexeme::Number(_) => Ok(TokenKind::Number),
            Lexeme::LargeNumber => Err(LexKind::Number),
            Lexeme::Text => Ok(TokenKind::Text),
            Lexeme::LongText => Err(LexKind::TextTooLong),
            Lexeme::Symbol(_) => Ok(TokenKind::Symbol),
            Lexeme::End => Ok(TokenKind::End),
            Lexeme::Bad => Err(LexKind::BadByte),
        }
    }

    pub fn is_symbol(self, symbol: Symbol) -> bool
        ensures { result ≡ shows_symbol symbol self }
    {
        match self {
            Lexeme::Symbol(shown) => shown == symbol,
            _ => false,
        }
    }

    pub fn is_word(self, word: Word) -> bool
        ensures { result ≡ shows_word word self }
    {
        match self {
            Lexeme::Word(shown) => shown == word,
            _ => false,
        }
    }

    pub fn is_name(self) -> bool
        ensures { result ≡ shows_name self }
    {
        matches!(self, Lexeme::Name)
    }

    pub fn is_text(self) -> bool
        ensures { result ≡ shows_text self }
    {
        matches!(self, Lexeme::Text | Lexeme::LongText)
    }

    pub fn is_end(self) -> bool
        ensures { result ≡ shows_end self }
    {
        matches!(self, Lexeme::End)
    }

    // The number that it is.
    pub fn number(self) -> Result<u64, Fault>
        ensures value { result ≡ shown_number self }
        ensures takes_no_memory { result ≢ Err Fault.Memory }
    {
        match self {
            Lexeme::Number(number) => Ok(number),
            Lexeme::LargeNumber => Err(Fault::Number),
            _ => Err(Fault::Syntax),
        }
    }

    // The period that it is.
    pub fn period(self) -> Result<u64, Fault>
        ensures value { result ≡ shown_period self }
        ensures takes_no_memory { result ≢ Err Fault.Memory }
    {
        match self {
            Lexeme::Number(0) => Err(Fault::Period),
            Lexeme::Number(number) => Ok(number),
            Lexeme::LargeNumber => Err(Fault::Number),
            _ => Err(Fault::Syntax),
        }
    }
}
