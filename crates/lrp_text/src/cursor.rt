// The tokens of a text that are left, for readers that take one after another.
use crate::lexemes::{Found, Lexeme};
use crate::sources::{Source, step};
use crate::texts::text_of;
use lrp_model::{DataText, Fault, Name, Place, Symbol, Word};
use std::alloc::Global;
use std::marker::Model;

/// The tokens of a text that are left to read; a reader looks at the next one and takes it.
#[derive(Drop)]
pub struct TokenCursor<'a> {
    here: Source<'a>,
    found: Found<'a>,
    after: Source<'a>,
}

impl<'a> Model for TokenCursor<'a> {
    ghost use Rattle.std.specs.Prelude.{List};
    ghost use Rattle.lrp_model.specs.Tokens.{Placed};
    ghost use Rattle.lrp_text.specs.Sources.{at_of, tokens_left, IsCursorAt};

    ghost Value = { List Placed };

    ghost view = { λ c. tokens_left c.here.wide (at_of c.here) };

    ghost invariant = { λ c. IsCursorAt c.here c.found c.after };
}

impl<'a> TokenCursor<'a> {
    ghost use Rattle.std.specs.Prelude.{◌≡◌, ◌≢◌, ◌≤◌, ◌<◌, ◌∷◌, true, false, length, Ok, Err, IfOk};
    ghost use Rattle.lrp_model.specs.Tokens.{Placed};
    ghost use Rattle.lrp_model.specs.Lexing.{tokens, tokens_in};
    ghost use Rattle.lrp_model.specs.Limits.{greatest_number, most_bytes};
    ghost use Rattle.lrp_text.specs.Parsers.{Reads, look, eat};
    ghost use Rattle.lrp_text.specs.Taking.{here, is_symbol, is_word, is_name, is_token_named, expect_named, is_text, is_end, expect, expect_word, expect_end, after_end, number, period, IsWrittenPeriod, name, text};
    ghost use Rattle.lrp_text.specs.Sources.{Stands, IsInnerToken};

    /// The tokens of a text of at most 16,777,216 bytes.
    pub fn new(text: &'a str) -> Self
        requires { length text.now ≤ most_bytes }
        ensures { result ≡ tokens text.now }
    {
        TokenCursor::of(text, false)
    }

    /// The same, where the flag says that the symbols of the wide language are among the tokens.
    pub fn of(text: &'a str, wide: bool) -> Self
        requires { length text.now ≤ most_bytes }
        ensures { result ≡ tokens_in wide text.now }
    {
        let here = Source {
            place: Place { line: 1, column: 1 },
            rest: text,
            wide,
        };
        let (found, after) = step(here);
        TokenCursor { here, found, after }
    }

    /// What stands next, for a reader that decides by more than one kind of token.
    #[tactic(auto, using(crate::proofs::Standing::stands_next))]
    pub fn peek(&self) -> Found<'a>
        ensures { Stands self.now result.lexeme result.slice.now result.place }
    {
        self.found
    }

    /// Goes after the next token, which is not the end, nor a byte that begins none.
    pub fn advance(&mut self)
        requires { IsInnerToken self.old }
        ensures { (t : Placed) × (self.old ≡ t ∷ self.new) }
    {
        let here = self.after;
        let (found, after) = step(here);
        self.here = here;
        self.found = found;
        self.after = after;
    }

    /// The place of the next token.
    pub fn place(&self) -> Place
        ensures { here self.now ≡ Ok (result, self.now) }
    {
        self.peek().place
    }

    /// Whether this symbol comes next.
    pub fn sees(&self, symbol: Symbol) -> bool
        ensures { look false (is_symbol symbol) self.now ≡ Ok (result, self.now) }
    {
        self.peek().lexeme.is_symbol(symbol)
    }

    /// Whether this reserved word comes next.
    pub fn sees_word(&self, word: Word) -> bool
        ensures { look false (is_word word) self.now ≡ Ok (result, self.now) }
    {
        self.peek().lexeme.is_word(word)
    }

    /// Whether a name comes next.
    pub fn sees_name(&self) -> bool
        ensures { look false is_name self.now ≡ Ok (result, self.now) }
    {
        self.peek().lexeme.is_name()
    }

    /// Whether this name comes next, which is no reserved word.
    pub fn sees_named(&self, word: &str) -> bool
        ensures { look false (is_token_named word.now) self.now ≡ Ok (result, self.now) }
    {
        let next = self.peek();
        next.lexeme.is_name() && next.slice == word
    }

    /// Takes this name, or refuses what stands there.
    pub fn expect_named(&mut self, word: &str) -> Result<(), Fault>
        ensures value { Reads (expect_named word.now self.old) result self.new }
        ensures shorter { length self.new ≤ length self.old }
        ensures fewer { IfOk result (λ _. length self.new < length self.old) }
        ensures takes_no_memory { result ≢ Err Fault.Memory }
    {
        if !self.sees_named(word) {
            return Err(Fault::Syntax);
        }
        self.advance();
        Ok(())
    }

    /// Whether a text comes next, however long.
    pub fn sees_text(&self) -> bool
        ensures { look false is_text self.now ≡ Ok (result, self.now) }
    {
        self.peek().lexeme.is_text()
    }

    /// Whether the end comes next.
    pub fn sees_end(&self) -> bool
        ensures { look false is_end self.now ≡ Ok (result, self.now) }
    {
        self.peek().lexeme.is_end()
    }

    /// Takes this symbol, if it comes next.
    pub fn eat(&mut self, symbol: Symbol) -> bool
        ensures value { eat (is_symbol symbol) self.old ≡ Ok (result, self.new) }
        ensures shorter { length self.new ≤ length self.old }
        ensures fewer { result ≡ true → length self.new < length self.old }
    {
        if !self.sees(symbol) {
            return false;
        }
        self.advance();
        true
    }

    /// Takes this reserved word, if it comes next.
    pub fn eat_word(&mut self, word: Word) -> bool
        ensures value { eat (is_word word) self.old ≡ Ok (result, self.new) }
        ensures shorter { length self.new ≤ length self.old }
        ensures fewer { result ≡ true → length self.new < length self.old }
    {
        if !self.sees_word(word) {
            return false;
        }
        self.advance();
        true
    }

    /// Takes this symbol, or refuses what stands there.
    pub fn expect(&mut self, symbol: Symbol) -> Result<(), Fault>
        ensures value { Reads (expect symbol self.old) result self.new }
        ensures shorter { length self.new ≤ length self.old }
        ensures fewer { IfOk result (λ _. length self.new < length self.old) }
        ensures takes_no_memory { result ≢ Err Fault.Memory }
    {
        if self.eat(symbol) {
            Ok(())
        } else {
            Err(Fault::Syntax)
        }
    }

    /// Takes this reserved word, or refuses what stands there.
    pub fn expect_word(&mut self, word: Word) -> Result<(), Fault>
        ensures value { Reads (expect_word word self.old) result self.new }
        ensures shorter { length self.new ≤ length self.old }
        ensures fewer { IfOk result (λ _. length self.new < length self.old) }
        ensures takes_no_memory { result ≢ Err Fault.Memory }
    {
        if self.eat_word(word) {
            Ok(())
        } else {
            Err(Fault::Syntax)
        }
    }

    /// Takes a number of at most 2^62.
    pub fn number(&mut self) -> Result<u64, Fault>
        ensures value { Reads (number self.old) result self.new }
        ensures shorter { length self.new ≤ length self.old }
        ensures fewer { IfOk result (λ _. length self.new < length self.old) }
        ensures takes_no_memory { result ≢ Err Fault.Memory }
        ensures fits { IfOk result (λ n. n ≤ greatest_number) }
    {
        let number = self.peek().lexeme.number()?;
        self.advance();
        Ok(number)
    }

    /// Takes a number from 1 to 2^62.
    pub fn period(&mut self) -> Result<u64, Fault>
        ensures value { Reads (period self.old) result self.new }
        ensures shorter { length self.new ≤ length self.old }
        ensures fewer { IfOk result (λ _. length self.new < length self.old) }
        ensures takes_no_memory { result ≢ Err Fault.Memory }
        ensures fits { IfOk result IsWrittenPeriod }
    {
        let period = self.peek().lexeme.period()?;
        self.advance();
        Ok(period)
    }

    /// Takes a name, and tells its place.
    pub fn name(&mut self, alloc: Global) -> Result<(Name, Place), Fault>
        ensures value { Reads (name self.old) result self.new }
        ensures shorter { length self.new ≤ length self.old }
        ensures fewer { IfOk result (λ _. length self.new < length self.old) }
    {
        let next = self.peek();
        if !next.lexeme.is_name() {
            return Err(Fault::Syntax);
        }
        let name = Name::new(alloc, next.slice)?;
        self.advance();
        Ok((name, next.place))
    }

    /// Takes a text of at most 255 bytes.
    pub fn text(&mut self, alloc: Global) -> Result<DataText, Fault>
        ensures value { Reads (text self.old) result self.new }
        ensures shorter { length self.new ≤ length self.old }
        ensures fewer { IfOk result (λ _. length self.new < length self.old) }
    {
        let next = self.peek();
        match next.lexeme {
            Lexeme::Text => {}
            Lexeme::LongText => return Err(Fault::TextTooLong),
            _ => return Err(Fault::Syntax),
        }
        let text = text_of(alloc, next.slice)?;
        self.advance();
        Ok(text)
    }

    /// Refuses what stands before the end, after which nothing is left.
    pub fn expect_end(&self) -> Result<(), Fault>
        ensures value { Reads (expect_end self.now) result (after_end result self.now) }
        ensures takes_no_memory { result ≢ Err Fault.Memory }
    {
        if self.peek().lexeme.is_end() {
            Ok(())
        } else {
            Err(Fault::Syntax)
        }
    }
}
