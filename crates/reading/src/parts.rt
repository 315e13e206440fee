// The parts of a line.
ghost use Rattle.std.specs.Prelude.{◌≡◌, MatchResult};
ghost use Rattle.reading.specs.Steps.{WordRead, NumberRead, ListRead, ItemRead, TokensRead, LineFaults};

use crate::cursor::Cursor;
use crate::digits::value;
use crate::token::{Cause, Part, ReadError, ReadFault, Token};
use std::alloc::Global;

// the most letters that a word may have
const MOST_LETTERS: usize = 8;

// the most numbers that a list may have
pub const MOST_NUMBERS: usize = 9;

impl<'a> Cursor<'a> {
    // One to eight letters.
    pub(crate) fn word(&mut self) -> Result<Part<'a>, ReadFault>
        ensures { WordRead self.old self.new result }
    {
        let letters = self.rest.iter().take_while(|b| b.is_ascii_lowercase());
        match letters.count() {
            0 => Err(self.fault(Cause::Byte)),
            n @ 1..=MOST_LETTERS => Ok(self.advance(n)),
            _ => {
                // the first letter that is too many is the fault
                self.advance(MOST_LETTERS);
                Err(self.fault(Cause::Byte))
            }
        }
    }

    // A run of digits that is a number.
    pub(crate) fn number(&mut self) -> Result<Part<'a>, ReadFault>
        ensures { NumberRead self.old self.new result }
    {
        let n = self.rest.iter().take_while(|b| b.is_ascii_digit()).count();
        if n == 0 {
            return Err(self.fault(Cause::Byte));
        }
        if value(&self.rest[..n]).is_none() {
            return Err(self.fault(Cause::Digits));
        }
        Ok(self.advance(n))
    }

    // A list from behind its "(" to its ")": at most nine numbers, with a space between them.
    pub(crate) fn numbers(&mut self) -> Result<(), ReadFault>
        ensures { ListRead self.old self.new result }
    {
        if self.skip(b')') {
            return Ok(());
        }
        for _count in 0..MOST_NUMBERS {
            self.number()?;
            if !self.skip(b' ') {
                return self.expect(b')');
            }
        }
        // nine numbers and a space: a tenth that is no number is the fault of its digits
        let tenth = *self;
        self.number()?;
        Err(tenth.fault(Cause::TenthNumber))
    }

    // An item, from behind its space.
    pub(crate) fn item(&mut self) -> Result<Token<'a>, ReadFault>
        ensures { ItemRead self.old self.new result }
    {
        let start = *self;
        if self.skip(b'(') {
            self.numbers()?;
            Ok(Token::List(start.up_to(self)))
        } else {
            Ok(Token::Number(self.number()?))
        }
    }

    // The whole line, with the byte that ends it.
    pub(crate) fn tokens(&mut self, heap: Global) -> Result<Vec<Token<'a>>, ReadError>
        ensures { MatchResult result (λ v. TokensRead self.old self.new v.items) (λ e. LineFaults self.old e) }
    {
        self.expect(b'(')?;
        let mut tokens = Vec::new(heap);
        tokens.push(Token::Word(self.word()?))?;
        while self.skip(b' ') {
            tokens.push(self.item()?)?;
        }
        self.expect(b')')?;
        self.expect(b'\n')?;
        Ok(tokens)
    }
}
