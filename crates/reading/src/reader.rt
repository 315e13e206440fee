// The reading of whole lines.
ghost use Rattle.std.specs.Prelude.{◌≡◌, ◌+◌, ◌<◌, length, if◌then◌else◌, Some, None, Err, MatchResult, ◌==◌, nat_eq};
ghost use Rattle.reading.specs.Faults.{FaultIsLeftmost};
ghost use Rattle.reading.specs.Laws.{ReadSpells, ProperIsRead};
ghost use Rattle.reading.specs.Line.{LineRead, LineRefused, most_left, AsDefined, answer_told, line_answer};

use crate::cursor::Cursor;
use crate::token::{Place, ReadError, Token};
use std::alloc::Global;

// The most that the bytes that are left and the number of their first line come to: a sheet has at most 65,536 bytes, and each
// line has some.
const MOST: usize = 65_537;

// What is left of a sheet, from the start of a line on, and that line's number.
#[derive(Drop)]
pub struct Reader<'a> {
    rest: &'a [u8],
    line: u32,
}

impl<'a> Reader<'a> {
    // A reader at the sheet's first line.
    pub fn new(sheet: &'a [u8]) -> Reader<'a>
        ensures { (result.rest.now ≡ sheet.now) × (result.line ≡ 1) }
    {
        Reader {
            rest: sheet,
            line: 1,
        }
    }

    // Whether all lines have been read.
    pub fn is_at_end(&self) -> bool
        ensures { result ≡ (length self.now.rest.now == 0) }
    {
        self.rest.is_empty()
    }

    // The number of the line that is read next; none at the sheet's end.
    pub fn next_line(&self) -> Option<u32>
        ensures { result ≡ (if nat_eq (length self.now.rest.now) 0 then None else Some self.now.line) }
    {
        (!self.is_at_end()).then_some(self.line)
    }

    // Reads the next line: its tokens, the word first, or its leftmost fault, after which the
    // reader stands where it stood. A sheet of more than 65,536 bytes is refused.
    pub fn read_line(&mut self, heap: Global) -> Result<Vec<Token<'a>>, ReadError>
        ensures answer { MatchResult result (λ v. LineRead self.old.rest.now self.old.line v.items self.new.rest.now) (λ e. LineRefused self.old.rest.now self.old.line e) }
        ensures long { most_left < self.old.line + length self.old.rest.now → result ≡ Err ReadError.TooLong }
        ensures defined { AsDefined (answer_told result self.new.rest.now) (line_answer self.old.rest.now self.old.line) }
        ensures moves { MatchResult result (λ _. self.new.line ≡ self.old.line + 1) (λ _. self.new ≡ self.old) }
        ensures spells { ReadSpells }
        ensures complete { ProperIsRead }
        ensures leftmost { FaultIsLeftmost }
    {
        if self.rest.len() + self.line as usize > MOST {
            return Err(ReadError::TooLong);
        }
        let mut at = Cursor {
            rest: self.rest,
            place: Place {
                line: self.line,
                column: 1,
            },
        };
        let tokens = at.tokens(heap)?;
        self.rest = at.rest;
        self.line += 1;
        Ok(tokens)
    }
}
