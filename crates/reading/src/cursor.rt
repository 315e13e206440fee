// What is left of a sheet, and the moves over it.
ghost use Rattle.std.specs.Prelude.{◌≡◌, ◌+◌, ◌-◌, ◌≤◌, [], ◌∷◌, length, take, drop, MatchBool, MatchResult, IfErr, OnErr};
ghost use Rattle.std.specs.Bool.{OnFalse};

use crate::token::{Cause, Part, Place, ReadFault};

// What is left of the sheet, and the place of its first byte. A sheet has at most 65,536 bytes, so the counts stay far below 2³².
#[derive(Clone, Copy)]
pub struct Cursor<'a> {
    pub rest: &'a [u8],
    pub place: Place,
    ghost room: { place.line + place.column + length rest.now ≤ 65538 },
}

impl<'a> Cursor<'a> {
    ghost use Rattle.reading.specs.Steps.{Passes, NotNext};

    // Takes the first n bytes.
    pub(crate) fn advance(&mut self, n: usize) -> Part<'a>
        requires { n ≤ length self.old.rest.now }
        ensures bytes { result.bytes.now ≡ take n self.old.rest.now }
        ensures place { result.place ≡ self.old.place }
        ensures rest { self.new.rest.now ≡ drop n self.old.rest.now }
        ensures moved { (self.new.place.line ≡ self.old.place.line) × (self.new.place.column ≡ self.old.place.column + n) }
    {
        let (bytes, after) = self.rest.split_at(n);
        let part = self.part(bytes);
        self.rest = after;
        self.place.column += n as u32;
        part
    }

    // The part from here up to a later place.
    pub(crate) fn up_to(&self, end: &Cursor<'a>) -> Part<'a>
        requires { length end.now.rest.now ≤ length self.now.rest.now }
        ensures bytes { result.bytes.now ≡ take (length self.now.rest.now - length end.now.rest.now) self.now.rest.now }
        ensures place { result.place ≡ self.now.place }
    {
        self.part(&self.rest[..self.rest.len() - end.rest.len()])
    }

    fn part(&self, bytes: &'a [u8]) -> Part<'a>
        ensures bytes { result.bytes.now ≡ bytes.now }
        ensures place { result.place ≡ self.now.place }
    {
        Part {
            bytes,
            place: self.place,
        }
    }

    pub(crate) fn fault(&self, cause: Cause) -> ReadFault
        ensures place { result.place ≡ self.now.place }
        ensures cause { result.cause ≡ cause }
    {
        ReadFault {
            place: self.place,
            cause,
        }
    }

    // Whether the byte is next, which is then taken.
    pub(crate) fn skip(&mut self, byte: u8) -> bool
        ensures next { MatchBool result (Passes self.old self.new (byte ∷ [])) (NotNext byte self.old.rest.now) }
        ensures stays { OnFalse result (self.new ≡ self.old) }
    {
        match self.rest {
            [first, ..] if *first == byte => {
                self.advance(1);
                true
            }
            _ => false,
        }
    }

    // Takes the byte, which has to be next.
    pub(crate) fn expect(&mut self, byte: u8) -> Result<(), ReadFault>
        ensures next { MatchResult result (λ _. Passes self.old self.new (byte ∷ [])) (λ _. NotNext byte self.old.rest.now) }
        ensures fault { IfErr result (λ e. (e.place ≡ self.old.place) × (e.cause ≡ Cause.Byte)) }
        ensures stays { OnErr result (self.new ≡ self.old) }
    {
        if self.skip(byte) {
            Ok(())
        } else {
            Err(self.fault(Cause::Byte))
        }
    }
}
