// What a line is read into, and what can be wrong with it.
ghost use Rattle.std.specs.Prelude.{◌≡◌};
ghost use Rattle.reading.specs.Told.{cause_number};
ghost use Rattle.reading.specs.declared.token.ReadError.TheVariants.{Fault, NoMemory};

use std::alloc::AllocFailed;

// Where a byte of the sheet stands; lines and columns count from 1.
#[derive(Clone, Copy, Debug, PartialEq, Eq)]
pub struct Place {
    pub line: u32,
    pub column: u32,
}

// A stretch of the sheet, with the place of its first byte.
#[derive(Clone, Copy, Debug, PartialEq, Eq)]
pub struct Part<'a> {
    pub bytes: &'a [u8],
    pub place: Place,
}

// A word, a number or a list; a list's bytes have its parentheses.
#[derive(Clone, Copy, Debug, PartialEq, Eq)]
pub enum Token<'a> {
    Word(Part<'a>),
    Number(Part<'a>),
    List(Part<'a>),
}

// Why a line is refused: a byte that the line's rule does not allow, or the sheet's end inside a line; a run of digits that is no
// number; a tenth number in a list.
#[derive(Clone, Copy, Debug, PartialEq, Eq)]
pub enum Cause {
    Byte = 20,
    Digits = 21,
    TenthNumber = 22,
}

#[derive(Clone, Copy, Debug, PartialEq, Eq)]
pub struct ReadFault {
    pub place: Place,
    pub cause: Cause,
}

// `TooLong` is a sheet of more than 65,536 bytes.
#[derive(Clone, Copy, Debug, PartialEq, Eq)]
pub enum ReadError {
    Fault(ReadFault),
    TooLong,
    NoMemory,
}

// Both by hand, since the contracts name the error that a `?` makes, of which a derived `From` says nothing.
impl From<ReadFault> for ReadError {
    ghost from_gives = { λ x r. r ≡ Fault x };

    fn from(fault: ReadFault) -> ReadError {
        ReadError::Fault(fault)
    }
}

impl<T: Drop> From<AllocFailed<T>> for ReadError {
    ghost from_gives = { λ _ r. r ≡ NoMemory };

    fn from(_refused: AllocFailed<T>) -> ReadError {
        ReadError::NoMemory
    }
}

impl Cause {
    // The number of the cause in the rules, which a sheet writes.
    pub fn number(self) -> u32
        ensures { result ≡ cause_number self }
    {
        self as u32
    }
}
