// The causes for which the engine says no.
ghost use Rattle.std.specs.Prelude.{◌≡◌};
ghost use Rattle.sharing.specs.Causes.{cause_number};

use thiserror::Error;

// A refusal, by its cause. Each cause has the number that the rules give it.
#[derive(Clone, Copy, PartialEq, Eq, Debug, Error)]
pub enum Refusal {
    #[error("the book is not set")]
    Unset = 1,
    #[error("n or k is outside its limits")]
    Limits = 2,
    #[error("the book is set already")]
    AlreadySet = 3,
    #[error("there is no such line")]
    NoLine = 4,
    #[error("the line to be written is not empty")]
    NotEmpty = 5,
    #[error("a line to be read is not full")]
    NotFull = 6,
    #[error("a house or a seat is outside 1 to n")]
    NoSeat = 7,
    #[error("a figure, a constant or a share is not below the size")]
    NotBelow = 8,
    #[error("the strip is not k - 1 long")]
    StripLength = 9,
    #[error("a code of the strip is not below the size")]
    StripCode = 10,
    #[error("a product is in hand")]
    InHand = 11,
    #[error("no product is in hand")]
    NoneInHand = 12,
    #[error("the seat has dealt")]
    Dealt = 13,
    #[error("some seat has not dealt")]
    NotAllDealt = 14,
    #[error("the seat has gathered")]
    Gathered = 15,
    #[error("the list to be written has the wrong length")]
    ListLength = 16,
    #[error("two lists differ in length, or are too short or too long")]
    Lengths = 17,
    #[error("a seat is outside 1 to 9, or named twice")]
    Seats = 18,
    #[error("no polynomial of degree below k fits all pairs")]
    NoFit = 19,
}

impl Refusal {
    // The number of the cause in the rules, which a sheet writes.
    pub fn number(self) -> u32
        ensures { result ≡ cause_number self }
    {
        self as u32
    }
}
