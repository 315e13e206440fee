// The slate, the public state: all that anyone may know of a book. Refusals are decided from it and the call alone.
ghost use Rattle.std.specs.Prelude.{◌≡◌, take};
ghost use Rattle.book.specs.Slates.{state_of, is_empty, is_full, flag, holds_share, all_set, no_seat};

use super::{LINES, places};
use sharing::MOST_SEATS;

// The state of a line.
#[derive(Clone, Copy, PartialEq, Eq)]
pub enum Line {
    // nothing was written
    Empty,
    // the product in hand will fill it
    Awaited,
    // each seat holds its share
    Full,
}

// The product in hand, by its lines: a multiplication by resharing that is under way.
#[derive(Clone, Copy)]
pub struct Hand {
    pub destination: u32,
    pub a: u32,
    pub b: u32,
}

#[derive(Clone, Copy)]
pub struct Slate {
    // how many seats there are, 1 to n
    pub n: u32,
    // the threshold: how many seats rebuild a figure
    pub k: u32,
    pub lines: [Line; LINES],
    pub hand: Option<Hand>,
    // Which seats have dealt and gathered in the product in hand, seat 1 first. Two lists are plainer than one of pairs,
    // since each rule asks for one of them: whether all have dealt, and whether all have gathered.
    pub dealt: [bool; MOST_SEATS],
    pub gathered: [bool; MOST_SEATS],
}

// Whether each of the first n flags is set.
pub(crate) fn first_set(flags: &[bool; MOST_SEATS], n: u32) -> bool
    ensures { result ≡ all_set (take n flags.now) }
{
    flags.iter().take(n as usize).all(|set| *set)
}

// What the rules ask of a slate, in their words. Each is one call of what they share.
impl Slate {
    pub(crate) fn has_dealt(&self, seat: u32) -> bool
        ensures { result ≡ flag self.now.dealt seat }
    {
        places::at(&self.dealt, places::of_seat(seat), false)
    }

    pub(crate) fn has_gathered(&self, seat: u32) -> bool
        ensures { result ≡ flag self.now.gathered seat }
    {
        places::at(&self.gathered, places::of_seat(seat), false)
    }

    // The seat holds a share of line r: it is full, or awaited and the seat has gathered.
    pub(crate) fn holds_share(&self, seat: u32, r: u32) -> bool
        ensures { result ≡ holds_share self.now seat r }
    {
        match self.state(r) {
            Line::Empty => false,
            Line::Awaited => self.has_gathered(seat),
            Line::Full => true,
        }
    }

    fn state(&self, r: u32) -> Line
        ensures { result ≡ state_of self.now r }
    {
        places::at(&self.lines, r as usize, Line::Empty)
    }

    pub(crate) fn has_no_seat(&self, seat: u32) -> bool
        ensures { result ≡ no_seat self.now seat }
    {
        !(1..=self.n).contains(&seat)
    }

    pub(crate) fn is_empty(&self, r: u32) -> bool
        ensures { result ≡ is_empty (state_of self.now r) }
    {
        self.state(r) == Line::Empty
    }

    pub(crate) fn is_full(&self, r: u32) -> bool
        ensures { result ≡ is_full (state_of self.now r) }
    {
        self.state(r) == Line::Full
    }

    // Whether each of seats 1 to n has dealt.
    pub(crate) fn all_dealt(&self) -> bool
        ensures { result ≡ all_set (take self.now.n self.now.dealt) }
    {
        first_set(&self.dealt, self.n)
    }
}
