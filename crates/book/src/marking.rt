// What an accepted call leaves on the slate.
ghost use Rattle.std.specs.Prelude.{◌≡◌};
ghost use Rattle.book.specs.Slates.{fresh, with_line, with_hand, with_dealt, gathered_by, last_gather};

use super::slate::first_set;
use super::{Hand, LINES, Line, Slate, places};
use sharing::MOST_SEATS;

impl Slate {
    // As set leaves an unset book: all lines are empty, and no product is in hand.
    pub(crate) fn fresh(n: u32, k: u32) -> Slate
        ensures { result ≡ fresh n k }
    {
        Slate {
            n,
            k,
            lines: [Line::Empty; LINES],
            hand: None,
            dealt: [false; MOST_SEATS],
            gathered: [false; MOST_SEATS],
        }
    }

    pub(crate) fn set_line(&mut self, r: u32, state: Line)
        ensures { self.new ≡ with_line self.old r state }
    {
        places::put(&mut self.lines, r as usize, state);
    }

    // Another product is in hand, or none: nobody has dealt or gathered.
    pub(crate) fn set_hand(&mut self, hand: Option<Hand>)
        ensures { self.new ≡ with_hand self.old hand }
    {
        self.hand = hand;
        self.dealt = [false; MOST_SEATS];
        self.gathered = [false; MOST_SEATS];
    }

    pub(crate) fn set_dealt(&mut self, seat: u32)
        ensures { self.new ≡ with_dealt self.old seat }
    {
        places::put(&mut self.dealt, places::of_seat(seat), true);
    }

    // The seat has gathered. After the last seat's gather, where the answer is true, the destination is full and the
    // product is over.
    pub(crate) fn gather(&mut self, destination: u32, seat: u32) -> bool
        ensures last { result ≡ last_gather self.old seat }
        ensures slate { self.new ≡ gathered_by self.old destination seat }
    {
        places::put(&mut self.gathered, places::of_seat(seat), true);
        let is_last = first_set(&self.gathered, self.n);
        if is_last {
            self.set_line(destination, Line::Full);
            self.set_hand(None);
        }
        is_last
    }
}
