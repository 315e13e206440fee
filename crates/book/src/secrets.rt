// The secrets: what the seats hold.
ghost use Rattle.std.specs.Prelude.{◌≡◌, ◌-◌, [], slice_index_or, slice_set};
ghost use Rattle.book.specs.Secrets.{at_seat, share_held, letter_held, nothing_held, with_shares, with_letters, without_letters};

use super::rows::Row;
use super::{LINES, places};
use kinds::Code;
use sharing::MOST_SEATS;

// Shares by line and then by seat, and the letters of the product in hand (the sub-shares of a resharing) by
// sender and then by receiver. What no seat holds is 0, so that equal books are equal in memory.
#[derive(Clone, Copy)]
pub struct Secrets {
    pub shares: [Row; LINES],
    pub letters: [Row; MOST_SEATS],
}

// A seat's code in the row at a place; 0 where there is no such row or no such seat.
fn code_in(rows: &[Row], place: usize, seat: u32) -> Code
    ensures { result ≡ at_seat (slice_index_or rows.now place []) seat }
{
    rows.get(place)
        .map_or(0, |row| places::at(row, places::of_seat(seat), 0))
}

impl Secrets {
    // No seat holds anything.
    pub(crate) fn empty() -> Secrets
        ensures { result ≡ nothing_held }
    {
        Secrets {
            shares: [[0; MOST_SEATS]; LINES],
            letters: [[0; MOST_SEATS]; MOST_SEATS],
        }
    }

    // A seat's share of line r. This and the next name, in the rules' words, the list of which they ask the same.
    pub(crate) fn share_of(&self, seat: u32, r: u32) -> Code
        ensures { result ≡ share_held self.now seat r }
    {
        code_in(&self.shares, r as usize, seat)
    }

    // A sender's letter to a seat.
    pub(crate) fn letter_to(&self, seat: u32, sender: u32) -> Code
        ensures { result ≡ letter_held self.now seat sender }
    {
        code_in(&self.letters, places::of_seat(sender), seat)
    }

    // Each seat gets its share of line r.
    pub(crate) fn set_shares(&mut self, r: u32, row: Row)
        ensures { self.new ≡ with_shares self.old r row }
    {
        places::put(&mut self.shares, r as usize, row);
    }

    // One seat gets its share of line r. Here too by index, for the same reason as in `places::put`.
    pub(crate) fn set_share(&mut self, r: u32, seat: u32, code: Code)
        ensures { self.new ≡ with_shares self.old r (slice_set (slice_index_or self.old.shares r []) (seat - 1) code) }
    {
        if (r as usize) < LINES {
            places::put(&mut self.shares[r as usize], places::of_seat(seat), code);
        }
    }

    // Each seat gets its letter from a sender.
    pub(crate) fn set_letters(&mut self, sender: u32, row: Row)
        ensures { self.new ≡ with_letters self.old sender row }
    {
        places::put(&mut self.letters, places::of_seat(sender), row);
    }

    pub(crate) fn clear_letters(&mut self)
        ensures { self.new ≡ without_letters self.old }
    {
        self.letters = [[0; MOST_SEATS]; MOST_SEATS];
    }
}
