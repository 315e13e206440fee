// The lists that calls write, and what is weighed of them.
ghost use Rattle.std.specs.Prelude.{◌≡◌, ◌≤◌, cond, nat_eq, [], true, false, MatchOption, length, map};
ghost use Rattle.sharing.specs.Shares.{most_seats, seats_to, weights_of, weighed};
ghost use Rattle.book.specs.Secrets.{share_held, letter_held, opened, entry_if, shown};
ghost use Rattle.book.specs.Slates.{show_count, flag, holds_share};

use super::{LINES, SHOWN, Secrets, Slate, places, rows};
use arrayvec::ArrayVec;
use kinds::{Code, Kind};
use sharing::MOST_SEATS;

// How many of show's entries are for lines; the others are for letters.
const SHARES_SHOWN: usize = 2 * LINES;

// The weights of seats 1 to n. That n is at most nine is asked of it, a number that has no type of its own to keep it.
pub(crate) fn weights_for<K: Kind>(n: u32) -> ArrayVec<Code, MOST_SEATS>
    requires { n ≤ most_seats }
    ensures { result.items ≡ weights_of K.Kind.ops n }
{
    let mut weights = ArrayVec::from([0; MOST_SEATS]);
    weights.truncate(n as usize);
    // it refuses only a list of more than nine
    let _ = sharing::weigh::<K>(weights.as_mut_slice());
    weights
}

// The weights of seats 1 to n are worked out where they are not there yet, and kept: by the first open or gather, so that a
// book that needs none pays for none. The list is what the book keeps.
pub(crate) fn weigh_once<K: Kind>(weights: &mut ArrayVec<Code, MOST_SEATS>, n: u32)
    requires few { n ≤ most_seats }
    requires kept { weights.old.items ≡ cond (nat_eq (length weights.old.items) 0) [] (weights_of K.Kind.ops n) }
    ensures { weights.new.items ≡ weights_of K.Kind.ops n }
{
    if weights.is_empty() {
        *weights = weights_for::<K>(n);
    }
}

// The two entries for a code: 1 and the code, or 0 and 0 where there is none.
fn entries(code: Option<Code>) -> [Code; 2]
    ensures { MatchOption code (result ≡ entry_if false 0) (λ c. result ≡ entry_if true c) }
{
    match code {
        Some(code) => [1, code],
        None => [0, 0],
    }
}

impl Secrets {
    // The list takes the shares of seats 1 to n of line r, where n is its length. That n is at most nine is asked of the list,
    // since it is lent and has no type of its own that could keep it.
    pub(crate) fn open_line(&self, r: u32, list: &mut [Code])
        requires { length list.old ≤ most_seats }
        ensures { list.new ≡ opened (length list.old) self.now r }
    {
        let n = list.len();
        let shares = rows::fill(n as u32, |seat| self.share_of(seat, r));
        list.copy_from_slice(&shares[..n]);
    }

    // A seat's share of the product in hand: the letters to it from seats 1 to n, weighed by the n weights.
    pub(crate) fn gathered_share<K: Kind>(
        &self,
        weights: &ArrayVec<Code, MOST_SEATS>,
        seat: u32,
    ) -> Code
        ensures { result ≡ weighed K.Kind.ops weights.now.items (map (letter_held self.now seat) (seats_to (length weights.now.items))) }
    {
        let n = weights.len();
        let letters = rows::fill(n as u32, |sender| self.letter_to(seat, sender));
        sharing::recombine::<K>(weights.as_slice(), &letters[..n])
    }

    // The list takes all that a seat holds: its share of each line, and the letters to it.
    pub(crate) fn show(&self, slate: &Slate, seat: u32, list: &mut [Code])
        requires { length list.old ≡ show_count }
        ensures { list.new ≡ shown slate.now self.now seat }
    {
        let shares: [[Code; 2]; LINES] = places::numbered(
            0,
            |r|
                ensures { result ≡ entry_if (holds_share slate.entry.now seat r) (share_held self.entry.now seat r) }
            {
                let is_held = slate.holds_share(seat, r);
                entries(is_held.then_some(self.share_of(seat, r)))
            },
        );
        let letters: [[Code; 2]; MOST_SEATS] = places::numbered(
            1,
            |sender|
                ensures { result ≡ entry_if (flag slate.entry.now.dealt sender) (letter_held self.entry.now seat sender) }
            {
                let is_dealt = slate.has_dealt(sender);
                entries(is_dealt.then_some(self.letter_to(seat, sender)))
            },
        );
        let (for_lines, for_senders) = list.split_at_mut(SHARES_SHOWN);
        for_lines.copy_from_slice(shares.as_flattened());
        for_senders.copy_from_slice(letters.as_flattened());
    }
}
