// The nine calls. Each takes the numbers that the rules name, one by one, also where they travel on together. Beside what the
// rules say, each says that the book it leaves has at most nine seats (`few`): its invariant, which callers do not see.
ghost use Rattle.std.specs.Prelude.{◌≡◌, ◌≤◌, length};
ghost use Rattle.sharing.specs.Shares.{most_seats};
ghost use Rattle.book.specs.Books.{blank, seat_count, answered, done, left, list_after, set_answered, set_left};
ghost use Rattle.book.specs.Calls.{enter, sum, scale, begin, deal, gather, «open», show};
ghost use Rattle.book.specs.Secrets.{opened, shown};

use super::Book;
use crate::deciding::may_set;
use crate::lists::weigh_once;
use crate::{Hand, Line, Pages, Secrets, Slate, rows};
use arrayvec::ArrayVec;
use kinds::{Code, Kind};
use sharing::Refusal;
use std::marker::PhantomData;

impl<K: Kind> Book<K> {
    // A new book, unset.
    pub fn new() -> Book<K>
        ensures { result ≡ blank }
    {
        Book {
            kind: PhantomData,
            pages: Pages {
                slate: None,
                secrets: Secrets::empty(),
            },
            weights: ArrayVec::new(),
        }
    }

    // How many seats the book has: 0 while it is unset, as the rules count them.
    pub fn seats(&self) -> u32
        ensures count { result ≡ seat_count self.now }
        ensures few { result ≤ most_seats }
    {
        self.pages.slate.map_or(0, |slate| slate.n)
    }

    // The book is shared among n seats, of which k rebuild a figure. All lines are empty.
    pub fn set(&mut self, n: u32, k: u32) -> Result<(), Refusal>
        ensures answer { result ≡ set_answered self.old n k }
        ensures book { self.new ≡ set_left self.old n k }
        ensures few { seat_count self.new ≤ most_seats }
    {
        if self.pages.slate.is_some() {
            return Err(Refusal::AlreadySet);
        }
        may_set(n, k)?;
        self.weights = ArrayVec::new();
        self.pages = Pages {
            slate: Some(Slate::fresh(n, k)),
            secrets: Secrets::empty(),
        };
        Ok(())
    }

    // A house enters a figure: each seat gets its share along the strip, and the line is full.
    pub fn enter(
        &mut self,
        line: u32,
        house: u32,
        figure: Code,
        strip: &[Code],
    ) -> Result<(), Refusal>
        ensures answer { result ≡ done (answered K.Kind.ops self.old (enter line house figure strip.now)) }
        ensures book { self.new ≡ left K.Kind.ops self.old (enter line house figure strip.now) }
        ensures few { seat_count self.new ≤ most_seats }
    {
        let Pages { slate, secrets } = &mut self.pages;
        let slate = slate.as_mut().ok_or(Refusal::Unset)?;
        slate.may_enter(K::size(), line, house, figure, strip)?;
        let row = rows::fill(slate.n, |seat| sharing::share::<K>(figure, strip, seat));
        slate.set_line(line, Line::Full);
        secrets.set_shares(line, row);
        Ok(())
    }

    // Each seat adds its shares of a and b.
    pub fn sum(&mut self, destination: u32, a: u32, b: u32) -> Result<(), Refusal>
        ensures answer { result ≡ done (answered K.Kind.ops self.old (sum destination a b)) }
        ensures book { self.new ≡ left K.Kind.ops self.old (sum destination a b) }
        ensures few { seat_count self.new ≤ most_seats }
    {
        let Pages { slate, secrets } = &mut self.pages;
        let slate = slate.as_mut().ok_or(Refusal::Unset)?;
        slate.may_combine(destination, a, b)?;
        let row = rows::fill(slate.n, |seat| {
            K::sum(secrets.share_of(seat, a), secrets.share_of(seat, b))
        });
        slate.set_line(destination, Line::Full);
        secrets.set_shares(destination, row);
        Ok(())
    }

    // Each seat multiplies its share of a by the public constant.
    pub fn scale(&mut self, destination: u32, a: u32, constant: Code) -> Result<(), Refusal>
        ensures answer { result ≡ done (answered K.Kind.ops self.old (scale destination a constant)) }
        ensures book { self.new ≡ left K.Kind.ops self.old (scale destination a constant) }
        ensures few { seat_count self.new ≤ most_seats }
    {
        let Pages { slate, secrets } = &mut self.pages;
        let slate = slate.as_mut().ok_or(Refusal::Unset)?;
        slate.may_scale(K::size(), destination, a, constant)?;
        let row = rows::fill(
            slate.n,
            |seat| K::product(constant, secrets.share_of(seat, a)),
        );
        slate.set_line(destination, Line::Full);
        secrets.set_shares(destination, row);
        Ok(())
    }

    // A product is in hand, and the destination is awaited.
    pub fn begin(&mut self, destination: u32, a: u32, b: u32) -> Result<(), Refusal>
        ensures answer { result ≡ done (answered K.Kind.ops self.old (begin destination a b)) }
        ensures book { self.new ≡ left K.Kind.ops self.old (begin destination a b) }
        ensures few { seat_count self.new ≤ most_seats }
    {
        let slate = self.pages.slate.as_mut().ok_or(Refusal::Unset)?;
        slate.may_begin(destination, a, b)?;
        slate.set_line(destination, Line::Awaited);
        slate.set_hand(Some(Hand { destination, a, b }));
        Ok(())
    }

    // The seat multiplies its shares of the product's lines, and shares the result among all seats.
    pub fn deal(&mut self, seat: u32, strip: &[Code]) -> Result<(), Refusal>
        ensures answer { result ≡ done (answered K.Kind.ops self.old (deal seat strip.now)) }
        ensures book { self.new ≡ left K.Kind.ops self.old (deal seat strip.now) }
        ensures few { seat_count self.new ≤ most_seats }
    {
        let Pages { slate, secrets } = &mut self.pages;
        let slate = slate.as_mut().ok_or(Refusal::Unset)?;
        let hand = slate.may_deal(K::size(), seat, strip)?;
        let a = secrets.share_of(seat, hand.a);
        let b = secrets.share_of(seat, hand.b);
        let product = K::product(a, b);
        let letters = rows::fill(slate.n, |receiver| {
            sharing::share::<K>(product, strip, receiver)
        });
        slate.set_dealt(seat);
        secrets.set_letters(seat, letters);
        Ok(())
    }

    // The seat weighs the letters that it got; after the last seat's gather the destination is full.
    pub fn gather(&mut self, seat: u32) -> Result<(), Refusal>
        ensures answer { result ≡ done (answered K.Kind.ops self.old (gather seat)) }
        ensures book { self.new ≡ left K.Kind.ops self.old (gather seat) }
        ensures few { seat_count self.new ≤ most_seats }
    {
        let Pages { slate, secrets } = &mut self.pages;
        let slate = slate.as_mut().ok_or(Refusal::Unset)?;
        let hand = slate.may_gather(seat)?;
        weigh_once::<K>(&mut self.weights, slate.n);
        let share = secrets.gathered_share::<K>(&self.weights, seat);
        secrets.set_share(hand.destination, seat, share);
        if slate.gather(hand.destination, seat) {
            secrets.clear_letters();
        }
        Ok(())
    }

    // The list takes the shares of seats 1 to n, and the answer is the total.
    pub fn open(&mut self, line: u32, list: &mut [Code]) -> Result<Code, Refusal>
        ensures answer { result ≡ answered K.Kind.ops self.old («open» line (length list.old)) }
        ensures book { self.new ≡ left K.Kind.ops self.old («open» line (length list.old)) }
        ensures few { seat_count self.new ≤ most_seats }
        ensures written { list.new ≡ list_after K.Kind.ops.size self.old («open» line (length list.old)) (λ s. opened s.n self.old.secrets line) list.old }
    {
        let slate = self.pages.slate.as_ref().ok_or(Refusal::Unset)?;
        slate.may_open(line, list.len())?;
        self.pages.secrets.open_line(line, list);
        weigh_once::<K>(&mut self.weights, slate.n);
        Ok(sharing::recombine::<K>(self.weights.as_slice(), list))
    }

    // The list takes all that the seat holds: its share of each line, and the letters to it.
    pub fn show(&mut self, seat: u32, list: &mut [Code]) -> Result<(), Refusal>
        ensures answer { result ≡ done (answered K.Kind.ops self.old (show seat (length list.old))) }
        ensures book { self.new ≡ left K.Kind.ops self.old (show seat (length list.old)) }
        ensures few { seat_count self.new ≤ most_seats }
        ensures written { list.new ≡ list_after K.Kind.ops.size self.old (show seat (length list.old)) (λ s. shown s self.old.secrets seat) list.old }
    {
        let slate = self.pages.slate.as_ref().ok_or(Refusal::Unset)?;
        slate.may_show(seat, list.len())?;
        self.pages.secrets.show(slate, seat, list);
        Ok(())
    }
}
