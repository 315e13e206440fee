// When each call says no: the first cause in the rules' order decides, from the slate and the call alone.
ghost use Rattle.std.specs.Prelude.{◌≡◌, Some, None, MatchResult};
ghost use Rattle.book.specs.Calls.{enter, scale, begin, deal, gather, «open», show};
ghost use Rattle.book.specs.Slates.{why_lines, why_strip, why_set, why, allowed};

use super::{Hand, LINES, SHOWN, Slate};
use kinds::Code;
use sharing::{LEAST_THRESHOLD, MOST_SEATS, MOST_THRESHOLD, Refusal};

// set(n, k): k is 2 to 5, and n is 2k - 1 to 9.
pub(crate) fn may_set(n: u32, k: u32) -> Result<(), Refusal>
    ensures { result ≡ allowed (why_set n k) }
{
    if !(LEAST_THRESHOLD..=MOST_THRESHOLD).contains(&k) {
        return Err(Refusal::Limits);
    }
    if n as u64 + 1 < 2 * k as u64 || n > MOST_SEATS as u32 {
        return Err(Refusal::Limits);
    }
    Ok(())
}

// Begin, gather, open and show take no code, so no size of a kind matters to them: they are decided at size 0.
impl Slate {
    // Whether a strip may be shared along.
    fn may_share(&self, size: Code, strip: &[Code]) -> Result<(), Refusal>
        ensures { result ≡ allowed (why_strip self.now size strip.now) }
    {
        if strip.len() as u64 + 1 != self.k as u64 {
            return Err(Refusal::StripLength);
        }
        if !sharing::are_below(size, strip) {
            return Err(Refusal::StripCode);
        }
        Ok(())
    }

    // Whether a line may be written from two others.
    pub(crate) fn may_combine(&self, destination: u32, a: u32, b: u32) -> Result<(), Refusal>
        ensures { result ≡ allowed (why_lines self.now destination a b None) }
    {
        if destination as usize >= LINES || a as usize >= LINES || b as usize >= LINES {
            return Err(Refusal::NoLine);
        }
        if !self.is_empty(destination) {
            return Err(Refusal::NotEmpty);
        }
        if !self.is_full(a) || !self.is_full(b) {
            return Err(Refusal::NotFull);
        }
        Ok(())
    }

    pub(crate) fn may_enter(
        &self,
        size: Code,
        line: u32,
        house: u32,
        figure: Code,
        strip: &[Code],
    ) -> Result<(), Refusal>
        ensures { result ≡ allowed (why size self.now (enter line house figure strip.now)) }
    {
        if line as usize >= LINES {
            return Err(Refusal::NoLine);
        }
        if !self.is_empty(line) {
            return Err(Refusal::NotEmpty);
        }
        if self.has_no_seat(house) {
            return Err(Refusal::NoSeat);
        }
        if figure >= size {
            return Err(Refusal::NotBelow);
        }
        self.may_share(size, strip)
    }

    pub(crate) fn may_scale(
        &self,
        size: Code,
        destination: u32,
        a: u32,
        constant: Code,
    ) -> Result<(), Refusal>
        ensures { result ≡ allowed (why size self.now (scale destination a constant)) }
    {
        self.may_combine(destination, a, a)?;
        if constant >= size {
            return Err(Refusal::NotBelow);
        }
        Ok(())
    }

    pub(crate) fn may_begin(&self, destination: u32, a: u32, b: u32) -> Result<(), Refusal>
        ensures { result ≡ allowed (why 0 self.now (begin destination a b)) }
    {
        if self.hand.is_some() {
            return Err(Refusal::InHand);
        }
        self.may_combine(destination, a, b)
    }

    // The product in hand, if the seat may deal.
    pub(crate) fn may_deal(&self, size: Code, seat: u32, strip: &[Code]) -> Result<Hand, Refusal>
        ensures { let cause = why size self.now (deal seat strip.now) in
            MatchResult result (λ hand. (self.now.hand ≡ Some hand) × (cause ≡ None)) (λ refusal. cause ≡ Some refusal) }
    {
        let hand = self.hand.ok_or(Refusal::NoneInHand)?;
        if self.has_no_seat(seat) {
            return Err(Refusal::NoSeat);
        }
        if self.has_dealt(seat) {
            return Err(Refusal::Dealt);
        }
        self.may_share(size, strip)?;
        Ok(hand)
    }

    // The product in hand, if the seat may gather.
    pub(crate) fn may_gather(&self, seat: u32) -> Result<Hand, Refusal>
        ensures { let cause = why 0 self.now (gather seat) in
            MatchResult result (λ hand. (self.now.hand ≡ Some hand) × (cause ≡ None)) (λ refusal. cause ≡ Some refusal) }
    {
        let hand = self.hand.ok_or(Refusal::NoneInHand)?;
        if self.has_no_seat(seat) {
            return Err(Refusal::NoSeat);
        }
        if !self.all_dealt() {
            return Err(Refusal::NotAllDealt);
        }
        if self.has_gathered(seat) {
            return Err(Refusal::Gathered);
        }
        Ok(hand)
    }

    pub(crate) fn may_open(&self, line: u32, room: usize) -> Result<(), Refusal>
        ensures { result ≡ allowed (why 0 self.now («open» line room)) }
    {
        if line as usize >= LINES {
            return Err(Refusal::NoLine);
        }
        if !self.is_full(line) {
            return Err(Refusal::NotFull);
        }
        if room != self.n as usize {
            return Err(Refusal::ListLength);
        }
        Ok(())
    }

    pub(crate) fn may_show(&self, seat: u32, room: usize) -> Result<(), Refusal>
        ensures { result ≡ allowed (why 0 self.now (show seat room)) }
    {
        if self.has_no_seat(seat) {
            return Err(Refusal::NoSeat);
        }
        if room != SHOWN {
            return Err(Refusal::ListLength);
        }
        Ok(())
    }
}
