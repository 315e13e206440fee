// Rebuilding a figure from shares: the constant of the one polynomial of degree below k that fits them,
// by Newton's divided differences.
ghost use Rattle.std.specs.Prelude.{◌≡◌, ◌≤◌, not, ◌&&◌, length, map, zip};
ghost use Rattle.sharing.specs.Promises.{Rebuilds, AnswersTheOne, RefusesWhenNone};
ghost use Rattle.sharing.specs.Shares.{most_seats};
ghost use Rattle.sharing.specs.Rebuilding.{holds, is_seat, apart, all_below, divided, fitted, rebuilt};

use super::{LEAST_THRESHOLD, MOST_SEATS, MOST_THRESHOLD, Refusal};
use arrayvec::ArrayVec;
use kinds::{Code, Kind};

// Whether it is a seat that no later one repeats.
fn is_apart(seat: u32, later: &[u32]) -> bool
    ensures { result ≡ (is_seat seat && not (holds seat later.now)) }
{
    (1..=MOST_SEATS as u32).contains(&seat) && !later.contains(&seat)
}

// Whether each is a seat, and none is named twice.
fn are_apart(seats: &[u32]) -> bool
    ensures { result ≡ apart seats.now }
{
    match seats {
        [] => true,
        [seat, later @ ..] => is_apart(*seat, later) && are_apart(later),
    }
}

// Whether each code is below the size.
pub fn are_below(size: Code, codes: &[Code]) -> bool
    ensures { result ≡ all_below size codes.now }
{
    codes.iter().all(|code| *code < size)
}

// One round of divided differences: takes the value at one seat off the values at the others, and
// divides by the gaps between their points.
fn divide<K: Kind>(seat: u32, value: Code, pairs: &mut [(u32, Code)])
    ensures seats { map (λ p. p.0) pairs.new ≡ map (λ p. p.0) pairs.old }
    ensures values { map (λ p. p.1) pairs.new ≡ divided K.Kind.ops seat value (map (λ p. p.0) pairs.old) (map (λ p. p.1) pairs.old) }
{
    for (other, there) in pairs.iter_mut() {
        let above = K::sum(*there, K::negative(value));
        *there = K::product(above, K::reciprocal(*other, seat));
    }
}

// The constant of the polynomial of k coefficients that fits these pairs of a seat and a value, if there is one.
fn constant<K: Kind>(k: u32, pairs: &mut [(u32, Code)]) -> Option<Code>
    ensures { result ≡ fitted K.Kind.ops k (map (λ p. p.0) pairs.old) (map (λ p. p.1) pairs.old) }
{
    if k == 0 {
        return pairs.iter().all(|(_, value)| *value == 0).then_some(0);
    }
    let (first, rest) = pairs.split_first_mut()?;
    let (seat, value) = *first;
    divide::<K>(seat, value, rest);
    let quotient = constant::<K>(k - 1, rest)?;
    Some(K::sum(value, K::negative(K::product(K::point(seat), quotient))))
}

// Each seat with its share. At most nine are asked of the list, which is handed in and has no type that keeps it.
fn paired(seats: &[u32], shares: &[Code]) -> ArrayVec<(u32, Code), MOST_SEATS>
    requires { length shares.now ≤ most_seats }
    ensures { result.items ≡ zip seats.now shares.now }
{
    let mut pairs = ArrayVec::new();
    for (seat, share) in seats.iter().zip(shares) {
        pairs.push((*seat, *share));
    }
    pairs
}

// The answer of rebuild: the first cause that holds, or the constant. The rules hand in two lists, and refuse
// lists of two lengths. What rebuild promises beside its answer is shown once, for all the returns here.
fn attempt<K: Kind>(k: u32, seats: &[u32], shares: &[Code]) -> Result<Code, Refusal>
    ensures { result ≡ rebuilt K.Kind.ops k seats.now shares.now }
{
    if !(LEAST_THRESHOLD..=MOST_THRESHOLD).contains(&k) {
        return Err(Refusal::Limits);
    }
    let count = shares.len();
    if seats.len() != count || !(k as usize..=MOST_SEATS).contains(&count) {
        return Err(Refusal::Lengths);
    }
    if !are_apart(seats) {
        return Err(Refusal::Seats);
    }
    if !are_below(K::size(), shares) {
        return Err(Refusal::NotBelow);
    }
    constant::<K>(k, &mut paired(seats, shares)).ok_or(Refusal::NoFit)
}

// The constant of the one polynomial of degree below k that fits every pair of a seat and a share. So k or
// more true shares of a figure rebuild it, and shares that no such polynomial fits are refused.
pub fn rebuild<K: Kind>(k: u32, seats: &[u32], shares: &[Code]) -> Result<Code, Refusal>
    ensures answer { result ≡ rebuilt K.Kind.ops k seats.now shares.now }
    ensures rebuilds { Rebuilds K.Kind.ops }
    ensures answers_the_one { AnswersTheOne K.Kind.ops }
    ensures refuses_when_none { RefusesWhenNone K.Kind.ops }
{
    attempt::<K>(k, seats, shares)
}
