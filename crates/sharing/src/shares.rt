// Shares, weights, and the recombination of codes by the weights.
ghost use Rattle.std.specs.Prelude.{◌≡◌, ◌<◌, ◌≤◌, ltb, length, if◌then◌else◌, Ok, nat_lt};
ghost use Rattle.sharing.specs.Causes.{refuse_if};
ghost use Rattle.sharing.specs.Promises.{Recombines, Multiplies};
ghost use Rattle.sharing.specs.Shares.{share_at, seats_to, weight_part, weight_among, weights_of, weighed, most_seats};

use super::{MOST_SEATS, Refusal};
use kinds::{Code, Kind};

// The share of a figure along a strip at a seat, by Shamir's sharing with the strip as its randomness: the
// value at the seat's point of the polynomial whose constant is the figure and whose other coefficients are
// the strip. A seat outside 1 to 9 has point 0, where every polynomial has its constant: callers hand in
// seats only.
pub fn share<K: Kind>(figure: Code, strip: &[Code], seat: u32) -> Code
    ensures { result ≡ share_at K.Kind.ops figure strip.now seat }
{
    let x = K::point(seat);
    let tail = strip
        .iter()
        .rev()
        .fold(0, |tail, code| K::sum(*code, K::product(x, tail)));
    K::sum(figure, K::product(x, tail))
}

// w_1 × c_1 + w_2 × c_2 + .., as far as both lists go. With the weights of n seats this gives the constant
// of each polynomial of at most n coefficients from its values at the seats, and the product of two
// constants from the products of the values.
pub fn recombine<K: Kind>(weights: &[Code], codes: &[Code]) -> Code
    ensures answer { result ≡ weighed K.Kind.ops weights.now codes.now }
    ensures recombines { Recombines K.Kind.ops }
    ensures multiplies { Multiplies K.Kind.ops }
{
    weights.iter().zip(codes).fold(
        0,
        |total, (weight, code)| K::sum(total, K::product(*weight, *code)),
    )
}

// The part that seat j has in the weight of seat i.
fn weight_part<K: Kind>(i: u32, j: u32) -> Code
    ensures { result ≡ weight_part K.Kind.ops i j }
{
    if i == j {
        K::unit()
    } else {
        K::product(K::negative(K::point(j)), K::reciprocal(i, j))
    }
}

// The weight of a seat among seats 1 to n, a number that has no type of its own to keep it at most nine.
fn weight<K: Kind>(n: u32, seat: u32) -> Code
    requires { n ≤ most_seats }
    ensures { result ≡ weight_among K.Kind.ops (seats_to n) seat }
{
    (1..n + 1).fold(
        K::unit(),
        |weight, j| K::product(weight, weight_part::<K>(seat, j)),
    )
}

// The list takes the weights of seats 1 to n, where n is its length, at most 9. The weights of n seats
// recombine n shares of a figure to the figure, and n products of two figures' shares to the product.
pub fn weigh<K: Kind>(list: &mut [Code]) -> Result<(), Refusal>
    ensures answer { result ≡ refuse_if (nat_lt most_seats (length list.old)) Refusal.Limits (Ok tt) }
    ensures written { list.new ≡ (if ltb most_seats (length list.old) then list.old else weights_of K.Kind.ops (length list.old)) }
{
    if list.len() > MOST_SEATS {
        return Err(Refusal::Limits);
    }
    let n = list.len() as u32;
    for (i, entry) in list.iter_mut().enumerate() {
        *entry = weight::<K>(n, i as u32 + 1);
    }
    Ok(())
}
