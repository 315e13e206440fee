//! The demo: a house shares a figure among the seats, at each kind of number, and tells what came of it.
#![tactic(auto)]

use arrayvec::ArrayVec;
use kinds::{Byte, Code, Kind, Small, Wide};
use sharing::{MOST_SEATS, Refusal};
use std::io;
use thiserror::Error;

mod tally;

// What ends the report early: a line of it cannot be written, or a call is refused. Nothing here allocates.
#[derive(Debug, Drop, Error)]
pub enum Stop {
    #[error("{0}")]
    Unwritten(#[from] io::Error),
    #[error("{0}")]
    Refused(#[from] Refusal),
}

pub type Result<T, E = Stop> = std::result::Result<T, E>;

// A figure to be shared, and who takes part.
#[derive(Clone, Copy)]
struct Task<'a> {
    figure: Code,
    // how many seats there are, and how many of them rebuild the figure
    n: u32,
    k: u32,
    // the strip, k - 1 codes drawn at random
    strip: &'a [Code],
    // seats that rebuild the figure, k of them
    some_seats: &'a [u32],
    // a figure that could as well have been the house's
    other_figure: Code,
}

// What a refusal to rebuild means, in words. They speak of shares alone, where the refusal's own speak of any call.
fn reason(refusal: Refusal) -> &'static str {
    match refusal {
        Refusal::Limits => "the threshold is outside its limits",
        Refusal::NotBelow => "a share is not below the size of the kind",
        Refusal::Lengths => "there are too few shares, or too many",
        Refusal::Seats => "a seat is named twice, or is none",
        Refusal::NoFit => "no polynomial of the agreed degree fits all the shares",
        _ => "the book says no",
    }
}

// So many zeros, at most nine: places that a call writes, without an allocator.
fn zeros(count: usize) -> ArrayVec<Code, MOST_SEATS> {
    let mut list = ArrayVec::from([0; MOST_SEATS]);
    list.truncate(count);
    list
}

impl Task<'_> {
    // The shares that seats get, in their order.
    fn shares_at<K: Kind>(&self, seats: &[u32]) -> ArrayVec<Code, MOST_SEATS> {
        let mut shares = zeros(seats.len());
        for (share, seat) in shares.iter_mut().zip(seats) {
            *share = sharing::share::<K>(self.figure, self.strip, *seat);
        }
        shares
    }

    // One figure from beginning to end.
    fn tell<K: Kind>(&self, rt: &impl Print) -> Result<()> {
        let Task {
            figure,
            n,
            k,
            strip,
            ..
        } = *self;
        println!(rt;
            "  The figure is {figure}; any {k} of the {n} seats shall be able to rebuild it."
        )?;
        println!(rt; "  The house draws {strip:?} at random and tells nobody.")?;
        let mut seats = ArrayVec::from([1, 2, 3, 4, 5, 6, 7, 8, 9]);
        seats.truncate(n as usize);
        let mut shares = self.shares_at::<K>(&seats);
        tell_shares(rt, &seats, &shares)?;
        self.tell_hidden::<K>(rt, 1)?;
        let some_shares = self.shares_at::<K>(self.some_seats);
        tell_rebuild::<K>(rt, k, self.some_seats, &some_shares)?;
        tell_weights::<K>(rt, &shares)?;
        tell_damage::<K>(rt, k, &seats, &mut shares)
    }

    // Another figure of which the seat would hold the same share: the strip is moved by the seat's mask.
    fn tell_hidden<K: Kind>(&self, rt: &impl Print, seat: u32) -> Result<()> {
        let mut mask = zeros(self.strip.len());
        sharing::mask::<K>(&[seat], &mut mask);
        let figure = self.other_figure;
        let by = K::sum(figure, K::negative(self.figure));
        let mut strip = mask;
        for (moved, code) in strip.iter_mut().zip(self.strip) {
            *moved = K::sum(*code, K::product(by, *moved));
        }
        let share = sharing::share::<K>(figure, &strip, seat);
        println!(rt;
            "  Seat {seat} alone cannot tell: the figure {figure} along {strip:?} gives it {share} too."
        )?;
        Ok(())
    }
}

// Seat by seat, the share that each holds.
fn tell_shares(rt: &impl Print, seats: &[u32], shares: &[Code]) -> Result<()> {
    for (seat, share) in seats.iter().zip(shares) {
        println!(rt; "  Seat {seat} holds the share {share}.")?;
    }
    Ok(())
}

// What the shares of all seats recombine to, by the weights.
fn tell_weights<K: Kind>(rt: &impl Print, shares: &[Code]) -> Result<()> {
    let mut weights = zeros(shares.len());
    sharing::weigh::<K>(&mut weights)?;
    let total = sharing::recombine::<K>(&weights, shares);
    println!(rt; "  All seats together weigh their shares by {weights:?} and get {total}.")?;
    Ok(())
}

fn tell_rebuild<K: Kind>(rt: &impl Print, k: u32, seats: &[u32], shares: &[Code]) -> Result<()> {
    match sharing::rebuild::<K>(k, seats, shares) {
        Ok(figure) => println!(rt;
            "  Seats {seats:?} with the shares {shares:?} rebuild the figure {figure}."
        )?,
        Err(refusal) => {
            let number = refusal.number();
            let why = reason(refusal);
            println!(rt;
                "  Seats {seats:?} with the shares {shares:?} are refused, cause {number}: {why}."
            )?
        }
    }
    Ok(())
}

// One share is damaged: it is one too high. Then what k shares alone could not show is found.
fn tell_damage<K: Kind>(rt: &impl Print, k: u32, seats: &[u32], shares: &mut [Code]) -> Result<()> {
    let last = shares.last_mut().ok_or(Refusal::Lengths)?;
    *last = K::sum(*last, K::unit());
    println!(rt; "  Now the last share is damaged.")?;
    tell_rebuild::<K>(rt, k, seats, shares)?;
    let seat = seats.first().ok_or(Refusal::Lengths)?;
    let share = shares.first_mut().ok_or(Refusal::Lengths)?;
    tell_rebuild::<K>(rt, k, &[*seat], &[*share])?;
    *share = K::size();
    tell_rebuild::<K>(rt, k, seats, shares)
}

fn tell_all(rt: &impl Print) -> Result<()> {
    println!(rt; "Three houses share a figure each, so that no single seat can read it.")?;
    println!(rt; "")?;
    println!(rt; "A count of vans, in remainders by 31, among 3 seats:")?;
    let vans = Task {
        figure: 4,
        n: 3,
        k: 2,
        strip: &[5],
        some_seats: &[1, 3],
        other_figure: 2,
    };
    vans.tell::<Small>(rt)?;
    println!(rt; "")?;
    println!(rt; "A month's repair costs, in remainders by 2147483647, among 5 seats:")?;
    let costs = Task {
        figure: 1284950,
        n: 5,
        k: 3,
        strip: &[2000000000, 77],
        some_seats: &[5, 2, 4],
        other_figure: 0,
    };
    costs.tell::<Wide>(rt)?;
    println!(rt; "")?;
    println!(rt; "A byte of a show key, with the arithmetic of FIPS 197, among 3 seats:")?;
    let key = Task {
        figure: 83,
        n: 3,
        k: 2,
        strip: &[87],
        some_seats: &[2, 3],
        other_figure: 255,
    };
    key.tell::<Byte>(rt)?;
    println!(rt; "")?;
    println!(rt; "A tally of three houses with a seat each, of which any 2 can rebuild a total:")?;
    tally::tell(rt)
}

fn main(rt: HostRuntime) -> io::Result<()> {
    match tell_all(&rt) {
        Ok(()) => Ok(()),
        Err(Stop::Unwritten(error)) => Err(error),
        Err(Stop::Refused(refusal)) => {
            let number = refusal.number();
            println!(rt; "  A call was refused, cause {number}.")
        }
    }
}
