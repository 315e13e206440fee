//! Comparisons by test: what the engine computes on tables of inputs, at every kind. The expected output is
//! made by an independent program, tools/vectors.py.
#![tactic(auto)]

use arrayvec::ArrayVec;
use kinds::{Byte, Code, Kind, Small, Wide};
use sharing::MOST_SEATS;
use std::io;

mod cases;

use cases::{CASES, Case};

// Codes at and around each bound.
const CODES: [Code; 14] = [
    0, 1, 2, 30, 31, 32, 255, 256, 257, 2147483646, 2147483647, 2147483648, 4294967294, 4294967295,
];

// Numbers with a point and without.
const NUMBERS: [u32; 13] = [0, 1, 2, 3, 4, 5, 6, 7, 8, 9, 10, 11, 4294967295];

// One seat more than a figure is shared among.
const TOO_MANY_SEATS: usize = MOST_SEATS + 1;

// A kind by its name in the report.
trait Named: Kind {
    const NAME: &'static str;
}

impl Named for Small {
    const NAME: &'static str = "small";
}

impl Named for Wide {
    const NAME: &'static str = "wide";
}

impl Named for Byte {
    const NAME: &'static str = "byte";
}

fn operations<K: Named>(rt: &impl Print) -> io::Result<()> {
    let kind = K::NAME;
    let size = K::size();
    let unit = K::unit();
    println!(rt; "{kind} size {size} unit {unit}")?;
    for a in CODES {
        let negative = K::negative(a);
        println!(rt; "{kind} negative {a} is {negative}")?;
        for b in CODES {
            let sum = K::sum(a, b);
            let product = K::product(a, b);
            println!(rt; "{kind} {a} and {b}: sum {sum}, product {product}")?;
        }
    }
    Ok(())
}

fn points<K: Named>(rt: &impl Print) -> io::Result<()> {
    let kind = K::NAME;
    for i in NUMBERS {
        let point = K::point(i);
        println!(rt; "{kind} point {i} is {point}")?;
        for j in NUMBERS {
            let reciprocal = K::reciprocal(i, j);
            println!(rt; "{kind} reciprocal {i} {j} is {reciprocal}")?;
        }
    }
    Ok(())
}

// The weights of n seats, up to one too many.
fn weights<K: Named>(rt: &impl Print, n: usize) -> io::Result<()> {
    let kind = K::NAME;
    let mut list = ArrayVec::from([7; TOO_MANY_SEATS]);
    list.truncate(n);
    match sharing::weigh::<K>(&mut list) {
        Ok(()) => println!(rt; "{kind} weights of {n}: {list:?}"),
        Err(refusal) => {
            let number = refusal.number();
            println!(rt; "{kind} weights of {n}: no {number}, {list:?}")
        }
    }
}

// What the weights of n seats make of the first n shares.
fn weighed<K: Named>(rt: &impl Print, shares: &[Code], n: usize) -> io::Result<()> {
    let kind = K::NAME;
    let mut weights = ArrayVec::from([0; MOST_SEATS]);
    weights.truncate(n);
    let Ok(()) = sharing::weigh::<K>(&mut weights) else {
        return println!(rt; "{kind} {n} shares are not weighed");
    };
    let total = sharing::recombine::<K>(&weights, shares);
    println!(rt; "{kind} {n} weighed shares are {total}")
}

// The shares of a figure along a strip at seats 0 to 10, and what the weights make of them.
fn shares<K: Named>(rt: &impl Print, figure: Code, strip: &[Code]) -> io::Result<()> {
    let kind = K::NAME;
    for seat in 0..11 {
        let share = sharing::share::<K>(figure, strip, seat);
        println!(rt; "{kind} share of {figure} along {strip:?} at {seat} is {share}")?;
    }
    let shares = [1, 2, 3, 4, 5, 6, 7, 8, 9].map(|seat| sharing::share::<K>(figure, strip, seat));
    for n in 0..=MOST_SEATS {
        weighed::<K>(rt, &shares, n)?;
    }
    Ok(())
}

fn masks<K: Named>(rt: &impl Print, group: &[u32], length: usize) -> io::Result<()> {
    let kind = K::NAME;
    let mut strip = ArrayVec::from([5; MOST_SEATS]);
    strip.truncate(length);
    sharing::mask::<K>(group, &mut strip);
    println!(rt; "{kind} mask of {group:?} is {strip:?}")
}

fn rebuild<K: Named>(rt: &impl Print, case: Case) -> io::Result<()> {
    let kind = K::NAME;
    let Case { k, seats, shares } = case;
    match sharing::rebuild::<K>(k, seats, shares) {
        Ok(figure) => println!(rt; "{kind} rebuild {k} {seats:?} {shares:?}: ok {figure}"),
        Err(refusal) => {
            let number = refusal.number();
            println!(rt; "{kind} rebuild {k} {seats:?} {shares:?}: no {number}")
        }
    }
}

fn kind<K: Named>(rt: &impl Print) -> io::Result<()> {
    operations::<K>(rt)?;
    points::<K>(rt)?;
    for n in 0..=TOO_MANY_SEATS {
        weights::<K>(rt, n)?;
    }
    shares::<K>(rt, 4, &[5])?;
    shares::<K>(rt, 83, &[87])?;
    shares::<K>(rt, 4294967295, &[4294967295, 2147483647, 256, 31])?;
    shares::<K>(rt, 7, &[])?;
    masks::<K>(rt, &[], 2)?;
    masks::<K>(rt, &[3], 1)?;
    masks::<K>(rt, &[9, 1, 4, 2], 4)?;
    masks::<K>(rt, &[0, 10, 4294967295], 2)?;
    for case in CASES {
        rebuild::<K>(rt, case)?;
    }
    Ok(())
}

fn main(rt: HostRuntime) -> io::Result<()> {
    kind::<Small>(&rt)?;
    kind::<Wide>(&rt)?;
    kind::<Byte>(&rt)
}
