// Remainders by 31: a kind small enough to follow by hand.
ghost use Rattle.kinds.specs.Remainders.{remainders};
ghost use Rattle.kinds.specs.Tables.{small_table};
ghost use Rattle.std.proofs.Math.Path.{refl};
ghost use Rattle.std.proofs.Common.{lit<, lit≤};
ghost use Rattle.kinds.specs.Each.{each};
ghost use Rattle.kinds.specs.RemaindersLemmas.{lawful_remainders};

use super::Code;
use super::points::Reciprocals;
use super::remainders::{Modulus, Remainders};
use std::marker::PhantomData;

static RECIPROCALS: Reciprocals = [
    [0, 30, 15, 10, 23, 6, 5, 22, 27, 24],
    [1, 0, 30, 15, 10, 23, 6, 5, 22, 27],
    [16, 1, 0, 30, 15, 10, 23, 6, 5, 22],
    [21, 16, 1, 0, 30, 15, 10, 23, 6, 5],
    [8, 21, 16, 1, 0, 30, 15, 10, 23, 6],
    [25, 8, 21, 16, 1, 0, 30, 15, 10, 23],
    [26, 25, 8, 21, 16, 1, 0, 30, 15, 10],
    [9, 26, 25, 8, 21, 16, 1, 0, 30, 15],
    [4, 9, 26, 25, 8, 21, 16, 1, 0, 30],
    [7, 4, 9, 26, 25, 8, 21, 16, 1, 0],
];

// The modulus 31.
#[derive(Clone, Copy, PartialEq, Eq)]
pub struct By31;

impl Modulus for By31 {
    ghost SIZE = { 31 };

    ghost table = { small_table };

    ghost lawful = { unfold each in lawful_remainders 31 (lit< tt) (lit≤ tt) small_table refl };

    const SIZE: Code = 31;

    fn reciprocals() -> &'static Reciprocals {
        &RECIPROCALS
    }
}

// Remainders by 31, to follow by hand.
pub type Small = Remainders<By31>;

// The kind as a value.
pub const Small: Small = Remainders(PhantomData);
