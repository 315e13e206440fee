// Remainders by 2,147,483,647, for hours and costs.
ghost use Rattle.kinds.specs.Remainders.{remainders};
ghost use Rattle.kinds.specs.Tables.{wide_table};
ghost use Rattle.std.proofs.Math.Path.{refl};
ghost use Rattle.std.proofs.Common.{lit<, lit≤};
ghost use Rattle.kinds.specs.Each.{each};
ghost use Rattle.kinds.specs.RemaindersLemmas.{lawful_remainders};

use super::Code;
use super::points::Reciprocals;
use super::remainders::{Modulus, Remainders};
use std::marker::PhantomData;

static RECIPROCALS: Reciprocals = [
    [
        0, 2147483646, 1073741823, 715827882, 1610612735, 1288490188, 357913941, 306783378,
        1879048191, 238609294,
    ],
    [
        1, 0, 2147483646, 1073741823, 715827882, 1610612735, 1288490188, 357913941, 306783378,
        1879048191,
    ],
    [
        1073741824, 1, 0, 2147483646, 1073741823, 715827882, 1610612735, 1288490188, 357913941,
        306783378,
    ],
    [
        1431655765, 1073741824, 1, 0, 2147483646, 1073741823, 715827882, 1610612735, 1288490188,
        357913941,
    ],
    [
        536870912, 1431655765, 1073741824, 1, 0, 2147483646, 1073741823, 715827882, 1610612735,
        1288490188,
    ],
    [
        858993459, 536870912, 1431655765, 1073741824, 1, 0, 2147483646, 1073741823, 715827882,
        1610612735,
    ],
    [
        1789569706, 858993459, 536870912, 1431655765, 1073741824, 1, 0, 2147483646, 1073741823,
        715827882,
    ],
    [
        1840700269, 1789569706, 858993459, 536870912, 1431655765, 1073741824, 1, 0, 2147483646,
        1073741823,
    ],
    [
        268435456, 1840700269, 1789569706, 858993459, 536870912, 1431655765, 1073741824, 1, 0,
        2147483646,
    ],
    [
        1908874353, 268435456, 1840700269, 1789569706, 858993459, 536870912, 1431655765,
        1073741824, 1, 0,
    ],
];

// The modulus 2,147,483,647.
#[derive(Clone, Copy, PartialEq, Eq)]
pub struct By2147483647;

impl Modulus for By2147483647 {
    ghost SIZE = { 2147483647 };

    ghost table = { wide_table };

    ghost lawful = { unfold each in lawful_remainders 2147483647 (lit< tt) (lit≤ tt) wide_table refl };

    const SIZE: Code = 2147483647;

    fn reciprocals() -> &'static Reciprocals {
        &RECIPROCALS
    }
}

// Remainders by 2,147,483,647, for hours and costs.
pub type Wide = Remainders<By2147483647>;

// The kind as a value.
pub const Wide: Wide = Remainders(PhantomData);
