// Remainders by a modulus: the kinds whose sum and product are the ordinary ones, cut to the modulus.
ghost use Rattle.std.specs.Prelude.{◌≡◌, ℕ, List};
ghost use Rattle.kinds.specs.Kind.{Lawful};
ghost use Rattle.kinds.specs.Remainders.{remainders};

use super::points::Reciprocals;
use super::{Code, Kind, points};
use std::marker::PhantomData;

const UNIT: Code = 1;

// A modulus, with what makes its remainders a kind of number: the reciprocals of the gaps between the points.
pub trait Modulus: Copy {
    ghost SIZE: { ℕ };

    ghost table: { List (List ℕ) };

    // How many remainders there are.
    const SIZE: Code;

    // Lent from a static, since a constant of a trait is made anew at each use.
    fn reciprocals() -> &'static Reciprocals
        ensures { result.now ≡ table };

    ghost lawful: { Lawful (remainders SIZE table) };
}

// The remainders by a modulus, counted by its ordinary sum and product. They compare, so that the constants Small and Wide
// can stand in patterns.
#[derive(Clone, Copy, PartialEq, Eq)]
pub struct Remainders<M>(pub(super) PhantomData<M>);

impl<M: Modulus> Kind for Remainders<M> {
    ghost ops = { remainders M.SIZE M.table };

    ghost lawful = { M.Modulus.lawful };

    fn size() -> Code {
        M::SIZE
    }

    fn sum(a: Code, b: Code) -> Code {
        ((a as u64 + b as u64) % M::SIZE as u64) as Code
    }

    fn negative(a: Code) -> Code {
        (M::SIZE - a % M::SIZE) % M::SIZE
    }

    fn product(a: Code, b: Code) -> Code {
        ((a as u64 * b as u64) % M::SIZE as u64) as Code
    }

    fn unit() -> Code {
        UNIT
    }

    fn point(i: u32) -> Code {
        points::point(i)
    }

    fn reciprocal(i: u32, j: u32) -> Code {
        points::at(M::reciprocals(), i, j)
    }
}
