// Bytes, with exclusive or for the sum and the product of FIPS 197.
ghost use Rattle.std.specs.Prelude.{◌≡◌, ◌^◌, ◌<◌};
ghost use Rattle.std.proofs.Math.Path.{refl};
ghost use Rattle.kinds.specs.Bytes.{multiplied, reduced, bytes, byte_product};
ghost use Rattle.kinds.specs.Tables.{byte_table};
ghost use Rattle.kinds.specs.BytesLemmas.{lawful_bytes};
ghost use Rattle.kinds.specs.Each.{each};

use super::points::Reciprocals;
use super::{Code, Kind, points};

const SIZE: Code = 256;

const UNIT: Code = 1;

// x^8 + x^4 + x^3 + x + 1.
const MODULUS: u32 = 0x11b;

static RECIPROCALS: Reciprocals = [
    [0, 1, 141, 246, 203, 82, 123, 209, 232, 79],
    [1, 0, 246, 141, 82, 203, 209, 123, 79, 232],
    [141, 246, 0, 1, 123, 209, 203, 82, 41, 192],
    [246, 141, 1, 0, 209, 123, 82, 203, 192, 41],
    [203, 82, 123, 209, 0, 1, 141, 246, 176, 225],
    [82, 203, 209, 123, 1, 0, 246, 141, 225, 176],
    [123, 209, 203, 82, 141, 246, 0, 1, 229, 199],
    [209, 123, 82, 203, 246, 141, 1, 0, 199, 229],
    [232, 79, 41, 192, 176, 225, 229, 199, 0, 1],
    [79, 232, 192, 41, 225, 176, 199, 229, 1, 0],
];

// The product of two polynomials. No branch depends on a or b.
#[tactic(auto, using(crate::specs::BytesLemmas::multiplied_below), unfolding(crate::specs::Bytes::multiplied))]
fn carryless(a: u32, b: u32) -> u32
    requires { (a < 256) × (b < 256) }
    ensures product { result ≡ multiplied 8 a b }
    ensures below { result < 2 ^ 15 }
{
    let mut r: u32 = 0;
    for i in 0..8u32 {
        r ^= ((b >> i) & 1) * (a << i);
    }
    r
}

// The remainder of a polynomial by the modulus. No branch depends on a.
#[tactic(auto, unfolding(crate::specs::Bytes::reduced))]
fn remainder(a: u32) -> u32
    requires { a < 2 ^ 15 }
    ensures { result ≡ reduced 7 a }
{
    let mut r = a;
    for i in (0..7u32).rev() {
        r ^= ((r >> (8 + i)) & 1) * (MODULUS << i);
    }
    r
}

// Bytes with the arithmetic of FIPS 197, for keys and flags.
#[derive(Clone, Copy)]
pub struct Byte;

impl Kind for Byte {
    ghost ops = { bytes byte_table };

    ghost lawful = { unfold each byte_product multiplied reduced in lawful_bytes byte_table refl };

    fn size() -> Code {
        SIZE
    }

    fn sum(a: Code, b: Code) -> Code {
        (a % SIZE) ^ (b % SIZE)
    }

    fn negative(a: Code) -> Code {
        a % SIZE
    }

    #[tactic(auto, unfolding(crate::specs::Bytes::byte_product))]
    fn product(a: Code, b: Code) -> Code {
        remainder(carryless(a % SIZE, b % SIZE))
    }

    fn unit() -> Code {
        UNIT
    }

    // As in the other kinds: a line that names what they share.
    fn point(i: u32) -> Code {
        points::point(i)
    }

    fn reciprocal(i: u32, j: u32) -> Code {
        points::at(&RECIPROCALS, i, j)
    }
}
