//! The kinds of number that figures are counted in.
#![tactic(auto)]

ghost use Rattle.std.specs.Prelude.{◌≡◌};
ghost use Rattle.kinds.specs.Kind.{Ops, Lawful};

mod byte;
mod points;
mod remainders;
mod small;
mod wide;

pub use byte::Byte;
pub use small::Small;
pub use wide::Wide;

// A number of a kind as it is stored: its code, an unsigned 32-bit whole number.
pub type Code = u32;

// The last number that has a point.
pub const LAST_POINT: u32 = 9;

// A kind of number: in the field's terms, a finite commutative ring in which the gaps between
// the evaluation points have reciprocals. Each operation takes any codes, counts a code as its
// remainder by the size, and answers a code below the size.
pub trait Kind: Copy {
    ghost ops: { Ops };

    // How many numbers there are.
    fn size() -> Code
        ensures { result ≡ ops.size };

    // The sum of two numbers.
    fn sum(a: Code, b: Code) -> Code
        ensures { result ≡ ops.sum a b };

    // What is added to a number to give 0.
    fn negative(a: Code) -> Code
        ensures { result ≡ ops.negative a };

    // The product of two numbers.
    fn product(a: Code, b: Code) -> Code
        ensures { result ≡ ops.product a b };

    // The number whose product with any other is that other.
    fn unit() -> Code
        ensures { result ≡ ops.unit };

    // The evaluation point of 0 to 9; 0 for any number above.
    fn point(i: u32) -> Code
        ensures { result ≡ ops.point i };

    // The reciprocal of point i - point j; 0 where i and j are equal or one is above 9.
    fn reciprocal(i: u32, j: u32) -> Code
        ensures { result ≡ ops.reciprocal i j };

    ghost lawful: { Lawful ops };
}
