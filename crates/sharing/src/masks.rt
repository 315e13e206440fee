// The mask of a group of seats: the strip that hides a figure from it.
ghost use Rattle.std.specs.Prelude.{◌≡◌, length};
ghost use Rattle.sharing.specs.Masks.{grown, mask_of};
ghost use Rattle.sharing.specs.Promises.{Masks, Hides};

use kinds::{Code, Kind};
use std::mem::replace;

// Multiplies the polynomial 1 + c_1 × x + .., whose coefficients after the constant stand in the strip,
// by 1 - r × x, and cuts it to the strip's length.
fn grow<K: Kind>(r: Code, strip: &mut [Code])
    ensures { strip.new ≡ grown K.Kind.ops r K.Kind.ops.unit strip.old }
{
    let mut before = K::unit();
    for code in strip.iter_mut() {
        let grown = K::sum(*code, K::negative(K::product(r, before)));
        before = replace(code, grown);
    }
}

// The strip takes the mask of the group: the coefficients, after the constant, of the product of
// 1 - x / p_s over the group's seats s, cut to the strip's length. It is 0 at each of those seats, so
// that a multiple of it added to a polynomial changes no share of theirs.
pub fn mask<K: Kind>(group: &[u32], strip: &mut [Code])
    ensures written { strip.new ≡ mask_of K.Kind.ops group.now (length strip.old) }
    ensures masks { Masks K.Kind.ops }
    ensures hides { Hides K.Kind.ops }
{
    strip.fill(0);
    for &seat in group {
        grow::<K>(K::reciprocal(seat, 0), strip);
    }
}
