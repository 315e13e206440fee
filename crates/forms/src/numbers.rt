// The numbers of a list.
ghost use Rattle.std.specs.Prelude.{◌≡◌, ◌≤◌, length};
ghost use Rattle.reading.specs.Forms.{most_numbers};

use kinds::Code;
use reading::MOST_NUMBERS;

mod taking;

// At most nine numbers, in their order; the places past them hold nothing that counts. An order is copied, and an
// `ArrayVec` cannot be: so they stand in an array, with their count.
#[derive(Clone, Copy, Debug)]
pub struct Numbers {
    codes: [Code; MOST_NUMBERS],
    count: usize,
    ghost nine: { length codes ≡ most_numbers },
    ghost few: { count ≤ most_numbers },
}
