// Rows: a code for each seat, seat 1 first, and 0 past the last seat.
ghost use Rattle.std.specs.Prelude.{◌≡◌, ℕ};
ghost use Rattle.book.specs.Secrets.{by_seat};

use super::places;
use kinds::Code;
use sharing::MOST_SEATS;

// Nine places for any n, 0 past the last seat, and no list of n: so the definitions have it, and equal books are equal in memory.
pub type Row = [Code; MOST_SEATS];

// The row that has what a closure gives for each of seats 1 to n. Where each call gives the code of its seat, those
// are the row.
pub(crate) fn fill<F: Fn(u32) -> Code>(n: u32, code_of: F) -> Row
    requires { F.IsAlwaysCallable code_of }
    ensures { (code : ℕ → ℕ) → ((seat c : ℕ) → F.post code_of seat c → c ≡ code seat)
        → result ≡ by_seat n code }
{
    places::numbered(1, |seat| if seat <= n { code_of(seat) } else { 0 })
}
