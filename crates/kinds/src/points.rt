// The evaluation points, and tables of the reciprocals of the gaps between them.
ghost use Rattle.std.specs.Prelude.{◌≡◌};
ghost use Rattle.kinds.specs.Tables.{point_code, entry};

use super::{Code, LAST_POINT};

// How many numbers have a point: 0 to the last.
pub const POINTS: usize = LAST_POINT as usize + 1;

// Row i, column j: the reciprocal of point i - point j, and 0 where i and j are equal.
pub type Reciprocals = [[Code; POINTS]; POINTS];

// Point i is code i.
pub(super) fn point(i: u32) -> Code
    ensures { result ≡ point_code i }
{
    if i <= LAST_POINT { i } else { 0 }
}

// The entry for i and j, and 0 where one of them has no point.
pub(super) fn at(table: &Reciprocals, i: u32, j: u32) -> Code
    ensures { result ≡ entry table.now i j }
{
    table
        .get(i as usize)
        .and_then(|row| row.get(j as usize))
        .copied()
        .unwrap_or(0)
}
