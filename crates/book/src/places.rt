// Lists by place: reads and writes of a place that a list may not have, and lists made place by place.
ghost use Rattle.std.specs.Prelude.{◌≡◌, ℕ, ◌+◌, ◌-◌, ◌^◌, ◌<◌, map, slice_index_or, slice_set};
ghost use Rattle.std.specs.List.{range_with_len};

use std::array;

// The place of a seat in a list that begins with seat 1.
pub(crate) fn of_seat(seat: u32) -> usize
    ensures { result ≡ seat - 1 }
{
    seat.saturating_sub(1) as usize
}

// The value at a place, or another where there is no such place.
pub(crate) fn at<T: Copy>(values: &[T], place: usize, otherwise: T) -> T
    ensures { result ≡ slice_index_or values.now place otherwise }
{
    values.get(place).copied().unwrap_or(otherwise)
}

// The list takes a value at a place. Where there is no such place it stays as it is. By index, since the contract of
// get_mut does not say what the list ends as.
pub(crate) fn put<T: Copy>(values: &mut [T], place: usize, value: T)
    ensures { values.new ≡ slice_set values.old place value }
{
    if place < values.len() {
        values[place] = value;
    }
}

// What a closure gives for each number from the first on, as many as the list has places. Where each call gives the
// value of its number, those are the list.
pub(crate) fn numbered<T, const N: usize, F: Fn(u32) -> T>(first: u32, value_of: F) -> [T; N]
    requires callable { F.IsAlwaysCallable value_of }
    requires fits { first + N < 2 ^ 32 }
    ensures { (value : ℕ → T) → ((i : ℕ) (v : T) → F.post value_of i v → v ≡ value i)
        → result ≡ map value (range_with_len first N) }
{
    array::from_fn(|place| value_of(first + place as u32))
}
