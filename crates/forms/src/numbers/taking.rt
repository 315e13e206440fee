// Numbers one by one, and all of them.
ghost use Rattle.std.specs.Prelude.{◌≡◌, [], ◌∷◌, ◌++◌, length, if◌then◌else◌, Some, None, nat_lt};
ghost use Rattle.reading.specs.Forms.{most_numbers};
ghost use Rattle.forms.specs.Lists.{numbers_in, taken_in, at_most_nine, spaced_values, list_value};

use super::Numbers;
use kinds::Code;
use reading::{MOST_NUMBERS, value};

impl Numbers {
    pub(crate) fn none() -> Numbers
        ensures { numbers_in result ≡ [] }
    {
        Numbers {
            codes: [0; MOST_NUMBERS],
            count: 0,
        }
    }

    // One more; none where there are nine.
    pub(crate) fn with(mut self, code: Code) -> Option<Numbers>
        ensures { taken_in result ≡ (if nat_lt (length (numbers_in self)) most_numbers then Some (numbers_in self ++ code ∷ []) else None) }
    {
        if self.count == MOST_NUMBERS {
            return None;
        }
        self.codes[self.count] = code;
        self.count += 1;
        Some(self)
    }

    // All of them, in their order.
    pub fn as_slice(&self) -> &[Code]
        ensures { result.now ≡ numbers_in self.now }
    {
        &self.codes[..self.count]
    }

    // The numbers of a list's bytes; none where they are no list's. Why a form is wrong is said once, where it is judged.
    pub(crate) fn of(list: &[u8]) -> Option<Numbers>
        ensures { taken_in result ≡ list_value list.now }
    {
        let [b'(', inside @ .., b')'] = list else {
            return None;
        };
        if inside.is_empty() {
            return Some(Numbers::none());
        }
        spaced(inside)
    }
}

// Numbers with a space between them.
fn spaced(bytes: &[u8]) -> Option<Numbers>
    ensures { taken_in result ≡ at_most_nine (spaced_values [] bytes.now) }
{
    let mut numbers = Numbers::none();
    for digits in bytes.split(|b| *b == b' ') {
        numbers = numbers.with(value(digits)?)?;
    }
    Some(numbers)
}
