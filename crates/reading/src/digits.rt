// The value of a run of digits.
ghost use Rattle.std.specs.Prelude.{◌≡◌};
ghost use Rattle.reading.specs.Forms.{small_value, number_value};

// the most digits that a number may have
const MOST_DIGITS: usize = 10;

// The decimal value, where all are digits and it fits.
fn decimal_value(digits: &[u8]) -> Option<u32>
    ensures { result ≡ small_value digits.now }
{
    let mut value: u32 = 0;
    for b in digits {
        let digit = char::from(*b).to_digit(10)?;
        value = value.checked_mul(10)?.checked_add(digit)?;
    }
    Some(value)
}

// The number that the digits spell; none where the run is no number.
pub fn value(digits: &[u8]) -> Option<u32>
    ensures { result ≡ number_value digits.now }
{
    match digits {
        [] | [b'0', _, ..] => None,
        _ if digits.len() > MOST_DIGITS => None,
        _ => decimal_value(digits),
    }
}
