// Decimal numbers, read from a slice.
ghost use Rattle.std.specs.Prelude.{◌≡◌, ◌≤◌};
ghost use Rattle.plantext.specs.Numbers.{plain, number_within, number_of, WrittenReadBack};

// the most digits that a number of job text has
const MOST_DIGITS: usize = 15;

// The number that the digits write: 1 to 15 of them, and no zero before others.
pub fn read_number(digits: &[u8]) -> Option<u64>
    ensures number { result ≡ number_of digits.now }
    ensures back { WrittenReadBack }
{
    read_within(digits, MOST_DIGITS)
}

// The number that at most `most` digits write; 18 digits always fit 64 bits.
fn read_within(digits: &[u8], most: usize) -> Option<u64>
    requires { most ≤ 18 }
    ensures { result ≡ number_within most digits.now }
{
    if !is_plain(digits, most) {
        return None;
    }
    // a loop: what bounds the number is how many digits were read, which the closure of a fold does not see
    let mut n: u64 = 0;
    for b in digits {
        if !b.is_ascii_digit() {
            return None;
        }
        n = n * 10 + u64::from(*b - b'0');
    }
    Some(n)
}

// Whether there are 1 to `most` bytes, and no zero before others.
fn is_plain(digits: &[u8], most: usize) -> bool
    ensures { result ≡ plain most digits.now }
{
    let count = digits.len();
    (1..=most).contains(&count) && (count == 1 || digits[0] != b'0')
}
