ghost use Rattle.std.specs.Prelude.{◌≡◌, ◌-◌, ◌^◌, ◌<◌};
ghost use Rattle.script.specs.Numbers.{led, number_of, as_neg, as_pos, key_of};

// At least one byte, and no zero before another byte.
fn well_led(digits: &[u8]) -> bool
    ensures { result ≡ led digits.now }
{
    match digits {
        [] => false,
        [b'0', _, ..] => false,
        _ => true,
    }
}

/// The number that digits without leading zeros write, where it is at most `most`.
pub(crate) fn number(digits: &[u8], most: u64) -> Option<u64>
    requires { most < 2 ^ 40 }
    ensures { result ≡ number_of most digits.now }
{
    if !well_led(digits) {
        return None;
    }
    let mut value: u64 = 0;
    for b in digits {
        if !b.is_ascii_digit() {
            return None;
        }
        value = value * 10 + u64::from(*b - b'0');
        if value > most {
            return None;
        }
    }
    Some(value)
}

fn below_zero(digits: &[u8]) -> Option<i32>
    ensures { result ≡ as_neg (number_of (2 ^ 31) digits.now) }
{
    number(digits, 1 << 31)
        .filter(|n| *n > 0)
        .map(|n| -1 - (n - 1) as i32)
}

fn from_zero(digits: &[u8]) -> Option<i32>
    ensures { result ≡ as_pos (number_of (2 ^ 31 - 1) digits.now) }
{
    number(digits, (1 << 31) - 1).map(|n| n as i32)
}

/// The number key that a word writes, within 32 signed bits, `-` only below zero.
pub fn key_number(bytes: &[u8]) -> Option<i32>
    ensures { result ≡ key_of bytes.now }
{
    match bytes {
        [b'-', digits @ ..] => below_zero(digits),
        _ => from_zero(bytes),
    }
}
