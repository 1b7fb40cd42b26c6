//! Decimal digits, and the numbers that they spell.
ghost use Rattle.std.specs.Prelude.{◌≡◌, ◌<◌, ◌≤◌, length};
ghost use Rattle.std.specs.List.{list_all};
ghost use Rattle.stow_data.specs.Digits.{digit, digit_of, is_digit, value};

/// Whether each byte of a text is a decimal digit.
pub fn are_digits(text: &[u8]) -> bool
    ensures { result ≡ list_all is_digit text.now }
{
    text.iter().all(|b| matches!(*b, b'0'..=b'9'))
}

/// The number that at most ten digits spell. What it is of other bytes is of no account.
pub fn value_of(text: &[u8]) -> u64
    requires short { length text.now ≤ 10 }
    ensures read { result ≡ value text.now }
    ensures small { length text.now ≤ 9 → result < 1000000000 }
{
    let mut value: u64 = 0;
    for byte in text {
        value = value * 10 + digit_at(*byte);
    }
    value
}

/// The number of a digit.
fn digit_at(byte: u8) -> u64
    ensures value { result ≡ digit_of byte }
    ensures small { result ≤ 9 }
{
    byte.saturating_sub(b'0').min(9) as u64
}

/// The last decimal digit of a number, as a byte.
pub fn digit(n: u32) -> u8
    ensures { result ≡ digit n }
{
    b'0' + (n % 10) as u8
}
