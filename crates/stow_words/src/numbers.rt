//! The numbers of the command line.
ghost use Rattle.std.specs.Prelude.{◌≡◌};
ghost use Rattle.stow_words.specs.Numbers.{is_number, number_in};

use stow_data::{are_digits, value_of};

/// The number that a text spells, where it is one to ten digits of a number from `least` to `most`.
pub fn read_number(text: &str, least: u64, most: u64) -> Option<u64>
    ensures { result ≡ number_in least most text.now }
{
    let digits = text.as_bytes();
    if !is_number(digits) {
        return None;
    }
    let number = value_of(digits);
    if least <= number && number <= most {
        return Some(number);
    }
    None
}

fn is_number(text: &[u8]) -> bool
    ensures { result ≡ is_number text.now }
{
    1 <= text.len() && text.len() <= 10 && are_digits(text)
}
