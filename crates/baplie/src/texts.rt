//! The texts of cells, counts and weights.
ghost use Rattle.std.specs.Prelude.{◌≡◌, ◌<◌, ◌≤◌, ◌+◌, ◌%◌, ◌↔◌, ℕ, List, Some, false, length, IfSome, IsNone};
ghost use Rattle.std.specs.List.{list_all, position_or_len};
ghost use Rattle.std.specs.Option.{ForSome};
ghost use Rattle.stow_data.specs.Digits.{is_digit, value};
ghost use Rattle.baplie.specs.Texts.{at_most, cell_digits, cell_of, is_cell, is_mark, is_number, number_of, rounded_up, weight_of, with_decimals};

use stow_data::{are_digits, digit, value_of};

/// Bay, row and tier number of a cell's text: seven digits BBBRRTT, or six BBRRTT (SMDG BAPLIE 2.2).
/// None where the text isn't six or seven digits.
pub fn read_cell_text(text: &[u8]) -> Option<(u32, u32, u32)>
    ensures read { result ≡ cell_of text.now }
    ensures none { IsNone result ↔ (is_cell text.now ≡ false) }
{
    if !is_cell_text(text) {
        return None;
    }
    let split = text.len() - 4;
    Some((
        short_value(&text[..split]),
        short_value(&text[split..split + 2]),
        short_value(&text[split + 2..]),
    ))
}

/// Whether a text is six or seven digits.
fn is_cell_text(text: &[u8]) -> bool
    ensures { result ≡ is_cell text.now }
{
    (text.len() == 6 || text.len() == 7) && are_digits(text)
}

/// The number that at most nine digits spell.
fn short_value(text: &[u8]) -> u32
    requires short { length text.now ≤ 9 }
    ensures read { result ≡ value text.now }
    ensures small { result < 1000000000 }
{
    value_of(text) as u32
}

/// The text of a cell: the last three digits of the bay, two of the row, two of the tier. Where the numbers have
/// no more digits than that, it is the one text of seven digits that reads as this cell.
pub fn cell_text(bay: u32, row: u32, tier: u32) -> [u8; 7]
    ensures digits { result ≡ cell_digits bay row tier }
    ensures reads_back { bay < 1000 → row < 100 → tier < 100 → cell_of result ≡ Some (bay, row, tier) }
    ensures only { (text : List ℕ) → length text ≡ 7 → cell_of text ≡ Some (bay, row, tier) → text ≡ result }
{
    [
        digit(bay / 100),
        digit(bay / 10),
        digit(bay),
        digit(row / 10),
        digit(row),
        digit(tier / 10),
        digit(tier),
    ]
}

/// A control count: None where it isn't one to nine digits.
pub fn read_count(text: &[u8]) -> Option<u32>
    ensures read { result ≡ number_of text.now }
    ensures small { IfSome result (λ n. n < 1000000000) }
{
    if text.is_empty() || text.len() > 9 || !are_digits(text) {
        return None;
    }
    Some(short_value(text))
}

/// A weight in kilograms, rounded up: None where it isn't one to nine digits, perhaps with a decimal
/// mark and one to nine digits behind, or is above 99,999.
pub fn read_weight(text: &[u8]) -> Option<u32>
    ensures { result ≡ weight_of text.now }
{
    let mark = mark_in(text);
    if mark == text.len() {
        return bounded(read_count(text));
    }
    let whole = read_count(&text[..mark]);
    let decimals = read_count(&text[mark + 1..]);
    bounded(round_up(whole, decimals))
}

/// Where the first decimal mark stands, or the length where there is none.
fn mark_in(text: &[u8]) -> usize
    ensures mark { result ≡ position_or_len is_mark text.now }
    ensures within { result ≤ length text.now }
{
    for (place, byte) in text.iter().enumerate() {
        if matches!(*byte, b'.' | b',') {
            return place;
        }
    }
    text.len()
}

/// Whole kilograms and decimals, rounded up.
fn round_up(whole: Option<u32>, decimals: Option<u32>) -> Option<u32>
    requires { ForSome whole (λ n. n < 1000000000) }
    ensures { result ≡ with_decimals whole decimals }
{
    let whole = whole?;
    let decimals = decimals?;
    Some(if decimals == 0 { whole } else { whole + 1 })
}

/// A weight of at most 99,999 kilograms.
fn bounded(kg: Option<u32>) -> Option<u32>
    ensures { result ≡ at_most 99999 kg }
{
    kg.filter(|kg| *kg <= 99_999)
}
