//! Words, put together to a line.
ghost use Rattle.std.specs.Prelude.{◌≡◌, ◌≢◌, ◌<◌, ◌≤◌, ◌^◌, ℕ, ◌+◌, ◌-◌, [], ◌∷◌, List, All, IfSome, MatchOption, Option, Some, None, length, map, unsigned_abs};
ghost use Rattle.zero_one_rows.specs.declared.program.Row.{Row};
ghost use Rattle.certificate.specs.declared.lines.Line.{Line};
ghost use Rattle.certificate.specs.declared.words.Token.TheVariants.{Word, Number};
ghost use Rattle.certificate.specs.Grammar.{IsRow, IsEven};
ghost use Rattle.certificate.specs.Text.{numbers_of};
ghost use Rattle.certificate.specs.Reading.{row_of_two, row_of_three, row_of_four, row_of_chain, row_words, family_key, line_key, line_rest, IsLine};

use crate::words::{Key, Token};
use arrayvec::ArrayVec;
use stow_data::{CallNo, HalfNo, KindNo, PlaceNo, StackNo};
use zero_one_rows::{Chain, Row};

pub(crate) type Numbers = ArrayVec<u32, 18>;

/// The numbers of words, where each is a number below 2^32.
pub(crate) fn read_numbers(words: &[Token]) -> Option<Numbers>
    requires { length words.now ≤ 18 }
    ensures { MatchOption result ((ns : List ℕ) → All (λ n. n < 2 ^ 32) ns → map Number ns ≢ words.now) (λ v. All (λ n. n < 2 ^ 32) v.items × (map Number v.items ≡ words.now)) }
{
    let mut numbers = Numbers::new();
    for word in words {
        let Some(n) = small_number(*word) else {
            return None;
        };
        numbers.push(n);
    }
    Some(numbers)
}

/// A number below 2^32.
fn small_number(word: Token) -> Option<u32>
    ensures { MatchOption result ((n : ℕ) → n < 2 ^ 32 → Number n ≢ word) (λ n. (n < 2 ^ 32) × (Number n ≡ word)) }
{
    match word {
        Token::Number(n) if n <= u32::MAX as u64 => Some(n as u32),
        _ => None,
    }
}

/// A row of two numbers.
fn row_of_two(key: Key, a: u32, b: u32) -> Option<Row>
    ensures value { result ≡ row_of_two key a b }
    ensures found { IfSome result (λ r. (family_key r ≡ key) × (numbers_of r ≡ a ∷ b ∷ []) × IsEven r) }
{
    match key {
        Key::Start => Some(Row::Start {
            q: a,
            place: PlaceNo(b),
        }),
        Key::Cell => Some(Row::Cell {
            call: CallNo(a),
            half: HalfNo(b),
        }),
        Key::Support => Some(Row::Support {
            call: CallNo(a),
            half: HalfNo(b),
        }),
        Key::Twenty => Some(Row::Twenty {
            call: CallNo(a),
            half: HalfNo(b),
        }),
        Key::Block => Some(Row::Block {
            call: CallNo(a),
            half: HalfNo(b),
        }),
        Key::Weight => Some(Row::Weight {
            call: CallNo(a),
            stack: StackNo(b),
        }),
        _ => None,
    }
}

/// A row of three numbers.
fn row_of_three(key: Key, a: u32, b: u32, c: u32) -> Option<Row>
    ensures value { result ≡ row_of_three key a b c }
    ensures found { IfSome result (λ r. (family_key r ≡ key) × (numbers_of r ≡ a ∷ b ∷ c ∷ []) × IsEven r) }
{
    match key {
        Key::Flow => Some(Row::Flow {
            q: a,
            call: CallNo(b),
            kind: KindNo(c),
        }),
        _ => None,
    }
}

/// A row of four numbers.
fn row_of_four(key: Key, a: u32, b: u32, c: u32, d: u32) -> Option<Row>
    ensures value { result ≡ row_of_four key a b c d }
    ensures found { IfSome result (λ r. (family_key r ≡ key) × (numbers_of r ≡ a ∷ b ∷ c ∷ d ∷ []) × IsEven r) }
{
    match key {
        Key::Hatch => Some(Row::Hatch {
            w: a,
            call: CallNo(b),
            half: HalfNo(c),
            lowest: HalfNo(d),
        }),
        Key::Apart => Some(Row::Apart {
            call: CallNo(a),
            index: b,
            first: PlaceNo(c),
            second: PlaceNo(d),
        }),
        _ => None,
    }
}

/// A crossing row, whose chain has an even number of 4 to 12 numbers.
fn row_of_chain(key: Key, long: u32, price: u32, chain: &[u32]) -> Option<Row>
    ensures value { result ≡ row_of_chain key long price chain.now }
    ensures found { IfSome result (λ r. (family_key r ≡ key) × (numbers_of r ≡ long ∷ price ∷ chain.now) × IsEven r) }
{
    match key {
        Key::Cross if chain.len() >= 4 && chain.len() <= 12 && chain.len() % 2 == 0 => {
            Some(Row::Cross {
                length: long,
                price,
                chain: Chain::of(chain),
            })
        }
        _ => None,
    }
}

/// The row of a family with these numbers.
fn row_of(key: Key, numbers: &[u32]) -> Option<Row>
    ensures two { (a b : ℕ) → numbers.now ≡ a ∷ b ∷ [] → result ≡ row_of_two key a b }
    ensures three { (a b c : ℕ) → numbers.now ≡ a ∷ b ∷ c ∷ [] → result ≡ row_of_three key a b c }
    ensures four { (a b c d : ℕ) → numbers.now ≡ a ∷ b ∷ c ∷ d ∷ [] → result ≡ row_of_four key a b c d }
    ensures many { (l p a b c : ℕ) (chain : List ℕ) → numbers.now ≡ l ∷ p ∷ a ∷ b ∷ c ∷ chain → result ≡ row_of_chain key l p (a ∷ b ∷ c ∷ chain) }
    ensures few { length numbers.now < 2 → result ≡ None }
    ensures found { IfSome result (λ r. (family_key r ≡ key) × (numbers_of r ≡ numbers.now) × IsEven r) }
{
    match numbers {
        [a, b] => row_of_two(key, *a, *b),
        [a, b, c] => row_of_three(key, *a, *b, *c),
        [a, b, c, d] => row_of_four(key, *a, *b, *c, *d),
        [long, price, chain @ ..] => row_of_chain(key, *long, *price, chain),
        _ => None,
    }
}

/// The row that words name.
pub(crate) fn read_row(words: &[Token]) -> Option<Row>
    requires { length words.now ≤ 18 }
    ensures { MatchOption result ((r : Row) → IsRow r → row_words r ≢ words.now) (λ r. (row_words r ≡ words.now) × IsRow r) }
{
    let Some((first, rest)) = words.split_first() else {
        return None;
    };
    let Token::Word(key) = *first else {
        return None;
    };
    let Some(numbers) = read_numbers(rest) else {
        return None;
    };
    row_of(key, numbers.as_slice())
}
