//! Lines, put together from their words.
ghost use Rattle.std.specs.Prelude.{◌≡◌, ◌≢◌, ◌<◌, ◌≤◌, ◌^◌, ◌++◌, ℕ, ℤ, [], ◌∷◌, IfSome, MatchOption, Some, None, length, drop, unsigned_abs, ⊤};
ghost use Rattle.zero_one_rows.specs.declared.program.Var.{Var};
ghost use Rattle.zero_one_rows.specs.declared.program.Raise.{Raise};
ghost use Rattle.certificate.specs.declared.tree.End.TheVariants.{Branch};
ghost use Rattle.certificate.specs.declared.lines.Line.{Line};
ghost use Rattle.certificate.specs.declared.words.Key.{Key};
ghost use Rattle.certificate.specs.declared.words.Key.TheVariants as key;
ghost use Rattle.certificate.specs.declared.words.Token.TheVariants.{Word, Number};
ghost use Rattle.certificate.specs.Grammar.{IsEnd, IsRaise, IsRow};
ghost use Rattle.certificate.specs.Reading.{amount_word, bare_line, number_line, word_line, branch_words, change_words, row_words, line_key, line_rest, HasRanges, HasNoLine, IsLine};
ghost use Rattle.certificate.specs.Text.{whole};

use crate::lines::Line;
use crate::parsing::{read_numbers, read_row};
use crate::scanning::read_words;
use crate::tree::{End, Outcome};
use crate::words::{Key, Token};
use stow_data::{CallNo, KindNo, PlaceNo};
use zero_one_rows::{Raise, Var};

/// A line of a key alone.
fn bare_line(key: Key) -> Option<Line>
    ensures value { result ≡ bare_line key }
    ensures found { IfSome result (λ l. (line_key l ≡ key) × (line_rest l ≡ []) × HasRanges l) }
{
    match key {
        Key::Leaf => Some(Line::Ends(End::Leaf)),
        Key::Left => Some(Line::Ends(End::Left)),
        Key::End => Some(Line::Close),
        _ => None,
    }
}

/// A line of a key and a number.
fn number_line(key: Key, n: u64) -> Option<Line>
    ensures value { result ≡ number_line key n }
    ensures found { IfSome result (λ l. (line_key l ≡ key) × (line_rest l ≡ Number n ∷ []) × HasRanges l) }
{
    match key {
        Key::Title if n == 1 => Some(Line::Title),
        Key::Rehandles => Some(Line::Rehandles(Some(n))),
        Key::Bound => Some(Line::Bound(n)),
        Key::Nodes => Some(Line::Nodes(n)),
        Key::Node if n == 0 => Some(Line::Node(false)),
        Key::Node if n == 1 => Some(Line::Node(true)),
        _ => None,
    }
}

/// A line of two keys.
fn word_line(key: Key, word: Key) -> Option<Line>
    ensures value { result ≡ word_line key word }
    ensures found { IfSome result (λ l. (line_key l ≡ key) × (line_rest l ≡ Word word ∷ []) × HasRanges l) }
{
    match (key, word) {
        (Key::Outcome, Key::Optimal) => Some(Line::Outcome(Outcome::Optimal)),
        (Key::Outcome, Key::Gap) => Some(Line::Outcome(Outcome::Gap)),
        (Key::Outcome, Key::NoPlan) => Some(Line::Outcome(Outcome::NoPlan)),
        (Key::Outcome, Key::Undecided) => Some(Line::Outcome(Outcome::Undecided)),
        (Key::Rehandles, Key::None) => Some(Line::Rehandles(None)),
        _ => None,
    }
}

/// A line of at most two words.
fn short_line(key: Key, rest: &[Token]) -> Option<Line>
    ensures bare { rest.now ≡ [] → result ≡ bare_line key }
    ensures number { (n : ℕ) → rest.now ≡ Number n ∷ [] → result ≡ number_line key n }
    ensures word { (k : Key) → rest.now ≡ Word k ∷ [] → result ≡ word_line key k }
    ensures found { IfSome result (λ l. (line_key l ≡ key) × (line_rest l ≡ rest.now) × HasRanges l) }
{
    match rest {
        [] => bare_line(key),
        [Token::Number(n)] => number_line(key, *n),
        [Token::Word(word)] => word_line(key, *word),
        _ => None,
    }
}

/// The variable of four words.
fn read_branch(rest: &[Token]) -> Option<Var>
    requires { length rest.now ≤ 18 }
    ensures { MatchOption result ((x : Var) → IsEnd (Branch x) → branch_words x ≢ rest.now) (λ x. (branch_words x ≡ rest.now) × IsEnd (Branch x)) }
{
    let Some(numbers) = read_numbers(rest) else {
        return None;
    };
    let [put, kind, lifted, place] = numbers.as_slice() else {
        return None;
    };
    Some(Var {
        put: CallNo(*put),
        kind: KindNo(*kind),
        lifted: CallNo(*lifted),
        place: PlaceNo(*place),
    })
}

/// An amount from -2^40 to 2^40.
fn read_amount(word: Token) -> Option<i64>
    ensures { MatchOption result ((z : ℤ) → unsigned_abs z ≤ 2 ^ 40 → amount_word z ≢ word) (λ z. (unsigned_abs z ≤ 2 ^ 40) × (amount_word z ≡ word)) }
{
    match word {
        Token::Number(n) if n <= 1 << 40 => Some(n as i64),
        Token::Minus(n) if n > 0 && n <= 1 << 40 => Some(-(n as i64)),
        _ => None,
    }
}

/// The amount and the row of a change.
fn read_change(rest: &[Token]) -> Option<Raise>
    requires { length rest.now ≤ 18 }
    ensures { MatchOption result ((r : Raise) → IsRaise r → change_words r ≢ rest.now) (λ r. (change_words r ≡ rest.now) × IsRaise r) }
{
    let Some((first, words)) = rest.split_first() else {
        return None;
    };
    let Some(amount) = read_amount(*first) else {
        return None;
    };
    let Some(row) = read_row(words) else {
        return None;
    };
    Some(Raise { row, amount })
}

/// The line of a key and the words behind it.
fn line_of(key: Key, rest: &[Token]) -> Option<Line>
    requires { length rest.now ≤ 18 }
    ensures { MatchOption result ((l : Line) → HasRanges l → line_key l ≡ key → line_rest l ≢ rest.now) (λ l. (line_key l ≡ key) × (line_rest l ≡ rest.now) × HasRanges l) }
{
    match key {
        Key::Step => {
            let Some(row) = read_row(rest) else {
                return None;
            };
            Some(Line::Step(row))
        }
        Key::Raise => {
            let Some(raise) = read_change(rest) else {
                return None;
            };
            Some(Line::Change(raise))
        }
        Key::Branch => {
            let Some(x) = read_branch(rest) else {
                return None;
            };
            Some(Line::Ends(End::Branch(x)))
        }
        _ => short_line(key, rest),
    }
}

/// The line that begins at a place, and the place behind its line feed.
pub(crate) fn read_line(bytes: &[u8], from: usize) -> Option<(Line, usize)>
    requires { from ≤ length bytes.now }
    ensures none { result ≡ None → HasNoLine (drop from bytes.now) }
    ensures text { MatchOption result ⊤ (λ x. drop from bytes.now ≡ whole x.0 ++ drop x.1 bytes.now) }
    ensures line { MatchOption result ⊤ (λ x. IsLine x.0) }
    ensures next { MatchOption result ⊤ (λ x. (from < x.1) × (x.1 ≤ length bytes.now)) }
{
    let Some((words, next)) = read_words(bytes, from) else {
        return None;
    };
    let Some((first, rest)) = words.as_slice().split_first() else {
        return None;
    };
    let Token::Word(key) = *first else {
        return None;
    };
    let Some(line) = line_of(key, rest) else {
        return None;
    };
    Some((line, next))
}
