//! A line, cut into words.
ghost use Rattle.std.specs.Prelude.{◌≡◌, ◌<◌, ◌≤◌, ◌++◌, [], ◌∷◌, ℕ, true, false, All, MatchOption, length, drop, slice_index, ⊤};
ghost use Rattle.certificate.specs.declared.words.Token.{Token};
ghost use Rattle.certificate.specs.Reading.{closed, is_break, IsToken, IsNoLine};

use crate::words::{Token, read_token};
use arrayvec::ArrayVec;

/// The words of a line, at most 18.
pub(crate) type Tokens = ArrayVec<Token, 18>;

/// A space or a line feed.
fn is_separator(byte: u8) -> bool
    ensures { result ≡ is_break byte }
{
    byte == b' ' || byte == b'\n'
}

/// Where the word that begins at a place ends.
fn word_end(bytes: &[u8], from: usize) -> Option<usize>
    requires { from ≤ length bytes.now }
    ensures none { result ≡ None → (k : ℕ) → from ≤ k → k < length bytes.now → is_break (slice_index bytes.now k) ≡ false }
    ensures within { MatchOption result ⊤ (λ end. (from ≤ end) × (end < length bytes.now)) }
    ensures word { MatchOption result ⊤ (λ end. (k : ℕ) → from ≤ k → k < end → is_break (slice_index bytes.now k) ≡ false) }
    ensures separator { MatchOption result ⊤ (λ end. is_break (slice_index bytes.now end) ≡ true) }
{
    (from..bytes.len()).find(|at| is_separator(bytes[*at]))
}

/// The words of the line that begins at a place, and the place behind its line feed.
pub(crate) fn read_words(bytes: &[u8], from: usize) -> Option<(Tokens, usize)>
    requires { from ≤ length bytes.now }
    ensures none { result ≡ None → IsNoLine (drop from bytes.now) }
    ensures text { MatchOption result ⊤ (λ x. drop from bytes.now ≡ closed x.0.items ++ drop x.1 bytes.now) }
    ensures words { MatchOption result ⊤ (λ x. All IsToken x.0.items) }
    ensures next { MatchOption result ⊤ (λ x. (from < x.1) × (x.1 ≤ length bytes.now)) }
{
    let mut words = Tokens::new();
    let mut at = from;
    loop {
        let end = word_end(bytes, at)?;
        let word = read_token(&bytes[at..end])?;
        if words.is_full() {
            return None;
        }
        words.push(word);
        if bytes[end] == b'\n' {
            return Some((words, end + 1));
        }
        at = end + 1;
    }
}
