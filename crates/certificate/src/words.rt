//! The words of a certificate's lines.
ghost use Rattle.std.specs.Prelude.{◌≡◌, ◌≢◌, ◌<◌, ◌^◌, ◌∷◌, ℕ, IsTrue, ◌↔◌, MatchOption};
ghost use Rattle.std.specs.Fmt.{decimal};
ghost use Rattle.certificate.specs.declared.words.Key.{Key};
ghost use Rattle.certificate.specs.declared.words.Token.{Token};
ghost use Rattle.certificate.specs.Reading.{key_text, token_text, IsToken};

/// A word that is no number.
#[derive(Clone, Copy)]
pub(crate) enum Key {
    Step,
    Raise,
    Node,
    Leaf,
    Branch,
    Left,
    Cross,
    Block,
    Support,
    Cell,
    Flow,
    Weight,
    Hatch,
    Twenty,
    Apart,
    Start,
    Title,
    Outcome,
    Rehandles,
    Bound,
    Nodes,
    End,
    None,
    Optimal,
    Gap,
    NoPlan,
    Undecided,
}

/// All of them, the frequent ones first.
const KEYS: [Key; 27] = [
    Key::Step,
    Key::Raise,
    Key::Node,
    Key::Leaf,
    Key::Branch,
    Key::Left,
    Key::Cross,
    Key::Block,
    Key::Support,
    Key::Cell,
    Key::Flow,
    Key::Weight,
    Key::Hatch,
    Key::Twenty,
    Key::Apart,
    Key::Start,
    Key::Title,
    Key::Outcome,
    Key::Rehandles,
    Key::Bound,
    Key::Nodes,
    Key::End,
    Key::None,
    Key::Optimal,
    Key::Gap,
    Key::NoPlan,
    Key::Undecided,
];

impl Key {
    fn text(self) -> &'static [u8]
        ensures { result.now ≡ key_text self }
    {
        match self {
            Key::Step => b"s",
            Key::Raise => b"r",
            Key::Node => b"n",
            Key::Leaf => b"l",
            Key::Branch => b"b",
            Key::Left => b"o",
            Key::Cross => b"cross",
            Key::Block => b"block",
            Key::Support => b"support",
            Key::Cell => b"cell",
            Key::Flow => b"flow",
            Key::Weight => b"weight",
            Key::Hatch => b"hatch",
            Key::Twenty => b"twenty",
            Key::Apart => b"apart",
            Key::Start => b"start",
            Key::Title => b"stow-cert",
            Key::Outcome => b"outcome",
            Key::Rehandles => b"rehandles",
            Key::Bound => b"bound",
            Key::Nodes => b"nodes",
            Key::End => b"end",
            Key::None => b"none",
            Key::Optimal => b"optimal",
            Key::Gap => b"gap",
            Key::NoPlan => b"no-plan",
            Key::Undecided => b"undecided",
        }
    }

    fn is_written(self, word: &[u8]) -> bool
        ensures { IsTrue result ↔ (key_text self ≡ word.now) }
    {
        self.text() == word
    }
}

/// A word.
#[derive(Clone, Copy)]
pub(crate) enum Token {
    Word(Key),
    Number(u64),

    /// A number other than 0 behind a minus.
    Minus(u64),
}

impl Default for Token {
    fn default() -> Self {
        Token::Number(0)
    }
}

/// The key with this text.
fn find_key(word: &[u8]) -> Option<Key>
    ensures { MatchOption result ((k : Key) → key_text k ≢ word.now) (λ k. key_text k ≡ word.now) }
{
    KEYS.iter().copied().find(|key| key.is_written(word))
}

/// The number below 2^63 that a word writes without leading zeros.
fn read_number(word: &[u8]) -> Option<u64>
    ensures { MatchOption result ((n : ℕ) → n < 2 ^ 63 → decimal n ≢ word.now) (λ n. (n < 2 ^ 63) × (decimal n ≡ word.now)) }
{
    if word.is_empty() {
        return None;
    }
    if word.len() > 19 {
        return None;
    }
    if word[0] == b'0' && word.len() > 1 {
        return None;
    }
    let mut value: u64 = 0;
    for digit in word {
        if *digit < b'0' || *digit > b'9' {
            return None;
        }
        value = value * 10 + u64::from(*digit - b'0');
    }
    if value < 1 << 63 { Some(value) } else { None }
}

/// The number behind a minus.
fn read_minus(word: &[u8]) -> Option<u64>
    ensures { MatchOption result ((n : ℕ) → 0 < n → n < 2 ^ 63 → 45 ∷ decimal n ≢ word.now) (λ n. (0 < n) × (n < 2 ^ 63) × (45 ∷ decimal n ≡ word.now)) }
{
    let (sign, digits) = word.split_first()?;
    if *sign != b'-' {
        return None;
    }
    let n = read_number(digits)?;
    if n > 0 { Some(n) } else { None }
}

/// What a word stands for.
pub(crate) fn read_token(word: &[u8]) -> Option<Token>
    ensures { MatchOption result ((t : Token) → IsToken t → token_text t ≢ word.now) (λ t. IsToken t × (token_text t ≡ word.now)) }
{
    if let Some(n) = read_number(word) {
        return Some(Token::Number(n));
    }
    if let Some(key) = find_key(word) {
        return Some(Token::Word(key));
    }
    let n = read_minus(word)?;
    Some(Token::Minus(n))
}
