//! Words of a command line.
ghost use Rattle.std.specs.Prelude.{◌≡◌, IfOk};

use crate::list::{NoMemory, Seq};
use std::alloc::Global;
use std::marker::Model;

/// A text on the heap. Contracts see its bytes.
#[derive(Drop)]
pub struct Word {
    text: String,
}

impl Model for Word {
    ghost use Rattle.std.specs.Prelude.{List, ℕ, string_bytes};

    ghost Value = { List ℕ };

    ghost view = { λ w. string_bytes w.text };
}

impl Word {
    /// A word with this text.
    pub fn of(alloc: Global, text: &str) -> Result<Word, NoMemory>
        ensures { IfOk result (λ w. w ≡ text.now) }
    {
        Ok(Word {
            text: String::from_str(alloc, text)?,
        })
    }

    /// The text.
    pub fn as_str(&self) -> &str
        ensures { result.now ≡ self.now }
    {
        self.text.as_str()
    }
}

/// A list of words, as of a command line with the program's name first.
pub type WordList = Seq<Word>;
