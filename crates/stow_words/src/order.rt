//! What the words of a command line order, and why they may be refused.
use stow_data::{NoMemory, Word};

/// What is to be done.
#[derive(Drop)]
pub enum Order {
    /// `stow plan PROFILE BOOKINGS OUT [--arrival FILE] [--workers n] [--budget n]`
    Plan {
        profile: Word,
        bookings: Word,
        /// The front of the names of the departure files and of the certificate.
        name: Word,
        arrival: Option<Word>,
        workers: u32,
        budget: u64,
    },
    /// `stow check PROFILE BOOKINGS OUT [--arrival FILE]`
    Check {
        profile: Word,
        bookings: Word,
        name: Word,
        arrival: Option<Word>,
    },
    /// `stow show FILE`
    Show {
        file: Word,
    },
    /// `stow make NUMBER OUT`
    Make {
        number: u32,
        name: Word,
    },
    /// `stow cranes PROFILE BOOKINGS OUT CALL COUNT [--arrival FILE]`
    Cranes {
        profile: Word,
        bookings: Word,
        name: Word,
        arrival: Option<Word>,
        /// The call whose moves are shared out.
        call: u32,
        /// The number of cranes.
        count: u32,
    },
}

/// Why words are refused.
#[derive(Clone, Copy)]
pub enum WordsNo {
    /// They have no form of the command line, or ask for help.
    NotTaken,
    /// The workers aren't one to ten digits of a number from 1 to 16.
    Workers,
    /// The budget isn't one to ten digits of a number from 1 to 100,000.
    Budget,
    /// The number to make from isn't one to ten digits of a number up to 2,147,483,647.
    Number,
    /// The call isn't one to ten digits of a number from 1 to 11.
    Call,
    /// The count of cranes isn't one to ten digits of a number from 1 to 8.
    Count,
    NoMemory,
}

impl From<NoMemory> for WordsNo {
    ghost use Rattle.std.specs.Prelude.{◌≡◌};
    ghost use Rattle.stow_words.specs.declared.order.WordsNo.TheVariants.{NoMemory};

    ghost from_gives = { λ _ no. no ≡ NoMemory };

    fn from(_: NoMemory) -> Self {
        WordsNo::NoMemory
    }
}
