//! How the program ends.
ghost use Rattle.std.specs.Prelude.{◌≡◌};
ghost use Rattle.stow_cli.specs.Numbers.{number};

/// How a run ended.
#[derive(Clone, Copy, PartialEq, Eq)]
pub enum Status {
    /// All was done.
    Fine,
    /// A check refuses a written file or number.
    No,
    /// The words are not taken, or a number among them is out of its range.
    Words,
    /// The node budget was spent; a plan is written, whose cost is above the bound.
    Gap,
    /// There is no legal voyage.
    NoPlan,
    /// The node budget was spent, and no plan was found.
    Undecided,
    /// The ship's profile, the bookings or a bay plan is refused.
    Input,
    /// The folder's or the sink's count of faults rose.
    Fault,
    /// Want of memory.
    Memory,
    /// A limit is passed.
    Large,
}

impl Status {
    /// The exit status of the program.
    pub fn number(self) -> u8
        ensures { result ≡ number self }
    {
        match self {
            Status::Fine => 0,
            Status::No => 1,
            Status::Words => 2,
            Status::Gap => 3,
            Status::NoPlan => 4,
            Status::Undecided => 5,
            Status::Input => 6,
            Status::Fault => 7,
            Status::Memory => 8,
            Status::Large => 9,
        }
    }
}
