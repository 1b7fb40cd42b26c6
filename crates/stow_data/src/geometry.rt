//! The parts of a ship: lengths, half-cells, places, stacks, hatch covers and separations (ISO 9711).
ghost use Rattle.std.specs.Prelude.{◌≡◌, ◌↔◌, IsTrue};
ghost use Rattle.stow_data.specs.Ship.{Takes};
ghost use Rattle.stow_data.specs.Types.{length_of_type};

use crate::list::{FlagList, Seq};
use crate::names::Name;
use crate::numbers::StackNo;

/// The length of a container: 20 or 40 foot (ISO 6346, first character of the size and type code).
#[derive(Clone, Copy, PartialEq, Eq, PartialOrd, Ord)]
pub enum Length {
    Twenty,
    Forty,
}

/// The length of a container by its size and type code (ISO 6346): None where the first character is
/// neither `2` nor `4`.
pub fn length_of_type(text: &[u8]) -> Option<Length>
    ensures { result ≡ length_of_type text.now }
{
    match text.first() {
        Some(b'2') => Some(Length::Twenty),
        Some(b'4') => Some(Length::Forty),
        _ => None,
    }
}

/// Which half-cells of a cell a place takes.
#[derive(Clone, Copy, PartialEq, Eq)]
pub enum Span {
    Fore,
    Aft,
    Both,
}

/// Which places a stack offers in each of its tiers: `"40"`, `"20"`, `"20/40"`, `"fore"`, `"aft"`.
#[derive(Clone, Copy)]
pub enum Lengths {
    Forty,
    Twenty,
    Mixed,
    ForeOnly,
    AftOnly,
}

/// A half-cell: room for one 20-foot container. `tier` is the index from the bottom of the stack.
#[derive(Clone, Copy, PartialEq, Eq)]
pub struct Half {
    pub stack: StackNo,
    pub tier: u32,
    pub aft: bool,
}

/// A place for one container. `tier` is the index from the bottom of the stack.
#[derive(Clone, Copy, PartialEq, Eq)]
pub struct Place {
    pub stack: StackNo,
    pub tier: u32,
    pub span: Span,
    /// Whether it has a reefer plug.
    pub plug: bool,
}

impl Place {
    /// Whether it takes containers of this length.
    pub fn takes(self, long: Length) -> bool
        ensures { IsTrue result ↔ Takes self long }
    {
        match self.span {
            Span::Both => long == Length::Forty,
            Span::Fore | Span::Aft => long == Length::Twenty,
        }
    }
}

/// A stack: the cells of one bay and row, in the hold or on deck.
#[derive(Drop)]
pub struct Stack {
    /// The even number of the bay: the 40-foot bay over two 20-foot bays.
    pub bay: u32,
    pub row: u32,
    /// The tier number of the lowest cell: even, from 2 in the hold and from 80 on deck.
    pub lowest: u32,
    /// How many tiers it has. Their numbers rise by 2.
    pub tiers: u32,
    pub lengths: Lengths,
    /// The greatest sum of rounded weights, in kilograms.
    pub limit_kg: u32,
    /// For each tier from the bottom, whether its places have a reefer plug.
    pub plugs: FlagList,
}

/// A hatch cover: the stacks in the hold that lie under it, and the stacks on deck that stand on it.
#[derive(Drop)]
pub struct Cover {
    pub under: StackList,
    pub on: StackList,
}

/// Two classes of dangerous goods that must not stand near each other; level 1, 2 or 3 says how near.
#[derive(Drop)]
pub struct Separation {
    pub a: Name,
    pub b: Name,
    pub level: u32,
}

/// A list of stacks' numbers.
pub type StackList = Seq<StackNo>;

/// The stacks of a ship, in the order of its profile.
pub type Stacks = Seq<Stack>;

/// The hatch covers of a ship, in the order of its profile.
pub type CoverList = Seq<Cover>;

/// The separations of a ship, in the order of its profile.
pub type SeparationList = Seq<Separation>;
