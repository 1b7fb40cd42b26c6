//! What of a voyage is the same in every run: stacks, kinds, and which variables belong together.
ghost use Rattle.std.specs.Prelude.{ℕ, ◌≡◌, ◌<◌, All, IfSome, IsTrue};

use crate::bonds::Bonds;
use crate::prices::Prices;
use crate::sizes::Sizes;
use std::marker::Model;
use stow_data::{Length, Lengths, Place, Span};

/// Tiers that a stack has at most.
pub const TIERS: u32 = 40;

/// A place by stack, tier and half-cells.
#[derive(Clone, Copy)]
pub struct Spot {
    pub stack: u32,
    pub tier: u32,
    pub span: Span,
}

/// What is the same of a stack in every run.
#[derive(Clone, Copy)]
pub struct StackFacts {
    pub bay: u32,
    pub tiers: u32,
    /// The greatest sum of rounded weights, in kilograms.
    pub limit_kg: u32,
    pub lengths: Lengths,
    /// Its first place.
    pub first_place: u32,
    /// The hatch cover over it.
    pub over: Option<u32>,
    /// The hatch cover that it stands on.
    pub under: Option<u32>,
}

/// Whether a cover, if any, is below this number.
fn is_cover_below(cover: Option<u32>, covers: u32) -> bool
    ensures { IsTrue result → IfSome cover (λ c. c < covers) }
{
    match cover {
        None => true,
        Some(cover) => cover < covers,
    }
}

impl StackFacts {
    ghost use Rattle.voyage_state.specs.Ranges.{IsStack};

    /// Whether it has at most 40 tiers, and its covers are among so many.
    pub fn is_stack(&self, covers: u32) -> bool
        ensures { IsTrue result → IsStack covers self.now }
    {
        self.tiers <= TIERS
            && is_cover_below(self.over, covers)
            && is_cover_below(self.under, covers)
    }

    /// The hatch cover that it lies under or stands on.
    pub fn cover(&self) -> Option<u32>
        ensures { (covers : ℕ) → IsStack covers self.now → IfSome result (λ c. c < covers) }
    {
        match self.over {
            None => self.under,
            Some(over) => Some(over),
        }
    }

    /// The place of a tier that takes these half-cells, where the stack offers it.
    pub fn place(&self, tier: u32, span: Span) -> Option<u32> {
        let (each_tier, before) = match (self.lengths, span) {
            (Lengths::Forty, Span::Both) => (1, 0),
            (Lengths::ForeOnly, Span::Fore) => (1, 0),
            (Lengths::AftOnly, Span::Aft) => (1, 0),
            (Lengths::Twenty, Span::Fore) => (2, 0),
            (Lengths::Twenty, Span::Aft) => (2, 1),
            (Lengths::Mixed, Span::Fore) => (3, 0),
            (Lengths::Mixed, Span::Aft) => (3, 1),
            (Lengths::Mixed, Span::Both) => (3, 2),
            _ => return None,
        };
        let up = tier.wrapping_mul(each_tier).wrapping_add(before);
        Some(self.first_place.wrapping_add(up))
    }
}

/// What is the same of a kind of containers in every run.
#[derive(Clone, Copy)]
pub struct KindFacts {
    pub dest: u32,
    pub long: Length,
    pub reefer: bool,
    /// The rounded weight, in kilograms.
    pub kg: u32,
    /// The number of its class among the cargo's, from 1; 0 where it has none.
    pub class: u32,
}

impl KindFacts {
    /// Which places the kind fits: kinds with one number fit the same places.
    pub fn fit(&self) -> u32 {
        match (self.long, self.reefer) {
            (Length::Twenty, false) => 0,
            (Length::Twenty, true) => 1,
            (Length::Forty, false) => 2,
            (Length::Forty, true) => 3,
        }
    }
}

/// The variables of one kind that are put at one call: so many for each later call, each in the order of their places.
#[derive(Clone, Copy)]
pub struct Lot {
    /// The first of the variables.
    pub first: u32,
    /// How many places there are.
    pub width: u32,
    /// The number of the first place's stays, among those of all lots.
    pub stays: u32,
}

/// The lot of a kind without variables.
pub const NO_LOT: Lot = Lot {
    first: u32::MAX,
    width: 0,
    stays: u32::MAX,
};

/// Which stays a variable belongs to, and the call at which it is lifted, as a bit.
#[derive(Clone, Copy)]
pub struct Mark {
    pub stays: u32,
    pub lifted: u32,
}

/// A container that stands aboard as the ship comes in.
#[derive(Clone, Copy)]
pub struct Arrived {
    pub kind: u32,
    pub place: u32,
    pub spot: Spot,
    /// Its place's number in the lot.
    pub rank: u32,
}

/// What is the same in every run. Contracts see how much there is.
#[derive(Drop)]
pub struct Facts {
    pub(crate) sizes: Sizes,
    pub(crate) stacks: Vec<StackFacts>,
    /// Which stacks are bound together.
    pub(crate) bonds: Bonds,
    pub(crate) places: Vec<Place>,
    pub(crate) kinds: Vec<KindFacts>,
    /// For each call and kind how many containers load.
    pub(crate) loads: Vec<u32>,
    /// For each call and kind its lot.
    pub(crate) lots: Vec<Lot>,
    /// For each fit and place its number among the places of a lot.
    pub(crate) ranks: Vec<u32>,
    /// For each variable what it belongs to.
    pub(crate) marks: Vec<Mark>,
    /// By their places, so stack by stack and from the lowest tier up.
    pub(crate) arrived: Vec<Arrived>,
    /// For two classes the level of their separation, or 0.
    pub(crate) levels: Vec<u32>,
    /// The number of classes that the cargo has.
    pub(crate) classes: u32,
    pub(crate) prices: Prices,
}

impl Model for Facts {
    ghost use Rattle.voyage_state.specs.declared.sizes.Sizes.{Sizes};
    ghost use Rattle.voyage_state.specs.Facts.{AreFacts};

    ghost Value = { Sizes };

    ghost view = { λ f. f.sizes };

    ghost invariant = { AreFacts };
}

/// How many entries a list has: the limits of a voyage keep it far below the greatest number.
pub fn count_of<T>(list: &[T]) -> u32 {
    u32::try_from(list.len()).unwrap_or(u32::MAX)
}

/// An index into a table of rows of this width.
pub fn index_of(row: u32, width: usize, column: u32) -> usize {
    (row as usize)
        .wrapping_mul(width)
        .wrapping_add(column as usize)
}

impl Facts {
    ghost use Rattle.voyage_state.specs.Ranges.{IsArrived, IsMark, IsStack};

    /// How much there is.
    pub fn sizes(&self) -> Sizes
        ensures { result ≡ self.now }
    {
        self.sizes
    }

    /// The prices of rehandles.
    pub fn prices(&self) -> &Prices {
        &self.prices
    }

    /// Whether containers stand aboard as the ship comes in.
    pub fn has_arrivals(&self) -> bool {
        !self.arrived.is_empty()
    }

    /// The stacks that are bound to a stack, with it.
    pub fn bound_to(&self, stack: u32) -> &[u32]
        ensures { All (λ s. s < self.now.stacks) result.now }
    {
        self.bonds.with(stack)
    }

    /// A stack.
    pub fn stack(&self, stack: u32) -> &StackFacts
        requires { stack < self.now.stacks }
        ensures { IsStack self.now.covers result.now }
    {
        &self.stacks[stack as usize]
    }

    /// A stack, where there is one of this number.
    pub fn find_stack(&self, stack: u32) -> Option<&StackFacts>
        ensures there { IfSome result (λ s. stack < self.now.stacks) }
        ensures is { IfSome result (λ s. IsStack self.now.covers s.now) }
    {
        if stack < self.sizes.stacks {
            Some(self.stack(stack))
        } else {
            None
        }
    }

    /// A kind.
    pub fn kind(&self, kind: u32) -> &KindFacts
        requires { kind < self.now.kinds }
    {
        &self.kinds[kind as usize]
    }

    /// A kind, where there is one of this number.
    pub fn find_kind(&self, kind: u32) -> Option<&KindFacts>
        ensures { IfSome result (λ _. kind < self.now.kinds) }
    {
        if kind < self.sizes.kinds {
            Some(self.kind(kind))
        } else {
            None
        }
    }

    /// What a variable belongs to, where there is one of this number.
    pub fn mark(&self, x: u32) -> Option<&Mark>
        ensures { IfSome result (λ m. IsMark self.now m.now) }
    {
        self.marks.get(x as usize)
    }

    /// A place, where there is one of this number.
    pub fn find_place(&self, place: u32) -> Option<Place>
        ensures { IfSome result (λ _. place < self.now.places) }
    {
        if place < self.sizes.places {
            Some(self.places[place as usize])
        } else {
            None
        }
    }

    /// The lot of a kind at a call.
    pub fn lot(&self, put: u32, kind: u32) -> Option<&Lot> {
        self.lots.get(index_of(put, self.kinds.len(), kind))
    }

    /// The number of a place among those of a lot.
    pub fn rank(&self, fit: u32, place: u32) -> Option<u32> {
        self.ranks
            .get(index_of(fit, self.places.len(), place))
            .copied()
    }

    /// Which places a kind fits.
    pub fn fit(&self, kind: u32) -> u32 {
        match self.kinds.get(kind as usize) {
            None => 0,
            Some(kind) => kind.fit(),
        }
    }

    /// Whether a stack stands on a hatch cover.
    pub fn is_on_cover(&self, stack: u32) -> bool {
        match self.stacks.get(stack as usize) {
            None => false,
            Some(stack) => stack.under.is_some(),
        }
    }

    /// The destination of a kind.
    pub fn dest(&self, kind: u32) -> u32 {
        match self.kinds.get(kind as usize) {
            None => 0,
            Some(kind) => kind.dest,
        }
    }

    /// How many containers of a kind load at a call.
    pub fn load(&self, call: u32, kind: u32) -> u32 {
        self.loads
            .get(index_of(call, self.kinds.len(), kind))
            .copied()
            .unwrap_or(0)
    }

    /// What arrives in a stack, from the lowest tier up.
    pub fn arrived_in(&self, stack: u32) -> &[Arrived]
        ensures { All (IsArrived self.now) result.now }
    {
        let first = self.arrived.partition_point(|a| a.spot.stack < stack);
        let past = self.arrived.partition_point(|a| a.spot.stack <= stack);
        self.arrived.get(first..past).unwrap_or(&[])
    }

    /// One of those that arrive in a stack, counted from the lowest tier up.
    pub fn arrived_at(&self, stack: u32, number: usize) -> Option<Arrived>
        ensures { IfSome result (IsArrived self.now) }
    {
        self.arrived_in(stack).get(number).copied()
    }

    /// The place of a stack, tier and half-cells, where the ship has it.
    pub fn place_of(&self, spot: Spot) -> Option<u32>
        ensures { IfSome result (λ p. p < self.now.places) }
    {
        let place = self.find_stack(spot.stack)?.place(spot.tier, spot.span)?;
        if place < self.sizes.places {
            Some(place)
        } else {
            None
        }
    }

    /// The width of the table of levels: the classes have numbers from 1.
    pub fn class_width(&self) -> usize {
        (self.classes as usize).wrapping_add(1)
    }

    /// The level at which two classes are kept apart, or 0.
    pub fn level(&self, a: u32, b: u32) -> u32 {
        self.levels
            .get(index_of(a, self.class_width(), b))
            .copied()
            .unwrap_or(0)
    }
}

/// A call, as a bit of a set of calls.
pub fn bit_of(call: u32) -> u32 {
    1_u32.wrapping_shl(call)
}
