//! The numbers of sums.
ghost use Rattle.std.specs.Prelude.{◌≡◌, ℕ, ◌+◌, ◌*◌, ◌<◌, ◌≤◌, ◌^◌, cond, length, slice_index_or, IfSome};
ghost use Rattle.stow_data.specs.Kinds.{AreKinds};
ghost use Rattle.stow_data.specs.Plans.{no_stack};
ghost use Rattle.row_sums.specs.Numbers.{family, call_of, item, half_item, number, numbers, IsNumbering, IsLow};

use crate::sums::Sum;
use stow_data::{Cargo, Half, Kinds, Ship, StackNo};
use zero_one_rows::stack_at;

/// How sums are numbered: by family, then by call, then by item, each with room for the greatest.
#[derive(Clone, Copy, PartialEq, Eq)]
pub struct Numbering {
    pub families: usize,
    pub calls: usize,
    pub width: usize,
    pub tiers: usize,
}

/// A family's number: nine families, and one more for each class.
fn family_of(sum: &Sum) -> usize
    requires { family sum.now < 2 ^ 64 }
    ensures { result ≡ family sum.now }
{
    match sum {
        Sum::Put { .. } => 0,
        Sum::Lifted { .. } => 1,
        Sum::Start { .. } => 2,
        Sum::Occupied { .. } => 3,
        Sum::OccupiedByTwenty { .. } => 4,
        Sum::Staying { .. } => 5,
        Sum::LiftedFrom { .. } => 6,
        Sum::PutInto { .. } => 7,
        Sum::Weight { .. } => 8,
        Sum::OccupiedByClass { class, .. } => 9 + class.0 as usize,
    }
}

fn call_in(sum: &Sum) -> usize
    ensures { result ≡ call_of sum.now }
{
    match sum {
        Sum::Start { .. } => 0,
        Sum::Put { call, .. }
        | Sum::Lifted { call, .. }
        | Sum::Occupied { call, .. }
        | Sum::OccupiedByTwenty { call, .. }
        | Sum::Staying { call, .. }
        | Sum::LiftedFrom { call, .. }
        | Sum::PutInto { call, .. }
        | Sum::Weight { call, .. }
        | Sum::OccupiedByClass { call, .. } => call.0 as usize,
    }
}

/// The number of an item of a call of a family.
fn number_at(z: Numbering, family: usize, call: usize, item: usize) -> usize
    requires family { family < z.families }
    requires call { call < z.calls }
    requires item { item < z.width }
    requires fits { numbers z < 2 ^ 64 }
    ensures value { result ≡ (family * z.calls + call) * z.width + item }
    ensures low { result < numbers z }
{
    (family * z.calls + call) * z.width + item
}

/// The most tiers of a stack.
fn most_tiers(ship: &Ship) -> u32
    ensures { (k : ℕ) → (slice_index_or ship.now.stacks k no_stack).tiers ≤ result }
{
    let mut most = 0;
    for s in 0..ship.stacks() {
        most = most.max(stack_at(ship, StackNo(s)).tiers);
    }
    most
}

impl Numbering {
    /// Room for the sums of a voyage; None where 64 bits can't count it.
    pub fn of(ship: &Ship, cargo: &Cargo, kinds: &Kinds) -> Option<Numbering>
        requires { AreKinds ship.now.weight_step cargo.now.containers kinds.now }
        ensures { IfSome result (λ z. IsNumbering (record { ship = ship.now; cargo = cargo.now }) z) }
    {
        let tiers = most_tiers(ship) as usize;
        let stacks = ship.stacks() as usize;
        let cells = stacks.checked_mul(tiers)?.checked_mul(2)?;
        let width = cells
            .max(stacks)
            .max(ship.places() as usize)
            .max(kinds.len() as usize);
        let families = 9 + 2 * ship.separations() as usize;
        let calls = cargo.calls() as usize + 1;
        width.checked_mul(calls.checked_mul(families)?)?;
        Some(Numbering {
            families,
            calls,
            width,
            tiers,
        })
    }

    /// All numbers of sums are below this.
    pub fn numbers(&self) -> usize
        requires calls { self.now.calls * self.now.families < 2 ^ 64 }
        requires fits { numbers self.now < 2 ^ 64 }
        ensures { result ≡ numbers self.now }
    {
        self.width * (self.calls * self.families)
    }

    /// A half-cell by stack, tier and side.
    fn half(&self, h: &Half) -> usize
        requires { half_item self.now h.now < self.now.width }
        ensures { result ≡ half_item self.now h.now }
    {
        let side = if h.aft { 1 } else { 0 };
        (h.stack.0 as usize * self.tiers + h.tier as usize) * 2 + side
    }

    /// The kind, place, stack or half-cell of a sum.
    fn item(&self, sum: &Sum) -> usize
        requires { item self.now sum.now < self.now.width }
        ensures { result ≡ item self.now sum.now }
    {
        match sum {
            Sum::Put { kind, .. } | Sum::Lifted { kind, .. } => kind.0 as usize,
            Sum::Start { place } | Sum::OccupiedByClass { place, .. } => place.0 as usize,
            Sum::Weight { stack, .. } => stack.0 as usize,
            Sum::Occupied { half, .. }
            | Sum::OccupiedByTwenty { half, .. }
            | Sum::Staying { half, .. }
            | Sum::LiftedFrom { half, .. }
            | Sum::PutInto { half, .. } => self.half(half),
        }
    }

    /// The number of a sum.
    pub fn number(&self, sum: &Sum) -> usize
        requires digits { IsLow self.now sum.now }
        requires fits { numbers self.now < 2 ^ 64 }
        ensures value { result ≡ number self.now sum.now }
        ensures low { result < numbers self.now }
    {
        number_at(*self, family_of(sum), call_in(sum), self.item(sum))
    }
}
