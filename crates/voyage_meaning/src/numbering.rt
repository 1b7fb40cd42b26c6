//! The numbers of half-cells, found by halving: they rise by stack, then tier from the bottom, then fore before aft.
ghost use Rattle.std.specs.Prelude.{◌≡◌, ◌↔◌, ◌<◌, ◌≤◌, ℕ, IsTrue, Some, length, slice_get};
ghost use Rattle.stow_data.specs.Ship.{halves};
ghost use Rattle.voyage_meaning.specs.Numbering.{IsFirstFrom, IsSooner};
ghost use Rattle.voyage_meaning.specs.Numbering as words;

use stow_data::{Half, HalfNo, Ship, StackNo};

/// How high a half-cell stands in its stack: by tier from the bottom, then fore before aft.
fn level(half: &Half) -> u64
    ensures { result ≡ words.level half.now }
{
    let twice = 2 * half.tier as u64;
    if half.aft { twice + 1 } else { twice }
}

/// Whether a half-cell is in an earlier stack, or below the level of this one.
fn is_sooner(half: &Half, stack: StackNo, level_from: u64) -> bool
    ensures { IsTrue result ↔ IsSooner half.now stack level_from }
{
    half.stack < stack || (half.stack == stack && level(half) < level_from)
}

/// The number of the first half-cell that isn't sooner than a level, among those from one number to another.
fn first_between(ship: &Ship, stack: StackNo, level_from: u64, low: u32, high: u32) -> u32
    requires order { low ≤ high }
    requires inside { high ≤ length (halves ship.now) }
    requires before { (k : ℕ) (h : Half) → slice_get (halves ship.now) k ≡ Some h → k < low → IsSooner h stack level_from }
    requires behind { (k : ℕ) (h : Half) → slice_get (halves ship.now) k ≡ Some h → high ≤ k → IsSooner h stack level_from → ⊥ }
    ensures first { IsFirstFrom ship.now stack level_from result }
    ensures inside { result ≤ length (halves ship.now) }
{
    if low >= high {
        return low;
    }
    let middle = low + (high - low) / 2;
    if is_sooner(&ship.half(HalfNo(middle)), stack, level_from) {
        first_between(ship, stack, level_from, middle + 1, high)
    } else {
        first_between(ship, stack, level_from, low, middle)
    }
}

/// The number of the first half-cell that isn't before a stack.
pub fn first_of_stack(ship: &Ship, stack: StackNo) -> u32
    ensures first { IsFirstFrom ship.now stack 0 result }
    ensures inside { result ≤ length (halves ship.now) }
{
    first_between(ship, stack, 0, 0, ship.halves())
}

/// The number of a half-cell of the ship.
pub fn number_of(ship: &Ship, half: &Half) -> HalfNo
    requires { (k : ℕ) × (slice_get (halves ship.now) k ≡ Some half.now) }
    ensures { slice_get (halves ship.now) result ≡ Some half.now }
{
    HalfNo(first_between(ship, half.stack, level(half), 0, ship.halves()))
}
