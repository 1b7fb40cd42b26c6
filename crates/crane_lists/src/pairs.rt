//! When two tasks may be done in either order.
ghost use Rattle.std.specs.Prelude.{◌≡◌, ◌↔◌, IsTrue};
ghost use Rattle.stow_data.specs.Ship.{LiesUnder, StandsOn};
ghost use Rattle.crane_lists.specs.Tasks.{AreIndependent, IsCoverOf};
ghost use Rattle.crane_lists.specs.Reaches.{AreApart, SharesContainer};
ghost use Rattle.crane_lists.specs.Reaches as words;
ghost use Rattle.crane_lists.specs.declared.pairs.Reach.TheVariants as reaches;

use crate::bays::stack_of;
use crate::tasks::Task;
use stow_data::{ContainerNo, CoverNo, Ship, StackNo};
use voyage_meaning::Move;

/// What a move touches: a stack, or the stacks of a cover.
#[derive(Clone, Copy)]
enum Reach {
    OneStack(StackNo),
    AllOf(CoverNo),
}

/// What a move touches.
fn reach_of(ship: &Ship, m: Move) -> Reach
    ensures { result ≡ words.reach_of ship.now m }
{
    match m {
        Move::Lift(p) | Move::Put(_, p) => Reach::OneStack(stack_of(ship, p)),
        Move::OffCover(k) | Move::OnCover(k) => Reach::AllOf(k),
    }
}

/// Whether two covers are one.
fn is_same(j: CoverNo, k: CoverNo) -> bool
    ensures { IsTrue result ↔ (j ≡ k) }
{
    j == k
}

/// Whether a stack lies under a cover.
fn lies_under(ship: &Ship, s: StackNo, k: CoverNo) -> bool
    ensures { IsTrue result ↔ LiesUnder ship.now s k }
{
    match ship.cover_over(s) {
        Some(over) => is_same(over, k),
        None => false,
    }
}

/// Whether a stack stands on a cover.
fn stands_on(ship: &Ship, s: StackNo, k: CoverNo) -> bool
    ensures { IsTrue result ↔ StandsOn ship.now s k }
{
    match ship.cover_under(s) {
        Some(under) => is_same(under, k),
        None => false,
    }
}

/// Whether a cover is over or under a stack.
fn is_cover_of(ship: &Ship, s: StackNo, k: CoverNo) -> bool
    ensures { IsTrue result ↔ IsCoverOf ship.now s k }
{
    lies_under(ship, s, k) || stands_on(ship, s, k)
}

/// Whether a stack is apart from what a move touches: another stack, or the stacks of a cover that isn't over or under it.
fn is_apart_from_stack(ship: &Ship, s: StackNo, other: Reach) -> bool
    ensures { IsTrue result ↔ AreApart ship.now (reaches.OneStack s) other }
{
    match other {
        Reach::OneStack(t) => s != t,
        Reach::AllOf(k) => !is_cover_of(ship, s, k),
    }
}

/// Whether a cover is apart from what a move touches: a stack that it isn't over or under, or another cover.
fn is_apart_from_cover(ship: &Ship, j: CoverNo, other: Reach) -> bool
    ensures { IsTrue result ↔ AreApart ship.now (reaches.AllOf j) other }
{
    match other {
        Reach::OneStack(s) => !is_cover_of(ship, s, j),
        Reach::AllOf(k) => !is_same(j, k),
    }
}

/// Whether two moves that touch this touch no common stack and no common cover.
fn are_apart(ship: &Ship, a: Reach, b: Reach) -> bool
    ensures { IsTrue result ↔ AreApart ship.now a b }
{
    match a {
        Reach::OneStack(s) => is_apart_from_stack(ship, s, b),
        Reach::AllOf(k) => is_apart_from_cover(ship, k, b),
    }
}

/// Whether two name a common container.
fn shares_container(a: Option<ContainerNo>, b: Option<ContainerNo>) -> bool
    ensures { IsTrue result ↔ SharesContainer a b }
{
    match (a, b) {
        (Some(c), Some(d)) => c == d,
        _ => false,
    }
}

/// Whether two tasks may be done in either order: they touch no common stack, and name no common container and no common cover.
pub fn are_independent(ship: &Ship, t: &Task, u: &Task) -> bool
    ensures { IsTrue result ↔ AreIndependent ship.now t.now u.now }
{
    ship.obeys_rules();
    if shares_container(t.container, u.container) {
        return false;
    }
    are_apart(ship, reach_of(ship, t.step), reach_of(ship, u.step))
}
