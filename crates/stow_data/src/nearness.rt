//! Which places are near one another.
ghost use Rattle.std.specs.Prelude.{◌≡◌, ◌<◌, length, slice_get};
ghost use Rattle.stow_data.specs.Near.{adjoins, has_column_in_common, is_next, is_same_bay, meets, near};

use crate::geometry::{Place, Span};
use crate::ships::Ship;

/// Whether places of one tier or of two tiers have a column in common.
fn shares_column(a: Span, b: Span) -> bool
    ensures { result ≡ has_column_in_common a b }
{
    match (a, b) {
        (Span::Fore, Span::Aft) => false,
        (Span::Aft, Span::Fore) => false,
        _ => true,
    }
}

/// Whether the places have a half-cell in common.
pub fn shares_half(p: &Place, q: &Place) -> bool
    ensures { result ≡ meets p.now q.now }
{
    p.stack == q.stack && p.tier == q.tier && shares_column(p.span, q.span)
}

/// Whether the tiers of the places differ by one.
fn is_next_tier(p: &Place, q: &Place) -> bool
    ensures { result ≡ adjoins p.now q.now }
{
    p.tier.abs_diff(q.tier) == 1
}

/// Whether places of a stack are near by level 1: in one tier, or one above the other.
fn stands_next(p: &Place, q: &Place) -> bool
    ensures { result ≡ is_next p.now q.now }
{
    p.tier == q.tier || (is_next_tier(p, q) && shares_column(p.span, q.span))
}

/// Whether the places are in one bay, hold and deck together.
fn shares_bay(ship: &Ship, p: &Place, q: &Place) -> bool
    requires first { p.now.stack < length ship.now.stacks }
    requires second { q.now.stack < length ship.now.stacks }
    ensures { result ≡ is_same_bay (slice_get ship.now.stacks p.now.stack) (slice_get ship.now.stacks q.now.stack) }
{
    ship.stack(p.stack).bay == ship.stack(q.stack).bay
}

/// Whether the places are near by the level of a separation.
pub fn is_near(ship: &Ship, level: u32, p: &Place, q: &Place) -> bool
    requires first { p.now.stack < length ship.now.stacks }
    requires second { q.now.stack < length ship.now.stacks }
    ensures { result ≡ near ship.now level p.now q.now }
{
    let by_level = match level {
        1 => p.stack == q.stack && stands_next(p, q),
        2 => p.stack == q.stack,
        3 => shares_bay(ship, p, q),
        _ => false,
    };
    by_level && !shares_half(p, q)
}
