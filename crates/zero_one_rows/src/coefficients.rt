//! Parts of the coefficients of base rows.
ghost use Rattle.std.specs.Prelude.{◌≡◌, ℕ, ◌+◌, ◌-◌, ◌<◌, ◌≤◌, ◌^◌, ◌&&◌, ◌==◌, nat_lt, nat_le, cond, Some, length, ℤ, pos, ◌-ℤ◌, unsigned_abs, nat_eq, slice_index_or};
ghost use Rattle.std.specs.Option.{option_eq};
ghost use Rattle.std.specs.Cmp.Lexicographic.{pointwise};
ghost use Rattle.proof_trees.specs.Program.{where_set};
ghost use Rattle.zero_one_rows.specs.Rows.{takes, covers, below, above, bit, active, stays, ends, is_twenty, turned, no_separation};
ghost use Rattle.stow_data.specs.Plans.{no_half, no_stack, no_place};
ghost use Rattle.zero_one_rows.specs.Variables.{Voyage, no_kind, all_kinds};
ghost use Rattle.stow_data.specs.Kinds.{AreKinds, loading};
ghost use Rattle.stow_data.specs.Ship.{halves, places};

use crate::program::Var;
use stow_data::{
    CallNo, Half, HalfNo, Kind, KindNo, Kinds, Length, Name, Place, PlaceNo, Separation, Ship,
    Span, Stack, StackNo,
};

pub fn takes_side(span: Span, aft: bool) -> bool
    ensures { result ≡ takes span aft }
{
    match span {
        Span::Fore => !aft,
        Span::Aft => aft,
        Span::Both => true,
    }
}

/// Whether the half-cell is one of the place's.
pub fn has_half(p: Place, h: Half) -> bool
    ensures { result ≡ covers p h }
{
    p.stack.0 == h.stack.0 && p.tier == h.tier && takes_side(p.span, h.aft)
}

pub fn as_one(b: bool) -> i64
    ensures { result ≡ bit b }
{
    if b { 1 } else { 0 }
}

/// There after this call.
pub fn is_active(call: u32, x: Var) -> bool
    ensures { result ≡ active call x }
{
    x.put.0 <= call && call < x.lifted.0
}

/// Put before this call and lifted after it.
pub fn is_past(call: u32, x: Var) -> bool
    ensures { result ≡ stays call x }
{
    x.put.0 < call && call < x.lifted.0
}

/// Lifted at this call.
pub fn is_end(call: u32, x: Var) -> bool
    ensures { result ≡ ends call x }
{
    x.put.0 < call && x.lifted.0 == call
}

pub fn is_short(long: Length) -> bool
    ensures { result ≡ is_twenty long }
{
    match long {
        Length::Twenty => true,
        Length::Forty => false,
    }
}

/// The half-cell below in its column; the lowest one's is itself.
pub fn under(h: Half) -> Half
    ensures { result ≡ below h }
{
    let tier = if h.tier == 0 { 0 } else { h.tier - 1 };
    Half {
        stack: h.stack,
        tier,
        aft: h.aft,
    }
}

/// The half-cell above in its column.
pub fn over(h: Half) -> Half
    requires { h.tier + 1 < 2 ^ 32 }
    ensures { result ≡ above h }
{
    Half {
        stack: h.stack,
        tier: h.tier + 1,
        aft: h.aft,
    }
}

/// A row of an equality: as it is, or with all signs changed.
pub fn turned_of(q: u32, z: i64) -> i64
    requires { unsigned_abs z ≤ 2 ^ 40 }
    ensures { result ≡ turned q z }
{
    if q == 0 { z } else { 0 - z }
}

/// Whether the kind is of this class of dangerous goods.
pub fn is_class(kind: &Kind, class: &Name) -> bool
    ensures { result ≡ option_eq (pointwise nat_eq) kind.now.class (Some class.now) }
{
    match &kind.class {
        None => false,
        Some(name) => name.bytes() == class.bytes(),
    }
}

/// The kind's weight with the sign changed, where it counts.
pub fn heavy(counts: bool, kind: &Kind) -> i64
    ensures { result ≡ pos 0 -ℤ where_set counts (pos kind.now.kg) }
{
    if counts { 0 - kind.kg as i64 } else { 0 }
}

/// A half-cell, which is there, by its total look-up.
#[tactic(auto, using(std::proofs::lemmas::Option::get_or_from_slice_get))]
pub fn half_at(ship: &Ship, h: HalfNo) -> Half
    requires { h < length (halves ship.now) }
    ensures { result ≡ slice_index_or (halves ship.now) h no_half }
{
    ship.half(h)
}

/// A place, which is there, by its total look-up.
#[tactic(auto, using(std::proofs::lemmas::Option::get_or_from_slice_get))]
pub fn place_at(ship: &Ship, p: PlaceNo) -> Place
    requires { p < length (places ship.now) }
    ensures { result ≡ slice_index_or (places ship.now) p no_place }
{
    ship.place(p)
}

/// A kind, which is there, by its total look-up.
#[tactic(auto, using(std::proofs::lemmas::Option::get_or_from_slice_get))]
pub fn kind_at(kinds: &Kinds, g: KindNo) -> &Kind
    requires { g < length kinds.now.list }
    ensures { result.now ≡ slice_index_or kinds.now.list g no_kind }
{
    kinds.kind(g)
}

/// A separation, which is there, by its total look-up.
#[tactic(auto, using(std::proofs::lemmas::Option::get_or_from_slice_get))]
pub fn separation_at(ship: &Ship, index: u32) -> &Separation
    requires { index < length ship.now.separations }
    ensures { result.now ≡ slice_index_or ship.now.separations index no_separation }
{
    ship.separation(index)
}

/// A stack, which is there, by its total look-up.
#[tactic(auto, using(std::proofs::lemmas::Option::get_or_from_slice_get))]
pub fn stack_at(ship: &Ship, s: StackNo) -> &Stack
    requires { s < length ship.now.stacks }
    ensures { result.now ≡ slice_index_or ship.now.stacks s no_stack }
{
    ship.stack(s)
}

/// How many containers of a kind load at a call.
pub fn loads_at_call(kinds: &Kinds, call: CallNo, g: KindNo) -> u32
    ghost m: { Voyage }
    requires kinds { AreKinds m.ship.weight_step m.cargo.containers kinds.now }
    requires kind { g < length (all_kinds m) }
    ensures { result ≡ loading m.ship.weight_step m.cargo.containers call g }
{
    kinds.count(call, g)
}
