//! The sums of a voyage's rows.
ghost use Rattle.std.specs.Prelude.{◌≡◌, ◌+◌, ◌*◌, ◌<◌, ◌≤◌, ◌^◌, ◌&&◌, ◌==◌, cond, true, Some, IfOk, length, nat_eq, slice_index_or};
ghost use Rattle.std.specs.Option.{option_eq};
ghost use Rattle.std.specs.Cmp.Lexicographic.{pointwise};
ghost use Rattle.stow_data.specs.Ship.{places};
ghost use Rattle.stow_data.specs.Kinds.{AreKinds};
ghost use Rattle.zero_one_rows.specs.Rows.{takes, covers, active, separation};
ghost use Rattle.zero_one_rows.specs.Ranges.{InRange};
ghost use Rattle.zero_one_rows.specs.Variables.{all_kinds};
ghost use Rattle.row_sums.specs.Sums.{parts, holds, counts, class_number};

use crate::classes::{ClassPair, class_bytes, class_pairs};
use crate::families::{
    apart_parts, block_at, cell_parts, flow_parts, hatch_parts, start_parts, support_parts,
    twenty_parts, weight_parts,
};
use crate::sums::{Parts, Sum};
use std::alloc::Global;
use std::marker::Model;
use stow_data::{
    CallNo, Cargo, Half, Kind, Kinds, Length, NoMemory, Place, Seq, Ship, Span, kinds,
};
use zero_one_rows::{Row, Var, half_at, kind_at, place_at};

/// Whether the half-cell is one of the place's.
fn stands_in(p: Place, h: &Half) -> bool
    ensures { result ≡ covers p h.now }
{
    let takes_side = match p.span {
        Span::Fore => !h.aft,
        Span::Aft => h.aft,
        Span::Both => true,
    };
    p.stack == h.stack && p.tier == h.tier && takes_side
}

/// There after this call.
fn is_there(call: CallNo, x: Var) -> bool
    ensures { result ≡ active call x }
{
    x.put <= call && call < x.lifted
}

/// Whether the kind is of a class of this name.
fn is_of_class(kind: &Kind, class: &[u8]) -> bool
    ensures { result ≡ option_eq (pointwise nat_eq) kind.now.class (Some class.now) }
{
    match &kind.class {
        None => false,
        Some(name) => name.bytes() == class,
    }
}

/// The sums of the base rows of a voyage. Contracts see the voyage.
#[derive(Drop)]
pub struct RowSums<'a> {
    ship: &'a Ship,
    cargo: &'a Cargo,
    kinds: Kinds,
    classes: Seq<ClassPair>,
}

impl<'a> Model for RowSums<'a> {
    ghost use Rattle.zero_one_rows.specs.Variables.{Voyage};

    ghost Value = { Voyage };

    ghost use Rattle.row_sums.specs.RowsBuilt.{voyage_of, IsBuilt};

    ghost view = { voyage_of };

    ghost invariant = { IsBuilt };
}

impl<'a> RowSums<'a> {
    /// The sums of the voyage of this ship and cargo.
    pub fn build(alloc: Global, ship: &'a Ship, cargo: &'a Cargo) -> Result<RowSums<'a>, NoMemory>
        ensures { IfOk result (λ s. s ≡ record { ship = ship.now; cargo = cargo.now }) }
    {
        let kinds = kinds(alloc, ship, cargo)?;
        let classes = class_pairs(alloc, ship)?;
        Ok(RowSums {
            ship,
            cargo,
            kinds,
            classes,
        })
    }

    /// The voyage's ship.
    pub fn ship(&self) -> &Ship
        ensures { result.now ≡ self.now.ship }
    {
        self.ship
    }

    /// The kinds of the voyage's containers.
    pub fn kinds(&self) -> &Kinds
        ensures { AreKinds self.now.ship.weight_step self.now.cargo.containers result.now }
    {
        &self.kinds
    }

    /// The signed sums of a base row; None exactly for a crossing row.
    pub fn parts(&self, row: &Row) -> Option<Parts>
        requires { InRange self.now row.now }
        ensures { result ≡ parts self.now row.now }
    {
        let ship = self.ship;
        match row {
            Row::Flow { q, call, kind } => Some(flow_parts(*q, *call, *kind)),
            Row::Start { q, place } => Some(start_parts(*q, *place)),
            Row::Cell { call, half } => Some(cell_parts(*call, half_at(ship, *half))),
            Row::Support { call, half } => Some(support_parts(*call, half_at(ship, *half))),
            Row::Twenty { call, half } => Some(twenty_parts(*call, half_at(ship, *half))),
            Row::Block { call, half } => Some(block_at(ship, *call, *half)),
            Row::Hatch {
                w,
                call,
                half,
                lowest,
            } => Some(hatch_parts(*w, *call, half_at(ship, *half), half_at(ship, *lowest))),
            Row::Weight { call, stack } => Some(weight_parts(*call, *stack)),
            Row::Apart {
                call,
                index,
                first,
                second,
            } => Some(apart_parts(*call, *first, *second, self.pair(*index))),
            Row::Cross { .. } => None,
        }
    }

    /// The classes of a separation, by number.
    #[tactic(auto, using(std::proofs::lemmas::Option::get_or_from_slice_get))]
    fn pair(&self, index: u32) -> ClassPair
        requires { index < length self.now.ship.separations }
        ensures a { result.a ≡ class_number self.now.ship (separation self.now index).a }
        ensures b { result.b ≡ class_number self.now.ship (separation self.now index).b }
    {
        *self.classes.at(index as usize)
    }

    /// Whether a variable is one of a sum's.
    pub fn holds(&self, sum: &Sum, x: Var) -> bool
        requires place { x.place < length (places self.now.ship) }
        requires kind { x.kind < length (all_kinds self.now) }
        ensures { result ≡ holds self.now sum.now x }
    {
        let p = place_at(self.ship, x.place);
        let k = kind_at(&self.kinds, x.kind);
        match sum {
            Sum::Put { call, kind } => x.put == *call && x.kind == *kind,
            Sum::Lifted { call, kind } => x.lifted == *call && x.kind == *kind,
            Sum::Start { place } => x.put.0 == 0 && x.place == *place,
            Sum::Occupied { call, half } => stands_in(p, half) && is_there(*call, x),
            Sum::OccupiedByTwenty { call, half } => {
                k.long == Length::Twenty && (stands_in(p, half) && is_there(*call, x))
            }
            Sum::OccupiedByClass { call, place, class } => {
                x.place == *place
                    && (is_of_class(k, class_bytes(self.ship, *class)) && is_there(*call, x))
            }
            Sum::Staying { call, half } => {
                stands_in(p, half) && (x.put < *call && *call < x.lifted)
            }
            Sum::LiftedFrom { call, half } => {
                stands_in(p, half) && (x.put < *call && x.lifted == *call)
            }
            Sum::PutInto { call, half } => stands_in(p, half) && x.put == *call,
            Sum::Weight { call, stack } => p.stack == *stack && is_there(*call, x),
        }
    }

    /// What a variable counts in a sum that holds it: its kind's rounded weight, or 1.
    pub fn counts(&self, sum: &Sum, x: Var) -> u32
        requires { x.kind < length (all_kinds self.now) }
        ensures { result ≡ counts self.now sum.now x }
    {
        match sum {
            Sum::Weight { .. } => kind_at(&self.kinds, x.kind).kg,
            Sum::Put { .. }
            | Sum::Lifted { .. }
            | Sum::Start { .. }
            | Sum::Occupied { .. }
            | Sum::OccupiedByTwenty { .. }
            | Sum::OccupiedByClass { .. }
            | Sum::Staying { .. }
            | Sum::LiftedFrom { .. }
            | Sum::PutInto { .. } => 1,
        }
    }
}
