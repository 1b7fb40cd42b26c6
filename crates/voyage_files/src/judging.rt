//! The parts of a check, in their order.
ghost use Rattle.std.specs.Prelude.{◌≡◌, ◌<◌, ◌≤◌, ◌^◌, ◌+◌, All, IfErr, IsSome, MatchResult, OnOk, length, min};
ghost use Rattle.bound_checker.specs.Entries.{ProvesBound};
ghost use Rattle.stow_data.specs.Shipment.{most_cost};
ghost use Rattle.model_bridge.specs.Laws.{IsProblem, IsVoyageBound, HasNoVoyage};
ghost use Rattle.voyage_files.specs.Judged.{Bounds, Holds, IsNo, IsTreeNo, checked};

use crate::numbers::numbers_no;
use crate::refusals::JudgeNo;
use crate::texts::cost_found;
use bound_checker::{BoundNo, check_bound};
use certificate::{Head, Tree};
use model_bridge::bounds_are_of_voyages;
use std::alloc::Global;
use stow_data::{Bytes, Cargo, Ship};
use zero_one_model::Model;

/// A bound, or the least above the cost of any least lifts where it is greater.
fn checked(bound: u64, most: u64) -> u64
    ensures { result ≡ min bound (most + 1) }
{
    if bound > most { most + 1 } else { bound }
}

/// Whether a tree proves a bound, which then is one on all legal voyages.
fn check_tree(alloc: Global, model: &Model, tree: &Tree, bound: u64) -> Result<(), JudgeNo>
    requires problem { IsProblem model.now }
    requires few { length tree.now < 2 ^ 32 }
    ensures proves { OnOk result (ProvesBound model.now tree.now bound) }
    ensures bounds { OnOk result (IsVoyageBound model.now bound) }
    ensures none { OnOk result (bound ≡ most_cost model.now.cargo + 1 → HasNoVoyage model.now) }
    ensures refused { IfErr result (IsTreeNo model.now tree.now bound) }
{
    bounds_are_of_voyages();
    match check_bound(alloc, model, tree, bound) {
        Ok(()) => Ok(()),
        Err(BoundNo::NoMemory) => Err(JudgeNo::NoMemory),
        Err(no) => Err(JudgeNo::Bound(no)),
    }
}

/// Whether all holds that a certificate says of a voyage: where it says a cost, the texts of the
/// departure files, of which the first is that of call 1, are bay plan messages and these a legal file set; the tree
/// proves the bound; and the numbers are those that are found. Else the first of these parts that doesn't hold. Where
/// all holds, no legal voyage costs less than the bound, and with the outcome `no-plan` there is none.
pub fn judge(
    alloc: Global,
    ship: &Ship,
    cargo: &Cargo,
    model: &Model,
    head: &Head,
    tree: &Tree,
    texts: &[Bytes],
) -> Result<(), JudgeNo>
    requires problem { IsProblem model.now }
    requires voyage { model.now ≡ record { ship = ship.now; cargo = cargo.now } }
    requires each_call { IsSome head.now.rehandles → length texts.now + 1 ≡ length cargo.now.rotation }
    requires short { All (λ text. length text ≤ 2 ^ 29) texts.now }
    requires few { length tree.now < 2 ^ 32 }
    ensures holds { OnOk result (Holds model.now head.now tree.now texts.now) }
    ensures bounds { OnOk result (Bounds model.now head.now) }
    ensures refused { IfErr result (IsNo model.now head.now tree.now texts.now) }
{
    let found = cost_found(alloc, ship, cargo, head.rehandles, texts)?;
    let bound = checked(head.bound, model.limit());
    check_tree(alloc, model, tree, bound)?;
    match numbers_no(model, head, tree, found) {
        Some(no) => Err(JudgeNo::Numbers(no)),
        None => Ok(()),
    }
}
