//! Moves with the containers that they lift or put.
ghost use Rattle.std.specs.Prelude.{◌≡◌, ℕ, IfOk, length, slice_set};
ghost use Rattle.stow_data.specs.Shipment as cargoes;
ghost use Rattle.voyage_meaning.specs.Moves.{State};
ghost use Rattle.crane_lists.specs.Tasks.{carried_out, named_in, tasks_of, tasks_with};

use std::alloc::Global;
use stow_data::{ContainerNo, NoMemory, PlaceNo, Plan, Seq};
use voyage_meaning::{Move, MoveList};

/// A move, and the container that it lifts or puts, if it does.
#[derive(Clone, Copy)]
pub struct Task {
    pub step: Move,
    pub container: Option<ContainerNo>,
}

/// For each move of a list the container that it lifts or puts, or none.
pub type ContainerList2 = Seq<Option<ContainerNo>>;

/// The container that a move lifts or puts.
fn named(plan: &Plan, m: &Move) -> Option<ContainerNo>
    ensures { result ≡ named_in plan.now m.now }
{
    match *m {
        Move::Lift(p) => {
            if (p.0 as usize) < plan.len() {
                plan.at(p)
            } else {
                None
            }
        }
        Move::Put(c, _) => Some(c),
        Move::OffCover(_) | Move::OnCover(_) => None,
    }
}

/// Puts a container at a place, or empties it, where the plan has the place.
fn set(plan: &mut Plan, p: PlaceNo, c: Option<ContainerNo>)
    ensures { plan.new ≡ slice_set plan.old p c }
{
    if (p.0 as usize) < plan.len() {
        plan.set(p, c);
    }
}

/// Does a move as far as the plan goes.
fn carry_out(plan: &mut Plan, m: &Move)
    ensures { plan.new ≡ carried_out plan.old m.now }
{
    match *m {
        Move::Lift(p) => set(plan, p, None),
        Move::Put(c, p) => set(plan, p, Some(c)),
        Move::OffCover(_) | Move::OnCover(_) => {}
    }
}

/// What each move of a call lifts or puts, where the call begins with this departure. The moves are done one after the other on a copy of the plan.
pub fn containers_of(
    alloc: Global,
    before: &Plan,
    moves: &MoveList,
) -> Result<ContainerList2, NoMemory>
    ensures one_length { IfOk result (λ lifted. length lifted ≡ length moves.now) }
    ensures named { IfOk result (λ lifted. (cargo : cargoes.Cargo) (call : ℕ) (s : State) → s.plan ≡ before.now → tasks_with moves.now lifted ≡ tasks_of cargo call s moves.now) }
{
    let mut plan = before.copy(alloc)?;
    let mut lifted = Seq::new(alloc);
    let steps = moves.as_slice();
    for m in steps {
        lifted.push(named(&plan, m))?;
        carry_out(&mut plan, m);
    }
    Ok(lifted)
}
