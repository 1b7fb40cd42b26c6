//! The departures of a solution.
ghost use Rattle.std.specs.Prelude.{◌≡◌, ◌<◌, ◌++◌, ◌∷◌, [], All, IfOk, OnOk, length};
ghost use Rattle.zero_one_rows.specs.Variables.{variables};
ghost use Rattle.model_bridge.specs.Laws.{IsProblem};
ghost use Rattle.model_bridge.specs.Pairs.{each_kind, plan_of_pairs};
ghost use Rattle.model_bridge.specs.Sailed.{IsFull, BreaksNone, AreSailed};

use crate::pairs::{HeldList, KindList, box_kinds, held_after, held_at_arrival, ones_of};
use std::alloc::Global;
use stow_data::{CallNo, Cargo, NoMemory, Plan, PlanList, Seq, Ship};
use zero_one_model::{Box01, Model};

/// The plan of the pairs: each container stands at its variable's place.
fn plan_with(alloc: Global, ship: &Ship, model: &Model, held: &HeldList) -> Result<Plan, NoMemory>
    requires ship { model.now.ship ≡ ship.now }
    requires vars { All (λ e. e.0 < length (variables model.now)) held.now }
    ensures { IfOk result (λ plan. plan ≡ plan_of_pairs model.now held.now) }
{
    let mut plan = Plan::empty(alloc, ship)?;
    for n in 0..held.len() {
        let pair = held.at(held.len() - 1 - n);
        plan.set(model.var(pair.0).place, Some(pair.1));
    }
    Ok(plan)
}

/// Appends the plan of the pairs.
fn push_plan(
    alloc: Global,
    ship: &Ship,
    model: &Model,
    held: &HeldList,
    plans: &mut PlanList,
) -> Result<(), NoMemory>
    requires ship { model.now.ship ≡ ship.now }
    requires vars { All (λ e. e.0 < length (variables model.now)) held.now }
    ensures { OnOk result (plans.new ≡ plans.old ++ plan_of_pairs model.now held.now ∷ []) }
{
    let plan = plan_with(alloc, ship, model, held)?;
    plans.push(plan)
}

/// Appends the plan after each call but the first, where the kinds of the containers are at hand.
fn push_plans(
    alloc: Global,
    ship: &Ship,
    cargo: &Cargo,
    model: &Model,
    kinds: &KindList,
    full: &Box01,
    plans: &mut PlanList,
) -> Result<(), NoMemory>
    requires ship { model.now.ship ≡ ship.now }
    requires cargo { model.now.cargo ≡ cargo.now }
    requires problem { IsProblem model.now }
    requires full { IsFull model.now full.now }
    requires rows { BreaksNone model.now full.now }
    requires kinds { kinds.now ≡ each_kind model.now }
    requires empty { plans.old ≡ [] }
    ensures { OnOk result (AreSailed model.now full.now plans.new) }
{
    let list = ones_of(alloc, model, full)?;
    let mut held = held_at_arrival(alloc, cargo, model, &list)?;
    for call in 1..cargo.calls() {
        held = held_after(alloc, cargo, model, kinds, &list, &held, CallNo(call))?;
        push_plan(alloc, ship, model, &held, plans)?;
    }
    Ok(())
}

/// Plans of a legal voyage that costs at most what a full box that breaks no base row costs.
///
/// At each call the variables that are put there are matched with the containers that load, or are lifted to be put
/// again, kind by kind.
pub fn plan_of(
    alloc: Global,
    ship: &Ship,
    cargo: &Cargo,
    model: &Model,
    full: &Box01,
) -> Result<PlanList, NoMemory>
    requires ship { model.now.ship ≡ ship.now }
    requires cargo { model.now.cargo ≡ cargo.now }
    requires problem { IsProblem model.now }
    requires full { IsFull model.now full.now }
    requires rows { BreaksNone model.now full.now }
    ensures { IfOk result (AreSailed model.now full.now) }
{
    let kinds = box_kinds(alloc, ship, cargo, model)?;
    let mut plans = Seq::new(alloc);
    let pushed = push_plans(alloc, ship, cargo, model, &kinds, full, &mut plans);
    drop(kinds);
    match pushed {
        Ok(_) => Ok(plans),
        Err(no) => {
            drop(plans);
            Err(no)
        }
    }
}
