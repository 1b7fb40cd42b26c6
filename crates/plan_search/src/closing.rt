//! From the tree of a search to the plans, the bound and the outcome.
ghost use Rattle.std.specs.Prelude.{◌≡◌, IfOk};
ghost use Rattle.model_bridge.specs.Laws.{IsProblem};
ghost use Rattle.model_bridge.specs.Sailed.{IsFull, BreaksNone};
ghost use Rattle.plan_search.specs.Found.{IsSailed, IsFullOrNone, AreChosen, outcome_of, cost_of_plans, head_of};

use crate::loaded::{PricedPlans, cost_of};
use certificate::{Head, Outcome};
use model_bridge::plan_of;
use std::alloc::Global;
use stow_data::{Cargo, NoMemory, PlanList, Ship};
use zero_one_model::{Box01, Model};

/// The plans of a full box that breaks no base row, with their cost.
pub fn plans_of(
    alloc: Global,
    ship: &Ship,
    cargo: &Cargo,
    model: &Model,
    full: &Box01,
) -> Result<PricedPlans, NoMemory>
    requires ship { model.now.ship ≡ ship.now }
    requires cargo { model.now.cargo ≡ cargo.now }
    requires problem { IsProblem model.now }
    requires full { IsFull model.now full.now }
    requires rows { BreaksNone model.now full.now }
    ensures { IfOk result (IsSailed model.now full.now) }
{
    let plans = plan_of(alloc, ship, cargo, model, full)?;
    let cost = cost_of(alloc, ship, cargo, model, &plans)?;
    Ok(PricedPlans {
        plans: Some(plans),
        cost,
    })
}

/// The plans of a full box, or the first ones where there is none.
pub fn chosen_plans(
    alloc: Global,
    ship: &Ship,
    cargo: &Cargo,
    model: &Model,
    first: PricedPlans,
    full: Option<Box01>,
) -> Result<PricedPlans, NoMemory>
    requires ship { model.now.ship ≡ ship.now }
    requires cargo { model.now.cargo ≡ cargo.now }
    requires problem { IsProblem model.now }
    requires full { IsFullOrNone model.now full }
    ensures { IfOk result (AreChosen model.now first full) }
{
    match full {
        Some(full) => plans_of(alloc, ship, cargo, model, &full),
        None => Ok(first),
    }
}

/// What is known of plans, or of none, by whether the bound reaches their cost.
fn outcome_of(plans: &Option<PlanList>, is_reached: bool) -> Outcome
    ensures { result ≡ outcome_of plans.now is_reached }
{
    match plans {
        Some(_) if is_reached => Outcome::Optimal,
        Some(_) => Outcome::Gap,
        None if is_reached => Outcome::NoPlan,
        None => Outcome::Undecided,
    }
}

/// The cost of plans, if there are some.
fn cost_of_plans(plans: &Option<PlanList>, cost: u64) -> Option<u64>
    ensures { result ≡ cost_of_plans plans.now cost }
{
    match plans {
        Some(_) => Some(cost),
        None => None,
    }
}

/// The head of the certificate.
pub fn head_of(chosen: &PricedPlans, bound: u64, nodes: u64) -> Head
    ensures { result ≡ head_of chosen.now bound nodes }
{
    Head {
        outcome: outcome_of(&chosen.plans, bound == chosen.cost),
        rehandles: cost_of_plans(&chosen.plans, chosen.cost),
        bound,
        nodes,
    }
}
