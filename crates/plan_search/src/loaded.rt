//! Plans with their cost, and the loader's first.
ghost use Rattle.std.specs.Prelude.{◌≡◌, IfOk};
ghost use Rattle.voyage_meaning.specs.Voyage.{HasCost};
ghost use Rattle.model_bridge.specs.Laws.{IsProblem};
ghost use Rattle.plan_search.specs.Loaded.{ArePlans};
ghost use Rattle.plan_search.specs.Found.{IsLoaded};

use greedy_loader::load;
use plan_lifts::{LiftsFault, lifts};
use std::alloc::Global;
use stow_data::{Cargo, NoMemory, PlanList, Ship};
use zero_one_model::Model;

/// Plans with their cost; where there are none, one above the most that a voyage needs to cost.
#[derive(Drop)]
pub struct PricedPlans {
    pub plans: Option<PlanList>,
    pub cost: u64,
}

/// The cost of legal departures.
pub fn cost_of(
    alloc: Global,
    ship: &Ship,
    cargo: &Cargo,
    model: &Model,
    plans: &PlanList,
) -> Result<u64, NoMemory>
    requires ship { model.now.ship ≡ ship.now }
    requires cargo { model.now.cargo ≡ cargo.now }
    requires problem { IsProblem model.now }
    requires plans { ArePlans model.now plans.now }
    ensures { IfOk result (λ cost. HasCost model.now.ship model.now.cargo plans.now cost) }
{
    match lifts(alloc, ship, cargo, plans) {
        Ok(lifted) => Ok(lifted.cost),
        Err(LiftsFault::NoMemory) => Err(NoMemory),
        Err(LiftsFault::Illegal { .. }) => unreachable!(),
    }
}

/// What the loader's rule finds.
pub fn loaded(
    alloc: Global,
    ship: &Ship,
    cargo: &Cargo,
    model: &Model,
) -> Result<PricedPlans, NoMemory>
    requires ship { model.now.ship ≡ ship.now }
    requires cargo { model.now.cargo ≡ cargo.now }
    requires problem { IsProblem model.now }
    ensures { IfOk result (IsLoaded model.now) }
{
    let Some(plans) = load(alloc, ship, cargo)? else {
        return Ok(PricedPlans {
            plans: None,
            cost: model.limit() + 1,
        });
    };
    let cost = cost_of(alloc, ship, cargo, model, &plans)?;
    Ok(PricedPlans {
        plans: Some(plans),
        cost,
    })
}
