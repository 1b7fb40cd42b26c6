//! Plans to begin a search with: the loader's, or better ones of voyages by chance.
ghost use Rattle.std.specs.Prelude.{◌≡◌, IfOk, IfSome};
ghost use Rattle.stow_data.specs.Shipment.{IsCargo};
ghost use Rattle.model_bridge.specs.Laws.{IsProblem};
ghost use Rattle.plan_search.specs.Found.{IsPriced, IsPlanned, IsImproved};

use crate::closing::plans_of;
use crate::loaded::PricedPlans;
use heuristic::{HeuristicLimits, Planner};
use node_work::root_bound;
use partial_plan::breaks_none;
use std::alloc::Global;
use stow_data::{Cargo, NoMemory, Ship};
use zero_one_model::{Box01, Model};

/// How many voyages by chance are sailed where the budget is one node.
const LEAST_RUNS: u64 = 100;

/// How many voyages by chance are sailed for each node behind the first.
const RUNS_A_NODE: u64 = 100;

/// How many voyages by chance are sailed at most.
const MOST_RUNS: u64 = 200_000;

/// After how many looks at places no voyage is begun where the budget is one node, so that large ships have fewer.
const LEAST_LOOKS: u64 = 4_000_000;

/// How many looks at places each node behind the first adds.
const LOOKS_A_NODE: u64 = 26_000;

/// After how many looks at places no voyage is begun.
const MOST_LOOKS: u64 = 100_000_000;

/// How many variables a program has at most whose root is ended before voyages are sailed: then that is cheap.
const MOST_ROOT_VARS: u32 = 20_000;

/// How many voyages by chance are sailed before a search.
fn runs_of(budget: u64) -> u32 {
    let behind = budget.saturating_sub(1);
    let runs = LEAST_RUNS.saturating_add(behind.saturating_mul(RUNS_A_NODE));
    runs.min(MOST_RUNS) as u32
}

/// After how many looks at places none is begun.
fn looks_of(budget: u64) -> u64 {
    let behind = budget.saturating_sub(1);
    let looks = LEAST_LOOKS.saturating_add(behind.saturating_mul(LOOKS_A_NODE));
    looks.min(MOST_LOOKS)
}

/// What cost is good enough, so that no voyage is begun once one costs no more: what the root tells, where that is cheap.
fn enough_of(alloc: Global, model: &Model, most: u64) -> Result<u64, NoMemory>
    requires { IsCargo model.now.cargo }
{
    if model.vars() > MOST_ROOT_VARS {
        return Ok(0);
    }
    root_bound(alloc, model, most)
}

/// The plans of the cheapest voyage by chance that is found. None where none is.
///
/// Whether the voyage is legal is looked at here, whatever the planner says.
fn guessed(
    alloc: Global,
    ship: &Ship,
    cargo: &Cargo,
    model: &Model,
    planner: &mut Planner,
    limits: HeuristicLimits,
) -> Result<Option<PricedPlans>, NoMemory>
    requires ship { model.now.ship ≡ ship.now }
    requires cargo { model.now.cargo ≡ cargo.now }
    requires problem { IsProblem model.now }
    ensures { IfOk result (λ found. IfSome found (IsPlanned model.now)) }
{
    let free = Box01::free(alloc, model)?;
    planner.choose(model, &free, limits)?;
    let Some(full) = planner.full_box(alloc, model)? else {
        return Ok(None);
    };
    if !breaks_none(alloc, model, &full)? {
        return Ok(None);
    }
    let found = plans_of(alloc, ship, cargo, model, &full)?;
    Ok(Some(found))
}

/// The first plans, or better ones of voyages by chance.
pub fn improved(
    alloc: Global,
    ship: &Ship,
    cargo: &Cargo,
    model: &Model,
    planner: &mut Planner,
    budget: u64,
    first: PricedPlans,
) -> Result<PricedPlans, NoMemory>
    requires ship { model.now.ship ≡ ship.now }
    requires cargo { model.now.cargo ≡ cargo.now }
    requires problem { IsProblem model.now }
    requires first { IsPriced model.now first }
    ensures { IfOk result (IsImproved model.now first) }
{
    if first.cost == 0 {
        return Ok(first);
    }
    let enough = enough_of(alloc, model, first.cost)?;
    if first.cost <= enough {
        return Ok(first);
    }
    // Any voyage will do to begin with, since its stacks are planned anew again and again.
    let limits = HeuristicLimits {
        cut: u64::MAX,
        enough,
        runs: runs_of(budget),
        looks: looks_of(budget),
    };
    match guessed(alloc, ship, cargo, model, planner, limits)? {
        Some(found) if found.cost < first.cost => Ok(found),
        _ => Ok(first),
    }
}
