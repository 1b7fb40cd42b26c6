//! Plans and their certificate.
ghost use Rattle.std.specs.Prelude.{◌≡◌, ◌≤◌, IfOk};
ghost use Rattle.model_bridge.specs.Laws.{IsProblem};
ghost use Rattle.plan_search.specs.Certified.{Certifies, HasPlans};

use crate::closing::{chosen_plans, head_of};
use crate::improving::improved;
use crate::loaded::loaded;
use crate::run::search_tree;
use bound_checker::settled_bound;
use certificate::{Head, Tree};
use heuristic::Planner;
use model_bridge::bounds_are_of_voyages;
use std::alloc::Global;
use std::sync::Wait;
use std::thread::Threads;
use stow_data::{Cargo, NoMemory, PlanList, Ship};
use stow_io::Gate;
use zero_one_model::Model;

/// A certificate, and the plans of calls 1 to N-1 where there are some.
#[derive(Drop)]
pub struct Planned {
    pub head: Head,
    pub tree: Tree,
    pub plans: Option<PlanList>,
}

/// The best plans that are found of a voyage, with the certificate of a bound on the cost of every legal voyage.
///
/// The loader's plans come first, then those of voyages by chance where they are better. The search looks for still better
/// ones, with 1 to 16 workers, at most as many nodes as the budget says, and its tree proves the bound.
pub fn plan_voyage<G: Gate + Sync, R: Threads + Wait + Sync>(
    rt: &R,
    alloc: Global,
    ship: &Ship,
    cargo: &Cargo,
    model: &Model,
    workers: u32,
    budget: u64,
    gate: &G,
) -> Result<Planned, NoMemory>
    requires ship { model.now.ship ≡ ship.now }
    requires cargo { model.now.cargo ≡ cargo.now }
    requires problem { IsProblem model.now }
    requires workers { 1 ≤ workers }
    requires most_workers { workers ≤ 16 }
    requires nodes { 1 ≤ budget }
    requires most_nodes { budget ≤ 100000 }
    ensures certified { IfOk result (λ p. Certifies model.now budget p.head p.tree) }
    ensures plans { IfOk result (λ p. HasPlans model.now p.head.rehandles p.plans) }
{
    let first = loaded(alloc, ship, cargo, model)?;
    let mut planner = Planner::new(alloc, model)?;
    let begun = improved(alloc, ship, cargo, model, &mut planner, budget, first)?;
    let found = search_tree(rt, alloc, model, planner, workers, budget, begun.cost, gate)?;
    let chosen = chosen_plans(alloc, ship, cargo, model, begun, found.full)?;
    let bound = settled_bound(alloc, model, &found.tree, chosen.cost)?;
    bounds_are_of_voyages();
    Ok(Planned {
        head: head_of(&chosen, bound, found.nodes),
        tree: found.tree,
        plans: chosen.plans,
    })
}
