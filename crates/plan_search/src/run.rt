//! The search, and its tree.
ghost use Rattle.std.specs.Prelude.{◌≡◌, ◌+◌, ◌≤◌, IfOk};
ghost use Rattle.stow_data.specs.Shipment.{most_cost};
ghost use Rattle.model_bridge.specs.Laws.{IsProblem};
ghost use Rattle.plan_search.specs.Found.{IsSearched, one_leaf};

use crate::crew::search_program;
use certificate::{End, Few, Record, Tree};
use heuristic::Planner;
use node_ledger::gather;
use search_core::records_are_of_nodes;
use std::alloc::Global;
use std::sync::Wait;
use std::thread::Threads;
use steal_pool::found_journals_prove;
use stow_data::NoMemory;
use stow_io::Gate;
use zero_one_model::{Box01, Model};
use zero_one_rows::{Row, rows_are_listed};

/// The tree of a search, and the best that it found.
#[derive(Drop)]
pub struct Searched {
    pub tree: Tree,

    /// The nodes that were handled.
    pub nodes: u64,

    /// The least cost of the full boxes that were found, or the start where none was less.
    pub best: u64,

    /// A full box of the least cost.
    pub full: Option<Box01>,
}

/// The tree of one box, in which no row has a multiplier: it closes at 0, for nothing costs less.
fn one_leaf(alloc: Global) -> Result<Searched, NoMemory>
    ensures { IfOk result (λ s. s ≡ one_leaf) }
{
    let mut tree = Tree::new(alloc);
    tree.push(Record {
        steps: Few::none(),
        raises: Few::none(),
        end: End::Leaf,
        from_zero: false,
    })?;
    Ok(Searched {
        tree,
        nodes: 1,
        best: 0,
        full: None,
    })
}

/// Searches for solutions that cost less than the start. Where that is 0, there is nothing to look for.
pub fn search_tree<G: Gate + Sync, R: Threads + Wait + Sync>(
    rt: &R,
    alloc: Global,
    model: &Model,
    planner: Planner,
    workers: u32,
    budget: u64,
    start: u64,
    gate: &G,
) -> Result<Searched, NoMemory>
    requires problem { IsProblem model.now }
    requires workers { 1 ≤ workers }
    requires most_workers { workers ≤ 16 }
    requires nodes { 1 ≤ budget }
    requires most_nodes { budget ≤ 100000 }
    requires low { start ≤ most_cost model.now.cargo + 1 }
    ensures { IfOk result (IsSearched model.now budget start) }
{
    if start == 0 {
        return one_leaf(alloc);
    }
    let workers = workers as usize;
    let found = search_program(rt, alloc, model, planner, workers, budget, start, gate)?;
    rows_are_listed();
    found_journals_prove();
    records_are_of_nodes::<Row>();
    Ok(Searched {
        tree: gather(alloc, found.journals, found.left)?,
        nodes: found.handled,
        best: found.best,
        full: found.full,
    })
}
