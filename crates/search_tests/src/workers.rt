//! Workers to whom memory is wanting.
use certificate::Node;
use node_solver::{NodeSolver, Solver, Worked};
use parallel_search::search;
use std::alloc::Global;
use std::test::Fail;
use stow_data::NoMemory;
use stow_io::NoGate;

/// Ends no node: memory is always wanting to it.
#[derive(Drop)]
struct Wanting {}

impl Solver for Wanting {
    ghost use Rattle.search_tests.specs.Voyages.{empty_voyage};

    ghost voyage = { λ s. empty_voyage };

    fn work(&mut self, _alloc: Global, _node: &Node, _cut: u64) -> Worked {
        Worked::NoMemory
    }
}

// The one that takes the root stops the other, which would else wait for nodes that nobody has.
#[test]
fn two_workers_without_memory_stop(rt: HostRuntime) -> Result<(), Fail> {
    let mut solvers = Vec::new(rt.alloc());
    solvers.push(NodeSolver::of(Wanting {}))?;
    solvers.push(NodeSolver::of(Wanting {}))?;
    let found = search(
        &rt,
        rt.alloc(),
        solvers,
        NodeSolver::of(Wanting {}),
        10,
        1,
        &NoGate,
    );
    assert!(rt; found.is_err_and(|no| no == NoMemory));
    Ok(())
}
