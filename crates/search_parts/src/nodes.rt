//! Nodes of the search.
ghost use Rattle.std.specs.Prelude.{◌≡◌, ℕ, ◌≤◌, ◌+◌, ◌++◌, ◌∷◌, [], IfOk, OnOk};
ghost use Rattle.stow_data.specs.Shipment.{IsCargo, most_cost};
ghost use Rattle.node_solver.specs.Work.{IsNode, EndsBranched, begins_at};
ghost use Rattle.zero_one_rows.specs.Variables.{Voyage};

use box_parts::write_count;
use certificate::{Node, Path, Record, SharedRecord, Trail};
use heuristic::Planner;
use node_solver::Worked;
use node_work::{BaseMatrix, Tables, WorkerState, work};
use std::alloc::Global;
use stow_data::{Bytes, NoMemory};
use zero_one_model::Model;

/// The most branches on the way to a node.
const DEEPEST: u32 = 10_000;

/// The root.
fn root(alloc: Global) -> Node
    ensures { (m : Voyage) → IsNode m result }
{
    Node {
        path: Path::new(alloc),
        trail: Trail::new(alloc),
    }
}

/// A cut that the program allows: this one or the greatest.
fn cut_at(model: &Model, most: u64) -> u64
    requires { IsCargo model.now.cargo }
    ensures { result ≤ most_cost model.now.cargo + 1 }
{
    most.min(model.limit() + 1)
}

/// How the root ends against a cut.
pub fn write_work(alloc: Global, model: &Model, cut: u64, out: &mut Bytes) -> Result<(), NoMemory>
    requires { IsCargo model.now.cargo }
{
    let cut = cut_at(model, cut);
    match work(alloc, model, &root(alloc), cut) {
        Worked::Closed(record) => write_count(out, b"closed", record.raises.len()),
        Worked::Branched(record) => write_count(out, b"branched", record.raises.len()),
        Worked::Full { cost, .. } => write_count(out, b"full", cost),
        Worked::NoMemory => Err(NoMemory),
    }
}

/// Appends a record to a trail.
fn push_shared(alloc: Global, trail: &mut Trail, entry: Record) -> Result<(), NoMemory>
    ensures { OnOk result (trail.new ≡ trail.old ++ entry ∷ []) }
{
    let shared = SharedRecord::new(alloc, entry)?;
    trail.push(alloc, shared)
}

/// Goes to the half of value 1 of a node that a record divides.
fn descend(alloc: Global, node: &mut Node, entry: Record) -> Result<(), NoMemory>
    ensures { (m : Voyage) (most cut : ℕ) → IsNode m node.old → EndsBranched m (begins_at m node.old) most cut entry → OnOk result (IsNode m node.new) }
{
    push_shared(alloc, &mut node.trail, entry)?;
    node.path.push(true)
}

/// Ends a node, and goes to its half of value 1 where it is divided. Whether it was.
fn go_down(
    alloc: Global,
    state: &mut WorkerState,
    node: &mut Node,
    cut: u64,
) -> Result<bool, NoMemory>
    requires cargo { IsCargo state.old.cargo }
    requires trail { IsNode state.old node.old }
    requires cut { cut ≤ most_cost state.old.cargo + 1 }
    ensures same { state.new ≡ state.old }
    ensures trail { OnOk result (IsNode state.old node.new) }
{
    match state.work(alloc, node, cut) {
        Worked::Branched(entry) => {
            descend(alloc, node, entry)?;
            Ok(true)
        }
        Worked::Closed(_) | Worked::Full { .. } => Ok(false),
        Worked::NoMemory => Err(NoMemory),
    }
}

/// Goes down from the root to where nothing is divided.
fn bottom(alloc: Global, state: &mut WorkerState, cut: u64) -> Result<Node, NoMemory>
    requires cargo { IsCargo state.old.cargo }
    requires cut { cut ≤ most_cost state.old.cargo + 1 }
    ensures same { state.new ≡ state.old }
    ensures trail { IfOk result (IsNode state.old) }
{
    let mut node = root(alloc);
    for _ in 0..DEEPEST {
        if !go_down(alloc, state, &mut node, cut)? {
            return Ok(node);
        }
    }
    Ok(node)
}

/// The nodes on so many ways from the root.
fn go_down_often(
    alloc: Global,
    state: &mut WorkerState,
    cut: u64,
    times: u64,
) -> Result<u64, NoMemory>
    requires cargo { IsCargo state.old.cargo }
    requires cut { cut ≤ most_cost state.old.cargo + 1 }
{
    let mut nodes: u64 = 0;
    for _ in 0..times {
        let node = bottom(alloc, state, cut)?;
        nodes = nodes.wrapping_add(node.path.len() as u64).wrapping_add(1);
    }
    Ok(nodes)
}

/// A fresh state.
fn fresh_state<'a>(
    alloc: Global,
    model: &Model,
    tables: &'a Tables<'a>,
) -> Result<WorkerState<'a>, NoMemory>
    ensures { IfOk result (λ state. state ≡ tables.now) }
{
    let planner = Planner::new(alloc, model)?;
    WorkerState::fresh(alloc, tables, planner)
}

/// The nodes on ways from the root, told.
fn write_nodes(
    alloc: Global,
    model: &Model,
    state: &mut WorkerState,
    times: u64,
    out: &mut Bytes,
) -> Result<(), NoMemory>
    requires cargo { IsCargo model.now.cargo }
    requires voyage { state.old ≡ model.now }
{
    let cut = cut_at(model, u64::MAX);
    let nodes = go_down_often(alloc, state, cut, times)?;
    write_count(out, b"nodes", nodes)
}

/// Begins a node, which closes at once at a cut of 0.
fn begin(alloc: Global, state: &mut WorkerState, node: &Node) -> Result<(), NoMemory>
    requires cargo { IsCargo state.old.cargo }
    requires trail { IsNode state.old node.now }
    ensures same { state.new ≡ state.old }
{
    match state.work(alloc, node, 0) {
        Worked::NoMemory => Err(NoMemory),
        Worked::Closed(_) | Worked::Branched(_) | Worked::Full { .. } => Ok(()),
    }
}

/// Begins a node and the root in turn, which both close at once at a cut of 0, so many times over.
fn begin_both(
    alloc: Global,
    state: &mut WorkerState,
    node: &Node,
    times: u64,
) -> Result<(), NoMemory>
    requires cargo { IsCargo state.old.cargo }
    requires trail { IsNode state.old node.now }
    ensures same { state.new ≡ state.old }
{
    let top = root(alloc);
    for _ in 0..times {
        begin(alloc, state, &top)?;
        begin(alloc, state, node)?;
    }
    Ok(())
}

/// How many records lie on the way to the last node, which is begun so many times from the root.
fn write_again(
    alloc: Global,
    model: &Model,
    state: &mut WorkerState,
    times: u64,
    out: &mut Bytes,
) -> Result<(), NoMemory>
    requires cargo { IsCargo model.now.cargo }
    requires voyage { state.old ≡ model.now }
{
    let cut = cut_at(model, u64::MAX);
    let node = bottom(alloc, state, cut)?;
    begin_both(alloc, state, &node, times)?;
    write_count(out, b"records", node.trail.len())
}

/// What is done with one state.
#[derive(Clone, Copy)]
pub enum Ways {
    /// Ways from the root by value 1.
    Down,
    /// One such way, whose last node is begun again and again.
    Again,
}

/// Ways with a state of these tables.
fn write_ways_over(
    alloc: Global,
    model: &Model,
    tables: &Tables,
    ways: Ways,
    times: u64,
    out: &mut Bytes,
) -> Result<(), NoMemory>
    requires cargo { IsCargo model.now.cargo }
    requires voyage { tables.now ≡ model.now }
{
    let mut state = fresh_state(alloc, model, tables)?;
    let written = match ways {
        Ways::Down => write_nodes(alloc, model, &mut state, times, out),
        Ways::Again => write_again(alloc, model, &mut state, times, out),
    };
    drop(state);
    written
}

/// Ways from the root by value 1, so many times over with one state.
pub fn write_ways(
    alloc: Global,
    model: &Model,
    ways: Ways,
    times: u64,
    out: &mut Bytes,
) -> Result<(), NoMemory>
    requires { IsCargo model.now.cargo }
{
    let matrix = BaseMatrix::build(alloc, model)?;
    let tables = Tables::build(alloc, &matrix);
    let written = write_ways_over(alloc, model, &tables, ways, times, out);
    drop(tables);
    drop(matrix);
    written
}
