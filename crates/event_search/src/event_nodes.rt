//! Nodes in full, as their keys tell them.
ghost use Rattle.std.specs.Prelude.{◌≡◌, ◌<◌, ◌≤◌, length, slice_get, Some, All, IfOk, map, vec_capacity};
ghost use Rattle.zero_one_rows.specs.Variables.{Voyage};
ghost use Rattle.certificate.specs.Entries.{entry_of};
ghost use Rattle.search_core.specs.Bags.{Every};
ghost use Rattle.certificate.specs.declared.tree.Record.{Record as Records};
ghost use Rattle.search_core.specs.declared.records.Done.{Done as Dones};
ghost use Rattle.search_core.specs.Told.{InTable, NameEarlier, told};
ghost use Rattle.event_search.specs.Cores.{node_at};
ghost use Rattle.event_search.specs.Nodes.{value_of, entry_in, along, told_node, placed, told_entry};

use certificate::{Entry, Journal, Node, Path, PathList, Record, SharedRecord, Trail};
use search_core::{Done, NodeKey};
use std::alloc::Global;
use stow_data::NoMemory;

/// A branch on the way to a node: the number of the ended node that it divided, and the half that was taken.
#[derive(Clone, Copy)]
pub struct Step {
    pub entry: usize,
    pub value: bool,
}

// An item of a list.
fn item_at<T: Copy>(items: &[T], k: usize) -> T
    requires { k < length items.now }
    ensures { slice_get items.now k ≡ Some result }
{
    items[k]
}

// The node that was ended by an entry.
fn ended_node(ended: &[Done<Record>], entry: usize) -> NodeKey
    requires { entry < length ended.now }
    ensures { (d : Dones Records) × (slice_get ended.now entry ≡ Some d) × (result ≡ d.node) }
{
    ended[entry].node
}

/// Leads from the root to a node: the list becomes the branches on the way, the root's first. It takes no memory: the list has room for the ended nodes.
pub fn lead_to(way: &mut Vec<Step>, ended: &[Done<Record>], node: NodeKey)
    requires room { length ended.now ≤ vec_capacity way.old }
    requires earlier { NameEarlier ended.now }
    requires named { InTable (length ended.now) node }
    ensures way { (m : Voyage) → node_at m ended.now node ≡ along m ended.now way.new.items }
    ensures inside { All (λ s. s.entry < length ended.now) way.new.items }
    ensures room { vec_capacity way.new ≡ vec_capacity way.old }
{
    way.clear();
    let mut here = node;
    while let NodeKey::Half { entry, value } = here {
        way.push_reserved(Step { entry, value });
        here = ended_node(ended, entry);
    }
    way.reverse();
}

// The branches on the way to a node, the root's first.
fn way_to(alloc: Global, ended: &[Done<Record>], node: NodeKey) -> Result<Vec<Step>, NoMemory>
    requires earlier { NameEarlier ended.now }
    requires named { InTable (length ended.now) node }
    ensures way { IfOk result (λ way. (m : Voyage) → node_at m ended.now node ≡ along m ended.now way.items) }
    ensures inside { IfOk result (λ way. All (λ s. s.entry < length ended.now) way.items) }
{
    let mut way = Vec::with_capacity(alloc, ended.len())?;
    lead_to(&mut way, ended, node);
    Ok(way)
}

// The values of branches.
fn values_of(alloc: Global, way: &[Step]) -> Result<Path, NoMemory>
    ensures { IfOk result (λ path. path ≡ map value_of way.now) }
{
    let mut path = Path::new(alloc);
    for step in way {
        path.push(step.value)?;
    }
    Ok(path)
}

/// The path of a node.
pub(crate) fn path_of(
    alloc: Global,
    ended: &[Done<Record>],
    node: NodeKey,
) -> Result<Path, NoMemory>
    requires earlier { NameEarlier ended.now }
    requires named { InTable (length ended.now) node }
    ensures { IfOk result (λ path. (m : Voyage) → path ≡ (node_at m ended.now node).path) }
{
    let way = way_to(alloc, ended, node)?;
    values_of(alloc, way.as_slice())
}

// The records of ended nodes on a way.
fn records_on(alloc: Global, ended: &[Done<Record>], way: &[Step]) -> Result<Trail, NoMemory>
    requires earlier { NameEarlier ended.now }
    requires inside { All (λ s. s.entry < length ended.now) way.now }
    ensures { IfOk result (λ records. (m : Voyage) → map (entry_of m) records ≡ map (entry_in (told (entry_of m) ended.now)) way.now) }
{
    let mut records = Trail::new(alloc);
    for k in 0..way.len() {
        let step = item_at(way, k);
        let copy = ended[step.entry].entry.copy(alloc)?;
        records.push(alloc, SharedRecord::new(alloc, copy)?)?;
    }
    Ok(records)
}

/// A node in full: its path, and copies of the records above it.
pub(crate) fn full_node(
    alloc: Global,
    ended: &[Done<Record>],
    node: NodeKey,
) -> Result<Node, NoMemory>
    requires earlier { NameEarlier ended.now }
    requires named { InTable (length ended.now) node }
    ensures { IfOk result (λ full. (m : Voyage) → told_node m full ≡ node_at m ended.now node) }
{
    let way = way_to(alloc, ended, node)?;
    Ok(Node {
        path: values_of(alloc, way.as_slice())?,
        trail: records_on(alloc, ended, way.as_slice())?,
    })
}

/// The paths of nodes.
pub(crate) fn paths_of(
    alloc: Global,
    ended: &[Done<Record>],
    nodes: &[NodeKey],
) -> Result<PathList, NoMemory>
    requires earlier { NameEarlier ended.now }
    requires named { Every (InTable (length ended.now)) nodes.now }
    ensures { IfOk result (λ paths. (m : Voyage) → paths ≡ map (λ n. (node_at m ended.now n).path) nodes.now) }
{
    let mut paths = PathList::new(alloc);
    for k in 0..nodes.len() {
        let node = item_at(nodes, k);
        paths.push(path_of(alloc, ended, node)?)?;
    }
    Ok(paths)
}

/// The records of ended nodes at the nodes' paths.
pub(crate) fn entries_of(alloc: Global, ended: &[Done<Record>]) -> Result<Journal, NoMemory>
    requires { NameEarlier ended.now }
    ensures { IfOk result (λ entries. (m : Voyage) → map (placed m) entries ≡ map (told_entry m ended.now) ended.now) }
{
    let mut entries = Journal::new(alloc);
    for done in ended {
        entries.push(Entry {
            path: path_of(alloc, ended, done.node)?,
            record_of: done.entry.copy(alloc)?,
        })?;
    }
    Ok(entries)
}
