//! Nodes in one list, and their order.
ghost use Rattle.std.specs.Prelude.{◌≡◌, ◌++◌, IfOk, OnErr, OnOk, map};
ghost use Rattle.std.specs.List.Sorted.{IsPermutation};
ghost use Rattle.node_ledger.specs.Gathered.{entries};
ghost use Rattle.node_ledger.specs.Preorder.{by_preorder, InPreorder, left_node};

use certificate::{End, Entry, Few, Journal, JournalList, Path, PathList, Record};
use std::alloc::Global;
use std::cmp::Ordering;
use stow_data::NoMemory;

/// Which of two nodes comes first in a tree: one above the other, or the one at value 1 of the branch at which their
/// paths part. The common part is compared as slices, which pass by equal values some at a time.
fn compare_paths(a: &[bool], b: &[bool]) -> Ordering
    ensures { result ≡ by_preorder a.now b.now }
{
    let both = a.len().min(b.len());
    b[..both].cmp(&a[..both]).then(a.len().cmp(&b.len()))
}

/// Sorts nodes into the order of a tree by runs that are in order: nearly all of a journal is in a few of them, since a worker goes down before it turns.
fn sort_by_runs(nodes: &mut Vec<Entry>) -> Result<(), NoMemory>
    ensures same { IsPermutation nodes.old.items nodes.new.items }
    ensures order { OnOk result (InPreorder nodes.new.items) }
    ensures stays { OnErr result (nodes.new.items ≡ nodes.old.items) }
{
    nodes.sort_by(|a, b| compare_paths(a.path.as_slice(), b.path.as_slice()))?;
    Ok(())
}

/// Sorts nodes into the order of a tree. It takes no memory.
fn sort_in_place(nodes: &mut Vec<Entry>)
    ensures same { IsPermutation nodes.old.items nodes.new.items }
    ensures order { InPreorder nodes.new.items }
{
    nodes.sort_unstable_by(|a, b| compare_paths(a.path.as_slice(), b.path.as_slice()));
}

/// Sorts nodes into the order of a tree: by runs, while there is memory for it.
pub fn sort_nodes(nodes: &mut Vec<Entry>)
    ensures same { IsPermutation nodes.old.items nodes.new.items }
    ensures order { InPreorder nodes.new.items }
{
    match sort_by_runs(nodes) {
        Ok(()) => (),
        Err(NoMemory) => sort_in_place(nodes),
    }
}

/// Appends a journal's entries.
fn add_journal(nodes: &mut Vec<Entry>, journal: Journal) -> Result<(), NoMemory>
    ensures { OnOk result (nodes.new.items ≡ nodes.old.items ++ journal) }
{
    let mut entries = journal.into_items();
    nodes.append(&mut entries)?;
    Ok(())
}

/// Appends nodes that were left open.
fn add_left(nodes: &mut Vec<Entry>, left: PathList) -> Result<(), NoMemory>
    ensures { OnOk result (nodes.new.items ≡ nodes.old.items ++ map left_node left) }
{
    for path in left.into_items() {
        nodes.push(left_open(path))?;
    }
    Ok(())
}

/// A node that was left open.
fn left_open(path: Path) -> Entry
    ensures { result ≡ left_node path }
{
    Entry {
        path,
        record_of: Record {
            steps: Few::none(),
            raises: Few::none(),
            end: End::Left,
            from_zero: false,
        },
    }
}

/// All entries and all nodes that were left, in no order.
pub fn every_node(
    alloc: Global,
    journals: JournalList,
    left: PathList,
) -> Result<Vec<Entry>, NoMemory>
    ensures { IfOk result (λ nodes. nodes.items ≡ entries journals ++ map left_node left) }
{
    let mut nodes = Vec::new(alloc);
    for journal in journals.into_items() {
        add_journal(&mut nodes, journal)?;
    }
    add_left(&mut nodes, left)?;
    Ok(nodes)
}
