//! Journals and left nodes as one tree.
ghost use Rattle.std.specs.Prelude.{◌≡◌, ℕ, IfOk, map};
ghost use Rattle.zero_one_rows.specs.declared.program.Var.{Var};
ghost use Rattle.node_ledger.specs.Gathered.{AreWhole, IsGathered};

use crate::nodes::{every_node, sort_nodes};
use certificate::{Entry, JournalList, PathList, Tree};
use search_core::journals_are_a_tree;
use std::alloc::Global;
use stow_data::NoMemory;
use zero_one_rows::Row;

/// The records of nodes, in their order.
fn records_of(alloc: Global, nodes: Vec<Entry>) -> Result<Tree, NoMemory>
    ensures { IfOk result (λ tree. tree ≡ map (λ e. e.record_of) nodes.items) }
{
    let mut tree = Tree::new(alloc);
    for entry in nodes {
        tree.push(entry.record_of)?;
    }
    Ok(tree)
}

/// The tree with each entry's record at its path, and an empty record that ends in `Left` at each left path.
///
/// It is asked that the journals with the left paths are whole: together their nodes are the root, and both halves of
/// each record that branches. How branch variables are numbered makes no difference.
pub fn gather(alloc: Global, journals: JournalList, left: PathList) -> Result<Tree, NoMemory>
    requires whole { (number : Var → ℕ) × AreWhole number journals left }
    ensures gathered { IfOk result (λ tree. (number : Var → ℕ) → IsGathered number journals left tree) }
{
    journals_are_a_tree::<Row>();
    let mut found = every_node(alloc, journals, left)?;
    sort_nodes(&mut found);
    records_of(alloc, found)
}
