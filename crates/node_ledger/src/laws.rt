//! What gathered journals prove.
ghost use Rattle.std.specs.Prelude.{◌≡◌, ℕ, Bool, List, [], map};
ghost use Rattle.zero_one_rows.specs.declared.program.Var.{Var};
ghost use Rattle.zero_one_rows.specs.declared.program.Row.{Row as Rows};
ghost use Rattle.certificate.specs.declared.tree.Record.{Record};
ghost use Rattle.certificate.specs.declared.journals.Entry.{Entry};
ghost use Rattle.proof_trees.specs.Program.{Program};
ghost use Rattle.proof_trees.specs.Trees.{Proves};
ghost use Rattle.search_core.specs.Journals.{Path, Settled, EachAllowed};
ghost use Rattle.certificate.specs.Entries.{record_of};
ghost use Rattle.node_ledger.specs.Gathered.{placed_entries, nodes_of, AreWhole, IsGathered};

use search_core::journals_are_a_tree;
use zero_one_rows::Row;

/// Gathered journals are one tree. What the rules of proof trees allow record by record settles the tree at that value, and proves it where no node was left.
pub fn gathered_journals_prove()
    ensures one { (number : Var → ℕ) (journals : List (List Entry)) (left : List Path) (records others : List Record)
        → IsGathered number journals left records → IsGathered number journals left others → map (record_of number) records ≡ map (record_of number) others }
    ensures settled { (number : Var → ℕ) (same : Rows → Rows → Bool) (p : Program Rows) (bound : ℕ) (journals : List (List Entry)) (left : List Path) (records : List Record)
        → IsGathered number journals left records → EachAllowed same p bound (nodes_of number journals left) (placed_entries number journals) → Settled same p (map (record_of number) records) bound }
    ensures proved { (number : Var → ℕ) (same : Rows → Rows → Bool) (p : Program Rows) (bound : ℕ) (journals : List (List Entry)) (records : List Record)
        → AreWhole number journals [] → IsGathered number journals [] records → EachAllowed same p bound (nodes_of number journals []) (placed_entries number journals)
        → Proves same p (map (record_of number) records) bound }
{
    journals_are_a_tree::<Row>();
}
