//! Laws of the checker's definitions.
ghost use Rattle.std.specs.Prelude.{◌≡◌, ◌≤◌, ℕ, List, None, length};
ghost use Rattle.std.specs.Ordering.{is_eq};
ghost use Rattle.zero_one_rows.specs.declared.program.Row.{Row as Rows};
ghost use Rattle.zero_one_rows.specs.Variables.{Voyage};
ghost use Rattle.certificate.specs.declared.tree.Head.{Head};
ghost use Rattle.certificate.specs.declared.tree.Record.{Record};
ghost use Rattle.certificate.specs.Grammar.{IsCert};
ghost use Rattle.certificate.specs.Entries.{same_row};
ghost use Rattle.bound_checker.specs.Entries.{ProvesBound};
ghost use Rattle.bound_checker.specs.Faults.{first_fault};

use zero_one_rows::Row;

/// Records prove a bound exactly where they have no fault.
pub fn proved_or_fault()
    ensures faultless { (m : Voyage) (records : List Record) (bound : ℕ) → first_fault m records bound ≡ None → ProvesBound m records bound }
    ensures proved { (m : Voyage) (records : List Record) (bound : ℕ) → ProvesBound m records bound → first_fault m records bound ≡ None }
{}

/// A certificate has no more records than bytes.
pub fn records_are_few()
    ensures few { (text : List ℕ) (head : Head) (tree : List Record) → IsCert text head tree → length tree ≤ length text }
{}

/// The order of rows tells a row from each other one.
pub fn rows_told_apart()
    ensures order { (r s : Rows) → is_eq (⟦<Row as Ord>⟧.cmp r s) ≡ same_row r s }
{}
