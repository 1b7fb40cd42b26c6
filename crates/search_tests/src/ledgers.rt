//! Small journals: their trees, by the numbers of steps of their records and the records' ends.
ghost use Rattle.std.specs.Prelude.{◌≡◌, ℕ, true, false, [], ◌∷◌, ◌++◌, IfOk, OnOk};
ghost use Rattle.zero_one_rows.specs.declared.program.Var.{Var as Vars};
ghost use Rattle.certificate.specs.declared.journals.Entry.{Entry as Entries};
ghost use Rattle.node_ledger.specs.Gathered.{AreWhole};

use certificate::{End, Entry, Journal, JournalList, Path, PathList, Record, Tree};
use node_ledger::gather;
use std::alloc::Global;
use std::test::Fail;
use stow_data::{CallNo, HalfNo, KindNo, NoMemory, PlaceNo};
use zero_one_rows::{RaiseList, Row, RowList, Var};

fn some_variable() -> Var {
    Var {
        put: CallNo(1),
        kind: KindNo(0),
        lifted: CallNo(2),
        place: PlaceNo(0),
    }
}

/// So many steps.
fn steps_of(alloc: Global, count: u32) -> Result<RowList, NoMemory> {
    let mut steps = RowList::new(alloc);
    for half in 0..count {
        steps.push(Row::Cell {
            call: CallNo(1),
            half: HalfNo(half),
        })?;
    }
    Ok(steps)
}

/// An entry with so many steps.
fn entry(alloc: Global, path: &[bool], steps: u32, end: End) -> Result<Entry, NoMemory>
    ensures path { IfOk result (λ e. e.path ≡ path.now) }
    ensures end { IfOk result (λ e. e.record_of.end ≡ end) }
{
    Ok(Entry {
        path: Path::of(alloc, path)?,
        record_of: Record::of(
            alloc,
            false,
            steps_of(alloc, steps)?,
            RaiseList::new(alloc),
            end,
        )?,
    })
}

/// Adds an entry with so many steps.
fn add(
    alloc: Global,
    journal: &mut Journal,
    path: &[bool],
    steps: u32,
    end: End,
) -> Result<(), NoMemory>
    ensures { OnOk result ((e : Entries) × (journal.new ≡ journal.old ++ e ∷ []) × (e.path ≡ path.now) × (e.record_of.end ≡ end)) }
{
    let entry = entry(alloc, path, steps, end)?;
    journal.push(entry)?;
    Ok(())
}

/// One path that was left.
fn left_at(alloc: Global, path: &[bool]) -> Result<PathList, NoMemory>
    ensures { IfOk result (λ left. left ≡ path.now ∷ []) }
{
    let mut left = PathList::new(alloc);
    left.push(Path::of(alloc, path)?)?;
    Ok(left)
}

/// One journal's tree.
fn gather_one(alloc: Global, journal: Journal, left: PathList) -> Result<Tree, NoMemory>
    requires { (number : Vars → ℕ) × AreWhole number (journal ∷ []) left }
{
    let mut journals = JournalList::new(alloc);
    journals.push(journal)?;
    gather(alloc, journals, left)
}

/// The tree of two journals.
fn gather_both(alloc: Global, low: Journal, top: Journal, left: PathList) -> Result<Tree, NoMemory>
    requires { (number : Vars → ℕ) × AreWhole number (low ∷ top ∷ []) left }
{
    let mut journals = JournalList::new(alloc);
    journals.push(low)?;
    journals.push(top)?;
    gather(alloc, journals, left)
}

/// The letter for an end in a certificate.
fn letter(end: End) -> u8 {
    match end {
        End::Leaf => b'l',
        End::Left => b'o',
        End::Branch(_) => b'b',
    }
}

/// Whether the records have so many steps, and ends with these letters.
fn is_told(tree: &Tree, steps: &[usize], ends: &[u8]) -> bool {
    tree.iter()
        .map(|record| record.steps.len())
        .eq(steps.iter().copied())
        && tree
            .iter()
            .map(|record| letter(record.end))
            .eq(ends.iter().copied())
}

/// Whether a tree has so many steps, and ends with these letters.
fn tells(tree: Tree, steps: &[usize], ends: &[u8]) -> bool {
    is_told(&tree, steps, ends)
}

fn add_closed_root(alloc: Global, journal: &mut Journal) -> Result<(), NoMemory>
    requires { journal.old ≡ [] }
    ensures { OnOk result ((number : Vars → ℕ) × AreWhole number (journal.new ∷ []) []) }
{
    add(alloc, journal, &[], 1, End::Leaf)
}

/// One record.
fn closed_root(alloc: Global) -> Result<Tree, NoMemory> {
    let mut journal = Journal::new(alloc);
    add_closed_root(alloc, &mut journal)?;
    gather_one(alloc, journal, PathList::new(alloc))
}

fn add_two_leaves(
    alloc: Global,
    x: Var,
    low: &mut Journal,
    top: &mut Journal,
) -> Result<(), NoMemory>
    requires low { low.old ≡ [] }
    requires top { top.old ≡ [] }
    ensures { OnOk result ((number : Vars → ℕ) × AreWhole number (low.new ∷ top.new ∷ []) []) }
{
    add(alloc, low, &[false], 3, End::Leaf)?;
    add(alloc, top, &[true], 2, End::Leaf)?;
    add(alloc, top, &[], 1, End::Branch(x))
}

/// A branch, whose halves two workers closed; the root stands last.
fn two_leaves(alloc: Global, x: Var) -> Result<Tree, NoMemory> {
    let mut low = Journal::new(alloc);
    let mut top = Journal::new(alloc);
    add_two_leaves(alloc, x, &mut low, &mut top)?;
    gather_both(alloc, low, top, PathList::new(alloc))
}

fn add_left_half(alloc: Global, x: Var, journal: &mut Journal) -> Result<(), NoMemory>
    requires { journal.old ≡ [] }
    ensures { OnOk result ((number : Vars → ℕ) × AreWhole number (journal.new ∷ []) ((true ∷ []) ∷ [])) }
{
    add(alloc, journal, &[false], 2, End::Leaf)?;
    add(alloc, journal, &[], 1, End::Branch(x))
}

/// A branch whose half of value 1 was left.
fn left_half(alloc: Global, x: Var) -> Result<Tree, NoMemory> {
    let mut journal = Journal::new(alloc);
    add_left_half(alloc, x, &mut journal)?;
    let left = left_at(alloc, &[true])?;
    gather_one(alloc, journal, left)
}

fn add_two_branches(
    alloc: Global,
    x: &Var,
    low: &mut Journal,
    top: &mut Journal,
) -> Result<(), NoMemory>
    requires low { low.old ≡ [] }
    requires top { top.old ≡ [] }
    ensures { OnOk result ((number : Vars → ℕ) × AreWhole number (low.new ∷ top.new ∷ []) ((false ∷ true ∷ []) ∷ [])) }
{
    add(alloc, low, &[false, false], 4, End::Leaf)?;
    add(alloc, low, &[true], 2, End::Leaf)?;
    add(alloc, top, &[false], 3, End::Branch(*x))?;
    add(alloc, top, &[], 1, End::Branch(*x))
}

/// A branch, whose half of value 0 is divided again, in no order.
fn two_branches(alloc: Global, x: Var) -> Result<Tree, NoMemory> {
    let mut low = Journal::new(alloc);
    let mut top = Journal::new(alloc);
    add_two_branches(alloc, &x, &mut low, &mut top)?;
    let left = left_at(alloc, &[false, true])?;
    gather_both(alloc, low, top, left)
}

#[test]
fn journals_become_trees(rt: HostRuntime) -> Result<(), Fail> {
    let alloc = rt.alloc();
    assert!(rt; tells(closed_root(alloc)?, &[1], b"l"));
    assert!(rt; tells(two_leaves(alloc, some_variable())?, &[1, 2, 3], b"bll"));
    assert!(rt; tells(left_half(alloc, some_variable())?, &[1, 0, 2], b"bol"));
    assert!(rt;
        tells(
            two_branches(alloc, some_variable())?,
            &[1, 2, 3, 0, 4],
            b"blbol"
        )
    );
    Ok(())
}
