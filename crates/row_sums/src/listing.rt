//! The sums of each variable, listed.
ghost use Rattle.std.specs.Prelude.{◌≡◌, ℕ, ◌<◌, List, [], ◌∷◌, ◌++◌, length, slice_index_or, IfOk, OnOk};
ghost use Rattle.zero_one_rows.specs.Variables.{variables, var, kind};
ghost use Rattle.zero_one_rows.specs.Listed.{IsNamed};
ghost use Rattle.row_sums.specs.Numbers.{IsNumbering};
ghost use Rattle.row_sums.specs.Classes.{class_or_past, classes_of};
ghost use Rattle.row_sums.specs.Held.{AreSumsOf};

use crate::classes::number_of as number_of_class;
use crate::finding::sums_of;
use crate::lists::FlatLists;
use crate::numbering::Numbering;
use crate::rows::RowSums;
use crate::sums::ClassNo;
use std::alloc::Global;
use stow_data::{Kind, KindNo, NoMemory, Seq, Ship};
use zero_one_rows::{Var, kind_at, variables_stand_once};

/// The number of a kind's class; past the numbers of classes where no separation names it.
fn class_of(ship: &Ship, kind: &Kind) -> ClassNo
    ensures { result ≡ class_or_past ship.now kind.now.class }
{
    match &kind.class {
        None => ClassNo(2 * ship.separations() as u64),
        Some(name) => number_of_class(ship, name),
    }
}

/// The class of each kind.
fn kind_classes(alloc: Global, sums: &RowSums) -> Result<Seq<ClassNo>, NoMemory>
    ensures { IfOk result (λ classes. classes ≡ classes_of sums.now) }
{
    let kinds = sums.kinds();
    let mut classes = Seq::new(alloc);
    for g in 0..kinds.len() {
        classes.push(class_of(sums.ship(), kind_at(kinds, KindNo(g))))?;
    }
    Ok(classes)
}

/// Appends the numbers of the sums that hold a variable.
fn push_sums(
    alloc: Global,
    sums: &RowSums,
    z: Numbering,
    lists: &mut FlatLists<usize>,
    class: ClassNo,
    x: &Var,
) -> Result<(), NoMemory>
    requires numbers { IsNumbering sums.now z }
    requires named { IsNamed sums.now x.now }
    requires class { class ≡ class_or_past sums.now.ship (kind sums.now x.now.kind).class }
    ensures { OnOk result ((ns : List ℕ) × (AreSumsOf sums.now z x.now ns) × (lists.new ≡ lists.old ++ ns ∷ [])) }
{
    let numbers = sums_of(alloc, sums, z, class, x)?;
    let pushed = lists.push(numbers.as_slice());
    drop(numbers);
    pushed
}

/// Appends, for each variable, the numbers of the sums that hold it.
fn push_each(
    alloc: Global,
    sums: &RowSums,
    z: Numbering,
    lists: &mut FlatLists<usize>,
    classes: &[ClassNo],
    vars: &[Var],
) -> Result<(), NoMemory>
    requires numbers { IsNumbering sums.now z }
    requires classes { classes.now ≡ classes_of sums.now }
    requires vars { vars.now ≡ variables sums.now }
    requires empty { lists.old ≡ [] }
    ensures each { OnOk result (length lists.new ≡ length (variables sums.now)) }
    ensures of { OnOk result ((v : ℕ) → v < length (variables sums.now) → AreSumsOf sums.now z (var sums.now v) (slice_index_or lists.new v [])) }
{
    variables_stand_once();
    for x in vars {
        push_sums(alloc, sums, z, lists, classes[x.kind.0 as usize], x)?;
    }
    Ok(())
}

/// For each variable the numbers of the sums that hold it, where the classes of kinds are at hand.
fn list_by_classes(
    alloc: Global,
    sums: &RowSums,
    z: Numbering,
    classes: &[ClassNo],
    vars: &[Var],
) -> Result<FlatLists<usize>, NoMemory>
    requires numbers { IsNumbering sums.now z }
    requires classes { classes.now ≡ classes_of sums.now }
    requires vars { vars.now ≡ variables sums.now }
    ensures each { IfOk result (λ lists. length lists ≡ length (variables sums.now)) }
    ensures of { IfOk result (λ lists. (v : ℕ) → v < length (variables sums.now) → AreSumsOf sums.now z (var sums.now v) (slice_index_or lists v [])) }
{
    let mut lists = FlatLists::new(alloc);
    match push_each(alloc, sums, z, &mut lists, classes, vars) {
        Ok(_) => Ok(lists),
        Err(no) => {
            drop(lists);
            Err(no)
        }
    }
}

/// For each variable the numbers of the sums that hold it.
pub fn list_sums(
    alloc: Global,
    sums: &RowSums,
    z: Numbering,
    vars: &[Var],
) -> Result<FlatLists<usize>, NoMemory>
    requires numbers { IsNumbering sums.now z }
    requires vars { vars.now ≡ variables sums.now }
    ensures each { IfOk result (λ lists. length lists ≡ length (variables sums.now)) }
    ensures of { IfOk result (λ lists. (v : ℕ) → v < length (variables sums.now) → AreSumsOf sums.now z (var sums.now v) (slice_index_or lists v [])) }
{
    let classes = kind_classes(alloc, sums)?;
    let lists = list_by_classes(alloc, sums, z, classes.as_slice(), vars);
    drop(classes);
    lists
}
