//! Classes of dangerous goods by number.
ghost use Rattle.std.specs.Prelude.{◌≡◌, ◌+◌, ◌*◌, ◌<◌, ◌≤◌, ◌^◌, IfOk, length, slice_index_or};
ghost use Rattle.zero_one_rows.specs.Rows.{no_separation};
ghost use Rattle.row_sums.specs.Sums.{class_named, class_number};
ghost use Rattle.row_sums.specs.RowClasses.{class_table};

use crate::sums::ClassNo;
use std::alloc::Global;
use stow_data::{Name, NoMemory, Separation, Seq, Ship};

/// The classes of a separation, by number.
#[derive(Clone, Copy, PartialEq, Eq)]
pub struct ClassPair {
    pub a: ClassNo,
    pub b: ClassNo,
}

/// A separation, which is there, by its total look-up.
#[tactic(auto, using(std::proofs::lemmas::Option::get_or_from_slice_get))]
pub fn separation_at(ship: &Ship, index: u32) -> &Separation
    requires { index < length ship.now.separations }
    ensures { result.now ≡ slice_index_or ship.now.separations index no_separation }
{
    ship.separation(index)
}

/// The name of a class; empty where no class has the number.
pub fn class_bytes(ship: &Ship, class: ClassNo) -> &[u8]
    ensures { result.now ≡ class_named ship.now class }
{
    let index = class.0 / 2;
    if index >= ship.separations() as u64 {
        return &[];
    }
    let separation = separation_at(ship, index as u32);
    if class.0 % 2 == 0 {
        separation.a.bytes()
    } else {
        separation.b.bytes()
    }
}

/// The number of a class; past the numbers of classes where no separation names it.
pub fn number_of(ship: &Ship, name: &Name) -> ClassNo
    ensures { result ≡ class_number ship.now name.now }
{
    for index in 0..ship.separations() {
        let separation = separation_at(ship, index);
        if separation.a.bytes() == name.bytes() {
            return ClassNo(index as u64 * 2);
        }
        if separation.b.bytes() == name.bytes() {
            return ClassNo(index as u64 * 2 + 1);
        }
    }
    ClassNo(ship.separations() as u64 * 2)
}

/// The classes of each separation.
pub fn class_pairs(alloc: Global, ship: &Ship) -> Result<Seq<ClassPair>, NoMemory>
    ensures { IfOk result (λ pairs. pairs ≡ class_table ship.now) }
{
    let mut pairs = Seq::new(alloc);
    for index in 0..ship.separations() {
        let separation = separation_at(ship, index);
        pairs.push(ClassPair {
            a: number_of(ship, &separation.a),
            b: number_of(ship, &separation.b),
        })?;
    }
    Ok(pairs)
}
