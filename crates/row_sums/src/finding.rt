//! The sums of a variable.
ghost use Rattle.std.specs.Prelude.{◌≡◌, ℕ, ◌+◌, ◌*◌, ◌<◌, ◌≤◌, Bool, true, [], length, slice_index_or, IfOk, OnOk};
ghost use Rattle.stow_data.specs.Ship.{places, half_at};
ghost use Rattle.zero_one_rows.specs.Variables.{place, kind, calls, all_kinds};
ghost use Rattle.zero_one_rows.specs.Listed.{IsNamed};
ghost use Rattle.row_sums.specs.Sums.{holds};
ghost use Rattle.row_sums.specs.declared.sums.Sum.TheVariants.{Put, Lifted, OccupiedByClass};
ghost use Rattle.row_sums.specs.Numbers.{IsNumbering, IsThere, IsCell, IsClass};
ghost use Rattle.row_sums.specs.Classes.{class_or_past};
ghost use Rattle.row_sums.specs.Held.{AreSumsOf};
ghost use Rattle.row_sums.specs.Noted.{Grows, Has, HasEnds, HasMoves, HasSide, HasWhole, HasCall};

use crate::numbering::Numbering;
use crate::rows::RowSums;
use crate::sums::{ClassNo, Sum};
use std::alloc::Global;
use stow_data::{CallNo, Half, NoMemory, Place, Seq};
use zero_one_rows::{Var, place_at};

/// Appends the number of a sum where it holds the variable.
#[tactic(auto, using(crate::proofs::Telling::has_room))]
fn add(
    sums: &RowSums,
    z: Numbering,
    list: &mut Seq<usize>,
    sum: Sum,
    x: &Var,
) -> Result<(), NoMemory>
    requires numbers { IsNumbering sums.now z }
    requires place { x.now.place < length (places sums.now.ship) }
    requires kind { x.now.kind < length (all_kinds sums.now) }
    requires there { holds sums.now sum x.now ≡ true → IsThere sums.now sum }
    ensures grows { OnOk result (Grows sums.now z x.now list.old list.new) }
    ensures has { OnOk result (Has sums.now z x.now list.new sum) }
{
    if !sums.holds(&sum, *x) {
        return Ok(());
    }
    list.push(z.number(&sum))
}

/// What is put as the variable is.
fn put_of(x: &Var) -> Sum
    ensures { result ≡ Put x.now.put x.now.kind }
{
    Sum::Put {
        call: x.put,
        kind: x.kind,
    }
}

/// What is lifted as the variable is.
fn lifted_of(x: &Var) -> Sum
    ensures { result ≡ Lifted x.now.lifted x.now.kind }
{
    Sum::Lifted {
        call: x.lifted,
        kind: x.kind,
    }
}

/// The half-cell of a place on one side.
fn half_on(place: &Place, aft: bool) -> Half
    ensures { result ≡ half_at place.now aft }
{
    Half {
        stack: place.stack,
        tier: place.tier,
        aft,
    }
}

/// Appends what puts the variable, what lifts it and, of an arrival, what starts there.
fn add_ends(sums: &RowSums, z: Numbering, list: &mut Seq<usize>, x: &Var) -> Result<(), NoMemory>
    requires numbers { IsNumbering sums.now z }
    requires named { IsNamed sums.now x.now }
    ensures grows { OnOk result (Grows sums.now z x.now list.old list.new) }
    ensures has { OnOk result (HasEnds sums.now z x.now list.new) }
{
    add(sums, z, list, put_of(x), x)?;
    add(sums, z, list, lifted_of(x), x)?;
    add(sums, z, list, Sum::Start { place: x.place }, x)
}

/// Appends what lifts the variable from a half-cell of its place, and what puts it there.
fn add_moves(
    sums: &RowSums,
    z: Numbering,
    list: &mut Seq<usize>,
    at: &Place,
    aft: bool,
    x: &Var,
) -> Result<(), NoMemory>
    requires numbers { IsNumbering sums.now z }
    requires named { IsNamed sums.now x.now }
    requires place { at.now ≡ place sums.now x.now.place }
    requires cell { IsCell sums.now (half_at at.now aft) }
    ensures grows { OnOk result (Grows sums.now z x.now list.old list.new) }
    ensures has { OnOk result (HasMoves sums.now z x.now aft list.new) }
{
    let lifted_from = Sum::LiftedFrom {
        call: x.lifted,
        half: half_on(at, aft),
    };
    add(sums, z, list, lifted_from, x)?;
    let put_into = Sum::PutInto {
        call: x.put,
        half: half_on(at, aft),
    };
    add(sums, z, list, put_into, x)
}

/// Appends what holds the variable in a half-cell of its place at a call of its stay.
fn add_side(
    sums: &RowSums,
    z: Numbering,
    list: &mut Seq<usize>,
    at: &Place,
    aft: bool,
    call: CallNo,
    x: &Var,
) -> Result<(), NoMemory>
    requires numbers { IsNumbering sums.now z }
    requires named { IsNamed sums.now x.now }
    requires place { at.now ≡ place sums.now x.now.place }
    requires cell { IsCell sums.now (half_at at.now aft) }
    requires call { call ≤ calls sums.now }
    ensures grows { OnOk result (Grows sums.now z x.now list.old list.new) }
    ensures has { OnOk result (HasSide sums.now z x.now call aft list.new) }
{
    let occupied = Sum::Occupied {
        call,
        half: half_on(at, aft),
    };
    add(sums, z, list, occupied, x)?;
    let by_twenty = Sum::OccupiedByTwenty {
        call,
        half: half_on(at, aft),
    };
    add(sums, z, list, by_twenty, x)?;
    let staying = Sum::Staying {
        call,
        half: half_on(at, aft),
    };
    add(sums, z, list, staying, x)
}

/// Appends the sum of the variable's class at a call, where a separation names the class.
fn add_class(
    sums: &RowSums,
    z: Numbering,
    list: &mut Seq<usize>,
    class: ClassNo,
    call: CallNo,
    x: &Var,
) -> Result<(), NoMemory>
    requires numbers { IsNumbering sums.now z }
    requires named { IsNamed sums.now x.now }
    requires class { class ≡ class_or_past sums.now.ship (kind sums.now x.now.kind).class }
    requires call { call ≤ calls sums.now }
    ensures grows { OnOk result (Grows sums.now z x.now list.old list.new) }
    ensures has { OnOk result ((c : ℕ) → IsClass sums.now c → Has sums.now z x.now list.new (OccupiedByClass call x.now.place c)) }
{
    if class.0 >= 2 * sums.ship().separations() as u64 {
        return Ok(());
    }
    let by_class = Sum::OccupiedByClass {
        call,
        place: x.place,
        class,
    };
    add(sums, z, list, by_class, x)
}

/// Appends what holds the variable at a call of its stay.
fn add_call(
    sums: &RowSums,
    z: Numbering,
    list: &mut Seq<usize>,
    at: &Place,
    class: ClassNo,
    call: CallNo,
    x: &Var,
) -> Result<(), NoMemory>
    requires numbers { IsNumbering sums.now z }
    requires named { IsNamed sums.now x.now }
    requires place { at.now ≡ place sums.now x.now.place }
    requires cells { (aft : Bool) → IsCell sums.now (half_at at.now aft) }
    requires class { class ≡ class_or_past sums.now.ship (kind sums.now x.now.kind).class }
    requires call { call ≤ calls sums.now }
    ensures grows { OnOk result (Grows sums.now z x.now list.old list.new) }
    ensures has { OnOk result (HasCall sums.now z x.now call list.new) }
{
    add_side(sums, z, list, at, false, call, x)?;
    add_side(sums, z, list, at, true, call, x)?;
    let weight = Sum::Weight {
        call,
        stack: at.stack,
    };
    add(sums, z, list, weight, x)?;
    add_class(sums, z, list, class, call, x)
}

/// Appends what holds the variable at the calls of its stay.
fn add_stay(
    sums: &RowSums,
    z: Numbering,
    list: &mut Seq<usize>,
    at: &Place,
    class: ClassNo,
    x: &Var,
) -> Result<(), NoMemory>
    requires numbers { IsNumbering sums.now z }
    requires named { IsNamed sums.now x.now }
    requires place { at.now ≡ place sums.now x.now.place }
    requires cells { (aft : Bool) → IsCell sums.now (half_at at.now aft) }
    requires class { class ≡ class_or_past sums.now.ship (kind sums.now x.now.kind).class }
    ensures grows { OnOk result (Grows sums.now z x.now list.old list.new) }
    ensures has { OnOk result ((i : ℕ) → x.now.put ≤ i → i < x.now.lifted → HasCall sums.now z x.now i list.new) }
{
    for call in x.put.0..x.lifted.0 {
        add_call(sums, z, list, at, class, CallNo(call), x)?;
    }
    Ok(())
}

/// Appends all that holds a variable.
fn add_all(
    sums: &RowSums,
    z: Numbering,
    list: &mut Seq<usize>,
    class: ClassNo,
    x: &Var,
) -> Result<(), NoMemory>
    requires numbers { IsNumbering sums.now z }
    requires named { IsNamed sums.now x.now }
    requires class { class ≡ class_or_past sums.now.ship (kind sums.now x.now.kind).class }
    requires empty { list.old ≡ [] }
    ensures { OnOk result (AreSumsOf sums.now z x.now list.new) }
{
    let at = place_at(sums.ship(), x.place);
    add_ends(sums, z, list, x)?;
    add_moves(sums, z, list, &at, false, x)?;
    add_moves(sums, z, list, &at, true, x)?;
    add_stay(sums, z, list, &at, class, x)
}

/// The numbers of the sums that hold a variable. Its class is that of its kind.
pub fn sums_of(
    alloc: Global,
    sums: &RowSums,
    z: Numbering,
    class: ClassNo,
    x: &Var,
) -> Result<Seq<usize>, NoMemory>
    requires numbers { IsNumbering sums.now z }
    requires named { IsNamed sums.now x.now }
    requires class { class ≡ class_or_past sums.now.ship (kind sums.now x.now.kind).class }
    ensures { IfOk result (λ ns. AreSumsOf sums.now z x.now ns) }
{
    let mut list = Seq::new(alloc);
    match add_all(sums, z, &mut list, class, x) {
        Ok(_) => Ok(list),
        Err(no) => {
            drop(list);
            Err(no)
        }
    }
}
