//! Sorting the containers of a cargo by kind.
ghost use Rattle.std.specs.Prelude.{◌≡◌, ℕ, List, ◌∷◌, ◌++◌, ◌+◌, ◌-◌, ◌*◌, ◌/◌, ◌<◌, ◌≤◌, ◌^◌, ◌&&◌, ◌==◌, [], nat_eq, min, All, IfOk, OnOk, length, map, slice_index, slice_index_or};
ghost use Rattle.std.specs.Option.{option_eq};
ghost use Rattle.std.specs.Cmp.Lexicographic.{pointwise};
ghost use Rattle.stow_data.specs.Kinds.{kind_of, kinds_of, kind_number, alike, number_in, loads_in, AreKinds};
ghost use Rattle.stow_data.specs.declared.cargoes.Container.{Container};
ghost use Rattle.stow_data.specs.Ship.{same_length};
ghost use Rattle.stow_data.specs.Shipment.{IsCargo};

use crate::cargoes::{Cargo, Container};
use crate::kind_list::{Kind, Kinds};
use crate::list::{NoMemory, NumberList, Seq};
use crate::names::Name;
use crate::numbers::{CallNo, ContainerNo, KindNo};
use crate::ships::Ship;
use std::alloc::Global;

/// What a container shows of its kind.
fn shown_by(ship: &Ship, container: &Container) -> Kind
    requires { container.now.kg ≤ 99999 }
    ensures { result ≡ kind_of ship.now.weight_step container.now }
{
    Kind {
        dest: container.dest,
        long: container.long,
        reefer: container.reefer,
        class: Name::copied(&container.class),
        kg: ship.rounded(container.kg),
        first: container.load,
    }
}

/// Whether containers of the two are of one kind.
fn is_alike(a: &Kind, b: &Kind) -> bool
    ensures { result ≡ alike a.now b.now }
{
    a.dest.0 == b.dest.0
        && a.long == b.long
        && a.reefer == b.reefer
        && a.class == b.class
        && a.kg == b.kg
}

/// The number of the kind that is alike, or the number of kinds where there is none.
fn position_of(list: &[Kind], shown: &Kind) -> usize
    ensures { result ≡ number_in list.now shown.now }
{
    for (number, kind) in list.iter().enumerate() {
        if is_alike(kind, shown) {
            return number;
        }
    }
    list.len()
}

/// The kind, begun at this call or before.
fn begun_by(kind: &Kind, call: CallNo) -> Kind
    ensures { result ≡ record kind.now { first = min kind.now.first call } }
{
    let first = if kind.first.0 < call.0 {
        kind.first
    } else {
        call
    };
    Kind {
        dest: kind.dest,
        long: kind.long,
        reefer: kind.reefer,
        class: Name::copied(&kind.class),
        kg: kind.kg,
        first,
    }
}

/// Adds what a container shows to the kinds of those before it.
fn join(list: &mut Seq<Kind>, shown: Kind) -> Result<(), NoMemory>
    ensures { (step : ℕ) (cs : List Container) (c : Container) → list.old ≡ kinds_of step cs → shown ≡ kind_of step c → OnOk result (list.new ≡ kinds_of step (cs ++ c ∷ [])) }
{
    let number = position_of(list, &shown);
    if number >= list.len() {
        return list.push(shown);
    }
    let begun = begun_by(list.at(number), shown.first);
    list.set(number, begun);
    Ok(())
}

/// The kinds of these containers.
fn list_of(alloc: Global, ship: &Ship, containers: &[Container]) -> Result<Seq<Kind>, NoMemory>
    requires { All (λ c. c.kg ≤ 99999) containers.now }
    ensures { IfOk result (λ list. list ≡ kinds_of ship.now.weight_step containers.now) }
{
    let mut list = Seq::new(alloc);
    for container in containers {
        join(&mut list, shown_by(ship, container))?;
    }
    Ok(list)
}

/// For each container the number of its kind.
fn each_of(
    alloc: Global,
    ship: &Ship,
    containers: &[Container],
    list: &[Kind],
) -> Result<Seq<KindNo>, NoMemory>
    requires { All (λ c. c.kg ≤ 99999) containers.now }
    ensures { IfOk result (λ each. each ≡ map (λ c. number_in list.now (kind_of ship.now.weight_step c)) containers.now) }
{
    let mut each = Seq::new(alloc);
    for container in containers {
        let number = position_of(list, &shown_by(ship, container));
        each.push(KindNo(u32::try_from(number).map_err(|_| NoMemory)?))?;
    }
    Ok(each)
}

/// How many containers of each kind load at a call.
fn loads_of(
    alloc: Global,
    call: u32,
    containers: &[Container],
    each: &[KindNo],
    kinds: usize,
) -> Result<NumberList, NoMemory>
    requires same_length { length each.now ≡ length containers.now }
    requires few { length containers.now < 2 ^ 32 }
    requires in_range { All (λ g. g < kinds) each.now }
    ensures each_kind { IfOk result (λ row. length row ≡ kinds) }
    ensures counts { IfOk result (λ row. (g : ℕ) → g < kinds → slice_index row g ≡ loads_in call containers.now each.now g) }
{
    let mut row = Seq::filled(alloc, 0, kinds)?;
    for (index, container) in containers.iter().enumerate() {
        if container.load.0 == call {
            let kind = each[index];
            let kind = kind.0 as usize;
            let count = *row.at(kind) + 1;
            row.set(kind, count);
        }
    }
    Ok(row)
}

/// For each call before the last, how many containers of each kind load there.
fn rows_of(
    alloc: Global,
    calls: u32,
    containers: &[Container],
    each: &[KindNo],
    kinds: usize,
) -> Result<Seq<NumberList>, NoMemory>
    requires same_length { length each.now ≡ length containers.now }
    requires few { length containers.now < 2 ^ 32 }
    requires in_range { All (λ g. g < kinds) each.now }
    ensures each_call { IfOk result (λ rows. length rows ≡ calls) }
    ensures each_kind { IfOk result (λ rows. All (λ row. length row ≡ kinds) rows) }
    ensures counts { IfOk result (λ rows. (i g : ℕ) → i < calls → g < kinds → slice_index (slice_index_or rows i []) g ≡ loads_in i containers.now each.now g) }
{
    let mut rows = Seq::new(alloc);
    for call in 0..calls {
        rows.push(loads_of(alloc, call, containers, each, kinds)?)?;
    }
    Ok(rows)
}

/// The kinds of a cargo on a ship: containers are alike where destination, length, reefer, class of dangerous goods and weight, rounded up to the ship's step, are equal.
pub fn kinds(alloc: Global, ship: &Ship, cargo: &Cargo) -> Result<Kinds, NoMemory>
    ensures { IfOk result (λ k. AreKinds ship.now.weight_step cargo.now.containers k) }
{
    let calls = cargo.calls();
    let containers = cargo.containers();
    let list = list_of(alloc, ship, containers)?;
    let each = each_of(alloc, ship, containers, &list)?;
    let loads = rows_of(alloc, calls, containers, &each, list.len())?;
    Ok(Kinds { list, each, loads })
}
