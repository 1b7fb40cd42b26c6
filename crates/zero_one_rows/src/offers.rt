//! The places that a kind may take.
ghost use Rattle.std.specs.Prelude.{◌≡◌, ℕ, ◌+◌, ◌<◌, ◌≤◌, ◌^◌, ◌==◌, ◌&&◌, ◌||◌, not, cond, [], ◌∷◌, ◌++◌, IfOk, OnOk, length, slice_index_or};
ghost use Rattle.stow_data.specs.Ship.{places};
ghost use Rattle.stow_data.specs.Kinds.{AreKinds, kind_number};
ghost use Rattle.zero_one_rows.specs.Variables.{Voyage, calls, arrived, all_kinds};
ghost use Rattle.stow_data.specs.Plans.{no_place, no_container};
ghost use Rattle.zero_one_rows.specs.Offering.{suited, offered, IsOffers};

use crate::coefficients::kind_at;
use crate::groups::{Groups, group};
use std::alloc::Global;
use stow_data::{
    CallNo, Cargo, ContainerNo, KindNo, Kinds, Length, NoMemory, NumberList, PlaceNo, Seq, Ship,
};

/// Places by number: those for each length, with and without a plug, and those where a container of each kind arrived.
#[derive(Drop)]
pub struct Offers {
    pub twenty: NumberList,
    pub twenty_plug: NumberList,
    pub forty: NumberList,
    pub forty_plug: NumberList,
    pub arrived: Groups,
}

/// Appends a number where it is wanted.
pub fn push_wanted(list: &mut NumberList, number: u32, wanted: bool) -> Result<(), NoMemory>
    ensures { OnOk result (list.new ≡ list.old ++ cond wanted (number ∷ []) []) }
{
    if wanted { list.push(number) } else { Ok(()) }
}

/// The places of a ship that a container of this length, a reefer or not, fits.
fn suited_places(
    alloc: Global,
    ship: &Ship,
    long: Length,
    reefer: bool,
) -> Result<NumberList, NoMemory>
    ensures { IfOk result (λ list. list ≡ suited ship.now long reefer) }
{
    let mut list = Seq::new(alloc);
    for p in 0..ship.places() {
        push_wanted(&mut list, p, ship.fits(PlaceNo(p), long, reefer))?;
    }
    Ok(list)
}

/// The kind of a container; past the kinds where there is no such container.
fn kind_or_past(ship: &Ship, cargo: &Cargo, kinds: &Kinds, c: ContainerNo) -> u32
    requires { AreKinds ship.now.weight_step cargo.now.containers kinds.now }
    ensures { (g : ℕ) → g < length kinds.now.list → (kind_number ship.now.weight_step cargo.now.containers (slice_index_or cargo.now.containers c no_container) == g) ≡ (result == g) }
{
    cargo.obeys_rules();
    if c.0 >= cargo.len() {
        return kinds.len();
    }
    kinds.of(c).0
}

/// The kind that stands at a place at arrival; past the kinds where none does.
fn arriving(ship: &Ship, cargo: &Cargo, kinds: &Kinds, p: PlaceNo) -> u32
    requires kinds { AreKinds ship.now.weight_step cargo.now.containers kinds.now }
    requires place { p < length cargo.now.arrival }
    ensures { (g : ℕ) → g < length kinds.now.list → arrived (record { ship = ship.now; cargo = cargo.now }) g p ≡ (result == g) }
{
    match cargo.arrival().at(p) {
        None => kinds.len(),
        Some(c) => kind_or_past(ship, cargo, kinds, c),
    }
}

/// For each place the kind that stands there at arrival.
fn arrivals(
    alloc: Global,
    ship: &Ship,
    cargo: &Cargo,
    kinds: &Kinds,
) -> Result<Seq<usize>, NoMemory>
    requires kinds { AreKinds ship.now.weight_step cargo.now.containers kinds.now }
    requires arrival { length cargo.now.arrival ≡ length (places ship.now) }
    ensures each { IfOk result (λ keys. length keys ≡ length (places ship.now)) }
    ensures kinds { IfOk result (λ keys. (g p : ℕ) → g < length kinds.now.list → p < length keys → arrived (record { ship = ship.now; cargo = cargo.now }) g p ≡ (slice_index_or keys p 0 == g)) }
{
    let mut keys = Seq::new(alloc);
    for p in 0..ship.places() {
        keys.push(arriving(ship, cargo, kinds, PlaceNo(p)) as usize)?;
    }
    Ok(keys)
}

/// The places that the kinds of a voyage may take.
pub fn gather_offers(
    alloc: Global,
    ship: &Ship,
    cargo: &Cargo,
    kinds: &Kinds,
) -> Result<Offers, NoMemory>
    requires kinds { AreKinds ship.now.weight_step cargo.now.containers kinds.now }
    requires arrival { length cargo.now.arrival ≡ length (places ship.now) }
    ensures { IfOk result (λ o. IsOffers (record { ship = ship.now; cargo = cargo.now }) o) }
{
    ship.obeys_rules();
    let keys = arrivals(alloc, ship, cargo, kinds)?;
    let arrived = group(alloc, keys.as_slice(), kinds.len() as usize)?;
    Ok(Offers {
        twenty: suited_places(alloc, ship, Length::Twenty, false)?,
        twenty_plug: suited_places(alloc, ship, Length::Twenty, true)?,
        forty: suited_places(alloc, ship, Length::Forty, false)?,
        forty_plug: suited_places(alloc, ship, Length::Forty, true)?,
        arrived,
    })
}

impl Offers {
    /// The places for this length, and a plug where it is wanted.
    fn suiting(&self, long: Length, reefer: bool) -> &[u32]
        ghost m: { Voyage }
        requires { IsOffers m self.now }
        ensures { result.now ≡ suited m.ship long reefer }
    {
        match (long, reefer) {
            (Length::Twenty, false) => self.twenty.as_slice(),
            (Length::Twenty, true) => self.twenty_plug.as_slice(),
            (Length::Forty, false) => self.forty.as_slice(),
            (Length::Forty, true) => self.forty_plug.as_slice(),
        }
    }

    /// The places at which a kind may be put at a call.
    pub fn at(&self, kinds: &Kinds, call: CallNo, g: KindNo) -> &[u32]
        ghost m: { Voyage }
        requires offers { IsOffers m self.now }
        requires kinds { kinds.now.list ≡ all_kinds m }
        requires kind { g < length (all_kinds m) }
        ensures { result.now ≡ offered m call g }
    {
        let kind = kind_at(kinds, g);
        if call.0 == 0 {
            self.arrived.of(g.0 as usize)
        } else if kind.first.0 <= call.0 {
            self.suiting(kind.long, kind.reefer)
        } else {
            &[]
        }
    }
}
