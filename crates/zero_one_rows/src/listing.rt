//! The list of variables.
ghost use Rattle.std.specs.Prelude.{◌≡◌, ℕ, ◌+◌, ◌<◌, ◌≤◌, ◌^◌, ◌++◌, ◌∷◌, [], cond, IfOk, OnOk, length};
ghost use Rattle.stow_data.specs.Ship.{places};
ghost use Rattle.zero_one_rows.specs.Variables.{Voyage, calls, kind, all_kinds};
ghost use Rattle.zero_one_rows.specs.Offering.{IsOffers};
ghost use Rattle.zero_one_rows.specs.Enumerated.{Adds, at_places, at_lift, at_lifts, at_put, IsListing};

use crate::coefficients::kind_at;
use crate::offers::Offers;
use crate::program::Var;
use std::alloc::Global;
use stow_data::{CallNo, Cargo, KindNo, Kinds, NoMemory, PlaceNo, Seq, Ship};

/// The greatest number of variables.
const MOST_VARS: u64 = 200_000;

/// The variables, counted whole and kept up to their limit.
#[derive(Drop)]
pub struct Listing {
    pub vars: Seq<Var>,
    pub total: u64,
}

/// Appends a variable for each of the places.
fn push_places(
    vars: &mut Seq<Var>,
    put: CallNo,
    kind: KindNo,
    lifted: CallNo,
    places: &[u32],
) -> Result<(), NoMemory>
    ensures { OnOk result (vars.new ≡ vars.old ++ at_places put kind lifted places.now) }
{
    for s in places {
        vars.push(Var {
            put,
            kind,
            lifted,
            place: PlaceNo(*s),
        })?;
    }
    Ok(())
}

/// Adds a variable for each of the places.
fn add_places(
    listing: &mut Listing,
    put: CallNo,
    kind: KindNo,
    lifted: CallNo,
    places: &[u32],
) -> Result<(), NoMemory>
    requires few { length places.now ≤ 3000 }
    requires room { listing.old.total + 3000 < 2 ^ 64 }
    ensures { OnOk result (Adds listing.old listing.new (at_places put kind lifted places.now)) }
{
    listing.total += places.len() as u64;
    if listing.total > MOST_VARS {
        return Ok(());
    }
    push_places(&mut listing.vars, put, kind, lifted, places)
}

/// Adds the variables that are lifted at a call, where the kind may be lifted there.
fn add_lift(
    listing: &mut Listing,
    put: CallNo,
    kind: KindNo,
    lifted: CallNo,
    dest: CallNo,
    places: &[u32],
) -> Result<(), NoMemory>
    requires few { length places.now ≤ 3000 }
    requires room { listing.old.total + 3000 < 2 ^ 64 }
    ensures { OnOk result (Adds listing.old listing.new (at_lift put kind dest places.now lifted)) }
{
    if put.0 < lifted.0 && lifted.0 <= dest.0 {
        add_places(listing, put, kind, lifted, places)
    } else {
        Ok(())
    }
}

/// Adds the variables of a kind that are put at a call.
fn add_lifts(
    listing: &mut Listing,
    last: u32,
    put: CallNo,
    kind: KindNo,
    dest: CallNo,
    places: &[u32],
) -> Result<(), NoMemory>
    requires calls { last ≤ 12 }
    requires few { length places.now ≤ 3000 }
    requires room { listing.old.total + 40000 < 2 ^ 64 }
    ensures adds { OnOk result (Adds listing.old listing.new (at_lifts last put kind dest places.now)) }
    ensures most { OnOk result (listing.new.total ≤ listing.old.total + 39000) }
{
    for lifted in 0..last + 1 {
        add_lift(listing, put, kind, CallNo(lifted), dest, places)?;
    }
    Ok(())
}

/// Adds the variables that are put at a call.
fn add_kinds(
    listing: &mut Listing,
    ship: &Ship,
    last: u32,
    kinds: &Kinds,
    offers: &Offers,
    put: CallNo,
) -> Result<(), NoMemory>
    ghost m: { Voyage }
    requires ship { ship.now ≡ m.ship }
    requires calls { last ≡ calls m }
    requires few { last ≤ 12 }
    requires kinds { kinds.now.list ≡ all_kinds m }
    requires offers { IsOffers m offers.now }
    requires room { listing.old.total + 2 ^ 49 < 2 ^ 64 }
    ensures adds { OnOk result (Adds listing.old listing.new (at_put m put)) }
    ensures most { OnOk result (listing.new.total ≤ listing.old.total + 2 ^ 48) }
{
    ship.obeys_rules();
    for g in 0..kinds.len() {
        let dest = kind_at(kinds, KindNo(g)).dest;
        let places = offers.at(kinds, put, KindNo(g));
        add_lifts(listing, last, put, KindNo(g), dest, places)?;
    }
    Ok(())
}

/// The variables of a voyage.
pub fn list_variables(
    alloc: Global,
    ship: &Ship,
    cargo: &Cargo,
    kinds: &Kinds,
    offers: &Offers,
) -> Result<Listing, NoMemory>
    ghost m: { Voyage }
    requires ship { ship.now ≡ m.ship }
    requires cargo { cargo.now ≡ m.cargo }
    requires kinds { kinds.now.list ≡ all_kinds m }
    requires offers { IsOffers m offers.now }
    ensures { IfOk result (λ listing. IsListing m listing) }
{
    let last = cargo.calls();
    let mut listing = Listing {
        vars: Seq::new(alloc),
        total: 0,
    };
    for put in 0..last {
        add_kinds(&mut listing, ship, last, kinds, offers, CallNo(put))?;
    }
    Ok(listing)
}
