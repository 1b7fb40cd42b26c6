//! Orders: which part of the search is run on which voyage.
ghost use Rattle.std.specs.Prelude.{◌≡◌};
ghost use Rattle.stow_data.specs.Shipment.{IsCargo};

use crate::bounds::write_best;
use crate::files::{cargo_of, records_in, ship_of};
use crate::nodes::{Ways, write_ways, write_work};
use box_parts::{write_along, write_dives, write_kept, write_plain, write_steps, write_voyage};
use certificate::Tree;
use price_parts::{write_follows, write_raises, write_root, write_value};
use std::alloc::Global;
use stow_data::{Bytes, Cargo, NoMemory, Ship, Word};
use stow_io::Folder;
use zero_one_model::{Model, ModelNo};

/// The most raises of a node that isn't the root.
const MOST_RAISES: u32 = 64;

/// A part of the search.
#[derive(Clone, Copy)]
enum Part {
    Plain,
    Kept,
    Steps,
    Along,
    Dive,
    Voyage,
    Value,
    Raise,
    Root,
    Best,
    Gauge,
    Prices,
    Work,
    Nodes,
    Again,
}

fn part_of(word: &str) -> Option<Part> {
    match word {
        "plain" => Some(Part::Plain),
        "kept" => Some(Part::Kept),
        "steps" => Some(Part::Steps),
        "along" => Some(Part::Along),
        "dive" => Some(Part::Dive),
        "voyage" => Some(Part::Voyage),
        "value" => Some(Part::Value),
        "raise" => Some(Part::Raise),
        "root" => Some(Part::Root),
        "best" => Some(Part::Best),
        "gauge" => Some(Part::Gauge),
        "prices" => Some(Part::Prices),
        "work" => Some(Part::Work),
        "nodes" => Some(Part::Nodes),
        "again" => Some(Part::Again),
        _ => None,
    }
}

/// A number by its digits; what it is of other bytes is of no account.
fn number_of(text: &[u8]) -> u64 {
    let mut value: u64 = 0;
    for digit in text {
        value = value
            .wrapping_mul(10)
            .wrapping_add(u64::from(digit.wrapping_sub(b'0')));
    }
    value
}

fn write_part<'a>(
    alloc: Global,
    part: Part,
    model: &'a Model<'a>,
    records: &Tree,
    number: u64,
    out: &mut Bytes,
) -> Result<(), NoMemory>
    requires { IsCargo model.now.cargo }
{
    match part {
        Part::Plain => write_plain(alloc, model, number, out),
        Part::Kept => write_kept(alloc, model, number, out),
        Part::Steps => write_steps(alloc, model, records, out),
        Part::Along => write_along(alloc, model, records, out),
        Part::Dive => write_dives(alloc, model, number, out),
        Part::Voyage => write_voyage(alloc, model, number, out),
        Part::Value => write_value(alloc, model, records, out),
        Part::Raise => write_raises(alloc, model, records, number, out),
        Part::Root => write_root(alloc, model, number, out),
        Part::Best => write_best(alloc, model, records, number, out),
        Part::Gauge => write_follows(alloc, model, 0, number, out),
        Part::Prices => write_follows(alloc, model, MOST_RAISES, number, out),
        Part::Work => write_work(alloc, model, number, out),
        Part::Nodes => write_ways(alloc, model, Ways::Down, number, out),
        Part::Again => write_ways(alloc, model, Ways::Again, number, out),
    }
}

/// A part on a voyage, where its program is within the limits.
fn write_built(
    alloc: Global,
    part: Part,
    ship: &Ship,
    cargo: &Cargo,
    records: &Tree,
    number: u64,
    out: &mut Bytes,
) -> Result<(), NoMemory> {
    if cargo.arrival().len() != ship.places() as usize {
        return out.extend(b"no voyage\n");
    }
    cargo.obeys_rules();
    match Model::build(alloc, ship, cargo) {
        Ok(model) => {
            let written = write_part(alloc, part, &model, records, number, out);
            drop(model);
            written
        }
        Err(ModelNo::TooLarge { .. }) => out.extend(b"too large\n"),
        Err(ModelNo::NoMemory) => Err(NoMemory),
    }
}

/// A part on the voyage of a ship.
fn write_sailed<F: Folder>(
    alloc: Global,
    part: Part,
    ship: &Ship,
    bookings: &Word,
    records: &Tree,
    number: u64,
    folder: &mut F,
    out: &mut Bytes,
) -> Result<(), NoMemory> {
    match cargo_of(alloc, ship, bookings.as_str(), folder) {
        Some(cargo) => {
            let written = write_built(alloc, part, ship, &cargo, records, number, out);
            drop(cargo);
            written
        }
        None => out.extend(b"no voyage\n"),
    }
}

/// A part with some records.
fn write_with<F: Folder>(
    alloc: Global,
    part: Part,
    profile: &Word,
    bookings: &Word,
    records: &Tree,
    number: u64,
    folder: &mut F,
    out: &mut Bytes,
) -> Result<(), NoMemory> {
    match ship_of(alloc, profile.as_str(), folder) {
        Some(ship) => {
            let written = write_sailed(alloc, part, &ship, bookings, records, number, folder, out);
            drop(ship);
            written
        }
        None => out.extend(b"no voyage\n"),
    }
}

fn write_order<F: Folder>(
    alloc: Global,
    part: Part,
    profile: &Word,
    bookings: &Word,
    records: &Word,
    number: u64,
    folder: &mut F,
    out: &mut Bytes,
) -> Result<(), NoMemory> {
    let records = records_in(alloc, records.as_str(), folder);
    write_with(
        alloc, part, profile, bookings, &records, number, folder, out,
    )
}

/// What the words order, five words an order: a part, profile, bookings, records, a number.
pub fn write_orders<F: Folder>(
    alloc: Global,
    words: &[Word],
    folder: &mut F,
    out: &mut Bytes,
) -> Result<(), NoMemory> {
    let [part, profile, bookings, records, number, rest @ ..] = words else {
        return Ok(());
    };
    let number = number_of(number.as_str().as_bytes());
    match part_of(part.as_str()) {
        Some(part) => write_order(alloc, part, profile, bookings, records, number, folder, out)?,
        None => out.extend(b"no order\n")?,
    }
    write_orders(alloc, rest, folder, out)
}
