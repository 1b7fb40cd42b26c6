//! The bookings of the made ship.
ghost use Rattle.std.specs.Prelude.{◌≡◌, ◌++◌, ◌<◌, ◌^◌, codes, IfOk, OnOk};
ghost use Rattle.stow_gen.specs.Bookings.{bookings_text, calls_text, container_text, containers_text, rest_text, voyage_text};

use crate::draws::{Lot, draw_lot};
use crate::words::{write_if, write_raw, write_seven_digits, write_told};
use std::alloc::Global;
use stow_data::{Bytes, NoMemory};

/// Appends what stands before the containers.
#[tactic(auto, unfolding(crate::specs::Bookings::voyage_text))]
fn write_voyage(out: &mut Bytes) -> Result<(), NoMemory>
    ensures { OnOk result (out.new ≡ out.old ++ voyage_text) }
{
    write_raw(
        out,
        b"vessel = \"FEEDER\"\nvoyage = \"1\"\ndate = \"2601010000\"\n",
    )?;
    write_raw(
        out,
        b"rotation = [\"PAAAA\", \"PBBBB\", \"PCCCC\", \"PDDDD\", \"PEEEE\", \"PFFFF\"]\n",
    )
}

fn write_calls(out: &mut Bytes, lot: &Lot) -> Result<(), NoMemory>
    ensures { OnOk result (out.new ≡ out.old ++ calls_text lot.now) }
{
    write_told(out, b"\"\nfrom = ", lot.load)?;
    write_told(out, b"\nto = ", lot.dest)
}

fn write_rest(out: &mut Bytes, lot: &Lot) -> Result<(), NoMemory>
    ensures { OnOk result (out.new ≡ out.old ++ rest_text lot.now) }
{
    write_told(out, b"\ntype = \"42G1\"\nkg = ", lot.kg)?;
    write_raw(out, b"\n")?;
    write_if(out, lot.cooled, b"temperature = -18\n")
}

/// Appends a container, by its number from 1.
fn write_container(out: &mut Bytes, number: u32, lot: &Lot) -> Result<(), NoMemory>
    ensures { OnOk result (out.new ≡ out.old ++ container_text number lot.now) }
{
    write_raw(out, b"[[container]]\nid = \"GENU")?;
    write_seven_digits(out, number)?;
    write_calls(out, lot)?;
    write_rest(out, lot)
}

/// Appends the containers that are drawn from a state on.
fn write_containers(out: &mut Bytes, start: u32) -> Result<(), NoMemory>
    ensures { OnOk result (out.new ≡ out.old ++ containers_text 120 1 start) }
{
    let mut state = start;
    for index in 0..120 {
        let lot = draw_lot(&mut state);
        write_container(out, index + 1, &lot)?;
    }
    Ok(())
}

/// The bookings of the made ship of a number below 2^31: 120 containers over six calls.
pub fn make_bookings(alloc: Global, number: u32) -> Result<Bytes, NoMemory>
    requires { number < 2 ^ 31 }
    ensures { IfOk result (λ text. text ≡ bookings_text number) }
{
    let mut out = Bytes::new(alloc);
    write_voyage(&mut out)?;
    write_containers(&mut out, number)?;
    Ok(out)
}
