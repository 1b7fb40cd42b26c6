//! The made texts against texts written out by hand.
use crate::{make_bookings, make_profile};
use std::test::Fail;

/// What stands before the first container.
const VOYAGE: &[u8] =
    b"vessel = \"FEEDER\"\nvoyage = \"1\"\ndate = \"2601010000\"\nrotation = [\"PAAAA\", \"PBBBB\", \"PCCCC\", \"PDDDD\", \"PEEEE\", \"PFFFF\"]\n";

/// The first container of number 1, and where the second begins.
const FIRST: &[u8] =
    b"[[container]]\nid = \"GENU0000001\"\nfrom = 4\nto = 5\ntype = \"42G1\"\nkg = 20000\n[[container]]\nid = \"GENU0000002\"\n";

/// The head of the profile, the first stack in the hold, and where the second begins.
const SHIP: &[u8] =
    b"name = \"FEEDER\"\nweight_step = 5000\n[[stack]]\nbay = 2\nrow = 1\ntiers = [2, 4, 6]\nlengths = \"40\"\nlimit_kg = 90000\n[[stack]]\nbay = 2\nrow = 2\n";

/// The last cover.
const COVER: &[u8] =
    b"[[cover]]\nunder = [[14, 1], [14, 2], [14, 3], [14, 4]]\non = [[14, 1], [14, 2], [14, 3], [14, 4]]\n";

#[test]
fn the_first_container(rt: HostRuntime) -> Result<(), Fail> {
    let text = make_bookings(rt.alloc(), 1)?;
    assert!(rt; text.as_slice().starts_with(VOYAGE));
    let (_, containers) = text
        .as_slice()
        .split_at_checked(VOYAGE.len())
        .ok_or("too short")?;
    assert!(rt; containers.starts_with(FIRST));
    Ok(())
}

#[test]
fn the_ship(rt: HostRuntime) -> Result<(), Fail> {
    let text = make_profile(rt.alloc(), 1)?;
    assert!(rt; text.as_slice().starts_with(SHIP));
    assert!(rt; text.as_slice().ends_with(COVER));
    Ok(())
}
