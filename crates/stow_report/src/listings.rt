//! What a bay plan shows.
ghost use Rattle.std.specs.Prelude.{◌≡◌, ◌<◌, ◌^◌, ◌∷◌, ◌++◌, [], length, count_by, codes, IfOk, OnOk};
ghost use Rattle.std.specs.Fmt.{decimal};
ghost use Rattle.std.specs.List.{sum_by};
ghost use Rattle.stow_report.specs.Listings.{AreListable, length_text, facts_text, group_text, holds, kilograms, total_line, listing_text};

use baplie::{CellGroup, Facts, cell_text};
use itoa::Buffer;
use std::alloc::Global;
use stow_data::{Bytes, Length, NoMemory};

/// A line for each cell group, in order, with the cell, the container, its length in feet, its port of
/// discharge and its kilograms, or `empty`; then the containers' number and their kilograms.
pub fn listing(alloc: Global, groups: &[CellGroup]) -> Result<Bytes, NoMemory>
    requires { AreListable groups.now }
    ensures { IfOk result (λ text. text ≡ listing_text groups.now) }
{
    let mut out = Bytes::new(alloc);
    for group in groups {
        write_group(&mut out, group)?;
    }
    write_total(&mut out, b"containers ", containers_in(groups))?;
    write_total(&mut out, b"kilograms ", kilograms_in(groups))?;
    Ok(out)
}

/// Appends the line of a group.
fn write_group(out: &mut Bytes, group: &CellGroup) -> Result<(), NoMemory>
    ensures { OnOk result (out.new ≡ out.old ++ group_text group.now) }
{
    out.extend(&cell_text(group.bay, group.row, group.tier))?;
    match &group.facts {
        Some(facts) => write_facts(out, facts),
        None => out.extend(b" empty\n"),
    }
}

/// Appends what a container's line tells behind its cell.
fn write_facts(out: &mut Bytes, facts: &Facts) -> Result<(), NoMemory>
    ensures { OnOk result (out.new ≡ out.old ++ facts_text facts.now) }
{
    out.push(b' ')?;
    out.extend(facts.id.bytes())?;
    out.extend(length_text(facts.long))?;
    out.extend(facts.dest.bytes())?;
    out.push(b' ')?;
    out.extend(Buffer::new().format(facts.kg).as_bytes())?;
    out.push(b'\n')
}

/// A length in feet, between spaces.
fn length_text(long: Length) -> &'static [u8]
    ensures { result.now ≡ length_text long }
{
    match long {
        Length::Twenty => b" 20 ",
        Length::Forty => b" 40 ",
    }
}

/// Appends a word and a number.
fn write_total(out: &mut Bytes, word: &[u8], total: u64) -> Result<(), NoMemory>
    ensures { OnOk result (out.new ≡ out.old ++ total_line word.now total) }
{
    out.extend(word)?;
    out.extend(Buffer::new().format(total).as_bytes())?;
    out.push(b'\n')
}

/// How many groups hold a container.
pub fn containers_in(groups: &[CellGroup]) -> u64
    requires { length groups.now < 2 ^ 32 }
    ensures { result ≡ count_by holds groups.now }
{
    let mut count: u64 = 0;
    for group in groups {
        if group.facts.is_some() {
            count += 1;
        }
    }
    count
}

/// The weight of all containers, in kilograms.
pub fn kilograms_in(groups: &[CellGroup]) -> u64
    requires { length groups.now < 2 ^ 32 }
    ensures { result ≡ sum_by kilograms groups.now }
{
    let mut sum: u64 = 0;
    for group in groups {
        sum += u64::from(kilograms_of(group));
    }
    sum
}

/// The weight of a group's container, or 0.
fn kilograms_of(group: &CellGroup) -> u32
    ensures { result ≡ kilograms group.now }
{
    match &group.facts {
        Some(facts) => facts.kg,
        None => 0,
    }
}
