//! The legend: each port of discharge with its colour and its counts.
ghost use Rattle.std.specs.Prelude.{◌≡◌, ◌<◌, ◌≤◌, ◌^◌, ◌++◌, ◌*◌, length, count_by, OnOk};
ghost use Rattle.std.specs.List.{sum_by};
ghost use Rattle.bay_views.specs.Ports.{same_text, is_port, with_port, with_facts, with_ports, number_of, goes_to, is_for, kg_to, kg_for};
ghost use Rattle.bay_views.specs.Drawings.{port_name, counts, entry_left, entry_top, entry_front, entry, entry_of, legend};

use crate::character_sets::CharacterSet;
use crate::marks::{
    put, write_label, write_letters, write_raw, write_short, write_swatch, write_tonnes,
    write_whole,
};
use crate::port_marks::{PortMarkList, mark_at};
use baplie::{CellGroup, Facts};
use stow_data::{Bytes, Name, NameList, NoMemory};

fn same_text(a: &[u8], b: &[u8]) -> bool
    ensures { result ≡ same_text a.now b.now }
{
    a == b
}

fn is_port(ports: &NameList, name: &Name) -> bool
    ensures { result ≡ is_port ports.now name.now }
{
    ports
        .as_slice()
        .iter()
        .any(|port| same_text(port.bytes(), name.bytes()))
}

/// Appends the ports of discharge that aren't among the ports yet, in the order in which they first come.
pub fn add_ports(ports: &mut NameList, groups: &[CellGroup]) -> Result<(), NoMemory>
    ensures { OnOk result (ports.new ≡ with_ports ports.old groups.now) }
{
    for group in groups {
        add_port(ports, &group.facts)?;
    }
    Ok(())
}

fn add_port(ports: &mut NameList, facts: &Option<Facts>) -> Result<(), NoMemory>
    ensures { OnOk result (ports.new ≡ with_facts ports.old facts.now) }
{
    match facts {
        Some(facts) if !is_port(ports, &facts.dest) => ports.push(facts.dest.copy()),
        _ => Ok(()),
    }
}

/// The number of a port among these, from 0.
pub(crate) fn number_of(ports: &NameList, name: &Name) -> usize
    ensures { result ≡ number_of ports.now name.now }
{
    for (place, port) in ports.as_slice().iter().enumerate() {
        if same_text(port.bytes(), name.bytes()) {
            return place;
        }
    }
    ports.len()
}

fn is_for(name: &Name, group: &CellGroup) -> bool
    ensures { result ≡ is_for name.now group.now }
{
    match &group.facts {
        Some(facts) => same_text(facts.dest.bytes(), name.bytes()),
        None => false,
    }
}

fn kg_for(name: &Name, group: &CellGroup) -> u32
    ensures { result ≡ kg_for name.now group.now }
{
    match &group.facts {
        Some(facts) if same_text(facts.dest.bytes(), name.bytes()) => facts.kg,
        _ => 0,
    }
}

fn containers_for(name: &Name, groups: &[CellGroup]) -> u64
    requires { length groups.now < 2 ^ 32 }
    ensures { result ≡ count_by (is_for name.now) groups.now }
{
    let mut count: u64 = 0;
    for group in groups {
        if is_for(name, group) {
            count += 1;
        }
    }
    count
}

fn kilograms_for(name: &Name, groups: &[CellGroup]) -> u64
    requires { length groups.now < 2 ^ 32 }
    ensures { result ≡ sum_by (kg_for name.now) groups.now }
{
    let mut sum: u64 = 0;
    for group in groups {
        sum += u64::from(kg_for(name, group));
    }
    sum
}

fn write_entry(
    out: &mut Bytes,
    set: CharacterSet,
    i: usize,
    port: &Name,
    containers: u64,
    kilograms: u64,
) -> Result<(), NoMemory>
    ensures { OnOk result (out.new ≡ out.old ++ entry set i port.now containers kilograms) }
{
    write_entry_front(out, entry_left(i), entry_top(i), i)?;
    write_counts(out, set, port, containers, kilograms)
}

fn entry_left(i: usize) -> u64
    ensures value { result ≡ entry_left i }
    ensures small { result < 2000 }
{
    14 + 206 * (i as u64 % 6)
}

fn entry_top(i: usize) -> u64
    ensures value { result ≡ entry_top i }
    ensures small { result < 2 ^ 40 }
{
    72 + 22 * ((i as u64).min(4_294_967_296) / 6)
}

#[tactic(auto, unfolding(crate::specs::Drawings::entry_front))]
fn write_entry_front(out: &mut Bytes, left: u64, top: u64, i: usize) -> Result<(), NoMemory>
    requires left { left < 2000 }
    requires top { top < 2 ^ 40 }
    ensures { OnOk result (out.new ≡ out.old ++ entry_front left top i) }
{
    write_swatch(out, left, top, 26, 16, i)?;
    write_label(out, left + 32, top + 13, b"l")
}

fn write_entry_of(
    out: &mut Bytes,
    set: CharacterSet,
    ports: &NameList,
    marks: &PortMarkList,
    groups: &[CellGroup],
    i: usize,
) -> Result<(), NoMemory>
    requires port { i < length ports.now }
    requires groups { length groups.now < 2 ^ 32 }
    ensures { OnOk result (out.new ≡ out.old ++ entry_of set ports.now marks.now groups.now i) }
{
    let port = ports.at(i);
    let containers = containers_for(port, groups);
    let kilograms = kilograms_for(port, groups);
    write_entry(out, set, i, port, containers, kilograms)?;
    write_letters(
        out,
        set,
        entry_left(i) + 13,
        entry_top(i) + 12,
        mark_at(marks, i),
    )
}

/// Appends the name of a port.
#[tactic(auto, unfolding(crate::specs::Drawings::port_name))]
fn write_port(out: &mut Bytes, set: CharacterSet, port: &[u8]) -> Result<(), NoMemory>
    ensures { OnOk result (out.new ≡ out.old ++ port_name set port.now) }
{
    write_whole(out, set, 12, port)?;
    write_short(out, set, 12, port)
}

fn write_counts(
    out: &mut Bytes,
    set: CharacterSet,
    port: &Name,
    containers: u64,
    kilograms: u64,
) -> Result<(), NoMemory>
    ensures { OnOk result (out.new ≡ out.old ++ counts set port.now containers kilograms) }
{
    write_port(out, set, port.bytes())?;
    put(out, b": ", containers)?;
    write_raw(out, b", ")?;
    write_tonnes(out, kilograms)?;
    write_raw(out, b" t</text>\n")
}

/// Appends each port with its counts.
#[tactic(auto, using(crate::proofs::Uptos::upto_more))]
pub(crate) fn write_legend(
    out: &mut Bytes,
    set: CharacterSet,
    ports: &NameList,
    marks: &PortMarkList,
    groups: &[CellGroup],
) -> Result<(), NoMemory>
    requires { length groups.now < 2 ^ 32 }
    ensures { OnOk result (out.new ≡ out.old ++ legend set ports.now marks.now groups.now) }
{
    for i in 0..ports.len() {
        write_entry_of(out, set, ports, marks, groups, i)?;
    }
    Ok(())
}
