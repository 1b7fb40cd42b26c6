//! The segments of departure files (ISO 9735, SMDG BAPLIE 2.2).
ghost use Rattle.std.specs.Prelude.{◌≡◌, ◌++◌, ◌∷◌, [], IfOk, OnOk, drop, length, map, take};
ghost use Rattle.plan_files.specs.DepartureSegments.{parties, unb, unh, bgm, dtm, tdt, loc, cell_segment, weight_code, mea, tmp, temperature_segments, rff, fullness, eqd, dgs, goods_segments};

use baplie::cell_text;
use bookings::Bookings;
use edifact_segments::{ElementBuffer, Segment, SegmentList};
use itoa::Buffer;
use std::alloc::Global;
use stow_data::{Name, NoMemory, digit};

/// Appends an element of these components.
pub fn compose(elements: &mut ElementBuffer, components: &[&[u8]]) -> Result<(), NoMemory>
    ensures { OnOk result (elements.new ≡ elements.old ++ map (λ c. c.now) components.now ∷ []) }
{
    elements.start_element()?;
    for component in components {
        elements.add_component(*component)?;
    }
    Ok(())
}

/// Appends the syntax and the parties of an interchange.
fn push_parties(elements: &mut ElementBuffer, bookings: &Bookings) -> Result<(), NoMemory>
    ensures { OnOk result (elements.new ≡ elements.old ++ parties bookings.now) }
{
    compose(elements, &[b"UNOA", b"2"])?;
    elements.push(bookings.sender.bytes())?;
    elements.push(bookings.recipient.bytes())
}

/// Appends a date and a time of day.
fn push_time(elements: &mut ElementBuffer, date: &[u8]) -> Result<(), NoMemory>
    requires { length date.now ≡ 10 }
    ensures { OnOk result (elements.new ≡ elements.old ++ (take 6 date.now ∷ drop 6 date.now ∷ []) ∷ []) }
{
    compose(elements, &[&date[..6], &date[6..]])
}

/// UNB+UNOA:2+sender+recipient+YYMMDD:HHMM+call
#[tactic(auto, unfolding(crate::specs::DepartureSegments::unb))]
pub fn unb(alloc: Global, bookings: &Bookings, call: u32) -> Result<Segment, NoMemory>
    requires { length bookings.now.date ≡ 10 }
    ensures { IfOk result (λ s. s ≡ unb bookings.now call) }
{
    let mut elements = ElementBuffer::new(alloc);
    push_parties(&mut elements, bookings)?;
    push_time(&mut elements, bookings.date.bytes())?;
    elements.push(Buffer::new().format(call).as_bytes())?;
    Segment::of(alloc, *b"UNB", elements)
}

/// UNH+1+BAPLIE:D:95B:UN:SMDG22
#[tactic(auto, unfolding(crate::specs::DepartureSegments::unh))]
pub fn unh(alloc: Global) -> Result<Segment, NoMemory>
    ensures { IfOk result (λ s. s ≡ unh) }
{
    let mut elements = ElementBuffer::new(alloc);
    elements.push(b"1")?;
    compose(&mut elements, &[b"BAPLIE", b"D", b"95B", b"UN", b"SMDG22"])?;
    Segment::of(alloc, *b"UNH", elements)
}

/// BGM++call+9
#[tactic(auto, unfolding(crate::specs::DepartureSegments::bgm))]
pub fn bgm(alloc: Global, call: u32) -> Result<Segment, NoMemory>
    ensures { IfOk result (λ s. s ≡ bgm call) }
{
    let mut elements = ElementBuffer::new(alloc);
    elements.start_element()?;
    elements.push(Buffer::new().format(call).as_bytes())?;
    elements.push(b"9")?;
    Segment::of(alloc, *b"BGM", elements)
}

/// DTM+qualifier:date:201
#[tactic(auto, unfolding(crate::specs::DepartureSegments::dtm))]
pub fn dtm(alloc: Global, qualifier: &[u8], date: &[u8]) -> Result<Segment, NoMemory>
    ensures { IfOk result (λ s. s ≡ dtm qualifier.now date.now) }
{
    let mut elements = ElementBuffer::new(alloc);
    compose(&mut elements, &[qualifier, date, b"201"])?;
    Segment::of(alloc, *b"DTM", elements)
}

/// TDT+20+voyage++++++:::vessel
#[tactic(auto, unfolding(crate::specs::DepartureSegments::tdt))]
pub fn tdt(alloc: Global, voyage: &[u8], vessel: &[u8]) -> Result<Segment, NoMemory>
    ensures { IfOk result (λ s. s ≡ tdt voyage.now vessel.now) }
{
    let mut elements = ElementBuffer::new(alloc);
    elements.push(b"20")?;
    elements.push(voyage)?;
    elements.start_element()?;
    elements.start_element()?;
    elements.start_element()?;
    elements.start_element()?;
    elements.start_element()?;
    compose(&mut elements, &[b"", b"", b"", vessel])?;
    Segment::of(alloc, *b"TDT", elements)
}

/// LOC+qualifier+port:139:6
#[tactic(auto, unfolding(crate::specs::DepartureSegments::loc))]
pub fn loc(alloc: Global, qualifier: &[u8], port: &[u8]) -> Result<Segment, NoMemory>
    ensures { IfOk result (λ s. s ≡ loc qualifier.now port.now) }
{
    let mut elements = ElementBuffer::new(alloc);
    elements.push(qualifier)?;
    compose(&mut elements, &[port, b"139", b"6"])?;
    Segment::of(alloc, *b"LOC", elements)
}

/// LOC+147+BBBRRTT::5
#[tactic(auto, unfolding(crate::specs::DepartureSegments::cell_segment))]
pub fn cell_segment(alloc: Global, bay: u32, row: u32, tier: u32) -> Result<Segment, NoMemory>
    ensures { IfOk result (λ s. s ≡ cell_segment (bay, row, tier)) }
{
    let cell = cell_text(bay, row, tier);
    let mut elements = ElementBuffer::new(alloc);
    elements.push(b"147")?;
    compose(&mut elements, &[&cell, b"", b"5"])?;
    Segment::of(alloc, *b"LOC", elements)
}

/// What MEA says of a weight: that it is a verified gross mass, or another one.
fn weight_code(vgm: bool) -> &'static [u8]
    ensures { result.now ≡ weight_code vgm }
{
    if vgm { b"VGM" } else { b"WT" }
}

/// MEA+VGM++KGM:kg where the weight is verified, else MEA+WT++KGM:kg
#[tactic(auto, unfolding(crate::specs::DepartureSegments::mea))]
pub fn mea(alloc: Global, vgm: bool, kg: u32) -> Result<Segment, NoMemory>
    ensures { IfOk result (λ s. s ≡ mea vgm kg) }
{
    let mut elements = ElementBuffer::new(alloc);
    elements.push(weight_code(vgm))?;
    elements.start_element()?;
    compose(
        &mut elements,
        &[b"KGM", Buffer::new().format(kg).as_bytes()],
    )?;
    Segment::of(alloc, *b"MEA", elements)
}

/// TMP+2+temperature:CEL, in degrees Celsius
#[tactic(auto, unfolding(crate::specs::DepartureSegments::tmp))]
fn tmp(alloc: Global, temperature: i32) -> Result<Segment, NoMemory>
    ensures { IfOk result (λ s. s ≡ tmp temperature) }
{
    let mut elements = ElementBuffer::new(alloc);
    elements.push(b"2")?;
    compose(
        &mut elements,
        &[Buffer::new().format(temperature).as_bytes(), b"CEL"],
    )?;
    Segment::of(alloc, *b"TMP", elements)
}

/// Appends the temperature of a reefer. The list stays as it was for other containers.
pub fn push_temperature(
    list: &mut SegmentList,
    alloc: Global,
    temperature: Option<i32>,
) -> Result<(), NoMemory>
    ensures { OnOk result (list.new ≡ list.old ++ temperature_segments temperature) }
{
    if let Some(temperature) = temperature {
        list.push(tmp(alloc, temperature)?)?;
    }
    Ok(())
}

/// RFF+BM:1
#[tactic(auto, unfolding(crate::specs::DepartureSegments::rff))]
pub fn rff(alloc: Global) -> Result<Segment, NoMemory>
    ensures { IfOk result (λ s. s ≡ rff) }
{
    let mut elements = ElementBuffer::new(alloc);
    compose(&mut elements, &[b"BM", b"1"])?;
    Segment::of(alloc, *b"RFF", elements)
}

/// What EQD says of a container: that it is empty, or full.
fn fullness(empty: bool) -> &'static [u8]
    ensures { result.now ≡ fullness empty }
{
    if empty { b"4" } else { b"5" }
}

/// EQD+CN+id+type+++4 where the container is empty, else EQD+CN+id+type+++5
#[tactic(auto, unfolding(crate::specs::DepartureSegments::eqd))]
pub fn eqd(alloc: Global, id: &[u8], iso: &[u8], empty: bool) -> Result<Segment, NoMemory>
    ensures { IfOk result (λ s. s ≡ eqd id.now iso.now empty) }
{
    let mut elements = ElementBuffer::new(alloc);
    elements.push(b"CN")?;
    elements.push(id)?;
    elements.push(iso)?;
    elements.start_element()?;
    elements.start_element()?;
    elements.push(fullness(empty))?;
    Segment::of(alloc, *b"EQD", elements)
}

/// DGS+IMD+class+unno, the number in four digits, or DGS+IMD+class where it is 0
#[tactic(auto, unfolding(crate::specs::DepartureSegments::dgs))]
fn dgs(alloc: Global, class: &[u8], unno: u32) -> Result<Segment, NoMemory>
    ensures { IfOk result (λ s. s ≡ dgs class.now unno) }
{
    let mut elements = ElementBuffer::new(alloc);
    elements.push(b"IMD")?;
    elements.push(class)?;
    if unno == 0 {
        return Segment::of(alloc, *b"DGS", elements);
    }
    let number = [
        digit(unno / 1000),
        digit(unno / 100),
        digit(unno / 10),
        digit(unno),
    ];
    elements.push(&number)?;
    Segment::of(alloc, *b"DGS", elements)
}

/// Appends the class and number of dangerous goods. The list stays as it was where there is no class.
pub fn push_goods(
    list: &mut SegmentList,
    alloc: Global,
    class: &Option<Name>,
    unno: u32,
) -> Result<(), NoMemory>
    ensures { OnOk result (list.new ≡ list.old ++ goods_segments class.now unno) }
{
    if let Some(class) = class {
        list.push(dgs(alloc, class.bytes(), unno)?)?;
    }
    Ok(())
}
